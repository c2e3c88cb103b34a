ghost use Rattle.std.specs.Prelude.{◌≡◌, ◌≤◌, ◌↔◌, ℕ, true, List, length, Option, Some, Ok, Err};
ghost use Rattle.alt_base.specs.declared.refusal.At.{At};
ghost use Rattle.origin_values.specs.Valid.{IsHost};
ghost use Rattle.origin_values.specs.declared.host.Host.{Host};
ghost use Rattle.altsvc_grammar.specs.declared.alt_svc.AltSvc.{AltSvc};
ghost use Rattle.altsvc_grammar.specs.declared.refusal.AltRefusal.{AltRefusal};
ghost use Rattle.altsvc_grammar.specs.declared.alt_key.AltKey.{AltKey};
ghost use Rattle.altsvc_grammar.specs.Keys.{key_eq};
ghost use Rattle.altsvc_grammar.specs.Steps.{refused};
ghost use Rattle.altsvc_grammar.specs.UsedGrammar.{SpellsUsed, UsedRefusedAt, OneUsed};
ghost use Rattle.altsvc_grammar.specs.UsedReading.{read_used, used_refused};
ghost use Rattle.altsvc_grammar.specs.declared.refusal.UsedRefusal.{UsedRefusal};
ghost use Rattle.altsvc_grammar.specs.Valid.{IsAltSvc, IsUsed};
ghost use Rattle.altsvc_grammar.specs.Written.{value_text, used_text};
ghost use Rattle.altsvc_grammar.specs.AuthorityReading.{read_authority};
ghost use Rattle.altsvc_grammar.specs.AuthorityGrammar.{SpellsAuthority};
ghost use Rattle.altsvc_grammar.specs.ValueReading.{read_value};
ghost use Rattle.altsvc_grammar.specs.ValueGrammar.{SpellsValue, most_value_bytes};
ghost use Rattle.altsvc_grammar.specs.ValueRefusals.{ValueRefusedAt, OneAltSvc};

/// What is read is spelled so, and what is refused is refused so by the table, at its place; what is spelled is read,
/// and what the table refuses is refused.
pub fn values_are_read()
    ensures ok { (x : List ℕ) (v : AltSvc) → read_value x ≡ Ok v → SpellsValue x v }
    ensures err { (x : List ℕ) (at : At AltRefusal) → read_value x ≡ Err at → ValueRefusedAt x at.place at.reason }
    ensures spelled { (x : List ℕ) (v : AltSvc) → SpellsValue x v → read_value x ≡ Ok v }
    ensures refused { (x : List ℕ) (q : ℕ) (r : AltRefusal) → ValueRefusedAt x q r → read_value x ≡ refused q r }
{}

/// A value that is spelled is valid: its alternatives are in their bounds, at least one, and no two have one key.
pub fn spelled_values_are_valid()
    ensures { (x : List ℕ) (v : AltSvc) → SpellsValue x v → IsAltSvc v }
{}

/// Each text is exactly one value or refused at exactly one place for one reason, and never both.
pub fn one_alt_svc()
    ensures { (x : List ℕ) → OneAltSvc x }
{}

/// What is read as an authority is spelled so, and what is spelled is read.
pub fn authorities_are_read()
    ensures read { (text : List ℕ) (host : Option Host) (port : ℕ) → read_authority text ≡ Some (host, port) → SpellsAuthority text host port }
    ensures spelled { (text : List ℕ) (host : Option Host) (port : ℕ) → SpellsAuthority text host port → read_authority text ≡ Some (host, port) }
{}

/// The text that a value is written as spells it, and is read back as it, where it has at most 16,384 bytes.
pub fn written_values_are_read_back()
    ensures spelled { (v : AltSvc) → IsAltSvc v → length (value_text v) ≤ most_value_bytes → SpellsValue (value_text v) v }
    ensures back { (v : AltSvc) → IsAltSvc v → length (value_text v) ≤ most_value_bytes → read_value (value_text v) ≡ Ok v }
{}

/// The test of two keys holds exactly where they are one.
pub fn one_key_where_equal()
    ensures { (a b : AltKey) → (key_eq a b ≡ true) ↔ (a ≡ b) }
{}

/// What is read as a value of Alt-Used is spelled so, and what is refused is refused so by the table, at its place; what
/// is spelled is read, and what the table refuses is refused.
pub fn used_values_are_read()
    ensures ok { (x : List ℕ) (used : Host × ℕ) → read_used x ≡ Ok used → SpellsUsed x used }
    ensures err { (x : List ℕ) (at : At UsedRefusal) → read_used x ≡ Err at → UsedRefusedAt x at.place at.reason }
    ensures spelled { (x : List ℕ) (used : Host × ℕ) → SpellsUsed x used → read_used x ≡ Ok used }
    ensures refused { (x : List ℕ) (q : ℕ) (r : UsedRefusal) → UsedRefusedAt x q r → read_used x ≡ used_refused q r }
{}

/// A value of Alt-Used that is spelled is valid: its host is in its form, and its port is from 1 to 65535.
pub fn spelled_used_values_are_valid()
    ensures { (x : List ℕ) (used : Host × ℕ) → SpellsUsed x used → IsUsed used }
{}

/// Each text is exactly one value of Alt-Used or refused at exactly one place for one reason, and never both.
pub fn one_alt_used()
    ensures { (x : List ℕ) → OneUsed x }
{}

/// The text that a host and a port are written as for Alt-Used spells them, and is read back as them.
pub fn written_used_values_are_read_back()
    ensures spelled { (host : Host) (port : ℕ) → IsHost host → 1 ≤ port → port ≤ 65535 → SpellsUsed (used_text host port) (host, port) }
    ensures back { (host : Host) (port : ℕ) → IsHost host → 1 ≤ port → port ≤ 65535 → read_used (used_text host port) ≡ Ok (host, port) }
{}
