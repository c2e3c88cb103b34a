ghost use Rattle.std.specs.Prelude.{◌≡◌, ℕ, List, Ok, Err, true, ◌↔◌};
ghost use Rattle.alt_base.specs.declared.refusal.At.{At};
ghost use Rattle.origin_values.specs.declared.host.Host.{Host};
ghost use Rattle.coalescing.specs.declared.cert_name.CertName.{CertName};
ghost use Rattle.coalescing.specs.declared.refusal.CertRefusal.{CertRefusal};
ghost use Rattle.coalescing.specs.Covers.{covers, covers_host};
ghost use Rattle.coalescing.specs.Coverage.{CoversHost, CoverHost};
ghost use Rattle.coalescing.specs.NamesGrammar.{SpellsNames, NamesRefusedAt, OneNames};
ghost use Rattle.coalescing.specs.NamesReading.{read_names};
ghost use Rattle.coalescing.specs.NamesWritten.{names_text, HaveText};

/// A test of covering holds exactly where RFC 9525 6.3 lets the names be used for the host.
pub fn covering_is_exact()
    ensures one { (name : CertName) (host : Host) → (covers_host name host ≡ true) ↔ CoversHost name host }
    ensures some { (names : List CertName) (host : Host) → (covers names host ≡ true) ↔ CoverHost names host }
{}

/// What is read as names is spelled so, what is spelled is read, and what is refused is refused so.
pub fn names_are_read()
    ensures read { (text : List ℕ) (names : List CertName) → read_names text ≡ Ok names → SpellsNames text names }
    ensures refusal { (text : List ℕ) (at : At CertRefusal) → read_names text ≡ Err at → NamesRefusedAt text at.place at.reason }
    ensures spelled { (text : List ℕ) (names : List CertName) → SpellsNames text names → read_names text ≡ Ok names }
    ensures refused { (text : List ℕ) (place : ℕ) (reason : CertRefusal) → NamesRefusedAt text place reason →
        read_names text ≡ Err (record { place = place; reason = reason }) }
{}

/// Each text spells exactly one list of names or is refused at exactly one place, and never both.
pub fn one_names()
    ensures { (text : List ℕ) → OneNames text }
{}

/// The text that names are written as spells them and is read back as them; and names that are spelled have one.
pub fn written_names_are_read_back()
    ensures spelled { (names : List CertName) → HaveText names → SpellsNames (names_text names) names }
    ensures back { (names : List CertName) → HaveText names → read_names (names_text names) ≡ Ok names }
    ensures valid { (text : List ℕ) (names : List CertName) → SpellsNames text names → HaveText names }
{}
