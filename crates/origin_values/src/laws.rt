ghost use Rattle.std.specs.Prelude.{◌≡◌, ◌≤◌, ℕ, List, true, ◌↔◌, Some, None};
ghost use Rattle.origin_values.specs.Equality.{scheme_eq, proto_eq, addr_eq, host_eq, origin_eq};
ghost use Rattle.origin_values.specs.HostGrammar.{SpellsAddr, SpellsHost, HostRefusedAt, OneHost};
ghost use Rattle.origin_values.specs.HostReading.{read_addr, read_host, host_or_refusal};
ghost use Rattle.origin_values.specs.AsciiOrigin.{SpellsAscii, IsNoOrigin};
ghost use Rattle.origin_values.specs.AsciiReading.{ascii_origin};
ghost use Rattle.origin_values.specs.OriginGrammar.{SpellsOrigin, OriginRefusedAt, OneOrigin};
ghost use Rattle.origin_values.specs.OriginReading.{read_origin};
ghost use Rattle.origin_values.specs.Valid.{IsAddr, IsHost, IsOrigin};
ghost use Rattle.origin_values.specs.Written.{addr_text, host_text, origin_text, v6_text};
ghost use Rattle.origin_values.specs.ZeroRuns.{AreZeros};
ghost use Rattle.std.specs.Net.Addr.{segments_of};
ghost use Rattle.std.specs.Net.Text.{compressed_text, longest_zero_run};
ghost use Rattle.origin_values.specs.declared.scheme.Scheme.{Scheme};
ghost use Rattle.origin_values.specs.declared.proto.Proto.{Proto};
ghost use Rattle.origin_values.specs.declared.address.Addr.{Addr};
ghost use Rattle.origin_values.specs.declared.host.Host.{Host};
ghost use Rattle.origin_values.specs.declared.origin.Origin.{Origin};
ghost use Rattle.origin_values.specs.declared.refusal.HostRefusal.{HostRefusal};
ghost use Rattle.origin_values.specs.declared.refusal.OriginRefusal.{OriginRefusal};

/// Each test of equality holds exactly where its two values are one.
pub fn one_value_where_equal()
    ensures scheme { (a b : Scheme) → (scheme_eq a b ≡ true) ↔ (a ≡ b) }
    ensures proto { (a b : Proto) → (proto_eq a b ≡ true) ↔ (a ≡ b) }
    ensures addr { (a b : Addr) → (addr_eq a b ≡ true) ↔ (a ≡ b) }
    ensures host { (a b : Host) → (host_eq a b ≡ true) ↔ (a ≡ b) }
    ensures origin { (a b : Origin) → (origin_eq a b ≡ true) ↔ (a ≡ b) }
{}

/// What is read as an address is spelled so, what is spelled is read, and a text spells at most one address, whose
/// bytes are in their bounds.
pub fn addresses_are_read()
    ensures read { (text : List ℕ) (addr : Addr) → read_addr text ≡ Some addr → SpellsAddr text addr }
    ensures spelled { (text : List ℕ) (addr : Addr) → SpellsAddr text addr → read_addr text ≡ Some addr }
    ensures one { (text : List ℕ) (a b : Addr) → SpellsAddr text a → SpellsAddr text b → a ≡ b }
    ensures valid { (text : List ℕ) (addr : Addr) → SpellsAddr text addr → IsAddr addr }
{}

/// The text that an address is written as spells it, and is read back as it.
pub fn written_addresses_are_read_back()
    ensures spelled { (addr : Addr) → IsAddr addr → SpellsAddr (addr_text addr) addr }
    ensures back { (addr : Addr) → IsAddr addr → read_addr (addr_text addr) ≡ Some addr }
{}

/// `::` stands for the longest run of zero groups, of equally long ones the first, where it has two groups or more
/// (RFC 5952 4.2).
pub fn longest_run_of_zeros_is_shortened()
    ensures text { (bytes : List ℕ) → v6_text bytes ≡ compressed_text (segments_of bytes) (longest_zero_run (segments_of bytes)) }
    ensures longest { (groups : List ℕ) (start count : ℕ) → AreZeros groups start count → count ≤ (longest_zero_run groups).1 }
    ensures first { (groups : List ℕ) (start count : ℕ) → AreZeros groups start count →
        count ≡ (longest_zero_run groups).1 → (longest_zero_run groups).0 ≤ start }
{}

/// What is read as a host is spelled so, what is spelled is read, what is refused is refused so, and a host that is
/// spelled is in its form.
pub fn hosts_are_read()
    ensures read { (text : List ℕ) (host : Host) → host_or_refusal (read_host text) ≡ Ok host → SpellsHost text host }
    ensures spelled { (text : List ℕ) (host : Host) → SpellsHost text host → host_or_refusal (read_host text) ≡ Ok host }
    ensures refused { (text : List ℕ) (place : ℕ) (reason : HostRefusal) → HostRefusedAt text place reason →
        host_or_refusal (read_host text) ≡ Err (record { place = place; reason = reason }) }
    ensures valid { (text : List ℕ) (host : Host) → SpellsHost text host → IsHost host }
{}

/// Each text spells exactly one host or is refused at exactly one place for one reason, and never both.
pub fn one_host()
    ensures { (text : List ℕ) → OneHost text }
{}

/// The text that a host is written as spells it, and is read back as it.
pub fn written_hosts_are_read_back()
    ensures spelled { (host : Host) → IsHost host → SpellsHost (host_text host) host }
    ensures back { (host : Host) → IsHost host → host_or_refusal (read_host (host_text host)) ≡ Ok host }
{}

/// What is read as an origin is spelled so, what is spelled is read, what is refused is refused so, and an origin that
/// is spelled is in its form, with a port from 1 to 65535.
pub fn origins_are_read()
    ensures read { (text : List ℕ) (origin : Origin) → read_origin text ≡ Ok origin → SpellsOrigin text origin }
    ensures spelled { (text : List ℕ) (origin : Origin) → SpellsOrigin text origin → read_origin text ≡ Ok origin }
    ensures refused { (text : List ℕ) (place : ℕ) (reason : OriginRefusal) → OriginRefusedAt text place reason →
        read_origin text ≡ Err (record { place = place; reason = reason }) }
    ensures valid { (text : List ℕ) (origin : Origin) → SpellsOrigin text origin → IsOrigin origin }
{}

/// Each text spells exactly one origin or is refused at exactly one place for one reason, and never both.
pub fn one_origin()
    ensures { (text : List ℕ) → OneOrigin text }
{}

/// The text that an origin is written as spells it, and is read back as it.
pub fn written_origins_are_read_back()
    ensures spelled { (origin : Origin) → IsOrigin origin → SpellsOrigin (origin_text origin) origin }
    ensures back { (origin : Origin) → IsOrigin origin → read_origin (origin_text origin) ≡ Ok origin }
{}

/// No text is the ASCII text of two origins, and an origin's ASCII text spells it.
pub fn one_ascii_origin()
    ensures one { (text : List ℕ) (a b : Origin) → SpellsAscii text a → SpellsAscii text b → a ≡ b }
    ensures spelled { (text : List ℕ) (origin : Origin) → SpellsAscii text origin → SpellsOrigin text origin }
{}

/// What is read as an origin's ASCII text is one, what is one is read, and what isn't read is no origin's.
pub fn ascii_origins_are_read()
    ensures read { (text : List ℕ) (origin : Origin) → ascii_origin text ≡ Some origin → SpellsAscii text origin }
    ensures spelled { (text : List ℕ) (origin : Origin) → SpellsAscii text origin → ascii_origin text ≡ Some origin }
    ensures none { (text : List ℕ) → (ascii_origin text ≡ None) ↔ IsNoOrigin text }
{}
