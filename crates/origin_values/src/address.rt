ghost use Rattle.std.specs.Prelude.{◌≡◌, IfOk, IfSome, IfNone};
ghost use Rattle.origin_values.specs.Equality.{addr_eq};
ghost use Rattle.origin_values.specs.HostGrammar.{SpellsAddr};
ghost use Rattle.origin_values.specs.HostReading.{read_v4, read_v6, read_addr};
ghost use Rattle.origin_values.specs.Valid.{IsAddr};
ghost use Rattle.origin_values.specs.Written.{addr_text};
ghost use Rattle.origin_values.specs.declared.address.Addr.{Addr};

use alt_base::{Duplicate, ListOf, NoMemory, Text};
use std::alloc::Global;
use std::net::{Ipv4Addr, Ipv6Addr};

/// An address of IPv4, four bytes, or of IPv6, sixteen, each in the order of the network.
#[derive(Clone, Copy, Debug, PartialEq, Eq, Hash)]
pub enum Addr {
    V4([u8; 4]),
    V6([u8; 16]),
}

impl Duplicate for Addr {
    fn copy(&self, alloc: Global) -> Result<Self, NoMemory> {
        Ok(*self)
    }
}

impl Addr {
    /// The address that a text spells: of IPv4 four decimal numbers joined by dots (RFC 3986 3.2.2), of IPv6 its
    /// groups (RFC 4291 2.2). None exactly where the text spells none. It takes no memory.
    #[tactic(auto, unfolding(crate::specs::HostReading::read_addr))]
    pub fn parse(text: &[u8]) -> Option<Addr>
        ensures reading { result ≡ read_addr text.now }
        ensures some { IfSome result (λ addr. SpellsAddr text.now addr) }
        ensures valid { IfSome result (λ addr. IsAddr addr) }
        ensures none { IfNone result ((addr : Addr) → ¬ (SpellsAddr text.now addr)) }
    {
        match v4(text) {
            Some(bytes) => Some(Addr::V4(bytes)),
            None => v6(text).map(Addr::V6),
        }
    }

    /// The text of the address: of IPv4 four decimal numbers joined by dots, of IPv6 the text of RFC 5952 section 4,
    /// whose last groups are never written with dots.
    pub fn write(&self, alloc: Global) -> Result<Text, NoMemory>
        ensures { IfOk result (λ text. text ≡ addr_text self.now) }
    {
        let text = match self {
            Addr::V4(bytes) => Ipv4Addr::from_octets(*bytes).to_string(alloc)?,
            Addr::V6(bytes) => Ipv6Addr::from_octets(*bytes).hex_groups().to_string(alloc)?,
        };
        Ok(ListOf::from_vec(text.into_bytes()))
    }
}

// The IPv4 address that a text spells.
pub(crate) fn v4(text: &[u8]) -> Option<[u8; 4]>
    ensures { result ≡ read_v4 text.now }
{
    match Ipv4Addr::parse_ascii(text) {
        Ok(address) => Some(address.octets()),
        Err(_) => None,
    }
}

// The IPv6 address that a text spells.
pub(crate) fn v6(text: &[u8]) -> Option<[u8; 16]>
    ensures { result ≡ read_v6 text.now }
{
    match Ipv6Addr::parse_ascii(text) {
        Ok(address) => Some(address.octets()),
        Err(_) => None,
    }
}

/// Whether two addresses are one. It takes no memory.
pub fn same_address(a: &Addr, b: &Addr) -> bool
    ensures { result ≡ addr_eq a.now b.now }
{
    a == b
}
