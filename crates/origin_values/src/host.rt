ghost use Rattle.std.specs.Prelude.{◌≡◌, ◌++◌, IfOk, codes, string_bytes, option_map};
ghost use Rattle.origin_values.specs.Equality.{host_eq};
ghost use Rattle.alt_base.specs.Answers.{Answers, IfRefused};
ghost use Rattle.origin_values.specs.HostGrammar.{SpellsHost, HostRefusedAt};
ghost use Rattle.origin_values.specs.HostReading.{read_closed, read_name, read_host, host_or_refusal};
ghost use Rattle.origin_values.specs.Valid.{IsHost};
ghost use Rattle.origin_values.specs.Written.{host_text, v6_text};
ghost use Rattle.origin_values.specs.declared.host.Host.TheVariants.{Name};

use crate::HostRefusal;
use crate::address::{v4, v6};
use crate::name::is_name;
use alt_base::{Duplicate, ListOf, NoMemory, Refused, Text};
use std::alloc::Global;
use std::net::{Ipv4Addr, Ipv6Addr};

/// A host (RFC 3986 3.2.2): a name in lower case, or an address of IPv4 or IPv6, in the order of the network.
#[derive(Debug, PartialEq, Eq, Hash, Drop)]
pub enum Host {
    Name(Text),
    V4([u8; 4]),
    V6([u8; 16]),
}

impl Duplicate for Host {
    fn copy(&self, alloc: Global) -> Result<Self, NoMemory> {
        match self {
            Host::Name(name) => Ok(Host::Name(name.copy(alloc)?)),
            Host::V4(bytes) => Ok(Host::V4(*bytes)),
            Host::V6(bytes) => Ok(Host::V6(*bytes)),
        }
    }
}

impl Host {
    /// The host that an ASCII text spells: `[`, an IPv6 address and `]`; an IPv4 address; or a name of at most 253
    /// bytes, in labels of 1 to 63 letters, digits, `-` and `_` joined by dots, the last of which isn't all digits
    /// (RFC 3986 3.2.2). The letters of a name are made lower case. `BadHost` at place 0 comes where the text spells
    /// no host. Only a name takes memory.
    pub fn parse(alloc: Global, text: &[u8]) -> Result<Host, Refused<HostRefusal>>
        ensures reading { Answers result (host_or_refusal (read_host text.now)) }
        ensures ok { IfOk result (λ host. SpellsHost text.now host) }
        ensures valid { IfOk result (λ host. IsHost host) }
        ensures refused { IfRefused result (λ place reason. HostRefusedAt text.now place reason) }
    {
        match read_host(alloc, text)? {
            Some(host) => Ok(host),
            None => Err(Refused::At {
                place: 0,
                reason: HostRefusal::BadHost,
            }),
        }
    }

    /// The text of the host: its name, or its address, which stands in brackets for IPv6 (RFC 3986 3.2.2).
    pub fn write(&self, alloc: Global) -> Result<Text, NoMemory>
        ensures { IfOk result (λ text. text ≡ host_text self.now) }
    {
        let text = match self {
            Host::Name(name) => return name.copy(alloc),
            Host::V4(bytes) => Ipv4Addr::from_octets(*bytes).to_string(alloc)?,
            Host::V6(bytes) => bracketed(alloc, bytes)?,
        };
        Ok(ListOf::from_vec(text.into_bytes()))
    }
}

// The host that a text spells, if it spells one.
#[tactic(auto, unfolding(crate::specs::HostReading::read_host))]
pub(crate) fn read_host(alloc: Global, text: &[u8]) -> Result<Option<Host>, NoMemory>
    ensures { IfOk result (λ host. host ≡ read_host text.now) }
{
    match text {
        [] => Ok(None),
        [b'[', rest @ ..] => Ok(closed(rest).map(Host::V6)),
        _ => match v4(text) {
            Some(bytes) => Ok(Some(Host::V4(bytes))),
            None => named(alloc, text),
        },
    }
}

// The IPv6 address before a closing bracket that ends the text.
fn closed(text: &[u8]) -> Option<[u8; 16]>
    ensures { result ≡ read_closed text.now }
{
    let (last, inner) = text.split_last()?;
    if *last == b']' { v6(inner) } else { None }
}

// The host of this name, if the text is one.
fn named(alloc: Global, text: &[u8]) -> Result<Option<Host>, NoMemory>
    ensures { IfOk result (λ host. host ≡ option_map Name (read_name text.now)) }
{
    if is_name(text) {
        let name = text.to_ascii_lowercase(alloc)?;
        Ok(Some(Host::Name(ListOf::from_vec(name))))
    } else {
        Ok(None)
    }
}

// The text of an IPv6 address in brackets.
fn bracketed(alloc: Global, bytes: &[u8; 16]) -> Result<String, NoMemory>
    ensures { IfOk result (λ text. string_bytes text ≡ codes "[" ++ v6_text bytes.now ++ codes "]") }
{
    let groups = Ipv6Addr::from_octets(*bytes).hex_groups();
    Ok(format!(in alloc; "[{groups}]")?)
}

/// Whether two hosts are one. It takes no memory.
pub fn same_host(a: &Host, b: &Host) -> bool
    ensures { result ≡ host_eq a.now b.now }
{
    a == b
}
