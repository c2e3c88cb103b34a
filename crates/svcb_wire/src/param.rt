ghost use Rattle.std.specs.Prelude.{◌≡◌, ◌<◌, ◌^◌, IfOk};
ghost use Rattle.svcb_wire.specs.Octets.{key_of};

use crate::{Ids, Keys, V4s, V6s};
use alt_base::{Bytes, Duplicate, ListOf, NoMemory};
use std::alloc::Global;

/// A parameter of a record (RFC 9460 7 and 8), in the order of the keys 0 to 6; a key without a form of its own is 5 or
/// above 6.
#[derive(Debug, PartialEq, Eq, Hash, Drop)]
pub enum Param {
    /// The keys that a client must know, in strictly increasing order, at least one, and without key 0.
    Mandatory(Keys),
    /// The protocol ids, at least one, of 1 to 255 octets each.
    Alpn(Ids),
    /// The protocol of the scheme isn't added to the protocol ids.
    NoDefaultAlpn,
    /// The port.
    Port(u16),
    /// IPv4 addresses of the target, at least one.
    V4Hint(V4s),
    /// A parameter whose value has any octets.
    Other { key: u16, value: Bytes },
    /// IPv6 addresses of the target, at least one.
    V6Hint(V6s),
}

/// The number of a parameter's key (RFC 9460 14.3.2).
pub fn param_key(param: &Param) -> u16
    ensures { result ≡ key_of param.now }
{
    match param {
        Param::Mandatory(_) => 0,
        Param::Alpn(_) => 1,
        Param::NoDefaultAlpn => 2,
        Param::Port(_) => 3,
        Param::V4Hint(_) => 4,
        Param::Other { key, .. } => *key,
        Param::V6Hint(_) => 6,
    }
}

// A twin of each IPv4 address, in order.
fn copied_v4s(alloc: Global, addresses: &[[u8; 4]]) -> Result<V4s, NoMemory>
    ensures { IfOk result (λ twins. twins ≡ addresses.now) }
{
    let mut twins = ListOf::new(alloc);
    for address in addresses {
        twins.push(*address)?;
    }
    Ok(twins)
}

// A twin of each IPv6 address, in order.
fn copied_v6s(alloc: Global, addresses: &[[u8; 16]]) -> Result<V6s, NoMemory>
    ensures { IfOk result (λ twins. twins ≡ addresses.now) }
{
    let mut twins = ListOf::new(alloc);
    for address in addresses {
        twins.push(*address)?;
    }
    Ok(twins)
}

impl Duplicate for Param {
    fn copy(&self, alloc: Global) -> Result<Self, NoMemory> {
        match self {
            Param::Mandatory(keys) => Ok(Param::Mandatory(keys.copy(alloc)?)),
            Param::Alpn(ids) => Ok(Param::Alpn(ids.copy(alloc)?)),
            Param::NoDefaultAlpn => Ok(Param::NoDefaultAlpn),
            Param::Port(port) => Ok(Param::Port(*port)),
            Param::V4Hint(addresses) => Ok(Param::V4Hint(copied_v4s(alloc, addresses.as_slice())?)),
            Param::Other { key, value } => Ok(Param::Other {
                key: *key,
                value: value.copy(alloc)?,
            }),
            Param::V6Hint(addresses) => Ok(Param::V6Hint(copied_v6s(alloc, addresses.as_slice())?)),
        }
    }
}
