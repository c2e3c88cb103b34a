ghost use Rattle.std.specs.Prelude.{◌≡◌, ◌<◌, ◌^◌, IfOk};
ghost use Rattle.byteorder.specs.Endian.{big_bytes};
ghost use Rattle.svcb_wire.specs.Octets.{keys_octets, ids_octets, addresses_octets, value_of};
ghost use Rattle.svcb_wire.specs.Forms.{AreIds, HasForm};

use crate::Param;
use alt_base::{Bytes, Duplicate, NoMemory};
use byteorder::{BigEndian, ByteOrder};
use std::alloc::Global;

// A number in 16 bits, the highest first.
pub(crate) fn pair_of(number: u16) -> [u8; 2]
    ensures { result ≡ big_bytes 2 number }
{
    let mut pair = [0_u8; 2];
    BigEndian::write_u16(&mut pair, number);
    pair
}

fn write_keys(alloc: Global, keys: &[u16]) -> Result<Vec<u8>, NoMemory>
    ensures { IfOk result (λ octets. octets.items ≡ keys_octets keys.now) }
{
    let mut octets = Vec::new(alloc);
    for key in keys {
        octets.extend_from_slice(&pair_of(*key))?;
    }
    Ok(octets)
}

fn write_ids(alloc: Global, ids: &[Bytes]) -> Result<Vec<u8>, NoMemory>
    requires { AreIds ids.now }
    ensures { IfOk result (λ octets. octets.items ≡ ids_octets ids.now) }
{
    let mut octets = Vec::new(alloc);
    for id in ids {
        octets.push(id.len() as u8)?;
        octets.extend_from_slice(id.as_slice())?;
    }
    Ok(octets)
}

fn write_v4s(alloc: Global, addresses: &[[u8; 4]]) -> Result<Vec<u8>, NoMemory>
    ensures { IfOk result (λ octets. octets.items ≡ addresses_octets addresses.now) }
{
    let mut octets = Vec::new(alloc);
    for address in addresses {
        octets.extend_from_slice(address)?;
    }
    Ok(octets)
}

fn write_v6s(alloc: Global, addresses: &[[u8; 16]]) -> Result<Vec<u8>, NoMemory>
    ensures { IfOk result (λ octets. octets.items ≡ addresses_octets addresses.now) }
{
    let mut octets = Vec::new(alloc);
    for address in addresses {
        octets.extend_from_slice(address)?;
    }
    Ok(octets)
}

/// The octets of a parameter's value, as a record's wire form has them (RFC 9460 7 and 8). The value is of its key's
/// form.
pub fn param_value(alloc: Global, param: &Param) -> Result<Bytes, NoMemory>
    requires { HasForm param.now }
    ensures { IfOk result (λ octets. octets ≡ value_of param.now) }
{
    match param {
        Param::Mandatory(keys) => Ok(Bytes::from_vec(write_keys(alloc, keys.as_slice())?)),
        Param::Alpn(ids) => Ok(Bytes::from_vec(write_ids(alloc, ids.as_slice())?)),
        Param::NoDefaultAlpn => Ok(Bytes::new(alloc)),
        Param::Port(port) => Ok(Bytes::from_vec(Vec::from_array(alloc, pair_of(*port))?)),
        Param::V4Hint(addresses) => Ok(Bytes::from_vec(write_v4s(alloc, addresses.as_slice())?)),
        Param::Other { value, .. } => value.copy(alloc),
        Param::V6Hint(addresses) => Ok(Bytes::from_vec(write_v6s(alloc, addresses.as_slice())?)),
    }
}
