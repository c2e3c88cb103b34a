ghost use Rattle.std.specs.Prelude.{◌≡◌, ◌≤◌, ◌+◌, min, length, IfOk};
ghost use Rattle.svcb_wire.specs.Octets.{ids_octets, addresses_octets, value_of, params_octets};
ghost use Rattle.svcb_wire.specs.Records.{record_octets};
ghost use Rattle.dns_names.specs.Names.{IsName};

use alt_base::{Bytes, NoMemory};
use std::alloc::Global;
use svcb_wire::{Param, Svcb};

// More than RDATA may have; counts of octets stop there.
const TOO_MANY: u32 = 65_536;

fn sum_of(count: u32, more: usize) -> u32
    requires { count ≤ 65536 }
    ensures { result ≡ min (count + more) 65536 }
{
    let room = TOO_MANY - count;
    if more > room as usize {
        TOO_MANY
    } else {
        count + more as u32
    }
}

fn ids_len(ids: &[Bytes]) -> u32
    ensures { result ≡ min (length (ids_octets ids.now)) 65536 }
{
    let mut count = 0;
    for id in ids {
        count = sum_of(sum_of(count, 1), id.len());
    }
    count
}

fn v4s_len(addresses: &[[u8; 4]]) -> u32
    ensures { result ≡ min (length (addresses_octets addresses.now)) 65536 }
{
    let mut count = 0;
    for address in addresses {
        count = sum_of(count, address.as_slice().len());
    }
    count
}

fn v6s_len(addresses: &[[u8; 16]]) -> u32
    ensures { result ≡ min (length (addresses_octets addresses.now)) 65536 }
{
    let mut count = 0;
    for address in addresses {
        count = sum_of(count, address.as_slice().len());
    }
    count
}

// How many octets a parameter's value has.
fn value_len(param: &Param) -> u32
    ensures { result ≡ min (length (value_of param.now)) 65536 }
{
    match param {
        Param::Mandatory(keys) => 2 * keys.len().min(32_768) as u32,
        Param::Alpn(ids) => ids_len(ids.as_slice()),
        Param::NoDefaultAlpn => 0,
        Param::Port(_) => 2,
        Param::V4Hint(addresses) => v4s_len(addresses.as_slice()),
        Param::Other { value, .. } => value.len().min(65_536) as u32,
        Param::V6Hint(addresses) => v6s_len(addresses.as_slice()),
    }
}

fn params_len(params: &[Param]) -> u32
    ensures { result ≡ min (length (params_octets params.now)) 65536 }
{
    let mut count = 0;
    for param in params {
        count = sum_of(sum_of(count, 4), value_len(param) as usize);
    }
    count
}

// How many octets the wire form of a record has, and 65,536 for more.
pub(crate) fn record_len(alloc: Global, value: &Svcb) -> Result<u32, NoMemory>
    requires { IsName value.now.target }
    ensures { IfOk result (λ count. count ≡ min (length (record_octets value.now)) 65536) }
{
    let target = value.target.to_wire(alloc)?;
    let params = params_len(value.params.as_slice());
    Ok(sum_of(sum_of(params, 2), target.len()))
}
