ghost use Rattle.std.specs.Prelude.{◌≡◌, IfOk};
ghost use Rattle.svcb_values.specs.ValueReading.{items_of, read_each, read_v4, read_v6};

use alt_base::{ListOf, NoMemory};
use origin_values::Addr;
use std::alloc::Global;
use svcb_wire::{V4s, V6s};

// The IPv4 addresses that a text joins by commas.
pub(crate) fn read_v4s(alloc: Global, text: &[u8]) -> Result<Option<V4s>, NoMemory>
    ensures { IfOk result (λ addresses. addresses ≡ read_each read_v4 (items_of text.now)) }
{
    let mut addresses = ListOf::new(alloc);
    for item in text.split(|b| *b == b',') {
        let Some(address) = read_v4(item) else {
            return Ok(None);
        };
        addresses.push(address)?;
    }
    Ok(Some(addresses))
}

// The IPv6 addresses that a text joins by commas.
pub(crate) fn read_v6s(alloc: Global, text: &[u8]) -> Result<Option<V6s>, NoMemory>
    ensures { IfOk result (λ addresses. addresses ≡ read_each read_v6 (items_of text.now)) }
{
    let mut addresses = ListOf::new(alloc);
    for item in text.split(|b| *b == b',') {
        let Some(address) = read_v6(item) else {
            return Ok(None);
        };
        addresses.push(address)?;
    }
    Ok(Some(addresses))
}

fn read_v4(text: &[u8]) -> Option<[u8; 4]>
    ensures { result ≡ read_v4 text.now }
{
    match Addr::parse(text) {
        Some(Addr::V4(bytes)) => Some(bytes),
        _ => None,
    }
}

fn read_v6(text: &[u8]) -> Option<[u8; 16]>
    ensures { result ≡ read_v6 text.now }
{
    match Addr::parse(text) {
        Some(Addr::V6(bytes)) => Some(bytes),
        _ => None,
    }
}
