ghost use Rattle.std.specs.Prelude.{◌≡◌, ◌≤◌, ◌<◌, length, take, IfOk, IfSome};
ghost use Rattle.svcb_wire.specs.ValueReading.{first_id, read_keys, read_items, first_address, read_nothing, read_port, read_value};

use crate::{Ids, Keys, Param, V4s, V6s};
use alt_base::{Bytes, ListOf, NoMemory};
use byteorder::{BigEndian, ByteOrder};
use std::alloc::Global;

// The keys of a mandatory value; None where it isn't one.
fn read_keys(alloc: Global, value: &[u8]) -> Result<Option<Keys>, NoMemory>
    ensures { IfOk result (λ keys. keys ≡ read_keys value.now) }
{
    if value.is_empty() {
        return Ok(None);
    }
    let mut keys = ListOf::new(alloc);
    let mut last = 0;
    let mut rest = value;
    while !rest.is_empty() {
        if rest.len() < 2 {
            return Ok(None);
        }
        let key = BigEndian::read_u16(rest);
        if key <= last {
            return Ok(None);
        }
        keys.push(key)?;
        last = key;
        rest = &rest[2..];
    }
    Ok(Some(keys))
}

// The id at the front of some octets, and how many octets it takes; None where none is whole.
fn first_id(alloc: Global, rest: &[u8]) -> Result<Option<(Bytes, usize)>, NoMemory>
    ensures found { IfOk result (λ found. found ≡ first_id rest.now) }
    ensures within { IfOk result (λ found. IfSome found (λ pair. pair.1 ≤ length rest.now)) }
    ensures some { IfOk result (λ found. IfSome found (λ pair. 1 ≤ pair.1)) }
{
    let Some(octet) = rest.first() else {
        return Ok(None);
    };
    let count = *octet as usize;
    if count == 0 || rest.len() - 1 < count {
        return Ok(None);
    }
    let id = rest[1..1 + count].to_vec(alloc)?;
    Ok(Some((ListOf::from_vec(id), count + 1)))
}

// The ids of an alpn value; None where it isn't one.
fn read_ids(alloc: Global, value: &[u8]) -> Result<Option<Ids>, NoMemory>
    ensures { IfOk result (λ ids. ids ≡ read_items first_id value.now) }
{
    if value.is_empty() {
        return Ok(None);
    }
    let mut ids = ListOf::new(alloc);
    let mut rest = value;
    while !rest.is_empty() {
        match first_id(alloc, rest)? {
            None => return Ok(None),
            Some((id, size)) => {
                ids.push(id)?;
                rest = &rest[size..];
            }
        }
    }
    Ok(Some(ids))
}

fn first_v4(rest: &[u8]) -> [u8; 4]
    requires { 4 ≤ length rest.now }
    ensures { result ≡ take 4 rest.now }
{
    let mut address = [0_u8; 4];
    address.copy_from_slice(&rest[..4]);
    address
}

fn first_v6(rest: &[u8]) -> [u8; 16]
    requires { 16 ≤ length rest.now }
    ensures { result ≡ take 16 rest.now }
{
    let mut address = [0_u8; 16];
    address.copy_from_slice(&rest[..16]);
    address
}

// The addresses of an ipv4hint value; None where it isn't one.
fn read_v4s(alloc: Global, value: &[u8]) -> Result<Option<V4s>, NoMemory>
    ensures { IfOk result (λ addresses. addresses ≡ read_items (first_address 4) value.now) }
{
    if value.is_empty() {
        return Ok(None);
    }
    let mut addresses = ListOf::new(alloc);
    let mut rest = value;
    while !rest.is_empty() {
        if rest.len() < 4 {
            return Ok(None);
        }
        addresses.push(first_v4(rest))?;
        rest = &rest[4..];
    }
    Ok(Some(addresses))
}

// The addresses of an ipv6hint value; None where it isn't one.
fn read_v6s(alloc: Global, value: &[u8]) -> Result<Option<V6s>, NoMemory>
    ensures { IfOk result (λ addresses. addresses ≡ read_items (first_address 16) value.now) }
{
    if value.is_empty() {
        return Ok(None);
    }
    let mut addresses = ListOf::new(alloc);
    let mut rest = value;
    while !rest.is_empty() {
        if rest.len() < 16 {
            return Ok(None);
        }
        addresses.push(first_v6(rest))?;
        rest = &rest[16..];
    }
    Ok(Some(addresses))
}

fn read_nothing(value: &[u8]) -> Option<Param>
    ensures { result ≡ read_nothing value.now }
{
    if value.is_empty() {
        Some(Param::NoDefaultAlpn)
    } else {
        None
    }
}

fn read_port(value: &[u8]) -> Option<Param>
    ensures { result ≡ read_port value.now }
{
    if value.len() == 2 {
        Some(Param::Port(BigEndian::read_u16(value)))
    } else {
        None
    }
}

/// The parameter of a key and a value; None where the value isn't of the key's form.
pub(crate) fn read_value(alloc: Global, key: u16, value: &[u8]) -> Result<Option<Param>, NoMemory>
    ensures { IfOk result (λ param. param ≡ read_value key value.now) }
{
    match key {
        0 => Ok(read_keys(alloc, value)?.map(|keys| Param::Mandatory(keys))),
        1 => Ok(read_ids(alloc, value)?.map(|ids| Param::Alpn(ids))),
        2 => Ok(read_nothing(value)),
        3 => Ok(read_port(value)),
        4 => Ok(read_v4s(alloc, value)?.map(|addresses| Param::V4Hint(addresses))),
        6 => Ok(read_v6s(alloc, value)?.map(|addresses| Param::V6Hint(addresses))),
        _ => Ok(Some(Param::Other {
            key,
            value: ListOf::from_vec(value.to_vec(alloc)?),
        })),
    }
}
