ghost use Rattle.std.specs.Prelude.{◌≡◌, ◌<◌, IfOk};
ghost use Rattle.svcb_values.specs.KeyNames.{key_name, key_named, numbered_key, number_of, unnamed};

use crate::port::read_port;
use alt_base::{ListOf, NoMemory, Text};
use std::alloc::Global;

/// The key that a text names (RFC 9460 2.1 and 14.3.2): None where it is no key's name. It takes no memory.
pub fn key_named(text: &[u8]) -> Option<u16>
    ensures { result ≡ key_named text.now }
{
    if text == b"mandatory".as_slice() {
        Some(0)
    } else if text == b"alpn".as_slice() {
        Some(1)
    } else if text == b"no-default-alpn".as_slice() {
        Some(2)
    } else if text == b"port".as_slice() {
        Some(3)
    } else if text == b"ipv4hint".as_slice() {
        Some(4)
    } else if text == b"ipv6hint".as_slice() {
        Some(6)
    } else {
        numbered_key(text)
    }
}

// The key that `key` and a number name.
fn numbered_key(text: &[u8]) -> Option<u16>
    ensures { result ≡ numbered_key text.now }
{
    match text.strip_prefix(b"key") {
        Some(number) => unnamed(number_of(number)),
        None => None,
    }
}

// A key that has no form of its own.
fn unnamed(key: Option<u16>) -> Option<u16>
    ensures { result ≡ unnamed key }
{
    match key {
        Some(0..=4) | Some(6) => None,
        other => other,
    }
}

// A number of at most 65535, without leading zeros.
fn number_of(text: &[u8]) -> Option<u16>
    ensures { result ≡ number_of text.now }
{
    if text.len() > 1 && text[0] == b'0' {
        None
    } else {
        read_port(text)
    }
}

/// The name of a key (RFC 9460 2.1 and 14.3.2): its own, or `key` and its number.
#[tactic(auto, unfolding(crate::specs::KeyNames::key_name))]
pub fn key_name(alloc: Global, key: u16) -> Result<Text, NoMemory>
    ensures { IfOk result (λ name. name ≡ key_name key) }
{
    let name = match key {
        0 => b"mandatory".to_vec(alloc)?,
        1 => b"alpn".to_vec(alloc)?,
        2 => b"no-default-alpn".to_vec(alloc)?,
        3 => b"port".to_vec(alloc)?,
        4 => b"ipv4hint".to_vec(alloc)?,
        6 => b"ipv6hint".to_vec(alloc)?,
        _ => format!(in alloc; "key{key}")?.into_bytes(),
    };
    Ok(ListOf::from_vec(name))
}
