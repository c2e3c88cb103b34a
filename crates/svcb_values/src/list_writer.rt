ghost use Rattle.std.specs.Prelude.{◌≡◌, [], ◌∷◌, ◌++◌, map, IfOk, OnOk};
ghost use Rattle.std.specs.List.{join_with_byte};
ghost use Rattle.std.specs.Net.Text.{ipv4_text};
ghost use Rattle.origin_values.specs.Written.{v6_text};
ghost use Rattle.svcb_values.specs.KeyNames.{key_name};
ghost use Rattle.svcb_values.specs.Commas.{behind_commas};
ghost use Rattle.svcb_values.specs.Written.{id_written};

use crate::key_names::key_name;
use alt_base::{Bytes, ListOf, NoMemory, Text};
use origin_values::Addr;
use std::alloc::Global;

/// Appends items, joined by commas.
pub fn append_joined(text: &mut Vec<u8>, items: &[Bytes]) -> Result<(), NoMemory>
    ensures { OnOk result (text.new.items ≡ text.old.items ++ join_with_byte 44 items.now) }
{
    match items {
        [] => Ok(()),
        [first, further @ ..] => {
            text.extend_from_slice(first.as_slice())?;
            append_further(text, further)
        }
    }
}

// Appends items, each behind a comma.
fn append_further(text: &mut Vec<u8>, items: &[Bytes]) -> Result<(), NoMemory>
    ensures { OnOk result (text.new.items ≡ text.old.items ++ behind_commas items.now) }
{
    for item in items {
        text.push(b',')?;
        text.extend_from_slice(item.as_slice())?;
    }
    Ok(())
}

/// The names of keys.
pub fn key_texts(alloc: Global, keys: &[u16]) -> Result<ListOf<Text>, NoMemory>
    ensures { IfOk result (λ texts. texts ≡ map key_name keys.now) }
{
    let mut texts = ListOf::new(alloc);
    for key in keys {
        texts.push(key_name(alloc, *key)?)?;
    }
    Ok(texts)
}

// Appends a byte of an id, a comma or a backslash behind a backslash.
fn append_id_byte(text: &mut Vec<u8>, byte: u8) -> Result<(), NoMemory>
    ensures { OnOk result (text.new.items ≡ text.old.items ++ id_written (byte ∷ [])) }
{
    if byte == b',' || byte == b'\\' {
        text.push(b'\\')?;
        text.push(byte)?;
        Ok(())
    } else {
        text.push(byte)?;
        Ok(())
    }
}

// What is written for an id.
fn id_text(alloc: Global, id: &[u8]) -> Result<Text, NoMemory>
    ensures { IfOk result (λ text. text ≡ id_written id.now) }
{
    let mut text = Vec::new(alloc);
    for byte in id {
        append_id_byte(&mut text, *byte)?;
    }
    Ok(Text::from_vec(text))
}

/// What is written for protocol ids (RFC 9460 appendix A.1): a comma and a backslash stand behind a backslash.
pub fn id_texts(alloc: Global, ids: &[Bytes]) -> Result<ListOf<Text>, NoMemory>
    ensures { IfOk result (λ texts. texts ≡ map id_written ids.now) }
{
    let mut texts = ListOf::new(alloc);
    for id in ids {
        texts.push(id_text(alloc, id.as_slice())?)?;
    }
    Ok(texts)
}

/// The texts of IPv4 addresses.
pub fn v4_texts(alloc: Global, addresses: &[[u8; 4]]) -> Result<ListOf<Text>, NoMemory>
    ensures { IfOk result (λ texts. texts ≡ map ipv4_text addresses.now) }
{
    let mut texts = ListOf::new(alloc);
    for address in addresses {
        texts.push(Addr::V4(*address).write(alloc)?)?;
    }
    Ok(texts)
}

/// The texts of IPv6 addresses.
pub fn v6_texts(alloc: Global, addresses: &[[u8; 16]]) -> Result<ListOf<Text>, NoMemory>
    ensures { IfOk result (λ texts. texts ≡ map v6_text addresses.now) }
{
    let mut texts = ListOf::new(alloc);
    for address in addresses {
        texts.push(Addr::V6(*address).write(alloc)?)?;
    }
    Ok(texts)
}
