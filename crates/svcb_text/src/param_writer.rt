ghost use Rattle.std.specs.Prelude.{◌≡◌, ◌++◌, OnOk, map, codes, decimal};
ghost use Rattle.std.specs.List.{join_with_byte};
ghost use Rattle.svcb_values.specs.Written.{in_quotes, id_written};
ghost use Rattle.svcb_text.specs.Written.{other_written, param_written, params_written};

use alt_base::{Bytes, ListOf, NoMemory, Text};
use std::alloc::Global;
use svcb_values::{append_joined, id_texts, in_quotes, key_name, key_texts, v4_texts, v6_texts};
use svcb_wire::Param;

// Appends a name, `=` and items joined by commas.
fn append_list(text: &mut Vec<u8>, name: &[u8], items: &ListOf<Text>) -> Result<(), NoMemory>
    ensures { OnOk result (text.new.items ≡ text.old.items ++ (name.now ++ join_with_byte 44 items.now)) }
{
    text.extend_from_slice(name)?;
    append_joined(text, items.as_slice())
}

// Appends `alpn=` and ids.
fn append_alpn(text: &mut Vec<u8>, alloc: Global, ids: &[Bytes]) -> Result<(), NoMemory>
    ensures { OnOk result (text.new.items ≡ text.old.items ++ (codes "alpn=" ++ in_quotes (join_with_byte 44 (map id_written ids.now)))) }
{
    let texts = id_texts(alloc, ids)?;
    let mut joined = Vec::new(alloc);
    append_joined(&mut joined, texts.as_slice())?;
    text.extend_from_slice(b"alpn=")?;
    text.extend_from_slice(&in_quotes(alloc, &joined)?)?;
    Ok(())
}

// Appends `port=` and a port.
fn append_port(text: &mut Vec<u8>, alloc: Global, port: u16) -> Result<(), NoMemory>
    ensures { OnOk result (text.new.items ≡ text.old.items ++ (codes "port=" ++ decimal port)) }
{
    text.extend_from_slice(b"port=")?;
    text.extend_from_slice(port.to_string(alloc)?.as_bytes())?;
    Ok(())
}

// Appends `=` and bytes between quotes, or nothing where there are none.
fn append_value(text: &mut Vec<u8>, alloc: Global, value: &[u8]) -> Result<(), NoMemory>
    ensures { OnOk result (text.new.items ≡ text.old.items ++ other_written value.now) }
{
    match value {
        [] => Ok(()),
        [_, ..] => {
            text.push(b'=')?;
            text.extend_from_slice(&in_quotes(alloc, value)?)?;
            Ok(())
        }
    }
}

// Appends a parameter.
fn append_param(text: &mut Vec<u8>, alloc: Global, param: &Param) -> Result<(), NoMemory>
    ensures { OnOk result (text.new.items ≡ text.old.items ++ param_written param.now) }
{
    match param {
        Param::Mandatory(keys) => {
            append_list(text, b"mandatory=", &key_texts(alloc, keys.as_slice())?)
        }
        Param::Alpn(ids) => append_alpn(text, alloc, ids.as_slice()),
        Param::NoDefaultAlpn => {
            text.extend_from_slice(b"no-default-alpn")?;
            Ok(())
        }
        Param::Port(port) => append_port(text, alloc, *port),
        Param::V4Hint(addresses) => {
            append_list(text, b"ipv4hint=", &v4_texts(alloc, addresses.as_slice())?)
        }
        Param::Other { key, value } => {
            text.extend_from_slice(key_name(alloc, *key)?.as_slice())?;
            append_value(text, alloc, value.as_slice())
        }
        Param::V6Hint(addresses) => {
            append_list(text, b"ipv6hint=", &v6_texts(alloc, addresses.as_slice())?)
        }
    }
}

/// Appends parameters, each behind a space.
pub(crate) fn append_params(
    text: &mut Vec<u8>,
    alloc: Global,
    params: &[Param],
) -> Result<(), NoMemory>
    ensures { OnOk result (text.new.items ≡ text.old.items ++ params_written params.now) }
{
    for param in params {
        text.push(b' ')?;
        append_param(text, alloc, param)?;
    }
    Ok(())
}
