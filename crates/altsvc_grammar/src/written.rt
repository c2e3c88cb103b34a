ghost use Rattle.std.specs.Prelude.{◌≡◌, ◌++◌, IfOk, OnOk};
ghost use Rattle.altsvc_grammar.specs.declared.alt_svc.AltSvc.TheVariants.{List};
ghost use Rattle.altsvc_grammar.specs.Written.{encoded_byte, encoded, optional_host_text, key_text, ma_text, persist_text, alt_text, more_alts_text, value_text};

use crate::protocol::is_plain;
use crate::{Alt, AltKey, AltSvc};
use alt_base::{Bytes, ListOf, NoMemory};
use origin_values::Host;
use percent_encoding::percent_encode_byte;
use std::alloc::Global;

/// The seconds that aren't written (RFC 7838 3.1).
const DEFAULT_MA: u32 = 86_400;

/// The canonical text of a value (RFC 7838 3): `clear`, or the alternatives joined by a comma and a space, each with
/// `ma` where it isn't 86,400 and with `persist` where it holds. The protocols are percent-encoded.
pub fn write(alloc: Global, value: &AltSvc) -> Result<Bytes, NoMemory>
    ensures { IfOk result (λ text. text ≡ value_text value.now) }
{
    let mut text = Vec::new(alloc);
    match value {
        AltSvc::Clear => text.extend_from_slice(b"clear")?,
        AltSvc::List(alts) => append_alts(alloc, &mut text, alts.as_slice())?,
    }
    Ok(ListOf::from_vec(text))
}

fn append_alts(alloc: Global, text: &mut Vec<u8>, alts: &[Alt]) -> Result<(), NoMemory>
    ensures { OnOk result (text.new.items ≡ text.old.items ++ value_text (List alts.now)) }
{
    match alts {
        [] => Ok(()),
        [alt, more @ ..] => {
            append_alt(alloc, text, alt)?;
            append_more_alts(alloc, text, more)
        }
    }
}

fn append_more_alts(alloc: Global, text: &mut Vec<u8>, alts: &[Alt]) -> Result<(), NoMemory>
    ensures { OnOk result (text.new.items ≡ text.old.items ++ more_alts_text alts.now) }
{
    for alt in alts {
        text.extend_from_slice(b", ")?;
        append_alt(alloc, text, alt)?;
    }
    Ok(())
}

fn append_alt(alloc: Global, text: &mut Vec<u8>, alt: &Alt) -> Result<(), NoMemory>
    ensures { OnOk result (text.new.items ≡ text.old.items ++ alt_text alt.now) }
{
    append_key(alloc, text, &alt.key)?;
    append_ma(alloc, text, alt.ma)?;
    append_persist(text, alt.persist)
}

fn append_key(alloc: Global, text: &mut Vec<u8>, key: &AltKey) -> Result<(), NoMemory>
    ensures { OnOk result (text.new.items ≡ text.old.items ++ key_text key.now) }
{
    append_encoded(text, key.proto.as_slice())?;
    text.extend_from_slice(b"=\"")?;
    append_host(alloc, text, &key.host)?;
    text.extend_from_slice(b":")?;
    text.extend_from_slice(key.port.to_string(alloc)?.as_bytes())?;
    text.extend_from_slice(b"\"")?;
    Ok(())
}

// The encoded form of a protocol.
pub(crate) fn append_encoded(text: &mut Vec<u8>, proto: &[u8]) -> Result<(), NoMemory>
    ensures { OnOk result (text.new.items ≡ text.old.items ++ encoded proto.now) }
{
    for byte in proto {
        append_encoded_byte(text, *byte)?;
    }
    Ok(())
}

fn append_encoded_byte(text: &mut Vec<u8>, byte: u8) -> Result<(), NoMemory>
    ensures { OnOk result (text.new.items ≡ text.old.items ++ encoded_byte byte) }
{
    if is_plain(byte) {
        text.push(byte)?;
    } else {
        text.extend_from_slice(percent_encode_byte(byte).as_bytes())?;
    }
    Ok(())
}

fn append_host(alloc: Global, text: &mut Vec<u8>, host: &Option<Host>) -> Result<(), NoMemory>
    ensures { OnOk result (text.new.items ≡ text.old.items ++ optional_host_text host.now) }
{
    if let Some(host) = host {
        text.extend_from_slice(host.write(alloc)?.as_slice())?;
    }
    Ok(())
}

fn append_ma(alloc: Global, text: &mut Vec<u8>, ma: u32) -> Result<(), NoMemory>
    ensures { OnOk result (text.new.items ≡ text.old.items ++ ma_text ma) }
{
    if ma != DEFAULT_MA {
        text.extend_from_slice(b"; ma=")?;
        text.extend_from_slice(ma.to_string(alloc)?.as_bytes())?;
    }
    Ok(())
}

fn append_persist(text: &mut Vec<u8>, persist: bool) -> Result<(), NoMemory>
    ensures { OnOk result (text.new.items ≡ text.old.items ++ persist_text persist) }
{
    if persist {
        text.extend_from_slice(b"; persist=1")?;
    }
    Ok(())
}
