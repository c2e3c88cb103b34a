ghost use Rattle.std.specs.Prelude.{◌≡◌, ◌++◌, IfOk, OnOk};
ghost use Rattle.altsvc_grammar.specs.Shown.{shown_host, shown_key, shown_persist, alt_line, alt_lines, show_lines};

use crate::written::append_encoded;
use crate::{Alt, AltKey, AltSvc};
use alt_base::{Bytes, ListOf, NoMemory};
use origin_values::Host;
use std::alloc::Global;

/// The lines that show a value: `clear`, or for each alternative its protocol in its encoded form, its host or `-`, its
/// port, `ma` and its seconds, and `persist` and 0 or 1, with a space between. Each line ends with a newline.
pub fn show_text(alloc: Global, value: &AltSvc) -> Result<Bytes, NoMemory>
    ensures { IfOk result (λ text. text ≡ show_lines value.now) }
{
    let mut text = Vec::new(alloc);
    match value {
        AltSvc::Clear => text.extend_from_slice(b"clear\n")?,
        AltSvc::List(alts) => append_lines(alloc, &mut text, alts.as_slice())?,
    }
    Ok(ListOf::from_vec(text))
}

fn append_lines(alloc: Global, text: &mut Vec<u8>, alts: &[Alt]) -> Result<(), NoMemory>
    ensures { OnOk result (text.new.items ≡ text.old.items ++ alt_lines alts.now) }
{
    for alt in alts {
        append_line(alloc, text, alt)?;
    }
    Ok(())
}

fn append_line(alloc: Global, text: &mut Vec<u8>, alt: &Alt) -> Result<(), NoMemory>
    ensures { OnOk result (text.new.items ≡ text.old.items ++ alt_line alt.now) }
{
    append_shown_key(alloc, text, &alt.key)?;
    text.extend_from_slice(b" ma ")?;
    text.extend_from_slice(alt.ma.to_string(alloc)?.as_bytes())?;
    text.extend_from_slice(b" persist ")?;
    append_persist(text, alt.persist)
}

// The encoded protocol, the host or `-`, and the port.
fn append_shown_key(alloc: Global, text: &mut Vec<u8>, key: &AltKey) -> Result<(), NoMemory>
    ensures { OnOk result (text.new.items ≡ text.old.items ++ shown_key key.now) }
{
    append_encoded(text, key.proto.as_slice())?;
    text.extend_from_slice(b" ")?;
    append_host(alloc, text, &key.host)?;
    text.extend_from_slice(b" ")?;
    text.extend_from_slice(key.port.to_string(alloc)?.as_bytes())?;
    Ok(())
}

fn append_host(alloc: Global, text: &mut Vec<u8>, host: &Option<Host>) -> Result<(), NoMemory>
    ensures { OnOk result (text.new.items ≡ text.old.items ++ shown_host host.now) }
{
    match host {
        Some(host) => text.extend_from_slice(host.write(alloc)?.as_slice())?,
        None => text.extend_from_slice(b"-")?,
    }
    Ok(())
}

// 1 or 0, and the end of the line.
fn append_persist(text: &mut Vec<u8>, persist: bool) -> Result<(), NoMemory>
    ensures { OnOk result (text.new.items ≡ text.old.items ++ shown_persist persist) }
{
    if persist {
        text.extend_from_slice(b"1\n")?;
    } else {
        text.extend_from_slice(b"0\n")?;
    }
    Ok(())
}
