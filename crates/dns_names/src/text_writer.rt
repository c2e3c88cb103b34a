ghost use Rattle.std.specs.Prelude.{◌≡◌, ◌++◌, map, IfOk, OnOk};
ghost use Rattle.dns_names.specs.TextParts.{is_special, part_of, part_text, parts_text, text_form};

use crate::part::write_part;
use alt_base::{Bytes, NoMemory};
use std::alloc::Global;

// Whether a byte is written behind a backslash.
fn is_special(byte: u8) -> bool
    ensures { result ≡ is_special byte }
{
    byte == b'"'
        || byte == b'$'
        || byte == b'('
        || byte == b')'
        || byte == b'.'
        || byte == b';'
        || byte == b'@'
        || byte == b'\\'
}

// Appends what is written for a byte.
fn write_byte(text: &mut Vec<u8>, byte: u8) -> Result<(), NoMemory>
    ensures { OnOk result (text.new.items ≡ text.old.items ++ part_text (part_of byte)) }
{
    write_part(text, byte, is_special(byte), byte.is_ascii_graphic())
}

// Appends what is written for a label, without its dot.
fn write_label(text: &mut Vec<u8>, label: &[u8]) -> Result<(), NoMemory>
    ensures { OnOk result (text.new.items ≡ text.old.items ++ parts_text (map part_of label.now)) }
{
    for byte in label {
        write_byte(text, *byte)?;
    }
    Ok(())
}

/// What is written for labels.
pub(crate) fn write_labels(alloc: Global, labels: &[Bytes]) -> Result<Vec<u8>, NoMemory>
    ensures { IfOk result (λ text. text.items ≡ text_form labels.now) }
{
    let mut text = Vec::new(alloc);
    if labels.is_empty() {
        text.push(b'.')?;
        return Ok(text);
    }
    for label in labels {
        write_label(&mut text, label.as_slice())?;
        text.push(b'.')?;
    }
    Ok(text)
}
