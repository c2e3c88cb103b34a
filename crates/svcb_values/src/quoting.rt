ghost use Rattle.std.specs.Prelude.{◌≡◌, ◌++◌, IfOk, OnOk};
ghost use Rattle.dns_names.specs.TextParts.{part_text};
ghost use Rattle.svcb_values.specs.Written.{written_part, in_quotes};

use alt_base::NoMemory;
use dns_names::write_part;
use std::alloc::Global;

// Appends what is written for a byte between quotes.
fn write_byte(text: &mut Vec<u8>, byte: u8) -> Result<(), NoMemory>
    ensures { OnOk result (text.new.items ≡ text.old.items ++ part_text (written_part byte)) }
{
    let is_special = byte == b'"' || byte == b'\\';
    write_part(text, byte, is_special, b' ' <= byte && byte <= b'~')
}

/// Bytes between quotes (RFC 9460 appendix A): a quote and a backslash behind a backslash, other shown bytes and the space
/// as they stand, any other as a backslash and three digits.
pub fn in_quotes(alloc: Global, bytes: &[u8]) -> Result<Vec<u8>, NoMemory>
    ensures { IfOk result (λ text. text.items ≡ in_quotes bytes.now) }
{
    let mut text = Vec::new(alloc);
    text.push(b'"')?;
    for byte in bytes {
        write_byte(&mut text, *byte)?;
    }
    text.push(b'"')?;
    Ok(text)
}
