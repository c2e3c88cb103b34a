ghost use Rattle.std.specs.Prelude.{◌≡◌, ◌++◌, true, if◌then◌else◌, Some, None, OnOk};
ghost use Rattle.std.specs.Char.{is_ascii_digit};
ghost use Rattle.dns_names.specs.TextParts.{decimal_value, part_by, part_text};
ghost use Rattle.dns_names.specs.TextReading.{is_decimal};

use alt_base::NoMemory;

/// The byte that three digits write (RFC 1035 5.1), the first of which is one: None where another one isn't, or they
/// write more than 255. It takes no memory.
pub fn decimal_byte(hundreds: u8, tens: u8, ones: u8) -> Option<u8>
    requires { is_ascii_digit hundreds ≡ true }
    ensures { result ≡ (if is_decimal hundreds tens ones then Some (decimal_value hundreds tens ones) else None) }
{
    if !tens.is_ascii_digit() || !ones.is_ascii_digit() {
        return None;
    }
    let value = 100 * u32::from(hundreds - b'0')
        + 10 * u32::from(tens - b'0')
        + u32::from(ones - b'0');
    if value > 255 {
        return None;
    }
    Some(value as u8)
}

/// Appends a byte (RFC 1035 5.1): behind a backslash where it is special, else as it stands where it is shown, else as
/// a backslash and three digits.
pub fn write_part(
    text: &mut Vec<u8>,
    byte: u8,
    is_special: bool,
    is_shown: bool,
) -> Result<(), NoMemory>
    ensures { OnOk result (text.new.items ≡ text.old.items ++ part_text (part_by is_special is_shown byte)) }
{
    if is_special {
        text.extend_from_slice(&[b'\\', byte])?;
    } else if is_shown {
        text.push(byte)?;
    } else {
        text.extend_from_slice(&[
            b'\\',
            b'0' + byte / 100,
            b'0' + byte / 10 % 10,
            b'0' + byte % 10,
        ])?;
    }
    Ok(())
}
