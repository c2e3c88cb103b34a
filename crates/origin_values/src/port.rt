ghost use Rattle.std.specs.Prelude.{◌≡◌, ◌≤◌, ℕ, true, length, min, IfSome, IfNone};
ghost use Rattle.std.specs.List.{list_all};
ghost use Rattle.std.specs.Char.{is_ascii_digit};
ghost use Rattle.std.specs.Str.Parse.{digits_value};
ghost use Rattle.origin_values.specs.OriginReading.{digits_before, port_of};
ghost use Rattle.origin_values.specs.PortGrammar.{SpellsPortDigits};
ghost use Rattle.origin_values.specs.PortReading.{read_port_digits};

/// The least number that is no port. A larger value is kept as it.
const PORT_END: u32 = 65536;

/// The most digits of a port that stands alone.
const PORT_DIGITS: usize = 5;

/// How many decimal digits stand at the front of a text.
pub fn digits_before(text: &[u8]) -> usize
    ensures value { result ≡ digits_before text.now }
    ensures within { result ≤ length text.now }
{
    for (i, b) in text.iter().enumerate() {
        if !b.is_ascii_digit() {
            return i;
        }
    }
    text.len()
}

// The port that digits write, from 1 to 65535.
pub(crate) fn port_of(digits: &[u8]) -> Option<u16>
    requires { list_all is_ascii_digit digits.now ≡ true }
    ensures { result ≡ port_of digits.now }
{
    let value = capped_value(digits);
    if 0 < value && value < PORT_END {
        Some(value as u16)
    } else {
        None
    }
}

// The number that digits write, or the least that is no port's where it is larger.
fn capped_value(digits: &[u8]) -> u32
    requires { list_all is_ascii_digit digits.now ≡ true }
    ensures { result ≡ min 65536 (digits_value 10 digits.now) }
{
    let mut value = 0;
    for b in digits {
        value = (value * 10 + u32::from(*b - b'0')).min(PORT_END);
    }
    value
}

/// The number of 16 bits that one to five digits write, where a port stands alone, with leading zeros or without: from 0
/// to 65535. None of an empty text, of other bytes than digits, of more than five bytes, and of a larger number.
pub fn read_port_digits(text: &[u8]) -> Option<u16>
    ensures reading { result ≡ read_port_digits text.now }
    ensures some { IfSome result (λ port. SpellsPortDigits text.now port) }
    ensures none { IfNone result ((port : ℕ) → SpellsPortDigits text.now port → ⊥) }
{
    if text.is_empty() || text.len() > PORT_DIGITS || !are_digits(text) {
        return None;
    }
    let value = capped_value(text);
    if value < PORT_END {
        Some(value as u16)
    } else {
        None
    }
}

fn are_digits(text: &[u8]) -> bool
    ensures { result ≡ list_all is_ascii_digit text.now }
{
    text.iter().all(|b| b.is_ascii_digit())
}
