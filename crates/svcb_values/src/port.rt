ghost use Rattle.std.specs.Prelude.{◌≡◌, ◌≤◌, true, length};
ghost use Rattle.std.specs.List.{list_all};
ghost use Rattle.std.specs.Char.{is_ascii_digit};
ghost use Rattle.std.specs.Str.Parse.{digits_value};
ghost use Rattle.svcb_values.specs.ValueReading.{read_port};

// The port that one to five digits write, of at most 65535.
pub(crate) fn read_port(text: &[u8]) -> Option<u16>
    ensures { result ≡ read_port text.now }
{
    if text.is_empty() || text.len() > 5 || !are_digits(text) {
        return None;
    }
    let value = value_of(text);
    if value > 65535 {
        return None;
    }
    Some(value as u16)
}

fn are_digits(text: &[u8]) -> bool
    ensures { result ≡ list_all is_ascii_digit text.now }
{
    text.iter().all(|b| b.is_ascii_digit())
}

// The number that at most five digits write.
fn value_of(digits: &[u8]) -> u32
    requires digits { list_all is_ascii_digit digits.now ≡ true }
    requires short { length digits.now ≤ 5 }
    ensures { result ≡ digits_value 10 digits.now }
{
    let mut value = 0;
    for b in digits {
        value = value * 10 + u32::from(*b - b'0');
    }
    value
}
