ghost use Rattle.std.specs.Prelude.{◌≡◌, ◌≤◌, true};
ghost use Rattle.std.specs.List.{list_all};
ghost use Rattle.std.specs.Char.{is_ascii_digit};
ghost use Rattle.std.specs.Str.Parse.{digits_value};
ghost use Rattle.event_lines.specs.Fields.{is_number, number_of, number_within};

// A number that is at most so great: digits without a leading zero.
pub(crate) fn number_of(text: &[u8], most: u64) -> Option<u64>
    requires { 9 ≤ most }
    ensures { result ≡ number_of most text.now }
{
    if is_number(text) {
        value_within(text, most)
    } else {
        None
    }
}

// Whether a text is digits, at least one, and no zero before others.
fn is_number(text: &[u8]) -> bool
    ensures { result ≡ is_number text.now }
{
    match text {
        [] => false,
        [only] => only.is_ascii_digit(),
        [b'0', ..] => false,
        _ => are_digits(text),
    }
}

fn are_digits(text: &[u8]) -> bool
    ensures { result ≡ list_all is_ascii_digit text.now }
{
    text.iter().all(|b| b.is_ascii_digit())
}

// The value of digits, where it is at most so great.
fn value_within(digits: &[u8], most: u64) -> Option<u64>
    requires some_digit { 9 ≤ most }
    requires digits { list_all is_ascii_digit digits.now ≡ true }
    ensures { result ≡ number_within most (digits_value 10 digits.now) }
{
    let mut value = 0;
    for b in digits {
        let digit = u64::from(*b - b'0');
        if (most - digit) / 10 < value {
            return None;
        }
        value = value * 10 + digit;
    }
    Some(value)
}
