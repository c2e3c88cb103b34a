ghost use Rattle.std.specs.Prelude.{◌≡◌, ◌≤◌, length, true};
ghost use Rattle.origin_values.specs.HostReading.{are_labels, is_name};

use alt_base::host_name_table;

/// The most bytes of a name.
const NAME_BYTES: usize = 253;
/// The most bytes of a label.
const LABEL_BYTES: usize = 63;

// Whether a text is a host's name: at most 253 bytes, in labels joined by dots.
pub(crate) fn is_name(text: &[u8]) -> bool
    ensures { result ≡ is_name text.now }
{
    text.len() <= NAME_BYTES && has_labels(text)
}

// Whether a text is labels joined by dots, of 1 to 63 bytes each, the last of which isn't all digits.
fn has_labels(text: &[u8]) -> bool
    ensures { result ≡ are_labels 0 true text.now }
{
    let table = host_name_table();
    let mut count = 0;
    let mut digits = true;
    for b in text {
        if *b == b'.' {
            if count == 0 {
                return false;
            }
            count = 0;
            digits = true;
        } else if count < LABEL_BYTES && table.has(*b) {
            count += 1;
            digits = digits && b.is_ascii_digit();
        } else {
            return false;
        }
    }
    count > 0 && !digits
}
