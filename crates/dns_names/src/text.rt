ghost use Rattle.std.specs.Prelude.{false, ◌≡◌, ◌≤◌, ◌<◌, ◌^◌, ◌+◌, length};
ghost use Rattle.alt_base.specs.Answers.{Answers};
ghost use Rattle.dns_names.specs.Names.{labels_octets};
ghost use Rattle.dns_names.specs.TextReading.{is_dot, label_fault, text_ends, read_text};

use crate::NameRefusal;
use crate::token::{Token, token_at};
use alt_base::{Bytes, Duplicate, ListOf, Refused};
use std::alloc::Global;

// Whether a text is a dot alone.
fn is_dot(text: &[u8]) -> bool
    ensures { result ≡ is_dot text.now }
{
    text.len() == 1 && text[0] == b'.'
}

// Why no label of so many bytes may end behind so many octets of a name.
fn label_fault(used: usize, count: usize) -> Option<NameRefusal>
    requires { used ≤ 255 }
    ensures { result ≡ label_fault used count }
{
    if count == 0 {
        Some(NameRefusal::EmptyLabel)
    } else if count > 63 {
        Some(NameRefusal::LabelTooLong)
    } else if used + 1 + count + 1 > 255 {
        Some(NameRefusal::NameTooLong)
    } else {
        None
    }
}

// The labels of a text that ends, maybe with a label more that began at a place.
fn text_ends(
    labels: ListOf<Bytes>,
    label: Bytes,
    used: usize,
    start: u32,
) -> Result<ListOf<Bytes>, Refused<NameRefusal>>
    requires octets { used ≡ length (labels_octets labels) }
    requires most { used ≤ 255 }
    ensures { Answers result (text_ends labels label start) }
{
    if label.len() == 0 && labels.len() > 0 {
        return Ok(labels);
    }
    if let Some(reason) = label_fault(used, label.len()) {
        return Err(Refused::At {
            place: start,
            reason,
        });
    }
    let mut all = labels;
    all.push(label)?;
    Ok(all)
}

/// The labels of the name that a text spells.
pub(crate) fn read_labels(alloc: Global, text: &[u8]) -> Result<ListOf<Bytes>, Refused<NameRefusal>>
    requires { length text.now < 2 ^ 32 }
    ensures { Answers result (read_text text.now) }
{
    if is_dot(text) {
        Ok(ListOf::new(alloc))
    } else {
        joined_labels(alloc, text)
    }
}

// The labels that a text other than a dot alone joins by dots.
fn joined_labels(alloc: Global, text: &[u8]) -> Result<ListOf<Bytes>, Refused<NameRefusal>>
    requires small { length text.now < 2 ^ 32 }
    requires joined { is_dot text.now ≡ false }
    ensures { Answers result (read_text text.now) }
{
    let mut labels = ListOf::new(alloc);
    let mut label = ListOf::new(alloc);
    let mut used = 0;
    let mut start = 0;
    let mut place = 0;
    loop {
        match token_at(&text[place..]) {
            Token::End => return text_ends(labels, label, used, start as u32),
            Token::Stop { reason } => {
                return Err(Refused::At {
                    place: place as u32,
                    reason,
                });
            }
            Token::Byte { byte, count } => {
                label.push(byte.to_ascii_lowercase())?;
                place += count;
            }
            Token::Dot => {
                if let Some(reason) = label_fault(used, label.len()) {
                    return Err(Refused::At {
                        place: start as u32,
                        reason,
                    });
                }
                used += 1 + label.len();
                labels.push(label.copy(alloc)?)?;
                label.clear();
                place += 1;
                start = place;
            }
        }
    }
}
