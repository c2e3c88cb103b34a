ghost use Rattle.std.specs.Prelude.{◌≡◌, ◌≤◌, ◌<◌, ◌^◌, ◌+◌, length, take, drop, IfOk};
ghost use Rattle.std.specs.Str.{str_to_ascii_lowercase};
ghost use Rattle.alt_base.specs.Answers.{Answers};
ghost use Rattle.dns_names.specs.Names.{AreSized, wire_form};
ghost use Rattle.dns_names.specs.WireReading.{begins_with, read_wire};

use crate::NameRefusal;
use alt_base::{Bytes, ListOf, NoMemory, Refused};
use std::alloc::Global;

/// What the rest of a name begins with: its end, a label of so many octets, an octet that is refused, or neither whole.
pub(crate) enum Begins {
    End,
    Label { count: usize },
    Stop { reason: NameRefusal },
    Cut,
}

// What the octets behind so many octets of a name begin with.
fn begins_with(used: usize, rest: &[u8]) -> Begins
    requires { used ≤ 255 }
    ensures { result ≡ begins_with used rest.now }
{
    let Some(octet) = rest.first() else {
        return Begins::Cut;
    };
    let count = *octet as usize;
    if count == 0 {
        Begins::End
    } else if count >= 192 {
        Begins::Stop {
            reason: NameRefusal::Compressed,
        }
    } else if count >= 64 {
        Begins::Stop {
            reason: NameRefusal::LabelTooLong,
        }
    } else if used + 1 + count + 1 > 255 {
        Begins::Stop {
            reason: NameRefusal::NameTooLong,
        }
    } else if rest.len() - 1 < count {
        Begins::Cut
    } else {
        Begins::Label { count }
    }
}

// The label of so many octets behind its length octet, in lower case.
fn label_of(alloc: Global, rest: &[u8], count: usize) -> Result<Bytes, NoMemory>
    requires { count < length rest.now }
    ensures { IfOk result (λ label. label ≡ str_to_ascii_lowercase (take count (drop 1 rest.now))) }
{
    Ok(ListOf::from_vec(rest[1..1 + count].to_ascii_lowercase(alloc)?))
}

/// The labels of the name at the front of some octets, which begin at a place, and the place after it.
pub(crate) fn read_labels(
    alloc: Global,
    octets: &[u8],
    place: u32,
) -> Result<(ListOf<Bytes>, u32), Refused<NameRefusal>>
    requires { place + length octets.now < 2 ^ 32 }
    ensures { Answers result (read_wire place octets.now) }
{
    let mut labels = ListOf::new(alloc);
    let mut used = 0;
    loop {
        let rest = &octets[used..];
        match begins_with(used, rest) {
            Begins::End => return Ok((labels, place + used as u32 + 1)),
            Begins::Label { count } => {
                labels.push(label_of(alloc, rest, count)?)?;
                used += 1 + count;
            }
            Begins::Stop { reason } => {
                return Err(Refused::At {
                    place: place + used as u32,
                    reason,
                });
            }
            Begins::Cut => {
                return Err(Refused::At {
                    place: place + octets.len() as u32,
                    reason: NameRefusal::Short,
                });
            }
        }
    }
}

/// The wire form of labels.
pub(crate) fn write_labels(alloc: Global, labels: &[Bytes]) -> Result<Vec<u8>, NoMemory>
    requires { AreSized labels.now }
    ensures { IfOk result (λ octets. octets.items ≡ wire_form labels.now) }
{
    let mut octets = Vec::new(alloc);
    for label in labels {
        octets.push(label.len() as u8)?;
        octets.extend_from_slice(label.as_slice())?;
    }
    octets.push(0)?;
    Ok(octets)
}
