ghost use Rattle.std.specs.Prelude.{◌≡◌, ◌<◌, ◌≤◌, ◌+◌, ◌*◌, ◌^◌, length, IfOk, OnOk, option_map};
ghost use Rattle.alt_base.specs.Answers.{Answers, IfRefused};
ghost use Rattle.origin_frame.specs.PayloadGrammar.{SpellsListed, ListedRefusedAt};
ghost use Rattle.origin_values.specs.AsciiReading.{ascii_origin};
ghost use Rattle.origin_frame.specs.PayloadReading.{read_entries, read_listed};
ghost use Rattle.origin_frame.specs.PayloadWritten.{AreOrigins};
ghost use Rattle.origin_frame.specs.Entries.{entry_of, with_last};
ghost use Rattle.origin_frame.specs.declared.listed.Listed.{Listed};

use crate::{Listed, OriginFrameRefusal, Origins};
use alt_base::{NoMemory, Refused};
use origin_values::ascii_origin;
use std::alloc::Global;

/// The flags with which a frame is ignored (RFC 8336 2.2): 1, 2, 4 and 8.
const IGNORED_FLAGS: u8 = 0x0F;

/// What an ORIGIN frame on this stream, with these flags and this payload lists (RFC 8336 2.1): the origins of the
/// entries that are an origin's ASCII text (RFC 6454 6.2), and the number of the others, which are skipped.
///
/// Refused, in this order: `NotStreamZero` at 0 on any other stream, `Flags` at 0 where one of the flags 1, 2, 4 and 8 is
/// set, and `EntryPast` at the first octet of an entry that passes the end, whatever stands before it.
pub fn parse(
    alloc: Global,
    stream: u32,
    flags: u8,
    payload: &[u8],
) -> Result<Listed, Refused<OriginFrameRefusal>>
    requires { length payload.now < 2 ^ 32 }
    ensures reading { Answers result (read_listed stream flags payload.now) }
    ensures ok { IfOk result (λ listed. SpellsListed stream flags payload.now listed) }
    ensures valid { IfOk result (λ listed. AreOrigins listed.origins) }
    ensures refused { IfRefused result (λ place reason. ListedRefusedAt stream flags payload.now place reason) }
{
    read_listed(alloc, stream, flags, payload)
}

fn read_listed(
    alloc: Global,
    stream: u32,
    flags: u8,
    payload: &[u8],
) -> Result<Listed, Refused<OriginFrameRefusal>>
    requires { length payload.now < 2 ^ 32 }
    ensures { Answers result (read_listed stream flags payload.now) }
{
    if stream != 0 {
        return Err(Refused::At {
            place: 0,
            reason: OriginFrameRefusal::NotStreamZero,
        });
    }
    if flags & IGNORED_FLAGS != 0 {
        return Err(Refused::At {
            place: 0,
            reason: OriginFrameRefusal::Flags,
        });
    }
    read_entries(alloc, payload)
}

// What the entries of a payload give.
fn read_entries(alloc: Global, payload: &[u8]) -> Result<Listed, Refused<OriginFrameRefusal>>
    requires { length payload.now < 2 ^ 32 }
    ensures { Answers result (read_entries payload.now) }
{
    let mut listed = Listed {
        origins: Origins::new(alloc),
        skipped: 0,
    };
    let mut place = 0;
    while place < payload.len() {
        let entry = match first_entry(&payload[place..]) {
            Some(entry) => entry,
            None => {
                return Err(Refused::At {
                    place: place as u32,
                    reason: OriginFrameRefusal::EntryPast,
                });
            }
        };
        add_entry(alloc, &mut listed, entry)?;
        place += 2 + entry.len();
    }
    Ok(listed)
}

// The entry in front, if it doesn't pass the end.
fn first_entry(octets: &[u8]) -> Option<&[u8]>
    ensures { option_map (λ entry. entry.now) result ≡ entry_of octets.now }
{
    match octets {
        [high, low, rest @ ..] => rest.get(..usize::from(*high) * 256 + usize::from(*low)),
        _ => None,
    }
}

// Adds what an entry lists.
fn add_entry(alloc: Global, listed: &mut Listed, entry: &[u8]) -> Result<(), NoMemory>
    requires room { listed.old.skipped + 1 < 2 ^ 32 }
    requires short { length entry.now < 2 ^ 32 }
    ensures { OnOk result (listed.new ≡ with_last (ascii_origin entry.now) listed.old) }
{
    match ascii_origin(alloc, entry)? {
        Some(origin) => listed.origins.push(origin)?,
        None => listed.skipped += 1,
    }
    Ok(())
}
