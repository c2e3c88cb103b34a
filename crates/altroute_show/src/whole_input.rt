ghost use Rattle.std.specs.Prelude.{◌≡◌, ◌≤◌, ◌<◌, ◌+◌, ◌++◌, length, ℕ, List, IfNone};
ghost use Rattle.alt_base.specs.Devices.{Took};
ghost use Rattle.altroute_show.specs.WholeInput.{ReadEnds, Taken, ReadTurn, SourceSeen};

use crate::Status;
use alt_base::{Bytes, ListOf, Source};
use std::alloc::Global;

const INPUT_LIMIT: usize = 67_108_864;

const PIECE: usize = 4_096;

// Reads once, and keeps the piece that was read. Some is the end, with its status.
fn read_more<S: Source>(input: &mut Vec<u8>, source: &mut S) -> Option<Result<(), Status>>
    requires { length input.old.items ≤ 67108864 }
    ensures fits { IfNone result (length input.new.items ≤ 67108864) }
    ensures further { IfNone result (length input.old.items < length input.new.items) }
    ensures turn { (first : SourceSeen) →
        Taken first (record { left = S.left source.old; ended = S.ended source.old; faults = S.faults source.old }) input.old.items →
        ReadTurn result first (record { left = S.left source.new; ended = S.ended source.new; faults = S.faults source.new }) input.new.items }
{
    let mut buf = [0_u8; PIECE];
    match source.read(&mut buf) {
        Err(_) => Some(Err(Status::ReadFault)),
        Ok(count) => {
            if count == 0 {
                return Some(Ok(()));
            }
            if count > INPUT_LIMIT - input.len() {
                return Some(Err(Status::TooLong));
            }
            match input.extend_from_slice(&buf[..count]) {
                Ok(()) => None,
                Err(_) => Some(Err(Status::NoMemory)),
            }
        }
    }
}

/// Reads the whole input, of at most 67,108,864 bytes.
pub(crate) fn read_all<S: Source>(alloc: Global, source: &mut S) -> Result<Bytes, Status>
    ensures { ReadEnds result
        (record { left = S.left source.old; ended = S.ended source.old; faults = S.faults source.old })
        (record { left = S.left source.new; ended = S.ended source.new; faults = S.faults source.new }) }
{
    let mut input = Vec::new(alloc);
    loop {
        if let Some(end) = read_more(&mut input, source) {
            return match end {
                Ok(()) => Ok(ListOf::from_vec(input)),
                Err(status) => Err(status),
            };
        }
    }
}
