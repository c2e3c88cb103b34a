ghost use Rattle.std.specs.Prelude.{◌≤◌};

use alt_base::Bytes;
use both_ends::BothEnds;

/// The state between two bytes: both ends of the history, the bytes of the line so far, the number of the lines that are ended, and
/// the number of bytes taken.
#[derive(Drop)]
pub(crate) struct Replay {
    pub ends: BothEnds,
    pub line: Bytes,
    pub lines: u32,
    pub taken: u32,
    ghost fewer: { lines ≤ taken },
    ghost bounded: { taken ≤ 67108864 },
}
