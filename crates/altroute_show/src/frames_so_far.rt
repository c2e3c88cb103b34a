ghost use Rattle.std.specs.Prelude.{◌≤◌};

use h2_framing::FrameReader;

/// The state between two pieces: the reader of the frames, and the number of octets taken.
#[derive(Drop)]
pub(crate) struct FramesSoFar {
    pub reader: FrameReader,
    pub taken: u32,
    ghost bounded: { taken ≤ 67108864 },
}
