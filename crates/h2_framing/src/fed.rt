use crate::{FrameReader, Frames};

/// What a piece of a stream brought.
#[derive(Debug, Drop)]
pub enum Fed {
    /// The reader goes on; `frames` are those whose last octet lies in the piece, in order.
    Going { reader: FrameReader, frames: Frames },
    /// A head gives a length above 16,384; `frames` are those of the piece that stand before it.
    TooLarge { frames: Frames, length: u32 },
}
