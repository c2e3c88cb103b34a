/// What a piece gave to an unfinished frame.
pub(crate) enum Continued {
    /// The frame isn't whole yet.
    Unfinished,
    /// So many octets of the piece ended the frame.
    Whole { count: usize },
    /// The frame's head gives a length above the limit.
    TooLarge { length: u32 },
}
