/// Why no token or no quoted string stands at a place.
#[derive(Clone, Copy, Debug, PartialEq, Eq, Hash)]
pub enum TextRefusal {
    /// Nothing of it stands at the place.
    Empty,
    /// A byte that can't stand there.
    BadByte,
    /// The text ends before the closing quote.
    Unclosed,
}
