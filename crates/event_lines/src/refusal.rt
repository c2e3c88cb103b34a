/// Why a line says nothing that can be read. The place is counted from 0, in bytes of the line.
#[derive(Clone, Copy, Debug, PartialEq, Eq)]
pub enum LineRefusal {
    /// What stands before the first space, or the whole line, is no moment: at 0.
    BadMoment,
    /// The kind is none of those that are read: at its first byte, or at the line's length where it is missing.
    UnknownKind,
    /// A field isn't of its form: at its first byte, or at the line's length where it is missing.
    BadField,
    /// A field follows the last one: at the first byte after the space before it.
    ExtraField,
}
