ghost use Rattle.std.specs.Prelude.{◌≡◌};
ghost use Rattle.svcb_values.specs.declared.string_fault.StringFault.TheVariants.{NoMemory as NoMemoryFound};

use alt_base::NoMemory;

/// Why no string was read (RFC 9460 appendix A).
#[derive(Clone, Copy, Debug, PartialEq, Eq)]
pub enum StringFault {
    /// Memory wasn't found.
    NoMemory,
    /// The text begins with no string: at the wrong byte or the backslash, at the length for an open quote, or at the byte
    /// behind a closing one. The place is counted from the front of the text in bytes.
    At { place: usize },
}

impl From<NoMemory> for StringFault {
    ghost from_gives = { λ _ e. e ≡ NoMemoryFound };

    fn from(_: NoMemory) -> Self {
        StringFault::NoMemory
    }
}
