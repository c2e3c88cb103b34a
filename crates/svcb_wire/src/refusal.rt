ghost use Rattle.std.specs.Prelude.{◌≡◌};
ghost use Rattle.svcb_wire.specs.RefusalNumbers.{refusal_number};

/// Why octets are no record.
#[derive(Clone, Copy, Debug, PartialEq, Eq)]
pub enum WireRefusal {
    /// Fewer than 2 octets for the priority, or 1 to 3 octets for a key and a length: at the length.
    Short,
    /// The target is refused: at the place where the name is.
    BadTarget,
    /// A key that isn't above the key before: at its first octet.
    KeyOrder,
    /// A value's length that passes the end: at the key's first octet.
    ParamPast,
    /// A value that isn't of its key's form: at the value's first place.
    BadValue { key: u16 },
    /// More than 65,535 octets: at 65,535.
    TooLong,
}

impl WireRefusal {
    /// Its number, from 1 in the order in which the refusals stand here. It takes no memory.
    pub fn number(self) -> u8
        ensures { result ≡ refusal_number self }
    {
        match self {
            WireRefusal::Short => 1,
            WireRefusal::BadTarget => 2,
            WireRefusal::KeyOrder => 3,
            WireRefusal::ParamPast => 4,
            WireRefusal::BadValue { .. } => 5,
            WireRefusal::TooLong => 6,
        }
    }
}
