ghost use Rattle.std.specs.Prelude.{◌≡◌};
ghost use Rattle.svcb_text.specs.RefusalNumbers.{text_refusal_number};

/// Why a text is no record.
#[derive(Clone, Copy, Debug, PartialEq, Eq)]
pub enum RecordTextRefusal {
    /// No priority of at most 65535: at its first byte, or at the length.
    BadPriority,
    /// The target is refused: at the place where the name is, or at the length.
    BadTarget,
    /// No key, or neither `=`, a blank nor the end behind it: at its first byte.
    BadKey,
    /// A key that came before: at its first byte.
    RepeatedKey,
    /// A value that is no string: at the wrong byte or the backslash, or at the length for an open quote.
    BadString,
    /// A value that isn't of its key's form: behind the `=`, or behind the key where there is none.
    BadValue { key: u16 },
    /// A record with a priority that lacks a mandatory key, or has no-default-alpn without alpn: at the length.
    Inconsistent,
    /// More than 65,535 bytes: at 65,535. RDATA of more than 65,535 octets: at the length.
    TooLong,
}

impl RecordTextRefusal {
    /// Its number, from 1 in the order in which the refusals stand here. It takes no memory.
    pub fn number(self) -> u8
        ensures { result ≡ text_refusal_number self }
    {
        match self {
            RecordTextRefusal::BadPriority => 1,
            RecordTextRefusal::BadTarget => 2,
            RecordTextRefusal::BadKey => 3,
            RecordTextRefusal::RepeatedKey => 4,
            RecordTextRefusal::BadString => 5,
            RecordTextRefusal::BadValue { .. } => 6,
            RecordTextRefusal::Inconsistent => 7,
            RecordTextRefusal::TooLong => 8,
        }
    }
}
