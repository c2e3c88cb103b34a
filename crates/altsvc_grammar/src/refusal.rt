ghost use Rattle.std.specs.Prelude.{◌≡◌};
ghost use Rattle.altsvc_grammar.specs.RefusalNumbers.{refusal_number};

/// Why a text is no value of an Alt-Svc field.
#[derive(Clone, Copy, Debug, PartialEq, Eq, Hash)]
pub enum AltRefusal {
    /// There is no element.
    Empty,
    /// No token stands where an element begins, or the protocol has more than 255 bytes.
    BadToken,
    /// A `%` of a protocol isn't followed by two upper-case hex digits of a byte that has to be so written.
    BadPercent,
    /// A protocol isn't followed by `=`.
    NoEquals,
    /// No quoted string stands behind the `=` of a protocol.
    BadQuoted,
    /// The quoted string holds no authority.
    BadAuthority,
    /// No parameter stands behind a `;`.
    BadParameter,
    /// Something else than a comma follows an element.
    Trailing,
    /// There are more than 16,384 bytes.
    TooLong,
}

impl AltRefusal {
    /// Its number, from 1 in the order in which the refusals stand here. It takes no memory.
    pub fn number(self) -> u8
        ensures { result ≡ refusal_number self }
    {
        match self {
            AltRefusal::Empty => 1,
            AltRefusal::BadToken => 2,
            AltRefusal::BadPercent => 3,
            AltRefusal::NoEquals => 4,
            AltRefusal::BadQuoted => 5,
            AltRefusal::BadAuthority => 6,
            AltRefusal::BadParameter => 7,
            AltRefusal::Trailing => 8,
            AltRefusal::TooLong => 9,
        }
    }
}

/// Why a text is no value of an Alt-Used field.
#[derive(Clone, Copy, Debug, PartialEq, Eq, Hash)]
pub enum UsedRefusal {
    /// No host stands in front.
    BadHost,
    /// No port from 1 to 65535, of 1 to 5 digits, stands behind the colon.
    BadPort,
    /// Something follows.
    Trailing,
}
