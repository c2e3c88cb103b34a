ghost use Rattle.std.specs.Prelude.{◌≡◌};
ghost use Rattle.altsvc_frame.specs.RefusalNumbers.{refusal_number};

/// Why an ALTSVC frame is ignored (RFC 7838 4), in the order in which the reasons are tried.
#[derive(Clone, Copy, Debug, PartialEq, Eq)]
pub enum AltFrameRefusal {
    /// The payload has fewer than two octets: at its length.
    Short,
    /// The origin's length passes the end of the payload: at place 0.
    OriginPast,
    /// The stream is 0 and the origin is empty: at place 0.
    EmptyOnZero,
    /// The stream isn't 0 and the origin isn't empty: at place 0.
    OriginOnStream,
    /// The origin isn't the ASCII text of one: at place 2.
    BadOrigin,
    /// The value of the field is refused: at its place behind the two octets and the origin.
    BadField,
}

impl AltFrameRefusal {
    /// Its number, from 1 in the order in which the refusals stand here. It takes no memory.
    pub fn number(self) -> u8
        ensures { result ≡ refusal_number self }
    {
        match self {
            AltFrameRefusal::Short => 1,
            AltFrameRefusal::OriginPast => 2,
            AltFrameRefusal::EmptyOnZero => 3,
            AltFrameRefusal::OriginOnStream => 4,
            AltFrameRefusal::BadOrigin => 5,
            AltFrameRefusal::BadField => 6,
        }
    }
}
