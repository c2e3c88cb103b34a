ghost use Rattle.std.specs.Prelude.{◌≡◌};
ghost use Rattle.origin_frame.specs.RefusalNumbers.{refusal_number};

/// Why an ORIGIN frame is ignored (RFC 8336 2.1 and 2.2), in the order in which the reasons are tried.
#[derive(Clone, Copy, Debug, PartialEq, Eq)]
pub enum OriginFrameRefusal {
    /// The frame's stream isn't 0: at place 0.
    NotStreamZero,
    /// One of the flags 1, 2, 4 and 8 is set: at place 0.
    Flags,
    /// An entry passes the end of the payload: at the entry's first octet.
    EntryPast,
}

impl OriginFrameRefusal {
    /// Its number, from 1 in the order in which the refusals stand here. It takes no memory.
    pub fn number(self) -> u8
        ensures { result ≡ refusal_number self }
    {
        match self {
            OriginFrameRefusal::NotStreamZero => 1,
            OriginFrameRefusal::Flags => 2,
            OriginFrameRefusal::EntryPast => 3,
        }
    }
}
