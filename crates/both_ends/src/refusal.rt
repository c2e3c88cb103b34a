ghost use Rattle.std.specs.Prelude.{◌≡◌};
ghost use Rattle.both_ends.specs.Refusals.{refusal_number};

/// Why an act of the server is refused, in the order in which the reasons are tried.
#[derive(Clone, Copy, Debug, PartialEq, Eq)]
pub enum ServerRefusal {
    /// The origin isn't served.
    NotServed,
    /// No message has the number.
    NoSuchMessage,
    /// 16,777,215 messages are kept.
    Full,
    /// The payload would have more than 16,384 octets.
    OverFrame,
}

impl ServerRefusal {
    /// Its number in the line of a refusal. It takes no memory.
    pub fn number(self) -> u8
        ensures { result ≡ refusal_number self }
    {
        match self {
            ServerRefusal::NotServed => 1,
            ServerRefusal::NoSuchMessage => 2,
            ServerRefusal::Full => 4,
            ServerRefusal::OverFrame => 3,
        }
    }
}
