ghost use Rattle.std.specs.Prelude.{◌≡◌};

/// How a run ended.
#[derive(Clone, Copy, Debug, PartialEq, Eq)]
pub enum Status {
    /// The input was read to its end, and all was written.
    Done,
    /// A line, or the step of a line, is refused; the line that says so is written last.
    Refused,
    /// The words are no command. Nothing is read or written.
    Usage,
    /// A read failed. What the lines ended by a newline give is written.
    ReadFault,
    /// A write failed. What is written is a front of what would be.
    WriteFault,
    /// Memory wasn't found. What is written is a front of what would be.
    NoMemory,
    /// A line has more than 65,536 bytes, or the input more than 67,108,864. What the lines before give is written.
    TooLong,
}

impl Status {
    ghost use Rattle.altroute_show.specs.Statuses.{number_of_status};

    /// The exit status of the process.
    pub fn number(self) -> u8
        ensures { result ≡ number_of_status self }
    {
        match self {
            Status::Done => 0,
            Status::Refused => 1,
            Status::Usage => 2,
            Status::ReadFault => 3,
            Status::WriteFault => 4,
            Status::NoMemory => 5,
            Status::TooLong => 6,
        }
    }
}
