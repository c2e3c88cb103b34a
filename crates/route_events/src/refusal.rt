use alt_base::Moment;

/// Why a step isn't taken.
#[derive(Clone, Copy, Debug, PartialEq, Eq)]
pub enum StepRefusal {
    /// So many facts were taken already, which is the most.
    Spent { facts: u32 },
    /// The moment is before that of the newest step.
    TimeBack { last: Moment },
    /// A request's number isn't above that of the newest request, 0 where there is none.
    NumberNotAbove { last: u32 },
    /// An attempt that isn't pending can't end.
    NoSuchAttempt,
    /// A connection that isn't open can't end, and nothing comes on it.
    NoSuchConn,
    /// On a connection that isn't one of HTTP/2 no frames come.
    NotFramed,
    /// A request that isn't outstanding can't be answered.
    NoSuchRequest,
}
