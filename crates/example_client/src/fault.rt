use advertiser_core::{NotServed, ServerFault};
use alt_base::{Failed, NoMemory, Refused};
use route_events::StepRefusal;
use std::alloc::{AllocError, AllocFailed};

/// Why a run ended early.
#[derive(Debug, Drop)]
pub(crate) enum Fault {
    /// Memory wasn't found.
    NoMemory,
    /// What was to be printed wasn't taken.
    NotPrinted,
    /// The router refused a step: the client broke a rule of the calls.
    Refused(StepRefusal),
    /// The scene has a text that isn't one, or a server that can't be made.
    BadScene,
    /// More came than the client counts.
    TooMuch,
}

impl Fault {
    /// The status that the program ends with.
    pub(crate) fn status(&self) -> u8 {
        match self {
            Fault::Refused(_) => 1,
            Fault::BadScene => 2,
            Fault::NotPrinted => 4,
            Fault::NoMemory => 5,
            Fault::TooMuch => 6,
        }
    }
}

impl From<NoMemory> for Fault {
    fn from(_: NoMemory) -> Self {
        Fault::NoMemory
    }
}

impl From<AllocError> for Fault {
    fn from(_: AllocError) -> Self {
        Fault::NoMemory
    }
}

impl<T: Drop> From<AllocFailed<T>> for Fault {
    fn from(_: AllocFailed<T>) -> Self {
        Fault::NoMemory
    }
}

impl From<Failed> for Fault {
    fn from(_: Failed) -> Self {
        Fault::NotPrinted
    }
}

impl<R: Drop> From<Refused<R>> for Fault {
    fn from(refused: Refused<R>) -> Self {
        match refused {
            Refused::NoMemory => Fault::NoMemory,
            Refused::At { .. } => Fault::BadScene,
        }
    }
}

impl From<NotServed> for Fault {
    fn from(_: NotServed) -> Self {
        Fault::BadScene
    }
}

impl From<ServerFault> for Fault {
    fn from(fault: ServerFault) -> Self {
        match fault {
            ServerFault::NoMemory => Fault::NoMemory,
            _ => Fault::BadScene,
        }
    }
}
