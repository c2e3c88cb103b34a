ghost use Rattle.std.specs.Prelude.{◌≡◌};
ghost use Rattle.alt_base.specs.declared.refusal.Refused.TheVariants.{NoMemory as NoMemoryFound, At as RefusedThere};

use std::alloc::{AllocError, AllocFailed};

/// Memory wasn't found.
#[derive(Clone, Copy, Debug, PartialEq, Eq)]
pub struct NoMemory;

impl From<AllocError> for NoMemory {
    fn from(_: AllocError) -> Self {
        NoMemory
    }
}

impl<T: Drop> From<AllocFailed<T>> for NoMemory {
    fn from(_: AllocFailed<T>) -> Self {
        NoMemory
    }
}

/// A device failed.
#[derive(Clone, Copy, Debug, PartialEq, Eq)]
pub struct Failed;

/// Why a text is refused, and the place of its first bad byte, counted from 0.
#[derive(Clone, Copy, Debug, PartialEq, Eq)]
pub struct At<R> {
    pub place: u32,
    pub reason: R,
}

/// Why no value came of a text: memory wasn't found, or the text is refused at a place, counted from 0.
#[derive(Clone, Copy, Debug, PartialEq, Eq)]
pub enum Refused<R> {
    NoMemory,
    At { place: u32, reason: R },
}

impl<R> From<NoMemory> for Refused<R> {
    ghost from_gives = { λ _ e. e ≡ NoMemoryFound };

    fn from(_: NoMemory) -> Self {
        Refused::NoMemory
    }
}

impl<R> From<AllocError> for Refused<R> {
    ghost from_gives = { λ _ e. e ≡ NoMemoryFound };

    fn from(_: AllocError) -> Self {
        Refused::NoMemory
    }
}

impl<T: Drop, R> From<AllocFailed<T>> for Refused<R> {
    ghost from_gives = { λ _ e. e ≡ NoMemoryFound };

    fn from(_: AllocFailed<T>) -> Self {
        Refused::NoMemory
    }
}

impl<R> From<At<R>> for Refused<R> {
    ghost from_gives = { λ at e. e ≡ RefusedThere at.place at.reason };

    fn from(at: At<R>) -> Self {
        Refused::At {
            place: at.place,
            reason: at.reason,
        }
    }
}
