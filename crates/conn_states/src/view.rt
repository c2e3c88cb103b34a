//! The states of a connection.
ghost use Rattle.std.specs.Prelude.{◌≡◌, List, Option, None, Some, is_some};
ghost use Rattle.conn_states.specs.Origins.{is_among, known};
ghost use Rattle.conn_states.specs.States.{listed_of};
ghost use Rattle.origin_values.specs.declared.origin.Origin.{Origin as OriginValue};

use crate::origin_set::{OriginSet, holds};
use origin_values::Origin;

mod sealed {
    pub trait Sealed {}
}

/// The state of a connection: none but `Plain` and `Gated`. Its meaning is the origins that ORIGIN frames have listed, or
/// none before the first frame (RFC 8336 2.3).
pub trait View: sealed::Sealed + Drop {
    ghost listed: { Self → Option (List OriginValue) };

    /// Whether there is an origin set. It takes no memory.
    fn has_set(&self) -> bool
        ensures { result ≡ is_some (listed self.now) };

    /// Whether an origin was listed. It takes no memory.
    fn is_listed(&self, origin: &Origin) -> bool
        ensures { result ≡ is_among (known (listed self.now)) origin.now };
}

/// The state without an origin set. None but a connection has one.
#[derive(Debug, Drop)]
pub struct Plain(());

impl Plain {
    pub(crate) fn new() -> Plain {
        Plain(())
    }
}

/// The state with an origin set. None but a connection has one.
#[derive(Drop)]
pub struct Gated {
    pub(crate) listed: OriginSet,
}

impl sealed::Sealed for Plain {}

impl sealed::Sealed for Gated {}

impl View for Plain {
    ghost listed = { λ _. None };

    fn has_set(&self) -> bool {
        false
    }

    fn is_listed(&self, origin: &Origin) -> bool {
        false
    }
}

impl View for Gated {
    ghost listed = { λ gated. Some (listed_of gated) };

    fn has_set(&self) -> bool {
        true
    }

    fn is_listed(&self, origin: &Origin) -> bool {
        holds(&self.listed, origin)
    }
}
