//! What a fact asks.
ghost use Rattle.std.specs.Prelude.{◌≡◌, IfOk};
ghost use Rattle.router_core.specs.Asking.{asked_in};

use alt_base::{Duplicate, NoMemory};
use origin_values::Origin;
use route_events::Fact;
use std::alloc::Global;

/// A question to the client: which connections are authoritative for an origin, or how much of each there is.
#[derive(Debug, Drop)]
pub enum Question {
    Carriers(Origin),
    Counts,
}

/// What a fact asks, if it asks. NoMemory comes only where memory isn't found.
pub(crate) fn asked_in(alloc: Global, fact: &Fact) -> Result<Option<Question>, NoMemory>
    ensures { IfOk result (λ asked. asked ≡ asked_in fact.now) }
{
    match fact {
        Fact::Who { origin } => Ok(Some(Question::Carriers(origin.copy(alloc)?))),
        Fact::Stats => Ok(Some(Question::Counts)),
        _ => Ok(None),
    }
}
