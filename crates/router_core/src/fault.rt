use crate::Router;
use alt_base::NoMemory;
use route_events::StepRefusal;

/// Why a step wasn't taken: memory wasn't found, and the router is gone; or the step is refused, and the router comes
/// back as it was.
#[derive(Drop)]
pub enum StepFault {
    NoMemory,
    Refused {
        router: Router,
        refusal: StepRefusal,
    },
}

impl From<NoMemory> for StepFault {
    ghost use Rattle.std.specs.Prelude.{◌≡◌};
    ghost use Rattle.router_core.specs.declared.fault.StepFault.TheVariants.{NoMemory as OutOfMemory};

    ghost from_gives = { λ _ fault. fault ≡ OutOfMemory };

    fn from(_: NoMemory) -> Self {
        StepFault::NoMemory
    }
}
