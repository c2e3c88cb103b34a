ghost use Rattle.std.specs.Prelude.{◌≡◌};

use crate::ServerRefusal;
use advertiser_core::ServerFault;
use alt_base::NoMemory;
use route_events::StepRefusal;

/// Why an event is refused: by the server, which is asked first, or by the client's step.
#[derive(Clone, Copy, Debug, PartialEq, Eq)]
pub enum EndRefusal {
    Server(ServerRefusal),
    Step(StepRefusal),
}

/// Why an event isn't taken: memory wasn't found, or it is refused.
#[derive(Clone, Copy, Debug, PartialEq, Eq)]
pub enum EndFault {
    NoMemory,
    Refused(EndRefusal),
}

impl From<NoMemory> for EndFault {
    ghost use Rattle.std.specs.Prelude.{◌≡◌};
    ghost use Rattle.both_ends.specs.declared.fault.EndFault.TheVariants.{NoMemory as OutOfMemory};

    ghost from_gives = { λ _ fault. fault ≡ OutOfMemory };

    fn from(_: NoMemory) -> Self {
        EndFault::NoMemory
    }
}

impl From<ServerFault> for EndFault {
    ghost use Rattle.std.specs.Prelude.{◌≡◌};
    ghost use Rattle.both_ends.specs.Refusals.{fault_of};

    ghost from_gives = { λ over fault. fault ≡ fault_of over };

    fn from(fault: ServerFault) -> Self {
        match fault {
            ServerFault::NoMemory => EndFault::NoMemory,
            ServerFault::NotServed => refused(ServerRefusal::NotServed),
            ServerFault::Full => refused(ServerRefusal::Full),
            ServerFault::OverFrame { length: _ } => refused(ServerRefusal::OverFrame),
        }
    }
}

// Refused by the server.
pub(crate) fn refused(reason: ServerRefusal) -> EndFault
    ensures { result ≡ EndFault.Refused (EndRefusal.Server reason) }
{
    EndFault::Refused(EndRefusal::Server(reason))
}
