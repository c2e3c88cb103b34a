use alt_base::NoMemory;
use origin_frame::OverFault;

/// Why an origin isn't unserved: it isn't served.
#[derive(Clone, Copy, Debug, PartialEq, Eq)]
pub struct NotServed;

/// Why no message was made, in the order in which the reasons are tried; memory may lack at any place.
#[derive(Clone, Copy, Debug, PartialEq, Eq)]
pub enum ServerFault {
    NoMemory,
    /// The origin isn't served.
    NotServed,
    /// 16,777,215 messages are kept.
    Full,
    /// The payload would have this many octets, more than 16,384; 18,446,744,073,709,551,615 where it is more than that.
    OverFrame { length: u64 },
}

impl From<NoMemory> for ServerFault {
    ghost use Rattle.std.specs.Prelude.{◌≡◌};
    ghost use Rattle.advertiser_core.specs.declared.fault.ServerFault.TheVariants.{NoMemory as NoMemoryFound};

    ghost from_gives = { λ _ fault. fault ≡ NoMemoryFound };

    fn from(_: NoMemory) -> Self {
        ServerFault::NoMemory
    }
}

impl From<OverFault> for ServerFault {
    ghost use Rattle.std.specs.Prelude.{◌≡◌};
    ghost use Rattle.advertiser_core.specs.Refusals.{fault_of};

    ghost from_gives = { λ over fault. fault ≡ fault_of over };

    fn from(over: OverFault) -> Self {
        match over {
            OverFault::NoMemory => ServerFault::NoMemory,
            OverFault::OverFrame { length } => ServerFault::OverFrame { length },
        }
    }
}
