ghost use Rattle.std.specs.Prelude.{◌≡◌};
ghost use Rattle.origin_frame.specs.declared.over_fault.OverFault.TheVariants.{NoMemory as NoMemoryFound};

use alt_base::NoMemory;

/// Why origins weren't written as a payload.
#[derive(Clone, Copy, Debug, PartialEq, Eq)]
pub enum OverFault {
    NoMemory,
    /// The payload would have this many octets, more than 16,384; 18,446,744,073,709,551,615 where it is more than that.
    OverFrame { length: u64 },
}

impl From<NoMemory> for OverFault {
    ghost from_gives = { λ _ e. e ≡ NoMemoryFound };

    fn from(_: NoMemory) -> Self {
        OverFault::NoMemory
    }
}
