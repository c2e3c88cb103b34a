use crate::Alts;
use alt_base::{Duplicate, NoMemory};
use std::alloc::Global;

/// The value of an Alt-Svc field (RFC 7838 3): all alternatives of the origin are invalid, or these are its
/// alternatives. A list that was read holds at least one alternative, and no two of one key.
#[derive(Debug, PartialEq, Eq, Hash, Drop)]
pub enum AltSvc {
    Clear,
    List(Alts),
}

impl Duplicate for AltSvc {
    fn copy(&self, alloc: Global) -> Result<Self, NoMemory> {
        match self {
            AltSvc::Clear => Ok(AltSvc::Clear),
            AltSvc::List(alts) => Ok(AltSvc::List(alts.copy(alloc)?)),
        }
    }
}
