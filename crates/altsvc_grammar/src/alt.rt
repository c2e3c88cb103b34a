use crate::AltKey;
use alt_base::{Duplicate, ListOf, NoMemory};
use std::alloc::Global;

/// An alternative service (RFC 7838 3): its key, for how many seconds it is fresh, at most 2,147,483,648, and whether
/// it stays when the network changes.
#[derive(Debug, PartialEq, Eq, Hash, Drop)]
pub struct Alt {
    pub key: AltKey,
    pub ma: u32,
    pub persist: bool,
}

/// Alternative services, the preferred ones first.
pub type Alts = ListOf<Alt>;

impl Duplicate for Alt {
    fn copy(&self, alloc: Global) -> Result<Self, NoMemory> {
        Ok(Alt {
            key: self.key.copy(alloc)?,
            ma: self.ma,
            persist: self.persist,
        })
    }
}
