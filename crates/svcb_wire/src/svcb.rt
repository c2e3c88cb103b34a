use crate::Params;
use alt_base::{Duplicate, NoMemory};
use dns_names::Name;
use std::alloc::Global;

/// A SVCB or HTTPS record (RFC 9460 2).
#[derive(Debug, PartialEq, Eq, Hash, Drop)]
pub struct Svcb {
    /// The priority; 0 is AliasMode (RFC 9460 2.4.2).
    pub priority: u16,
    /// The target; the root stands for the record's own name (RFC 9460 2.5).
    pub target: Name,
    /// The parameters, in strictly increasing keys.
    pub params: Params,
}

impl Duplicate for Svcb {
    fn copy(&self, alloc: Global) -> Result<Self, NoMemory> {
        Ok(Svcb {
            priority: self.priority,
            target: self.target.copy(alloc)?,
            params: self.params.copy(alloc)?,
        })
    }
}
