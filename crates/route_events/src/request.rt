use alt_base::{Duplicate, NoMemory};
use origin_values::Origin;
use std::alloc::Global;

/// A request: its number and its origin.
#[derive(Debug, PartialEq, Eq, Drop)]
pub struct Request {
    pub number: u32,
    pub origin: Origin,
}

impl Duplicate for Request {
    fn copy(&self, alloc: Global) -> Result<Self, NoMemory> {
        Ok(Request {
            number: self.number,
            origin: self.origin.copy(alloc)?,
        })
    }
}
