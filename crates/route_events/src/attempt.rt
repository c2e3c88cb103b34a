use crate::Route;
use alt_base::{Duplicate, NoMemory};
use origin_values::Origin;
use std::alloc::Global;

/// An attempt to open a connection: its number, from 1, the origin that it is for, and the route that it takes.
#[derive(Debug, PartialEq, Eq, Drop)]
pub struct Attempt {
    pub number: u64,
    pub origin: Origin,
    pub route: Route,
}

impl Duplicate for Attempt {
    fn copy(&self, alloc: Global) -> Result<Self, NoMemory> {
        Ok(Attempt {
            number: self.number,
            origin: self.origin.copy(alloc)?,
            route: self.route.copy(alloc)?,
        })
    }
}
