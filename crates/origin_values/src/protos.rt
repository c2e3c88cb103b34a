use alt_base::{Duplicate, NoMemory};
use std::alloc::Global;

/// A set of protocols: of HTTP/2, HTTP/3 and HTTP/1.1, those that are in it.
#[derive(Clone, Copy, Debug, PartialEq, Eq, Hash)]
pub struct Protos {
    pub h2: bool,
    pub h3: bool,
    pub http11: bool,
}

impl Duplicate for Protos {
    fn copy(&self, alloc: Global) -> Result<Self, NoMemory> {
        Ok(*self)
    }
}
