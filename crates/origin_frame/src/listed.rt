use alt_base::{Duplicate, ListOf, NoMemory};
use origin_values::Origin;
use std::alloc::Global;

/// Origins in order.
pub type Origins = ListOf<Origin>;

/// What an ORIGIN frame lists (RFC 8336 2.1): the origins of its entries, in order, and how many of its entries are no
/// origin's ASCII text.
#[derive(Debug, PartialEq, Eq, Hash, Drop)]
pub struct Listed {
    pub origins: Origins,
    pub skipped: u32,
}

impl Duplicate for Listed {
    fn copy(&self, alloc: Global) -> Result<Self, NoMemory> {
        Ok(Listed {
            origins: self.origins.copy(alloc)?,
            skipped: self.skipped,
        })
    }
}
