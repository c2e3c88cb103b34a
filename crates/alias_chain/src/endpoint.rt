use alt_base::{Duplicate, NoMemory};
use dns_names::Name;
use origin_values::Protos;
use std::alloc::Global;

/// Where a connection for an origin may go by its HTTPS records (RFC 9460 3): a name whose addresses are used, a port, and
/// the protocols.
#[derive(Debug, PartialEq, Eq, Hash, Drop)]
pub struct Endpoint {
    pub target: Name,
    pub port: u16,
    pub protos: Protos,
}

impl Duplicate for Endpoint {
    fn copy(&self, alloc: Global) -> Result<Self, NoMemory> {
        Ok(Endpoint {
            target: self.target.copy(alloc)?,
            port: self.port,
            protos: self.protos,
        })
    }
}
