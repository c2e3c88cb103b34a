use crate::Route;
use alt_base::{Duplicate, NoMemory};
use coalescing::CertNames;
use origin_values::{Addr, Origin, Proto};
use std::alloc::Global;

/// A connection as it was made: its number, which is that of its attempt, the origin and the route of the attempt, and
/// what its opening told: the negotiated protocol, the remote address and port, and the names of the certificate. The
/// names of a connection without TLS aren't used.
#[derive(Debug, PartialEq, Eq, Drop)]
pub struct Connection {
    pub number: u64,
    pub origin: Origin,
    pub route: Route,
    pub proto: Proto,
    pub addr: Addr,
    pub port: u16,
    pub names: CertNames,
}

impl Duplicate for Connection {
    fn copy(&self, alloc: Global) -> Result<Self, NoMemory> {
        Ok(Connection {
            number: self.number,
            origin: self.origin.copy(alloc)?,
            route: self.route.copy(alloc)?,
            proto: self.proto,
            addr: self.addr,
            port: self.port,
            names: self.names.copy(alloc)?,
        })
    }
}
