use alt_base::{Duplicate, NoMemory};
use altsvc_grammar::Alts;
use origin_values::Origin;
use std::alloc::Global;

/// What the server is told, or does.
#[derive(Debug, PartialEq, Eq, Drop)]
pub enum ServerAct {
    /// An origin is served from now on.
    Serve { origin: Origin },
    /// It isn't any more.
    Unserve { origin: Origin },
    /// Alternatives are advertised for an origin (RFC 7838 4); not empty, no two of one key.
    Offer { origin: Origin, alts: Alts },
    /// All alternatives of an origin are taken back.
    Withdraw { origin: Origin },
    /// The served origins are announced (RFC 8336).
    Announce,
    /// The message of a number reaches a connection.
    Deliver { message: u32, conn: u64 },
    /// The server answers a request.
    Ask { request: u32 },
}

impl Duplicate for ServerAct {
    fn copy(&self, alloc: Global) -> Result<Self, NoMemory> {
        match self {
            ServerAct::Serve { origin } => Ok(ServerAct::Serve {
                origin: origin.copy(alloc)?,
            }),
            ServerAct::Unserve { origin } => Ok(ServerAct::Unserve {
                origin: origin.copy(alloc)?,
            }),
            ServerAct::Offer { origin, alts } => Ok(ServerAct::Offer {
                origin: origin.copy(alloc)?,
                alts: alts.copy(alloc)?,
            }),
            ServerAct::Withdraw { origin } => Ok(ServerAct::Withdraw {
                origin: origin.copy(alloc)?,
            }),
            ServerAct::Announce => Ok(ServerAct::Announce),
            ServerAct::Deliver { message, conn } => Ok(ServerAct::Deliver {
                message: *message,
                conn: *conn,
            }),
            ServerAct::Ask { request } => Ok(ServerAct::Ask { request: *request }),
        }
    }
}
