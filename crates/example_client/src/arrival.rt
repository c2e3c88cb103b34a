use alt_base::Bytes;
use dns_names::Name;
use origin_values::Origin;
use route_events::AnswerBody;

/// What comes to the client from outside. A real client hears of it from its callers, its sockets and its system.
#[derive(Drop)]
pub(crate) enum Arrival {
    /// A caller asks for something of an origin, or asks again where its request was lost.
    Asked {
        origin: Origin,
        again: bool,
    },
    /// The resolver answers what a name has, and for how many seconds that is in force.
    Resolved {
        name: Name,
        ttl: u32,
        body: AnswerBody,
    },
    /// An attempt reached the server of this place in the network.
    Reached {
        attempt: u64,
        server: usize,
    },
    /// An attempt reached no server.
    Missed {
        attempt: u64,
    },
    /// There are octets to read on a connection.
    Readable {
        conn: u64,
    },
    /// The final response to a request came on a connection.
    Answered {
        conn: u64,
        request: u32,
        status: u16,
        altsvc: Option<Bytes>,
    },
    /// The server ended a connection.
    Ended {
        conn: u64,
    },
    /// The system reaches the world by other ways than before.
    Moved,
}
