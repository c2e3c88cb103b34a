use crate::AnswerBody;
use alt_base::{Bytes, Duplicate, NoMemory};
use coalescing::CertNames;
use dns_names::Name;
use h2_framing::Head;
use origin_values::{Addr, Origin, Proto};
use std::alloc::Global;

/// What happened.
#[derive(Debug, PartialEq, Eq, Drop)]
pub enum Fact {
    /// A request arrives. Its number is above those of all requests before it.
    Request {
        number: u32,
        origin: Origin,
    },
    /// An attempt ended with a connection: the negotiated protocol, the remote address and port, and the names of the
    /// certificate.
    Opened {
        attempt: u64,
        proto: Proto,
        addr: Addr,
        port: u16,
        names: CertNames,
    },
    /// An attempt ended without a connection.
    Failed {
        attempt: u64,
    },
    /// A connection ended.
    Closed {
        conn: u64,
    },
    /// The final response to a request came: its status (RFC 9110 15), the seconds that its Age field tells
    /// (RFC 9111 5.1), 0 where there is none, and the value of its Alt-Svc field (RFC 7838 3), if there is one. A value has
    /// at most 65,536 bytes.
    Response {
        request: u32,
        status: u16,
        age: u32,
        altsvc: Option<Bytes>,
    },
    /// Octets of the server came on a connection of HTTP/2 (RFC 9113 4.1), behind those that came on it before. They end
    /// frames in whatever pieces they come; at most 65,536 come at once.
    Input {
        conn: u64,
        bytes: Bytes,
    },
    /// An ALTSVC frame (kind 10, RFC 7838 4) or an ORIGIN frame (kind 12, RFC 8336 2) came whole on a connection: the rules
    /// make it of octets, or it is handed in beside them. A payload has at most 16,384 octets.
    Delivered {
        conn: u64,
        head: Head,
        payload: Bytes,
    },
    /// A DNS answer came for a name: what it brings, and for how many seconds that is in force, its TTL (RFC 1035 3.2.1). It
    /// replaces what an earlier one brought of the same kind. Each record has at most 65,536 octets.
    Answer {
        name: Name,
        ttl: u32,
        body: AnswerBody,
    },
    /// The network changed: the client reaches the world by other ways than before.
    Network,
    /// Nothing but that time has come this far.
    Tick,
    /// Which connections are authoritative for an origin is asked.
    Who {
        origin: Origin,
    },
    /// How much of each there is, is asked.
    Stats,
}

impl Duplicate for Fact {
    fn copy(&self, alloc: Global) -> Result<Self, NoMemory> {
        match self {
            Fact::Request { number, origin } => Ok(Fact::Request {
                number: *number,
                origin: origin.copy(alloc)?,
            }),
            Fact::Opened {
                attempt,
                proto,
                addr,
                port,
                names,
            } => Ok(Fact::Opened {
                attempt: *attempt,
                proto: *proto,
                addr: *addr,
                port: *port,
                names: names.copy(alloc)?,
            }),
            Fact::Failed { attempt } => Ok(Fact::Failed { attempt: *attempt }),
            Fact::Closed { conn } => Ok(Fact::Closed { conn: *conn }),
            Fact::Response {
                request,
                status,
                age,
                altsvc,
            } => Ok(Fact::Response {
                request: *request,
                status: *status,
                age: *age,
                altsvc: match altsvc {
                    None => None,
                    Some(value) => Some(value.copy(alloc)?),
                },
            }),
            Fact::Input { conn, bytes } => Ok(Fact::Input {
                conn: *conn,
                bytes: bytes.copy(alloc)?,
            }),
            Fact::Delivered {
                conn,
                head,
                payload,
            } => Ok(Fact::Delivered {
                conn: *conn,
                head: *head,
                payload: payload.copy(alloc)?,
            }),
            Fact::Answer { name, ttl, body } => Ok(Fact::Answer {
                name: name.copy(alloc)?,
                ttl: *ttl,
                body: body.copy(alloc)?,
            }),
            Fact::Network => Ok(Fact::Network),
            Fact::Tick => Ok(Fact::Tick),
            Fact::Who { origin } => Ok(Fact::Who {
                origin: origin.copy(alloc)?,
            }),
            Fact::Stats => Ok(Fact::Stats),
        }
    }
}
