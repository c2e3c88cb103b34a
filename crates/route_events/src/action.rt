use crate::Route;
use alt_base::{Duplicate, ListOf, NoMemory};
use altsvc_grammar::AltSvc;
use dns_names::Name;
use origin_values::{Host, Origin};
use std::alloc::Global;

/// What the client does.
#[derive(Debug, PartialEq, Eq, Drop)]
pub enum Action {
    /// An attempt starts for an origin by a route. Attempts are numbered from 1 in the order of these actions.
    OpenTo {
        attempt: u64,
        origin: Origin,
        route: Route,
    },
    /// A request is sent on a connection, on a stream where that is one of HTTP/2 (RFC 9113 5.1.1). Where an
    /// alternative carries it, its host and port are told to the server (RFC 7838 5).
    SendOn {
        request: u32,
        conn: u64,
        stream: Option<u32>,
        alt_used: Option<(Host, u16)>,
    },
    /// A request is refused: there is no way to its origin.
    Refuse {
        request: u32,
    },
    /// A request was outstanding on a connection that ended.
    Lost {
        request: u32,
    },
    /// A request was answered by a server that isn't the origin's, by status 421 (RFC 9110 15.5.20): it waits again.
    Retry {
        request: u32,
    },
    /// A connection is closed: the head of a frame gave this length, which is too large (RFC 9113 4.2).
    Close {
        conn: u64,
        length: u32,
    },
    /// A value of Alt-Svc was taken: from now on it is all that is known of the origin's alternatives (RFC 7838 3).
    Alternatives {
        origin: Origin,
        value: AltSvc,
    },
    /// The Alt-Svc of a response wasn't taken, for this reason: 1 to 9 where it is no value, as `AltRefusal` numbers
    /// them, with the place; 11 where the response is a 421 (RFC 7838 6), 12 where the origin is of http, and 13 where
    /// the connection isn't authoritative for the origin, all three with place 0.
    Field {
        request: u32,
        reason: u8,
        place: u32,
    },
    /// A frame of this kind, 10 (ALTSVC) or 12 (ORIGIN), was ignored for this reason: 1 to 6, or 1 to 3 for ORIGIN, where its
    /// payload is none, in the order of `AltFrameRefusal` and `OriginFrameRefusal`, with the place; 7 where the connection
    /// isn't authoritative for the origin, 8 where no request is outstanding on the stream, 9 where the origin is of http,
    /// and 10 where the connection is without TLS, all four with place 0.
    Ignored {
        conn: u64,
        kind: u8,
        reason: u8,
        place: u32,
    },
    /// An ORIGIN frame was accepted (RFC 8336 2.3): how many origins it listed, and how many entries were skipped.
    Origins {
        conn: u64,
        taken: u32,
        skipped: u32,
    },
    /// An answer of HTTPS records for a name holds a malformed one, and counts as empty (RFC 9460 2.2): the number of the
    /// first, from 1, and why it is none, 1 to 6 in the order of `WireRefusal`, with the place.
    Malformed {
        name: Name,
        item: u64,
        reason: u8,
        place: u32,
    },
    /// These connections are authoritative for an origin, in the order of their opening.
    Who {
        origin: Origin,
        conns: Conns,
    },
    /// How much of each there is: live alternatives of all origins, of whatever protocol; names and kinds that have an answer
    /// in force, be it empty; routes of origins that are broken; open connections; waiting requests. Where a number is above
    /// the greatest of 64 bits, it is that one.
    Stats {
        alternatives: u64,
        answers: u64,
        broken: u64,
        connections: u64,
        waiting: u64,
    },
}

/// Numbers of connections in order.
pub type Conns = ListOf<u64>;

/// Actions in order.
pub type Actions = ListOf<Action>;

impl Duplicate for Action {
    fn copy(&self, alloc: Global) -> Result<Self, NoMemory> {
        match self {
            Action::OpenTo {
                attempt,
                origin,
                route,
            } => Ok(Action::OpenTo {
                attempt: *attempt,
                origin: origin.copy(alloc)?,
                route: route.copy(alloc)?,
            }),
            Action::SendOn {
                request,
                conn,
                stream,
                alt_used,
            } => Ok(Action::SendOn {
                request: *request,
                conn: *conn,
                stream: *stream,
                alt_used: match alt_used {
                    None => None,
                    Some((host, port)) => Some((host.copy(alloc)?, *port)),
                },
            }),
            Action::Refuse { request } => Ok(Action::Refuse { request: *request }),
            Action::Lost { request } => Ok(Action::Lost { request: *request }),
            Action::Retry { request } => Ok(Action::Retry { request: *request }),
            Action::Close { conn, length } => Ok(Action::Close {
                conn: *conn,
                length: *length,
            }),
            Action::Alternatives { origin, value } => Ok(Action::Alternatives {
                origin: origin.copy(alloc)?,
                value: value.copy(alloc)?,
            }),
            Action::Field {
                request,
                reason,
                place,
            } => Ok(Action::Field {
                request: *request,
                reason: *reason,
                place: *place,
            }),
            Action::Ignored {
                conn,
                kind,
                reason,
                place,
            } => Ok(Action::Ignored {
                conn: *conn,
                kind: *kind,
                reason: *reason,
                place: *place,
            }),
            Action::Origins {
                conn,
                taken,
                skipped,
            } => Ok(Action::Origins {
                conn: *conn,
                taken: *taken,
                skipped: *skipped,
            }),
            Action::Malformed {
                name,
                item,
                reason,
                place,
            } => Ok(Action::Malformed {
                name: name.copy(alloc)?,
                item: *item,
                reason: *reason,
                place: *place,
            }),
            Action::Who { origin, conns } => Ok(Action::Who {
                origin: origin.copy(alloc)?,
                conns: conns.copy(alloc)?,
            }),
            Action::Stats {
                alternatives,
                answers,
                broken,
                connections,
                waiting,
            } => Ok(Action::Stats {
                alternatives: *alternatives,
                answers: *answers,
                broken: *broken,
                connections: *connections,
                waiting: *waiting,
            }),
        }
    }
}
