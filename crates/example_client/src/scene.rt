//! Which servers there are, and what is asked of them.
use crate::arrival::Arrival;
use crate::fault::Fault;
use crate::network::Network;
use crate::queue::Queue;
use crate::record::Record;
use crate::server::Server;
use crate::site::Site;
use crate::texts::{name, origin};
use alt_base::Moment;
use origin_values::Proto;
use std::alloc::Global;

/// An empty SETTINGS frame (RFC 9113 6.5), which the router passes over.
const SETTINGS: &[u8] = b"\x00\x00\x00\x04\x00\x00\x00\x00\x00";

/// A site of HTTP/2 that serves one origin, and does nothing else.
const PLAIN: Site = Site {
    host: b"a.example",
    addr: [192, 0, 2, 1],
    port: 443,
    proto: Proto::H2,
    names: b"a.example",
    first: SETTINGS,
    serves: &[b"https://a.example"],
    announces: false,
    offers: b"",
    moved: &[],
    altsvc: b"",
    ends: false,
};

/// The servers that can be reached. None stands at d.example.
const SITES: [Site; 6] = [
    // It says which origins it serves, and where a.example is served too; c.example has moved since.
    Site {
        names: b"a.example,b.example,c.example",
        serves: &[
            b"https://a.example",
            b"https://b.example",
            b"https://c.example",
        ],
        announces: true,
        offers: b"h2=\":8443\"; ma=600",
        moved: &[b"https://c.example"],
        ..PLAIN
    },
    // Its other end, which ends each connection in place of an answer.
    Site {
        port: 8443,
        ends: true,
        ..PLAIN
    },
    // The server of c.example by now, and of two sites beside it. Its alternative over HTTP/3 nobody reaches.
    Site {
        host: b"c.example",
        addr: [192, 0, 2, 3],
        names: b"c.example,h.example,i.example",
        serves: &[
            b"https://c.example",
            b"https://h.example",
            b"https://i.example",
        ],
        altsvc: b"h3=\":443\"; ma=600",
        ..PLAIN
    },
    // A server of HTTP/1.1, which has one request at a time.
    Site {
        host: b"e.example",
        addr: [192, 0, 2, 5],
        proto: Proto::Http11,
        names: b"e.example",
        first: b"",
        serves: &[b"https://e.example"],
        ..PLAIN
    },
    // The head of a frame whose length is too large (RFC 9113 4.2).
    Site {
        host: b"f.example",
        addr: [192, 0, 2, 6],
        names: b"f.example",
        first: b"\x00\x00\x00\x04\x00\x00\x00\x00\x00\x00\x40\x01\x00\x00\x00\x00\x00\x01",
        serves: &[b"https://f.example"],
        ..PLAIN
    },
    // A server without TLS.
    Site {
        host: b"g.example",
        addr: [192, 0, 2, 7],
        port: 80,
        proto: Proto::Http11,
        names: b"-",
        first: b"",
        serves: &[b"http://g.example"],
        altsvc: b"clear",
        ..PLAIN
    },
];

/// What the resolver answers for names, and when: h.example has the address of c.example, so that one connection may serve
/// both, and the record of i.example leads to c.example, over HTTP/2.
const ANSWERS: [(u32, &[u8], Record); 2] = [
    (110, b"h.example", Record::Address([192, 0, 2, 3])),
    (
        120,
        b"i.example",
        Record::Https(b"\x00\x01\x01c\x07example\x00\x00\x01\x00\x03\x02h2"),
    ),
];

/// For how many seconds an answer is in force.
const TTL: u32 = 60;

/// What is asked, and when.
const WISHES: [(u32, &[u8]); 15] = [
    (0, b"https://a.example"),
    (10, b"https://b.example"),
    (10, b"https://c.example"),
    (20, b"https://a.example"),
    (30, b"https://a.example"),
    (40, b"https://d.example"),
    (50, b"https://e.example"),
    (50, b"https://e.example"),
    (60, b"https://f.example"),
    (80, b"http://g.example"),
    (90, b"https://c.example"),
    (100, b"https://c.example"),
    (110, b"https://h.example"),
    (120, b"https://i.example"),
    (210, b"https://a.example"),
];

/// When the network changes.
const MOVES: u32 = 200;

/// The servers that can be reached.
pub(crate) fn network(alloc: Global) -> Result<Network, Fault> {
    let mut servers = Vec::new(alloc);
    for site in &SITES {
        servers.push(Server::new(alloc, site)?)?;
    }
    Ok(Network { servers })
}

/// Lets all come that is answered and asked. An answer comes before the request that it is for.
pub(crate) fn fill(alloc: Global, queue: &mut Queue) -> Result<(), Fault> {
    for (at, text, record) in ANSWERS {
        let arrival = Arrival::Resolved {
            name: name(alloc, text)?,
            ttl: TTL,
            body: record.body(alloc)?,
        };
        queue.add(Moment(at), 0, arrival)?;
    }
    for (at, text) in WISHES {
        let origin = origin(alloc, text)?;
        let again = false;
        queue.add(Moment(at), 0, Arrival::Asked { origin, again })?;
    }
    queue.add(Moment(MOVES), 0, Arrival::Moved)?;
    Ok(())
}
