use crate::*;
use alias_chain::Endpoint;
use alt_base::{ListOf, NoMemory};
use altsvc_grammar::{AltKey, AltSvc};
use dns_names::Name;
use origin_values::{Host, Origin, Protos, Scheme};
use route_events::{Action, Route};
use std::alloc::Global;
use std::test::Fail;

/// The IPv6 address `::1`.
const LOOPBACK: Host = Host::V6([0, 0, 0, 0, 0, 0, 0, 0, 0, 0, 0, 0, 0, 0, 0, 1]);

/// Origins of addresses, one of each scheme.
const PLAIN: Origin = Origin {
    scheme: Scheme::Http,
    host: LOOPBACK,
    port: 8080,
};

const SECURE: Origin = Origin {
    scheme: Scheme::Https,
    host: Host::V4([192, 0, 2, 1]),
    port: 443,
};

/// An action, and its line.
type Written = (Action, &'static [u8]);

const WRITTEN: [Written; 13] = [
    (
        Action::OpenTo {
            attempt: 7,
            origin: PLAIN,
            route: Route::Direct,
        },
        b"open 7 http://[::1]:8080 direct http/1.1 [::1] 8080",
    ),
    (
        Action::SendOn {
            request: 1,
            conn: 2,
            stream: Some(3),
            alt_used: Some((LOOPBACK, 8443)),
        },
        b"send 1 on 2 stream 3 alt-used [::1]:8443",
    ),
    (
        Action::SendOn {
            request: 4,
            conn: 5,
            stream: None,
            alt_used: Some((Host::V4([192, 0, 2, 1]), 443)),
        },
        b"send 4 on 5 alt-used 192.0.2.1",
    ),
    (Action::Refuse { request: 8 }, b"refuse 8"),
    (Action::Lost { request: 9 }, b"lost 9"),
    (Action::Retry { request: 7 }, b"retry 7"),
    (
        Action::Close {
            conn: 3,
            length: 16385,
        },
        b"close 3 frame 16385",
    ),
    (
        Action::Alternatives {
            origin: Origin {
                scheme: Scheme::Http,
                host: Host::V4([192, 0, 2, 1]),
                port: 8080,
            },
            value: AltSvc::Clear,
        },
        b"alternatives http://192.0.2.1:8080 clear",
    ),
    (
        Action::Field {
            request: 4,
            reason: 13,
            place: 0,
        },
        b"field 4 13 0",
    ),
    (
        Action::Ignored {
            conn: 1,
            kind: 10,
            reason: 6,
            place: 23,
        },
        b"ignored 1 altsvc 6 23",
    ),
    (
        Action::Ignored {
            conn: 2,
            kind: 12,
            reason: 10,
            place: 0,
        },
        b"ignored 2 origin 10 0",
    ),
    (
        Action::Origins {
            conn: 4,
            taken: 1,
            skipped: 2,
        },
        b"origins 4 1 2",
    ),
    (
        Action::Stats {
            alternatives: 1,
            answers: 2,
            broken: 3,
            connections: 4,
            waiting: 18446744073709551615,
        },
        b"stats alternatives 1 answers 2 broken 3 connections 4 waiting 18446744073709551615",
    ),
];

/// Connections that are authoritative, and the line that says so.
const CARRIERS: &[(&[u64], &[u8])] = &[
    (&[2, 10], b"who http://[::1]:8080 2 10"),
    (&[], b"who http://[::1]:8080 none"),
];

/// The protocol, the address and the port of an alternative, and the line of an attempt by it.
const ALTERNATIVES: &[(&[u8], Option<[u8; 4]>, u16, &[u8])] = &[
    (
        b"h3",
        Some([192, 0, 2, 2]),
        8443,
        b"open 7 https://192.0.2.1 alt h3 192.0.2.2 8443",
    ),
    (
        b"http/1.1",
        None,
        444,
        b"open 7 https://192.0.2.1 alt http/1.1 192.0.2.1 444",
    ),
    (
        b"h1",
        None,
        443,
        b"open 7 https://192.0.2.1 alt  192.0.2.1 443",
    ),
];

// The connections that are authoritative for the origin of http.
fn carriers(alloc: Global, conns: &[u64]) -> Result<Action, NoMemory> {
    Ok(Action::Who {
        origin: PLAIN,
        conns: ListOf::from_vec(Vec::from_slice(alloc, conns)?),
    })
}

// An attempt for the origin of https by an alternative.
fn by_alternative(
    alloc: Global,
    proto: &[u8],
    host: Option<[u8; 4]>,
    port: u16,
) -> Result<Action, NoMemory> {
    Ok(Action::OpenTo {
        attempt: 7,
        origin: SECURE,
        route: Route::Alt(AltKey {
            proto: ListOf::from_vec(Vec::from_slice(alloc, proto)?),
            host: host.map(Host::V4),
            port,
        }),
    })
}

// An attempt for the origin of https to an endpoint.
fn to_endpoint(target: Name) -> Action {
    Action::OpenTo {
        attempt: 7,
        origin: SECURE,
        route: Route::Rec(Endpoint {
            target,
            port: 8443,
            protos: Protos {
                h2: true,
                h3: true,
                http11: false,
            },
        }),
    }
}

#[test]
fn lines_of_actions(rt: HostRuntime) -> Result<(), Fail> {
    for (action, want) in WRITTEN {
        assert_eq!(rt; write_action(rt.alloc(), &action)?.as_slice(), want);
    }
    for (conns, want) in CARRIERS {
        let action = carriers(rt.alloc(), *conns)?;
        assert_eq!(rt; write_action(rt.alloc(), &action)?.as_slice(), *want);
    }
    for (proto, host, port, want) in ALTERNATIVES {
        let action = by_alternative(rt.alloc(), *proto, *host, *port)?;
        assert_eq!(rt; write_action(rt.alloc(), &action)?.as_slice(), *want);
    }
    Ok(())
}

#[test]
fn lines_of_names(rt: HostRuntime) -> Result<(), Fail> {
    let open = to_endpoint(Name::from_text(rt.alloc(), b"B.example")?);
    assert_eq!(rt;
        write_action(rt.alloc(), &open)?.as_slice(),
        b"open 7 https://192.0.2.1 rec h2,h3 b.example. 8443".as_slice()
    );
    let malformed = Action::Malformed {
        name: Name::from_text(rt.alloc(), b"B.example")?,
        item: 2,
        reason: 3,
        place: 4,
    };
    assert_eq!(rt;
        write_action(rt.alloc(), &malformed)?.as_slice(),
        b"malformed b.example. 2 3 4".as_slice()
    );
    Ok(())
}
