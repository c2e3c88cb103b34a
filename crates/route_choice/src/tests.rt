use crate::{BasisKind, Broken, Candidate, Candidates, best, first_usable, routes};
use alias_chain::{Endpoint, Endpoints};
use alt_base::{Bytes, ListOf, Moment, NoMemory};
use altsvc_grammar::{Alt, AltKey, Alts};
use dns_names::Name;
use origin_values::{Host, Origin, Protos, Scheme};
use route_events::{Route, Routes};
use std::alloc::Global;
use std::test::Fail;

fn bytes(alloc: Global, text: &str) -> Result<Bytes, NoMemory> {
    Ok(ListOf::from_vec(Vec::from_slice(alloc, text.as_bytes())?))
}

fn origin(alloc: Global, name: &str) -> Result<Origin, NoMemory> {
    Ok(Origin {
        scheme: Scheme::Https,
        host: Host::Name(bytes(alloc, name)?),
        port: 443,
    })
}

fn key(alloc: Global, proto: &str, port: u16) -> Result<AltKey, NoMemory> {
    Ok(AltKey {
        proto: bytes(alloc, proto)?,
        host: None,
        port,
    })
}

fn route(alloc: Global, port: u16) -> Result<Route, NoMemory> {
    Ok(Route::Alt(key(alloc, "h2", port)?))
}

fn alts(alloc: Global, rows: &[(&str, u16)]) -> Result<Alts, NoMemory> {
    let mut alts = ListOf::new(alloc);
    for (proto, port) in rows {
        alts.push(Alt {
            key: key(alloc, *proto, *port)?,
            ma: 86400,
            persist: false,
        })?;
    }
    Ok(alts)
}

// Endpoints at these ports of one name.
fn endpoints(alloc: Global, ports: &[u16]) -> Result<Endpoints, Fail> {
    let mut all = ListOf::new(alloc);
    for port in ports {
        all.push(Endpoint {
            target: Name::from_text(alloc, b"b.test")?,
            port: *port,
            protos: Protos {
                h2: true,
                h3: false,
                http11: true,
            },
        })?;
    }
    Ok(all)
}

// The ports of some routes, 0 for the direct one.
fn ports(alloc: Global, routes: &Routes) -> Result<Vec<u16>, NoMemory> {
    let mut ports = Vec::new(alloc);
    for route in routes.as_slice() {
        match route {
            Route::Direct => ports.push(0)?,
            Route::Alt(key) => ports.push(key.port)?,
            Route::Rec(endpoint) => ports.push(endpoint.port)?,
        }
    }
    Ok(ports)
}

fn fail(
    broken: &mut Broken,
    times: u32,
    now: u32,
    origin: &Origin,
    route: &Route,
) -> Result<(), NoMemory> {
    for _ in 0..times {
        if broken.newest().0 <= now {
            broken.failed(Moment(now), origin, route)?;
        }
    }
    Ok(())
}

fn is_broken(broken: &Broken, now: u32, origin: &Origin, route: &Route) -> bool {
    broken.newest().0 <= now && broken.is_broken(Moment(now), origin, route)
}

fn count(broken: &Broken, now: u32) -> Option<u64> {
    if broken.newest().0 <= now {
        Some(broken.count(Moment(now)))
    } else {
        None
    }
}

// The failures, all at moment 1000, and the last second at which they bar the route.
#[test]
fn backoffs(rt: HostRuntime) -> Result<(), Fail> {
    let alloc = rt.alloc();
    let site = origin(alloc, "a.test")?;
    let way = route(alloc, 1)?;
    for (times, last) in [(1u32, 1299u32), (10, 154599), (11, 173799), (12, 173799)] {
        let mut broken = Broken::new(alloc);
        fail(&mut broken, times, 1000, &site, &way)?;
        assert!(rt; is_broken(&broken, last, &site, &way), "{times} at {last}");
        let next = last.saturating_add(1);
        assert!(rt; !is_broken(&broken, next, &site, &way), "{times} at {next}");
    }
    Ok(())
}

#[test]
fn ends_and_others(rt: HostRuntime) -> Result<(), Fail> {
    let alloc = rt.alloc();
    let (site, other) = (origin(alloc, "a.test")?, origin(alloc, "b.test")?);
    let (way, second) = (route(alloc, 1)?, route(alloc, 2)?);
    let mut broken = Broken::new(alloc);
    fail(&mut broken, 3, 0, &site, &way)?;
    fail(&mut broken, 1, 0, &site, &second)?;
    fail(&mut broken, 1, 0, &other, &way)?;
    fail(&mut broken, 1, 0, &site, &Route::Direct)?;
    assert!(rt; !is_broken(&broken, 0, &site, &Route::Direct));
    assert!(rt; !is_broken(&broken, 0, &other, &second));
    assert_eq!(rt; count(&broken, 0), Some(3));
    assert_eq!(rt; count(&broken, 300), Some(1));
    broken.succeeded(&site, &way);
    assert!(rt; !is_broken(&broken, 0, &site, &way));
    assert!(rt; is_broken(&broken, 0, &site, &second));
    assert!(rt; is_broken(&broken, 0, &other, &way));
    broken.network();
    assert_eq!(rt; count(&broken, 0), Some(0));
    Ok(())
}

#[test]
fn routes_in_order(rt: HostRuntime) -> Result<(), Fail> {
    let alloc = rt.alloc();
    let live = alts(alloc, &[("h2", 1), ("h2c", 2), ("http/1.1", 3), ("h3", 4)])?;
    let found = endpoints(alloc, &[6, 5])?;
    let all = routes(alloc, &origin(alloc, "a.test")?, &live, &found)?;
    let ports = ports(alloc, &all)?;
    assert_eq!(rt; ports.as_slice(), [1u16, 3, 4, 6, 5, 0].as_slice());
    Ok(())
}

// The place of the first usable route of three, where those of some ports have failed and those of others are barred.
fn usable(alloc: Global, failed: &[u16], barred: &[u16]) -> Result<Option<usize>, NoMemory> {
    let site = origin(alloc, "a.test")?;
    let live = alts(alloc, &[("h2", 1), ("h2", 2)])?;
    let all = routes(alloc, &site, &live, &ListOf::new(alloc))?;
    let mut broken = Broken::new(alloc);
    for port in failed {
        fail(&mut broken, 1, 0, &site, &route(alloc, *port)?)?;
    }
    let mut tried = ListOf::new(alloc);
    for port in barred {
        match *port {
            0 => tried.push(Route::Direct)?,
            port => tried.push(route(alloc, port)?)?,
        }
    }
    let now = broken.newest();
    Ok(first_usable(&all, &tried, &broken, &site, now))
}

#[test]
fn first_usable_routes(rt: HostRuntime) -> Result<(), Fail> {
    let alloc = rt.alloc();
    assert_eq!(rt; usable(alloc, &[], &[])?, Some(0));
    assert_eq!(rt; usable(alloc, &[1], &[])?, Some(1));
    assert_eq!(rt; usable(alloc, &[1], &[2])?, Some(2));
    assert_eq!(rt; usable(alloc, &[2], &[0, 1])?, None);
    Ok(())
}

// Candidates with these bases, numbered from 1.
fn candidates(alloc: Global, bases: &[BasisKind]) -> Result<Candidates, NoMemory> {
    let mut all = ListOf::new(alloc);
    for basis in bases {
        let conn = (all.len() as u64).saturating_add(1);
        all.push(Candidate {
            conn,
            basis: *basis,
        })?;
    }
    Ok(all)
}

#[test]
fn best_candidates(rt: HostRuntime) -> Result<(), Fail> {
    let alloc = rt.alloc();
    let (with, other, without) = (BasisKind::ByAlt, BasisKind::ByOther, BasisKind::Without);
    assert_eq!(rt; best(&candidates(alloc, &[])?), None);
    assert_eq!(rt; best(&candidates(alloc, &[without, without])?), Some(1));
    assert_eq!(rt;
        best(&candidates(alloc, &[without, other, other])?),
        Some(2)
    );
    assert_eq!(rt;
        best(&candidates(alloc, &[without, other, with, with])?),
        Some(3)
    );
    Ok(())
}
