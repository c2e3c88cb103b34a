ghost use Rattle.std.specs.Prelude.{◌≡◌, IfOk};
ghost use Rattle.route_events.specs.Journal.{Journal, newest_moment};
ghost use Rattle.route_events.specs.Step.{step};
ghost use Rattle.router_core.specs.Fitting.{IsFit};
ghost use Rattle.router_core.specs.StandsFor.{StandsFor};

use crate::tests::bytes_of;
use alt_base::{Duplicate, Moment, NoMemory};
use coalescing::parse_names;
use origin_values::{Addr, Origin, Proto};
use route_events::{Fact, Route};
use router_core::Router;
use std::test::Fail;

// The router after a step that is taken.
fn told(router: Router, now: Moment, fact: Fact) -> Result<Router, NoMemory>
    requires { IsFit fact }
    ensures stands { IfOk result (λ r. (journal : Journal) → StandsFor router journal → StandsFor r (step journal now.0 fact)) }
    ensures moment { IfOk result (λ r. (journal : Journal) → StandsFor router journal → newest_moment (step journal now.0 fact) ≡ now.0) }
{
    match router.step(now, fact) {
        Ok((router, _)) => Ok(router),
        Err(_) => Err(NoMemory),
    }
}

// What a router lends can be asked from the moment of its newest step on.
#[test]
fn lent_tables(rt: HostRuntime) -> Result<(), Fail> {
    let alloc = rt.alloc();
    let origin = Origin::parse(alloc, b"https://a.example")?;
    let asked = Fact::Request {
        number: 1,
        origin: origin.copy(alloc)?,
    };
    let router = told(Router::new(alloc), Moment(0), asked)?;
    let opened = Fact::Opened {
        attempt: 1,
        proto: Proto::H2,
        addr: Addr::V4([192, 0, 2, 1]),
        port: 443,
        names: parse_names(alloc, b"a.example")?,
    };
    let router = told(router, Moment(1), opened)?;
    let answered = Fact::Response {
        request: 1,
        status: 200,
        age: 0,
        altsvc: Some(bytes_of(alloc, b"h2=\":8443\"; ma=60")?),
    };
    let router = told(router, Moment(2), answered)?;
    let live = router.alternatives().live(alloc, Moment(2), &origin)?;
    assert_eq!(rt; live.len(), 1);
    assert_eq!(rt; router.alternatives().count(Moment(61)), 1);
    assert_eq!(rt; router.alternatives().count(Moment(62)), 0);
    assert_eq!(rt; router.broken().count(Moment(2)), 0);
    assert_eq!(rt;
        router
            .broken()
            .is_broken(Moment(2), &origin, &Route::Direct),
        false
    );
    Ok(())
}
