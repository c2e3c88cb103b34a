ghost use Rattle.std.specs.Prelude.{◌≡◌};
ghost use Rattle.route_events.specs.Authority.{endpoint_eq, route_eq};

use alias_chain::Endpoint;
use alt_base::{Duplicate, ListOf, NoMemory};
use altsvc_grammar::{AltKey, same_key};
use std::alloc::Global;

/// A way to an origin. `Direct` goes to the origin's own host and port; `Alt` to an alternative service (RFC 7838 2), at
/// the origin's host where the alternative names none; `Rec` to an endpoint of the origin's HTTPS records (RFC 9460 3).
#[derive(Debug, PartialEq, Eq, Hash, Drop)]
pub enum Route {
    Direct,
    Alt(AltKey),
    Rec(Endpoint),
}

/// Routes, the preferred ones first.
pub type Routes = ListOf<Route>;

impl Duplicate for Route {
    fn copy(&self, alloc: Global) -> Result<Self, NoMemory> {
        match self {
            Route::Direct => Ok(Route::Direct),
            Route::Alt(key) => Ok(Route::Alt(key.copy(alloc)?)),
            Route::Rec(endpoint) => Ok(Route::Rec(endpoint.copy(alloc)?)),
        }
    }
}

// Whether two endpoints are one: the name, the port and the protocols are.
fn same_endpoint(a: &Endpoint, b: &Endpoint) -> bool
    ensures { result ≡ endpoint_eq a.now b.now }
{
    a.target == b.target && (a.port == b.port && a.protos == b.protos)
}

/// Whether two routes are one. It takes no memory.
pub fn same_route(a: &Route, b: &Route) -> bool
    ensures { result ≡ route_eq a.now b.now }
{
    match (a, b) {
        (Route::Direct, Route::Direct) => true,
        (Route::Alt(a), Route::Alt(b)) => same_key(a, b),
        (Route::Rec(a), Route::Rec(b)) => same_endpoint(a, b),
        _ => false,
    }
}
