ghost use Rattle.std.specs.Prelude.{◌≡◌, ◌++◌, ◌∷◌, [], map, IfOk, OnOk};
ghost use Rattle.route_events.specs.Routes.{by_alternatives};

use alias_chain::{Endpoint, Endpoints};
use alt_base::{Duplicate, ListOf, NoMemory};
use altsvc_grammar::{Alt, Alts};
use origin_values::Origin;
use route_events::{Route, Routes, is_supported};
use std::alloc::Global;

// Appends the route by an alternative, where its protocol is supported.
fn push_route(alloc: Global, routes: &mut Routes, alt: &Alt) -> Result<(), NoMemory>
    ensures { OnOk result (routes.new ≡ routes.old ++ by_alternatives (alt.now ∷ [])) }
{
    if is_supported(alt) {
        return routes.push(Route::Alt(alt.key.copy(alloc)?));
    }
    Ok(())
}

/// The routes by these alternatives, in order, but for those of protocols that aren't supported.
pub fn alternative_routes(alloc: Global, live: &Alts) -> Result<Routes, NoMemory>
    ensures { IfOk result (λ routes. routes ≡ by_alternatives live.now) }
{
    let mut routes = ListOf::new(alloc);
    for alt in live.as_slice() {
        push_route(alloc, &mut routes, alt)?;
    }
    Ok(routes)
}

// Appends the route to an endpoint.
fn push_endpoint(alloc: Global, routes: &mut Routes, endpoint: &Endpoint) -> Result<(), NoMemory>
    ensures { OnOk result (routes.new ≡ routes.old ++ Route.Rec endpoint.now ∷ []) }
{
    routes.push(Route::Rec(endpoint.copy(alloc)?))
}

// Appends the routes to some endpoints, in order.
fn push_endpoints(alloc: Global, routes: &mut Routes, found: &[Endpoint]) -> Result<(), NoMemory>
    ensures { OnOk result (routes.new ≡ routes.old ++ map Route.Rec found.now) }
{
    for endpoint in found {
        push_endpoint(alloc, routes, endpoint)?;
    }
    Ok(())
}

/// The routes of an origin that has these live alternatives and these endpoints, in order: by the alternatives of supported
/// protocols, to the endpoints, and then the direct one.
pub fn routes(
    alloc: Global,
    origin: &Origin,
    live: &Alts,
    found: &Endpoints,
) -> Result<Routes, NoMemory>
    ensures { IfOk result (λ routes. routes ≡ by_alternatives live.now ++ map Route.Rec found.now ++ Route.Direct ∷ []) }
{
    let mut routes = alternative_routes(alloc, live)?;
    push_endpoints(alloc, &mut routes, found.as_slice())?;
    routes.push(Route::Direct)?;
    Ok(routes)
}
