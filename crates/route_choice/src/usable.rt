ghost use Rattle.std.specs.Prelude.{◌≡◌, ◌≤◌, ◌↔◌, None, IsNone, IfSome, find, slice_get};
ghost use Rattle.std.specs.List.{position_from};
ghost use Rattle.route_choice.specs.Contents.{newest_moment};
ghost use Rattle.route_choice.specs.Usable.{is_listed, is_open_to};

use crate::Broken;
use alt_base::Moment;
use origin_values::Origin;
use route_events::{Route, Routes, same_route};

fn is_listed(routes: &[Route], route: &Route) -> bool
    ensures { result ≡ is_listed routes.now route.now }
{
    routes.iter().any(|listed| same_route(listed, route))
}

fn is_open_to(broken: &Broken, origin: &Origin, now: Moment, barred: &Routes, route: &Route) -> bool
    requires { newest_moment broken.now ≤ now.0 }
    ensures { result ≡ is_open_to broken.now origin.now now.0 barred.now route.now }
{
    !broken.is_broken(now, origin, route) && !is_listed(barred.as_slice(), route)
}

// The place of the first route that passes.
fn place_of_open(
    routes: &[Route],
    barred: &Routes,
    broken: &Broken,
    origin: &Origin,
    now: Moment,
) -> Option<usize>
    requires { newest_moment broken.now ≤ now.0 }
    ensures { result ≡ position_from (is_open_to broken.now origin.now now.0 barred.now) 0 routes.now }
{
    routes
        .iter()
        .position(|route| is_open_to(broken, origin, now, barred, route))
}

/// The place, from 0, of the first of an origin's routes that isn't broken and is none of the barred ones; None exactly
/// where there is none. It takes no memory.
pub fn first_usable(
    routes: &Routes,
    barred: &Routes,
    broken: &Broken,
    origin: &Origin,
    now: Moment,
) -> Option<usize>
    requires { newest_moment broken.now ≤ now.0 }
    ensures place { result ≡ position_from (is_open_to broken.now origin.now now.0 barred.now) 0 routes.now }
    ensures route { IfSome result (λ place. slice_get routes.now place ≡ find (is_open_to broken.now origin.now now.0 barred.now) routes.now) }
    ensures none { IsNone result ↔ (find (is_open_to broken.now origin.now now.0 barred.now) routes.now ≡ None) }
{
    place_of_open(routes.as_slice(), barred, broken, origin, now)
}
