ghost use Rattle.std.specs.Prelude.{◌≡◌, ◌++◌, ◌∷◌, [], OnOk, OnErr, find, map, count_by};
ghost use Rattle.std.specs.Option.{option_copied};
ghost use Rattle.std.specs.List.{list_any};
ghost use Rattle.route_events.specs.Backoff.{backoff, is_backing_off, is_barred_by};
ghost use Rattle.route_choice.specs.FailedRoutes.{failures_of, is_of, is_barred, once_more, first_failure, after_failure, after_success};

use alt_base::{Duplicate, Moment, NoMemory};
use origin_values::{Origin, same_origin};
use route_events::{Route, same_route};
use std::alloc::Global;

// After so many failures the backoff doesn't grow.
const MOST_FAILURES: u32 = 11;
// Two days, in seconds.
const LONGEST_BACKOFF: u32 = 172800;

/// An origin's route that failed: how often in a row, at most 11, and at which moment the last time.
#[derive(Debug, Drop)]
pub(crate) struct FailedRoute {
    pub origin: Origin,
    pub route: Route,
    pub count: u32,
    pub last: u32,
}

// For how many seconds so many failures bar a route.
fn backoff(count: u32) -> u32
    ensures { result ≡ backoff count }
{
    if count < MOST_FAILURES {
        300 << count.saturating_sub(1)
    } else {
        LONGEST_BACKOFF
    }
}

fn is_backing_off(failed: &FailedRoute, now: Moment) -> bool
    ensures { result ≡ is_backing_off (failures_of failed.now) now.0 }
{
    failed.count > 0 && now.0.saturating_sub(failed.last) < backoff(failed.count)
}

/// Whether its failures bar a route.
pub(crate) fn bars(failed: &FailedRoute, route: &Route, now: Moment) -> bool
    ensures { result ≡ is_barred_by (failures_of failed.now) route.now now.0 }
{
    match route {
        Route::Direct => false,
        Route::Alt(_) => is_backing_off(failed, now),
        Route::Rec(_) => is_backing_off(failed, now),
    }
}

fn is_of(failed: &FailedRoute, origin: &Origin, route: &Route) -> bool
    ensures { result ≡ is_of origin.now route.now failed.now }
{
    same_origin(&failed.origin, origin) && same_route(&failed.route, route)
}

/// The origin's route among those that failed.
pub(crate) fn find_failed<'a>(
    failed: &'a [FailedRoute],
    origin: &Origin,
    route: &Route,
) -> Option<&'a FailedRoute>
    ensures { option_copied result ≡ find (is_of origin.now route.now) failed.now }
{
    failed.iter().find(|f| is_of(*f, origin, route))
}

fn has_failed(failed: &[FailedRoute], origin: &Origin, route: &Route) -> bool
    ensures { result ≡ list_any (is_of origin.now route.now) failed.now }
{
    failed.iter().any(|f| is_of(f, origin, route))
}

/// How many bar their own routes.
pub(crate) fn count_barred(failed: &[FailedRoute], now: Moment) -> usize
    ensures { result ≡ count_by (is_barred now.0) failed.now }
{
    failed.iter().filter(|f| bars(*f, &f.route, now)).count()
}

fn fail_once_more(failed: &mut FailedRoute, now: Moment, origin: &Origin, route: &Route)
    ensures { failed.new ≡ once_more now.0 origin.now route.now failed.old }
{
    if is_of(failed, origin, route) {
        failed.count = failed.count.min(MOST_FAILURES - 1) + 1;
        failed.last = now.0;
    }
}

fn fail_all_once_more(failed: &mut [FailedRoute], now: Moment, origin: &Origin, route: &Route)
    ensures { failed.new ≡ map (once_more now.0 origin.now route.now) failed.old }
{
    for f in failed.iter_mut() {
        fail_once_more(f, now, origin, route);
    }
}

fn push_first(
    alloc: Global,
    failed: &mut Vec<FailedRoute>,
    now: Moment,
    origin: &Origin,
    route: &Route,
) -> Result<(), NoMemory>
    ensures ok { OnOk result (failed.new.items ≡ failed.old.items ++ first_failure now.0 origin.now route.now ∷ []) }
    ensures err { OnErr result (failed.new.items ≡ failed.old.items) }
{
    let first = FailedRoute {
        origin: origin.copy(alloc)?,
        route: route.copy(alloc)?,
        count: 1,
        last: now.0,
    };
    failed.push(first)?;
    Ok(())
}

/// Notes a failure. Where memory isn't found, all stay as they were.
pub(crate) fn note_failure(
    alloc: Global,
    failed: &mut Vec<FailedRoute>,
    now: Moment,
    origin: &Origin,
    route: &Route,
) -> Result<(), NoMemory>
    ensures ok { OnOk result (failed.new.items ≡ after_failure now.0 origin.now route.now failed.old.items) }
    ensures err { OnErr result (failed.new.items ≡ failed.old.items) }
{
    if has_failed(failed.as_slice(), origin, route) {
        fail_all_once_more(failed, now, origin, route);
        return Ok(());
    }
    push_first(alloc, failed, now, origin, route)
}

/// Notes a success.
pub(crate) fn note_success(failed: &mut Vec<FailedRoute>, origin: &Origin, route: &Route)
    ensures { failed.new.items ≡ after_success origin.now route.now failed.old.items }
{
    failed.retain(|f| !is_of(f, origin, route));
}
