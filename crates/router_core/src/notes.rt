ghost use Rattle.std.specs.Prelude.{◌≡◌, ◌≤◌, false, OnOk, if◌then◌else◌, filter};
ghost use Rattle.network_cache.specs.Freshness.{persists};
ghost use Rattle.std.specs.Option.{option_copied};
ghost use Rattle.origin_values.specs.declared.origin.Origin.{Origin as OriginValue};
ghost use Rattle.network_cache.specs.Contents.{kept, newest_moment};
ghost use Rattle.route_choice.specs.Contents.{kept_failures, newest_moment as newest_failure};
ghost use Rattle.route_events.specs.Alternatives.{age_in};
ghost use Rattle.route_events.specs.declared.route.Route.{Route as RouteValue};
ghost use Rattle.route_events.specs.Backoff.{is_direct};
ghost use Rattle.router_core.specs.Notes.{end_noted, failure_noted, opening_noted, failures_noted, value_noted, is_change};

use alt_base::{Duplicate, Moment, NoMemory};
use altsvc_grammar::AltSvc;
use coalescing::CertNames;
use network_cache::Cache;
use origin_values::Proto;
use request_dispatch::{Attempts, succeeds};
use route_choice::Broken;
use route_events::{Action, Attempt, Fact, Route};
use std::alloc::Global;

/// The age of the value that a fact brings.
pub(crate) fn age_in(fact: &Fact) -> u32
    ensures { result ≡ age_in fact.now }
{
    match fact {
        Fact::Response { age, .. } => *age,
        _ => 0,
    }
}

// One more failure of an origin's route, or none any more.
fn note_end_by_other(
    broken: &mut Broken,
    now: Moment,
    attempt: &Attempt,
    success: bool,
) -> Result<(), NoMemory>
    requires { newest_failure broken.old ≤ now.0 }
    ensures failures { OnOk result ((o : OriginValue) (r : RouteValue) → is_direct r ≡ false → kept_failures broken.new o r ≡ end_noted now.0 success attempt.now o r (kept_failures broken.old o r)) }
    ensures moment { OnOk result (newest_failure broken.new ≤ now.0) }
{
    if success {
        broken.succeeded(&attempt.origin, &attempt.route);
        return Ok(());
    }
    broken.failed(now, &attempt.origin, &attempt.route)
}

// The same, where the route isn't the direct one: nothing is noted of that, since no failure bars it.
fn note_end(
    broken: &mut Broken,
    now: Moment,
    attempt: &Attempt,
    success: bool,
) -> Result<(), NoMemory>
    requires { newest_failure broken.old ≤ now.0 }
    ensures failures { OnOk result ((o : OriginValue) (r : RouteValue) → is_direct r ≡ false → kept_failures broken.new o r ≡ end_noted now.0 success attempt.now o r (kept_failures broken.old o r)) }
    ensures moment { OnOk result (newest_failure broken.new ≤ now.0) }
{
    match &attempt.route {
        Route::Direct => Ok(()),
        Route::Alt(_) | Route::Rec(_) => note_end_by_other(broken, now, attempt, success),
    }
}

fn note_opening(
    broken: &mut Broken,
    now: Moment,
    attempt: Option<&Attempt>,
    proto: Proto,
    names: &CertNames,
) -> Result<(), NoMemory>
    requires { newest_failure broken.old ≤ now.0 }
    ensures failures { OnOk result ((o : OriginValue) (r : RouteValue) → is_direct r ≡ false → kept_failures broken.new o r ≡ opening_noted now.0 (option_copied attempt.entry) proto names.now o r (kept_failures broken.old o r)) }
    ensures moment { OnOk result (newest_failure broken.new ≤ now.0) }
{
    match attempt {
        None => Ok(()),
        Some(attempt) => note_end(
            broken,
            now,
            attempt,
            succeeds(&attempt.origin, &attempt.route, proto, names),
        ),
    }
}

fn note_failure(broken: &mut Broken, now: Moment, attempt: Option<&Attempt>) -> Result<(), NoMemory>
    requires { newest_failure broken.old ≤ now.0 }
    ensures failures { OnOk result ((o : OriginValue) (r : RouteValue) → is_direct r ≡ false → kept_failures broken.new o r ≡ failure_noted now.0 (option_copied attempt.entry) o r (kept_failures broken.old o r)) }
    ensures moment { OnOk result (newest_failure broken.new ≤ now.0) }
{
    match attempt {
        None => Ok(()),
        Some(attempt) => note_end(broken, now, attempt, false),
    }
}

/// Notes what a fact says of failures, where these attempts are pending.
pub(crate) fn note_failures(
    broken: &mut Broken,
    now: Moment,
    attempts: &Attempts,
    fact: &Fact,
) -> Result<(), NoMemory>
    requires { newest_failure broken.old ≤ now.0 }
    ensures failures { OnOk result ((o : OriginValue) (r : RouteValue) → is_direct r ≡ false → kept_failures broken.new o r ≡ failures_noted attempts.now.pending now.0 fact.now o r (kept_failures broken.old o r)) }
    ensures moment { OnOk result (newest_failure broken.new ≤ now.0) }
{
    match fact {
        Fact::Opened {
            attempt,
            proto,
            names,
            ..
        } => note_opening(broken, now, attempts.of_number(*attempt), *proto, names),
        Fact::Failed { attempt } => note_failure(broken, now, attempts.of_number(*attempt)),
        Fact::Network => {
            broken.network();
            Ok(())
        }
        _ => Ok(()),
    }
}

/// Whether a fact is a change of the network.
pub(crate) fn is_change(fact: &Fact) -> bool
    ensures { result ≡ is_change fact.now }
{
    matches!(fact, Fact::Network)
}

/// Notes of all alternatives whether the network changed.
pub(crate) fn note_change(cache: &mut Cache, changed: bool)
    ensures kept { (o : OriginValue) → kept cache.new o ≡ (if changed then filter persists (kept cache.old o) else kept cache.old o) }
    ensures moment { newest_moment cache.new ≡ newest_moment cache.old }
{
    if changed {
        cache.network();
    }
}

/// Notes the value that was taken, if the first action says so.
pub(crate) fn note_value(
    alloc: Global,
    cache: &mut Cache,
    now: Moment,
    age: u32,
    actions: &[Action],
) -> Result<(), NoMemory>
    requires { newest_moment cache.old ≤ now.0 }
    ensures kept { OnOk result ((o : OriginValue) → kept cache.new o ≡ value_noted now.0 age actions.now o (kept cache.old o)) }
    ensures moment { OnOk result (newest_moment cache.new ≤ now.0) }
{
    match actions.first() {
        Some(
            Action::Alternatives {
                origin,
                value: AltSvc::Clear,
            },
        ) => cache.clear(origin),
        Some(
            Action::Alternatives {
                origin,
                value: AltSvc::List(alts),
            },
        ) => cache.set(now, age, origin.copy(alloc)?, alts.copy(alloc)?)?,
        _ => {}
    }
    Ok(())
}
