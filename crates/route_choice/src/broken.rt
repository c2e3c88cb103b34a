ghost use Rattle.std.specs.Prelude.{◌≡◌, true};
ghost use Rattle.route_choice.specs.Pairs.{are_distinct};
ghost use Rattle.route_choice.specs.FailedRoutes.{pairs_of};

use crate::failed_route::{
    FailedRoute, bars, count_barred, find_failed, note_failure, note_success,
};
use alt_base::{Moment, NoMemory};
use origin_values::Origin;
use route_events::Route;
use std::alloc::Global;

/// The failures of each origin's routes, with the newest moment that a failure was given: at first none, and 0. After a
/// failure a route by an alternative is broken for 300 seconds, and after each further one for twice as long, at most
/// two days; a success, or a change of the network, ends that. Moments are in seconds.
#[derive(Debug, Drop)]
pub struct Broken {
    alloc: Global,
    newest: u32,
    failed: Vec<FailedRoute>,
    ghost distinct: { are_distinct (pairs_of failed.items) ≡ true },
}

impl Broken {
    ghost use Rattle.std.specs.Prelude.{◌≡◌, ◌&&◌, ◌≤◌, OnOk, OnErr, if◌then◌else◌};
    ghost use Rattle.origin_values.specs.Equality.{origin_eq};
    ghost use Rattle.origin_values.specs.declared.origin.Origin.{Origin};
    ghost use Rattle.route_events.specs.declared.route.Route.{Route};
    ghost use Rattle.route_events.specs.Authority.{route_eq};
    ghost use Rattle.route_events.specs.Backoff.{no_failures, failed_at, is_barred_by};
    ghost use Rattle.route_choice.specs.Capped.{capped};
    ghost use Rattle.route_choice.specs.Contents.{kept_failures, newest_moment, IsAsBefore, Counts};

    /// A table of no failures. It takes no memory.
    pub fn new(alloc: Global) -> Broken
        ensures nothing { (o : Origin) (r : Route) → kept_failures result o r ≡ no_failures }
        ensures moment { newest_moment result ≡ 0 }
    {
        Broken {
            alloc,
            newest: 0,
            failed: Vec::new(alloc),
        }
    }

    /// The greatest moment that a failure was given, 0 before any. It takes no memory.
    pub fn newest(&self) -> Moment
        ensures { result.0 ≡ newest_moment self.now }
    {
        Moment(self.newest)
    }

    /// One more failure of an origin's route. More than 11 in a row count as 11. After NoMemory the table is as it was.
    pub fn failed(&mut self, now: Moment, origin: &Origin, route: &Route) -> Result<(), NoMemory>
        requires { newest_moment self.old ≤ now.0 }
        ensures counted { OnOk result ((o : Origin) (r : Route) → kept_failures self.new o r ≡
            (if origin_eq origin.now o && route_eq route.now r then capped (failed_at now.0 (kept_failures self.old o r)) else kept_failures self.old o r)) }
        ensures moment { OnOk result (newest_moment self.new ≡ now.0) }
        ensures as_before { OnErr result (IsAsBefore self.old self.new) }
    {
        note_failure(self.alloc, &mut self.failed, now, origin, route)?;
        self.newest = now.0;
        Ok(())
    }

    /// Ends the failures of an origin's route. It takes no memory.
    pub fn succeeded(&mut self, origin: &Origin, route: &Route)
        ensures ended { (o : Origin) (r : Route) → kept_failures self.new o r ≡
            (if origin_eq origin.now o && route_eq route.now r then no_failures else kept_failures self.old o r) }
        ensures moment { newest_moment self.new ≡ newest_moment self.old }
    {
        note_success(&mut self.failed, origin, route);
    }

    /// The network has changed: ends all failures. It takes no memory.
    pub fn network(&mut self)
        ensures ended { (o : Origin) (r : Route) → kept_failures self.new o r ≡ no_failures }
        ensures moment { newest_moment self.new ≡ newest_moment self.old }
    {
        self.failed.clear();
    }

    /// Whether an origin's route is broken; the direct one never is. It takes no memory.
    pub fn is_broken(&self, now: Moment, origin: &Origin, route: &Route) -> bool
        requires { newest_moment self.now ≤ now.0 }
        ensures { result ≡ is_barred_by (kept_failures self.now origin.now route.now) route.now now.0 }
    {
        match find_failed(self.failed.as_slice(), origin, route) {
            Some(failed) => bars(failed, route, now),
            None => false,
        }
    }

    /// How many routes are broken, over all origins; 18,446,744,073,709,551,615 where there are more. It takes no
    /// memory.
    pub fn count(&self, now: Moment) -> u64
        requires { newest_moment self.now ≤ now.0 }
        ensures { Counts self.now now.0 result }
    {
        count_barred(self.failed.as_slice(), now) as u64
    }
}
