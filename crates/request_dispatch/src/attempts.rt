ghost use Rattle.std.specs.Prelude.{◌≡◌, ◌<◌, ◌^◌, [], OnOk};
ghost use Rattle.std.specs.Option.{option_copied};
ghost use Rattle.std.specs.List.{list_any};
ghost use Rattle.route_events.specs.Backoff.{is_on};
ghost use Rattle.request_dispatch.specs.AttemptTable.{attempt_among, started, other_attempts, without_attempt, is_awaited};

use alt_base::{Duplicate, NoMemory};
use origin_values::{Origin, same_origin};
use route_events::{Attempt, Route, same_route};
use std::alloc::Global;
use std::marker::Model;

/// The attempts to open connections: how many there were, and those that are pending, in the order of their start. An
/// attempt's number is its place among all, from 1.
#[derive(Debug, Drop)]
pub struct Attempts {
    opened: u64,
    pending: Vec<Attempt>,
}

impl Model for Attempts {
    ghost use Rattle.request_dispatch.specs.AttemptTable.{AttemptTable};

    ghost Value = { AttemptTable };

    ghost view = { λ attempts. record { opened = attempts.opened; pending = attempts.pending.items } };
}

impl Attempts {
    /// No attempts. It takes no memory.
    pub fn new(alloc: Global) -> Attempts
        ensures { result ≡ record { opened = 0; pending = [] } }
    {
        Attempts {
            opened: 0,
            pending: Vec::new(alloc),
        }
    }

    /// How many attempts there were. It takes no memory.
    pub fn opened(&self) -> u64
        ensures { result ≡ self.now.opened }
    {
        self.opened
    }

    /// One more attempt starts, for an origin by a route. NoMemory comes only where memory isn't found.
    pub fn start(&mut self, alloc: Global, origin: &Origin, route: &Route) -> Result<(), NoMemory>
        requires { self.old.opened < 2 ^ 63 }
        ensures { OnOk result (self.new ≡ started origin.now route.now self.old) }
    {
        let number = self.opened + 1;
        self.pending.push(Attempt {
            number,
            origin: origin.copy(alloc)?,
            route: route.copy(alloc)?,
        })?;
        self.opened = number;
        Ok(())
    }

    /// The pending attempt of a number; None exactly where none has it. It takes no memory.
    pub fn of_number(&self, number: u64) -> Option<&Attempt>
        ensures { option_copied result ≡ attempt_among self.now.pending number }
    {
        attempt_among(self.pending.as_slice(), number)
    }

    /// The attempt of a number isn't pending any more. It takes no memory.
    pub fn end(&mut self, number: u64)
        ensures { self.new ≡ without_attempt number self.old }
    {
        drop_attempt(&mut self.pending, number);
    }

    /// Whether an attempt for the origin by the route is pending. It takes no memory.
    pub fn is_awaited(&self, origin: &Origin, route: &Route) -> bool
        ensures { result ≡ is_awaited self.now origin.now route.now }
    {
        is_pending_on(self.pending.as_slice(), origin, route)
    }
}

fn attempt_among(attempts: &[Attempt], number: u64) -> Option<&Attempt>
    ensures { option_copied result ≡ attempt_among attempts.now number }
{
    attempts.iter().find(|attempt| attempt.number == number)
}

fn drop_attempt(attempts: &mut Vec<Attempt>, number: u64)
    ensures { attempts.new.items ≡ other_attempts attempts.old.items number }
{
    attempts.retain(|attempt| number != attempt.number);
}

fn is_pending_on(pending: &[Attempt], origin: &Origin, route: &Route) -> bool
    ensures { result ≡ list_any (is_on origin.now route.now) pending.now }
{
    pending.iter().any(|attempt| same_origin(&attempt.origin, origin)
        && same_route(&attempt.route, route))
}
