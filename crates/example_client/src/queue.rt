ghost use Rattle.std.specs.Prelude.{◌≡◌, [], IfNone};

use crate::arrival::Arrival;
use alt_base::{Moment, NoMemory};
use std::alloc::Global;

/// What is still to come, each with its moment, the earliest first. It stands for the world: a real client waits for it.
#[derive(Drop)]
pub(crate) struct Queue {
    pub arrivals: Vec<(u32, Arrival)>,
}

impl Queue {
    /// Nothing is to come.
    pub(crate) fn new(alloc: Global) -> Queue {
        Queue {
            arrivals: Vec::new(alloc),
        }
    }

    /// Lets something come so many seconds after a moment, behind all that comes then.
    pub(crate) fn add(
        &mut self,
        now: Moment,
        seconds: u32,
        arrival: Arrival,
    ) -> Result<(), NoMemory> {
        let at = now.0.saturating_add(seconds);
        let place = self.arrivals.partition_point(|entry| entry.0 <= at);
        self.arrivals.insert(place, (at, arrival))?;
        Ok(())
    }

    /// What comes next, and when; None where nothing is to come.
    pub(crate) fn next(&mut self) -> Option<(Moment, Arrival)>
        ensures { IfNone result (self.new.arrivals.items ≡ []) }
    {
        if self.arrivals.is_empty() {
            return None;
        }
        let (at, arrival) = self.arrivals.remove(0);
        Some((Moment(at), arrival))
    }
}
