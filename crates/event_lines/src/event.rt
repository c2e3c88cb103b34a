use crate::ServerAct;
use alt_base::{Duplicate, NoMemory};
use route_events::Fact;
use std::alloc::Global;

/// What a line says.
#[derive(Debug, PartialEq, Eq, Drop)]
pub enum Event {
    /// A fact for the client.
    Client(Fact),
    /// What the server is told, or does.
    Server(ServerAct),
    /// Nothing: the line is empty, or begins with `#`.
    Skip,
}

impl Duplicate for Event {
    fn copy(&self, alloc: Global) -> Result<Self, NoMemory> {
        match self {
            Event::Client(fact) => Ok(Event::Client(fact.copy(alloc)?)),
            Event::Server(act) => Ok(Event::Server(act.copy(alloc)?)),
            Event::Skip => Ok(Event::Skip),
        }
    }
}
