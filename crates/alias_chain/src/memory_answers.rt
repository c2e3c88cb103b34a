ghost use Rattle.std.specs.HashMap.{get};
ghost use Rattle.dns_names.specs.Names.{name_eq};

use crate::{Answers, Held, SvcbSet, is_in_force};
use alt_base::{ListOf, Moment, NoMemory};
use dns_names::Name;
use std::alloc::Global;
use std::collections::HashMap;
use svcb_wire::Svcb;

/// Answers in memory, all of which came at the moment 0.
#[derive(Drop)]
pub struct MemoryAnswers {
    alloc: Global,
    held: HashMap<Name, Held<SvcbSet>>,
}

impl MemoryAnswers {
    pub fn new(alloc: Global) -> MemoryAnswers {
        MemoryAnswers {
            alloc,
            held: HashMap::new(alloc),
        }
    }

    /// One record more of a name.
    pub fn add(&mut self, name: Name, ttl: u32, one: Svcb) -> Result<(), NoMemory> {
        let mut body = match self.held.remove(&name) {
            Some(held) => held.body,
            None => ListOf::new(self.alloc),
        };
        body.push(one)?;
        let moment = 0;
        self.held.insert(name, Held { moment, ttl, body })?;
        Ok(())
    }
}

impl Answers for MemoryAnswers {
    ghost newest = { λ answers. 0 };

    ghost held = { λ answers name. get name_eq answers.held name };

    fn https(&self, name: &Name, now: Moment) -> Option<&SvcbSet> {
        match self.held.get(name) {
            Some(held) if is_in_force(held, now) => Some(&held.body),
            _ => None,
        }
    }
}
