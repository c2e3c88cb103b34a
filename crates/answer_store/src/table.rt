ghost use Rattle.std.specs.Prelude.{◌≡◌, ◌≤◌, ℕ, List, true};
ghost use Rattle.indexmap.specs.IndexMap.{get};
ghost use Rattle.std.specs.BTreeSet.{contains};
ghost use Rattle.answer_store.specs.Ends.{ends_at, is_taken_by};
ghost use Rattle.dns_names.specs.Names.{name_eq};
ghost use Rattle.answer_store.specs.Names.{name_cmp};
ghost use Rattle.answer_store.specs.Queue.{place_cmp};

use crate::queue::{Queue, end_of, leave, pop_ended};
use crate::sorted_name::SortedName;
use alias_chain::{Held, is_in_force};
use alt_base::{Duplicate, Moment, NoMemory};
use dns_names::Name;
use indexmap::IndexMap;
use std::alloc::Global;
use std::collections::BTreeSet;

/// The answers of one kind, by their names and by the moments at which they end.
#[derive(Drop)]
pub(crate) struct Table<B: Drop> {
    alloc: Global,
    newest: u32,
    held: IndexMap<Name, Held<B>>,
    queue: Queue,
    ghost queued: { (end : ℕ) (name : List (List ℕ)) → contains (place_cmp name_cmp) queue (end, name) ≡ ends_at end (get name_eq held name) },
    ghost taken: { (name : List (List ℕ)) → is_taken_by newest (get name_eq held name) ≡ true },
}

impl<B: Drop> Table<B> {
    ghost use Rattle.std.specs.Prelude.{OnOk, OnErr, Some, None, length, filter, if◌then◌else◌};
    ghost use Rattle.std.specs.Option.{option_copied};
    ghost use Rattle.indexmap.specs.IndexMap.{IsUnique};
    ghost use Rattle.alias_chain.specs.Held.{in_force, held_at, body_at, is_in_force};
    ghost use Rattle.answer_store.specs.Tables.{at, newest_of, entries_of, IsSame};

    /// A table that holds nothing.
    pub(crate) fn new(alloc: Global) -> Table<B>
        ensures nothing { (q : List (List ℕ)) → at result q ≡ None }
        ensures moment { newest_of result ≡ 0 }
    {
        Table {
            alloc,
            newest: 0,
            held: IndexMap::new(alloc),
            queue: BTreeSet::new(alloc),
        }
    }

    /// Takes an answer in place of the one before. After NoMemory the table is as it was.
    pub(crate) fn put(&mut self, now: Moment, name: Name, ttl: u32, body: B) -> Result<(), NoMemory>
        requires { newest_of self.old ≤ now.0 }
        ensures placed { OnOk result ((q : List (List ℕ)) → at self.new q ≡ (if name_eq name q then Some (held_at now.0 ttl body) else at self.old q)) }
        ensures moment { OnOk result (newest_of self.new ≡ now.0) }
        ensures as_before { OnErr result (IsSame self.old self.new) }
    {
        let twin = name.copy(self.alloc)?;
        let held = Held {
            moment: now.0,
            ttl,
            body,
        };
        let end = end_of(&held);
        self.held.reserve(1)?;
        let sorted = SortedName::new(twin);
        self.queue.insert((end, sorted))?;
        let before = self.held.swap_remove(&name);
        let name = leave(&mut self.queue, before, name, end);
        self.held.insert(name, held).unwrap();
        self.newest = now.0;
        Ok(())
    }

    /// What the answer in force for a name brought.
    pub(crate) fn get(&self, now: Moment, name: &Name) -> Option<&B>
        requires { newest_of self.now ≤ now.0 }
        ensures { option_copied result ≡ body_at now.0 (at self.now name.now) }
    {
        match self.held.get(name) {
            Some(held) if is_in_force(held, now) => Some(&held.body),
            _ => None,
        }
    }

    /// Drops all answers.
    pub(crate) fn clear(&mut self)
        ensures nothing { (q : List (List ℕ)) → at self.new q ≡ None }
        ensures moment { newest_of self.new ≡ newest_of self.old }
    {
        self.held.clear();
        self.queue.clear();
    }

    /// Drops what is in force no more, from the front of the queue alone.
    pub(crate) fn purge(&mut self, now: Moment)
        requires { newest_of self.old ≤ now.0 }
        ensures in_force { (q : List (List ℕ)) → at self.new q ≡ in_force now.0 (at self.old q) }
        ensures moment { newest_of self.new ≡ now.0 }
    {
        while let Some(place) = pop_ended(&mut self.queue, now) {
            self.held.swap_remove(place.1.name());
        }
        self.newest = now.0;
    }

    /// How many answers are in force.
    pub(crate) fn count(&self, now: Moment) -> u64
        ensures count { result ≡ length (filter (λ e. is_in_force now.0 e.1) (entries_of self.now)) }
        ensures unique { IsUnique name_eq self.now.held }
    {
        self.held
            .iter()
            .filter(|(_, held)| is_in_force(held, now))
            .count() as u64
    }
}
