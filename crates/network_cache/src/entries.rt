ghost use Rattle.std.specs.Prelude.{◌≡◌, ℕ};
ghost use Rattle.std.specs.List.{list_any};
ghost use Rattle.origin_values.specs.declared.origin.Origin.{Origin};
ghost use Rattle.network_cache.specs.Ends.{ends_at};
ghost use Rattle.network_cache.specs.Queue.{is_queued};
ghost use Rattle.network_cache.specs.Entries.{kept_in};

use crate::Kept;
use crate::index::{
    Index, alternatives_of, count_all_fresh, drop_ended_of, drop_key_of, keep_persistent, place,
    take,
};
use crate::queue::{Queue, leave, pop_ended};
use crate::sweep::{enter_all, sweep};
use alt_base::{ListOf, Moment, NoMemory};
use altsvc_grammar::AltKey;
use indexmap::IndexMap;
use origin_values::Origin;
use std::alloc::Global;
use std::collections::BTreeSet;

/// The alternatives that are kept, by their origins and by the moments at which they end: an origin has a place in the
/// queue exactly at each moment at which one of its alternatives ends.
#[derive(Debug, Drop)]
pub(crate) struct Entries {
    alloc: Global,
    items: Index,
    queue: Queue,
    ghost queued: { (end : ℕ) (o : Origin) → is_queued queue end o ≡ list_any (ends_at end) (kept_in items o) },
}

impl Entries {
    ghost use Rattle.std.specs.Prelude.{[], filter, min, true, OnOk, OnErr, if◌then◌else◌};
    ghost use Rattle.std.specs.Option.{option_copied};
    ghost use Rattle.std.specs.Map.{keys_of};
    ghost use Rattle.origin_values.specs.Equality.{origin_eq};
    ghost use Rattle.network_cache.specs.Freshness.{is_fresh, persists, has_other_key};
    ghost use Rattle.network_cache.specs.Origins.{are_distinct};
    ghost use Rattle.network_cache.specs.Entries.{all_of, fresh_among};

    /// No entries.
    pub(crate) fn new(alloc: Global) -> Entries
        ensures { (o : Origin) → kept_in result.items o ≡ [] }
    {
        Entries {
            alloc,
            items: IndexMap::new(alloc),
            queue: BTreeSet::new(alloc),
        }
    }

    /// Keeps alternatives for an origin in place of those before. After NoMemory the same is kept as before.
    pub(crate) fn set(&mut self, origin: Origin, alternatives: ListOf<Kept>) -> Result<(), NoMemory>
        ensures ok { OnOk result ((o : Origin) → kept_in self.new.items o ≡ (if origin_eq o origin then alternatives else kept_in self.old.items o)) }
        ensures err { OnErr result ((o : Origin) → kept_in self.new.items o ≡ kept_in self.old.items o) }
    {
        self.items.reserve(1)?;
        enter_all(
            self.alloc,
            &self.items,
            &mut self.queue,
            &origin,
            alternatives.as_slice(),
        )?;
        let before = take(self.alloc, &mut self.items, &origin);
        let origin = leave(
            &mut self.queue,
            origin,
            before.as_slice(),
            alternatives.as_slice(),
        );
        place(&mut self.items, origin, alternatives);
        Ok(())
    }

    /// Drops what is kept for an origin.
    pub(crate) fn clear(&mut self, origin: &Origin)
        ensures { (o : Origin) → kept_in self.new.items o ≡ (if origin_eq o origin.now then [] else kept_in self.old.items o) }
    {
        let Some((key, before)) = self.items.swap_remove_entry(origin) else {
            return;
        };
        leave(&mut self.queue, key, before.as_slice(), &[]);
    }

    /// Drops an origin's alternatives of a key.
    pub(crate) fn remove(&mut self, origin: &Origin, key: &AltKey)
        ensures { (o : Origin) → kept_in self.new.items o ≡ (if origin_eq o origin.now then filter (has_other_key key.now) (kept_in self.old.items o) else kept_in self.old.items o) }
    {
        drop_key_of(self.alloc, &mut self.items, origin, key);
        sweep(&self.items, &mut self.queue);
    }

    /// Drops what doesn't stay when the network changes.
    pub(crate) fn network(&mut self)
        ensures { (o : Origin) → kept_in self.new.items o ≡ filter persists (kept_in self.old.items o) }
    {
        keep_persistent(self.alloc, &mut self.items);
        sweep(&self.items, &mut self.queue);
    }

    /// Drops what isn't fresh, from the front of the queue alone.
    pub(crate) fn purge(&mut self, now: Moment)
        ensures { (o : Origin) → kept_in self.new.items o ≡ filter (is_fresh now.0) (kept_in self.old.items o) }
    {
        while let Some(place) = pop_ended(&mut self.queue, now) {
            drop_ended_of(self.alloc, &mut self.items, place.1.origin(), place.0);
        }
    }

    /// What is kept for an origin, if anything is.
    pub(crate) fn of(&self, origin: &Origin) -> Option<&ListOf<Kept>>
        ensures { all_of (option_copied result) ≡ kept_in self.now.items origin.now }
    {
        alternatives_of(&self.items, origin)
    }

    /// How many alternatives are fresh, at most 18,446,744,073,709,551,615.
    pub(crate) fn count(&self, now: Moment) -> u64
        ensures count { result ≡ min (fresh_among now.0 self.now.items.entries) 18446744073709551615 }
        ensures distinct { are_distinct (keys_of self.now.items.entries) ≡ true }
    {
        count_all_fresh(&self.items, now)
    }
}
