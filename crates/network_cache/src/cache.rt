use crate::entries::Entries;
use crate::kept::{fresh, taken};
use alt_base::{ListOf, Moment, NoMemory};
use altsvc_grammar::{AltKey, Alts};
use origin_values::Origin;
use std::alloc::Global;

/// The alternatives of each origin (RFC 7838 2.2), with the newest moment that a change was given: at first nothing,
/// and 0. Moments and ages are in seconds.
#[derive(Debug, Drop)]
pub struct Cache {
    alloc: Global,
    newest: u32,
    entries: Entries,
}

impl Cache {
    ghost use Rattle.std.specs.Prelude.{◌≡◌, ◌≤◌, [], map, filter, IfOk, OnOk, OnErr, if◌then◌else◌};
    ghost use Rattle.origin_values.specs.Equality.{origin_eq};
    ghost use Rattle.origin_values.specs.declared.origin.Origin.{Origin};
    ghost use Rattle.network_cache.specs.Freshness.{taken_at, is_fresh, persists, has_other_key};
    ghost use Rattle.network_cache.specs.Contents.{kept, newest_moment, live, IsAsBefore, Counts};

    /// A cache that holds nothing. It takes no memory.
    pub fn new(alloc: Global) -> Cache
        ensures nothing { (o : Origin) → kept result o ≡ [] }
        ensures moment { newest_moment result ≡ 0 }
    {
        Cache {
            alloc,
            newest: 0,
            entries: Entries::new(alloc),
        }
    }

    /// Takes the alternatives of an origin, whose value has this age in seconds by now, in place of those before (RFC 7838
    /// 3.1). After NoMemory, which comes only where memory isn't found, the cache is as it was.
    pub fn set(&mut self, now: Moment, age: u32, origin: Origin, alts: Alts) -> Result<(), NoMemory>
        requires { newest_moment self.old ≤ now.0 }
        ensures placed { OnOk result ((o : Origin) → kept self.new o ≡ (if origin_eq o origin then map (taken_at now.0 age) alts else kept self.old o)) }
        ensures moment { OnOk result (newest_moment self.new ≡ now.0) }
        ensures as_before { OnErr result (IsAsBefore self.old self.new) }
    {
        let alternatives = taken(self.alloc, now, age, alts)?;
        self.entries.set(origin, alternatives)?;
        self.newest = now.0;
        Ok(())
    }

    /// Drops what is kept for an origin (RFC 7838 3). It takes no memory.
    pub fn clear(&mut self, origin: &Origin)
        ensures cleared { (o : Origin) → kept self.new o ≡ (if origin_eq o origin.now then [] else kept self.old o) }
        ensures moment { newest_moment self.new ≡ newest_moment self.old }
    {
        self.entries.clear(origin);
    }

    /// Drops an origin's alternatives of a key. It takes no memory.
    pub fn remove(&mut self, origin: &Origin, key: &AltKey)
        ensures removed { (o : Origin) → kept self.new o ≡ (if origin_eq o origin.now then filter (has_other_key key.now) (kept self.old o) else kept self.old o) }
        ensures moment { newest_moment self.new ≡ newest_moment self.old }
    {
        self.entries.remove(origin, key);
    }

    /// The network has changed: only what has `persist` stays (RFC 7838 3.1). It takes no memory.
    pub fn network(&mut self)
        ensures persistent { (o : Origin) → kept self.new o ≡ filter persists (kept self.old o) }
        ensures moment { newest_moment self.new ≡ newest_moment self.old }
    {
        self.entries.network();
    }

    /// Drops what isn't fresh, and so won't be at any later moment (RFC 7838 3.1), and nothing else. It takes no memory, and
    /// no time where nothing ends.
    pub fn purge(&mut self, now: Moment)
        requires { newest_moment self.old ≤ now.0 }
        ensures fresh { (o : Origin) → kept self.new o ≡ filter (is_fresh now.0) (kept self.old o) }
        ensures moment { newest_moment self.new ≡ now.0 }
    {
        self.entries.purge(now);
        self.newest = now.0;
    }

    /// The alternatives of an origin that are fresh, in order (RFC 7838 2.2, 3.1). NoMemory comes only where memory isn't
    /// found.
    pub fn live(&self, alloc: Global, now: Moment, origin: &Origin) -> Result<Alts, NoMemory>
        requires { newest_moment self.now ≤ now.0 }
        ensures { IfOk result (λ alts. alts ≡ live self.now origin.now now.0) }
    {
        match self.entries.of(origin) {
            Some(all) => fresh(alloc, all.as_slice(), now),
            None => Ok(ListOf::new(alloc)),
        }
    }

    /// How many alternatives are fresh, over all origins; 18,446,744,073,709,551,615 where there are more. It takes no
    /// memory.
    pub fn count(&self, now: Moment) -> u64
        requires { newest_moment self.now ≤ now.0 }
        ensures { Counts self.now now.0 result }
    {
        self.entries.count(now)
    }
}
