ghost use Rattle.std.specs.Prelude.{◌≡◌, ◌≤◌, nat_eq};
ghost use Rattle.std.specs.List.{list_any};
ghost use Rattle.std.specs.Cmp.Lexicographic.{pointwise};
ghost use Rattle.answer_store.specs.Tables.{newest_of};

use crate::table::Table;
use alias_chain::{Answers, SvcbSet};
use alt_base::{Moment, NoMemory};
use dns_names::Name;
use origin_values::Addr;
use std::alloc::Global;
use svcb_wire::{V4s, V6s};

/// The answers of DNS that a client keeps, and the newest moment that a change was given: at first nothing, and 0. An
/// answer is in force while fewer seconds than its TTL have gone since it came (RFC 1035 3.2.1); one with a TTL of 0 never
/// is, and one that lists nothing is an answer like any other. Moments and TTLs are in seconds.
#[derive(Drop)]
pub struct AnswerStore {
    newest: u32,
    v4: Table<V4s>,
    v6: Table<V6s>,
    https: Table<SvcbSet>,
    ghost v4_by_then: { newest_of v4 ≤ newest },
    ghost v6_by_then: { newest_of v6 ≤ newest },
    ghost https_by_then: { newest_of https ≤ newest },
}

impl AnswerStore {
    ghost use Rattle.std.specs.Prelude.{◌&&◌, ℕ, List, Some, None, OnOk, OnErr, if◌then◌else◌};
    ghost use Rattle.alias_chain.specs.Held.{in_force, held_at, body_at};
    ghost use Rattle.dns_names.specs.Names.{name_eq};
    ghost use Rattle.answer_store.specs.Bodies.{Kind, A, Aaaa, Https, kind_eq, Addresses4, Addresses6, Records, kind_of, lists_address};
    ghost use Rattle.answer_store.specs.Contents.{kept, newest_moment, IsAsBefore, Counts};

    /// A store that holds nothing. It takes no memory.
    pub fn new(alloc: Global) -> AnswerStore
        ensures nothing { (q : List (List ℕ)) (k : Kind) → kept result q k ≡ None }
        ensures moment { newest_moment result ≡ 0 }
    {
        AnswerStore {
            newest: 0,
            v4: Table::new(alloc),
            v6: Table::new(alloc),
            https: Table::new(alloc),
        }
    }

    /// The newest moment that a change was given, 0 before any. It takes no memory.
    pub fn newest(&self) -> Moment
        ensures { result.0 ≡ newest_moment self.now }
    {
        Moment(self.newest)
    }

    /// Takes the IPv4 addresses of a name in place of those before. After NoMemory, which comes only where memory isn't
    /// found, the store is as it was.
    pub fn put_v4(&mut self, now: Moment, name: Name, ttl: u32, addrs: V4s) -> Result<(), NoMemory>
        requires { newest_moment self.old ≤ now.0 }
        ensures placed { OnOk result ((q : List (List ℕ)) (k : Kind) → kept self.new q k ≡ (if kind_eq A k && name_eq name q then Some (held_at now.0 ttl (Addresses4 addrs)) else kept self.old q k)) }
        ensures moment { OnOk result (newest_moment self.new ≡ now.0) }
        ensures as_before { OnErr result (IsAsBefore self.old self.new) }
    {
        self.v4.put(now, name, ttl, addrs)?;
        self.newest = now.0;
        Ok(())
    }

    /// Takes the IPv6 addresses of a name in place of those before. After NoMemory, which comes only where memory isn't
    /// found, the store is as it was.
    pub fn put_v6(&mut self, now: Moment, name: Name, ttl: u32, addrs: V6s) -> Result<(), NoMemory>
        requires { newest_moment self.old ≤ now.0 }
        ensures placed { OnOk result ((q : List (List ℕ)) (k : Kind) → kept self.new q k ≡ (if kind_eq Aaaa k && name_eq name q then Some (held_at now.0 ttl (Addresses6 addrs)) else kept self.old q k)) }
        ensures moment { OnOk result (newest_moment self.new ≡ now.0) }
        ensures as_before { OnErr result (IsAsBefore self.old self.new) }
    {
        self.v6.put(now, name, ttl, addrs)?;
        self.newest = now.0;
        Ok(())
    }

    /// Takes the HTTPS records of a name in place of those before. After NoMemory, which comes only where memory isn't
    /// found, the store is as it was.
    pub fn put_https(
        &mut self,
        now: Moment,
        name: Name,
        ttl: u32,
        set: SvcbSet,
    ) -> Result<(), NoMemory>
        requires { newest_moment self.old ≤ now.0 }
        ensures placed { OnOk result ((q : List (List ℕ)) (k : Kind) → kept self.new q k ≡ (if kind_eq Https k && name_eq name q then Some (held_at now.0 ttl (Records set)) else kept self.old q k)) }
        ensures moment { OnOk result (newest_moment self.new ≡ now.0) }
        ensures as_before { OnErr result (IsAsBefore self.old self.new) }
    {
        self.https.put(now, name, ttl, set)?;
        self.newest = now.0;
        Ok(())
    }

    /// Whether an address is among those of a name whose answer is in force. It takes no memory.
    pub fn has_address(&self, now: Moment, name: &Name, addr: &Addr) -> bool
        requires { newest_moment self.now ≤ now.0 }
        ensures { result ≡ lists_address addr.now (body_at now.0 (kept self.now name.now (kind_of addr.now))) }
    {
        match addr {
            Addr::V4(address) => match self.v4.get(now, name) {
                Some(all) => has_v4(all.as_slice(), address),
                None => false,
            },
            Addr::V6(address) => match self.v6.get(now, name) {
                Some(all) => has_v6(all.as_slice(), address),
                None => false,
            },
        }
    }

    /// The network has changed: no answer stays. It takes no memory.
    pub fn network(&mut self)
        ensures nothing { (q : List (List ℕ)) (k : Kind) → kept self.new q k ≡ None }
        ensures moment { newest_moment self.new ≡ newest_moment self.old }
    {
        self.v4.clear();
        self.v6.clear();
        self.https.clear();
    }

    /// Drops what is in force no more, and nothing else. It takes no memory, and no time where nothing ends.
    pub fn purge(&mut self, now: Moment)
        requires { newest_moment self.old ≤ now.0 }
        ensures in_force { (q : List (List ℕ)) (k : Kind) → kept self.new q k ≡ in_force now.0 (kept self.old q k) }
        ensures moment { newest_moment self.new ≡ now.0 }
    {
        self.v4.purge(now);
        self.v6.purge(now);
        self.https.purge(now);
        self.newest = now.0;
    }

    /// How many answers are in force, over all names and kinds; 18,446,744,073,709,551,615 where there are more. It takes
    /// no memory.
    pub fn count(&self, now: Moment) -> u64
        requires { newest_moment self.now ≤ now.0 }
        ensures { Counts self.now now.0 result }
    {
        let v4 = self.v4.count(now);
        let v6 = self.v6.count(now);
        let https = self.https.count(now);
        v4.saturating_add(v6).saturating_add(https)
    }
}

impl Answers for AnswerStore {
    ghost use Rattle.answer_store.specs.Contents.{newest_moment, https_held};

    ghost newest = { newest_moment };

    ghost held = { https_held };

    fn https(&self, name: &Name, now: Moment) -> Option<&SvcbSet> {
        self.https.get(now, name)
    }
}

fn has_v4(all: &[[u8; 4]], address: &[u8; 4]) -> bool
    ensures { result ≡ list_any (pointwise nat_eq address.now) all.now }
{
    all.iter().any(|one| address == one)
}

fn has_v6(all: &[[u8; 16]], address: &[u8; 16]) -> bool
    ensures { result ≡ list_any (pointwise nat_eq address.now) all.now }
{
    all.iter().any(|one| address == one)
}
