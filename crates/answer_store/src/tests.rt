ghost use Rattle.std.specs.Prelude.{◌≤◌};
ghost use Rattle.answer_store.specs.Contents.{newest_moment};

use crate::AnswerStore;
use alias_chain::{Answers, SvcbSet};
use alt_base::{ListOf, Moment};
use dns_names::Name;
use origin_values::Addr;
use std::alloc::Global;
use std::test::Fail;
use svcb_wire::{Svcb, V4s, V6s};

const FIRST: [u8; 4] = [192, 0, 2, 1];

const SECOND: [u8; 4] = [192, 0, 2, 2];

const SIXTH: [u8; 16] = [32, 1, 13, 184, 0, 0, 0, 0, 0, 0, 0, 0, 0, 0, 0, 1];

fn name(alloc: Global, text: &str) -> Result<Name, Fail> {
    let end = text.len().min(400);
    Ok(Name::from_text(alloc, &text.as_bytes()[..end])?)
}

fn v4s(alloc: Global, all: &[[u8; 4]]) -> Result<V4s, Fail> {
    Ok(ListOf::from_vec(Vec::from_slice(alloc, all)?))
}

fn put(
    alloc: Global,
    store: &mut AnswerStore,
    now: u32,
    text: &str,
    ttl: u32,
    all: &[[u8; 4]],
) -> Result<(), Fail> {
    let (name, all) = (name(alloc, text)?, v4s(alloc, all)?);
    if store.newest().0 <= now {
        store.put_v4(Moment(now), name, ttl, all)?;
    }
    Ok(())
}

fn put_v6(alloc: Global, store: &mut AnswerStore, now: u32, text: &str) -> Result<(), Fail> {
    let mut all: V6s = ListOf::new(alloc);
    all.push(SIXTH)?;
    let name = name(alloc, text)?;
    if store.newest().0 <= now {
        store.put_v6(Moment(now), name, 20, all)?;
    }
    Ok(())
}

fn put_https(alloc: Global, store: &mut AnswerStore, now: u32, text: &str) -> Result<(), Fail> {
    let mut set: SvcbSet = ListOf::new(alloc);
    set.push(Svcb {
        priority: 1,
        target: name(alloc, ".")?,
        params: ListOf::new(alloc),
    })?;
    let name = name(alloc, text)?;
    if store.newest().0 <= now {
        store.put_https(Moment(now), name, 30, set)?;
    }
    Ok(())
}

fn purge(store: &mut AnswerStore, now: u32) {
    if store.newest().0 <= now {
        store.purge(Moment(now));
    }
}

// How many answers are in force; None at a moment that is gone.
fn count(store: &AnswerStore, now: u32) -> Option<u64> {
    if store.newest().0 <= now {
        Some(store.count(Moment(now)))
    } else {
        None
    }
}

fn has(
    alloc: Global,
    store: &AnswerStore,
    now: u32,
    text: &str,
    addr: &Addr,
) -> Result<bool, Fail> {
    let name = name(alloc, text)?;
    Ok(store.newest().0 <= now && store.has_address(Moment(now), &name, addr))
}

// How many HTTPS records of a name are in force; None where there is no answer.
fn records(
    alloc: Global,
    store: &AnswerStore,
    now: u32,
    text: &str,
) -> Result<Option<usize>, Fail> {
    let name = name(alloc, text)?;
    if store.newest().0 > now {
        return Ok(None);
    }
    match store.https(&name, Moment(now)) {
        Some(set) => Ok(Some(set.len())),
        None => Ok(None),
    }
}

// Two addresses for 10 seconds and one for none, a longer address for 20, a record for 30, all at the moment 5.
fn filled(alloc: Global) -> Result<AnswerStore, Fail> {
    let mut store = AnswerStore::new(alloc);
    put(alloc, &mut store, 5, "a.example", 10, &[FIRST, SECOND])?;
    put(alloc, &mut store, 5, "b.example", 0, &[FIRST])?;
    put_v6(alloc, &mut store, 5, "A.example")?;
    put_https(alloc, &mut store, 5, "a.example")?;
    Ok(store)
}

// One address for 10 seconds at the moment 1, another for 3 at the moment 2.
fn replaced(alloc: Global) -> Result<AnswerStore, Fail> {
    let mut store = AnswerStore::new(alloc);
    put(alloc, &mut store, 1, "a.example", 10, &[FIRST])?;
    put(alloc, &mut store, 2, "a.example", 3, &[SECOND])?;
    Ok(store)
}

#[test]
fn answers_end(rt: HostRuntime) -> Result<(), Fail> {
    let alloc = rt.alloc();
    for (now, left) in [(5, 3), (14, 3), (15, 2), (25, 1), (35, 0)] {
        let mut store = filled(alloc)?;
        assert_eq!(rt; count(&store, now), Some(left));
        purge(&mut store, now);
        assert_eq!(rt; count(&store, now), Some(left));
    }
    Ok(())
}

#[test]
fn addresses_in_force(rt: HostRuntime) -> Result<(), Fail> {
    let alloc = rt.alloc();
    for (now, text, listed) in [
        (14, "a.example", true),
        (15, "a.example", false),
        (5, "b.example", false),
        (5, "c.example", false),
    ] {
        let store = filled(alloc)?;
        assert_eq!(rt; has(alloc, &store, now, text, &Addr::V4(SECOND))?, listed);
    }
    Ok(())
}

#[test]
fn longer_addresses_and_records(rt: HostRuntime) -> Result<(), Fail> {
    let alloc = rt.alloc();
    for (now, listed, found) in [(24, true, Some(1)), (34, false, Some(1)), (35, false, None)] {
        let store = filled(alloc)?;
        assert_eq!(rt;
            has(alloc, &store, now, "a.example", &Addr::V6(SIXTH))?,
            listed
        );
        assert_eq!(rt; records(alloc, &store, now, "a.example")?, found);
    }
    Ok(())
}

#[test]
fn newer_answers(rt: HostRuntime) -> Result<(), Fail> {
    let alloc = rt.alloc();
    for (now, older, newer) in [(2, false, true), (4, false, true), (5, false, false)] {
        let store = replaced(alloc)?;
        assert_eq!(rt;
            has(alloc, &store, now, "a.example", &Addr::V4(FIRST))?,
            older
        );
        assert_eq!(rt;
            has(alloc, &store, now, "a.example", &Addr::V4(SECOND))?,
            newer
        );
    }
    Ok(())
}

// An answer that lists nothing is in force like any other.
#[test]
fn empty_answers_and_the_network(rt: HostRuntime) -> Result<(), Fail> {
    let alloc = rt.alloc();
    let mut store = AnswerStore::new(alloc);
    put(alloc, &mut store, 5, "c.example", 10, &[])?;
    assert_eq!(rt; count(&store, 5), Some(1));
    store.network();
    assert_eq!(rt; count(&store, 5), Some(0));
    Ok(())
}

#[test]
fn many_answers(rt: HostRuntime) -> Result<(), Fail> {
    let alloc = rt.alloc();
    let mut store = AnswerStore::new(alloc);
    for step in 0..20_000_u32 {
        let text = format!(in alloc; "n{step}.example")?;
        put(alloc, &mut store, step, text.as_str(), 15_000, &[FIRST])?;
        purge(&mut store, step);
    }
    assert_eq!(rt; count(&store, 20_000), Some(14_999));
    purge(&mut store, 34_999);
    assert_eq!(rt; count(&store, 34_999), Some(0));
    Ok(())
}
