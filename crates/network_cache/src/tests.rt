ghost use Rattle.std.specs.Prelude.{◌≤◌, OnOk};
ghost use Rattle.network_cache.specs.Contents.{newest_moment};

use crate::Cache;
use alt_base::{Bytes, ListOf, Moment, NoMemory};
use altsvc_grammar::{Alt, AltKey, Alts};
use origin_values::{Host, Origin, Scheme};
use std::alloc::Global;
use std::process::Abort;
use std::test::Fail;

/// A change of a cache. `Set` has an origin's name, an age, and alternatives by their ports, seconds and persistence.
enum Act {
    Set(&'static str, u32, &'static [(u16, u32, bool)]),
    Remove(&'static str, u16),
    Clear(&'static str),
    Network,
    Purge,
    Nothing,
}

/// A moment and what is done then; a moment that isn't before it, and what is fresh there: the ports of the alternatives
/// of the origin with this name, and how many there are of all.
type Row = (u32, Act, u32, &'static str, &'static [u16], u64);

const REPLACED: &[Row] = &[
    (0, Act::Nothing, 0, "a", &[], 0),
    (
        5,
        Act::Set("a", 0, &[(1, 100, false), (2, 100, false)]),
        5,
        "a",
        &[1, 2],
        2,
    ),
    (5, Act::Set("b", 0, &[(3, 100, false)]), 5, "a", &[1, 2], 3),
    (6, Act::Set("a", 0, &[(4, 100, false)]), 6, "a", &[4], 2),
    (6, Act::Nothing, 6, "b", &[3], 2),
    (6, Act::Nothing, 6, "c", &[], 2),
];

const BY_SECONDS: &[Row] = &[
    (
        100,
        Act::Set(
            "a",
            10,
            &[
                (1, 0, false),
                (2, 30, false),
                (3, 31, false),
                (4, 2147483648, false),
            ],
        ),
        100,
        "a",
        &[2, 3, 4],
        3,
    ),
    (100, Act::Nothing, 119, "a", &[2, 3, 4], 3),
    (100, Act::Nothing, 120, "a", &[3, 4], 2),
    (100, Act::Nothing, 2147483737, "a", &[4], 1),
    (120, Act::Purge, 120, "a", &[3, 4], 2),
    (121, Act::Purge, 121, "a", &[4], 1),
];

const PASSING: &[Row] = &[
    (
        1,
        Act::Set("a", 0, &[(1, 9, false), (2, 9, true), (3, 9, true)]),
        1,
        "a",
        &[1, 2, 3],
        3,
    ),
    (
        1,
        Act::Set("b", 0, &[(1, 9, false), (2, 9, true), (3, 9, true)]),
        1,
        "b",
        &[1, 2, 3],
        6,
    ),
    (1, Act::Remove("a", 3), 1, "a", &[1, 2], 5),
    (1, Act::Nothing, 1, "b", &[1, 2, 3], 5),
    (1, Act::Network, 1, "a", &[2], 3),
    (1, Act::Nothing, 1, "b", &[2, 3], 3),
    (1, Act::Clear("b"), 1, "b", &[], 1),
];

fn bytes(alloc: Global, text: &str) -> Result<Bytes, NoMemory> {
    Ok(ListOf::from_vec(Vec::from_slice(alloc, text.as_bytes())?))
}

fn origin(alloc: Global, name: &str) -> Result<Origin, NoMemory> {
    Ok(Origin {
        scheme: Scheme::Https,
        host: Host::Name(bytes(alloc, name)?),
        port: 443,
    })
}

fn key(alloc: Global, port: u16) -> Result<AltKey, NoMemory> {
    Ok(AltKey {
        proto: bytes(alloc, "h3")?,
        host: None,
        port,
    })
}

fn alts(alloc: Global, rows: &[(u16, u32, bool)]) -> Result<Alts, NoMemory> {
    let mut alts = ListOf::new(alloc);
    for (port, ma, persist) in rows {
        alts.push(Alt {
            key: key(alloc, *port)?,
            ma: *ma,
            persist: *persist,
        })?;
    }
    Ok(alts)
}

// The ports of an origin's alternatives that are fresh.
fn ports(alloc: Global, cache: &Cache, now: u32, name: &str) -> Result<Vec<u16>, NoMemory>
    requires { newest_moment cache.now ≤ now }
{
    let alts = cache.live(alloc, Moment(now), &origin(alloc, name)?)?;
    let mut ports = Vec::new(alloc);
    for alt in alts.as_slice() {
        ports.push(alt.key.port)?;
    }
    Ok(ports)
}

fn change(alloc: Global, cache: &mut Cache, now: u32, act: &Act) -> Result<(), NoMemory>
    requires { newest_moment cache.old ≤ now }
    ensures { OnOk result (newest_moment cache.new ≤ now) }
{
    match act {
        Act::Set(name, age, rows) => {
            let origin = origin(alloc, *name)?;
            cache.set(Moment(now), *age, origin, alts(alloc, *rows)?)
        }
        Act::Remove(name, port) => {
            cache.remove(&origin(alloc, *name)?, &key(alloc, *port)?);
            Ok(())
        }
        Act::Clear(name) => {
            cache.clear(&origin(alloc, *name)?);
            Ok(())
        }
        Act::Network => {
            cache.network();
            Ok(())
        }
        Act::Purge => {
            cache.purge(Moment(now));
            Ok(())
        }
        Act::Nothing => Ok(()),
    }
}

fn hold(rt: &impl Abort, alloc: Global, rows: &[Row]) -> Result<(), NoMemory> {
    let mut cache = Cache::new(alloc);
    let mut newest = 0;
    for (now, act, at, name, expected, count) in rows {
        assert!(rt; newest <= *now && *now <= *at);
        newest = *now;
        change(alloc, &mut cache, newest, act)?;
        let found = ports(alloc, &cache, *at, *name)?;
        assert!(rt; found.as_slice() == *expected, "{name} at {at}");
        assert!(rt; cache.count(Moment(*at)) == *count, "all at {at}");
    }
    Ok(())
}

#[test]
fn a_value_replaces_the_one_before(rt: HostRuntime) -> Result<(), Fail> {
    Ok(hold(&rt, rt.alloc(), REPLACED)?)
}

#[test]
fn alternatives_are_fresh_below_their_seconds(rt: HostRuntime) -> Result<(), Fail> {
    Ok(hold(&rt, rt.alloc(), BY_SECONDS)?)
}

#[test]
fn what_is_cleared_removed_or_passing_goes(rt: HostRuntime) -> Result<(), Fail> {
    Ok(hold(&rt, rt.alloc(), PASSING)?)
}
