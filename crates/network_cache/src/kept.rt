ghost use Rattle.std.specs.Prelude.{◌≡◌, ◌++◌, ◌∷◌, [], map, filter, length, IfOk, OnOk, if◌then◌else◌};
ghost use Rattle.network_cache.specs.declared.kept.Kept.{Kept};
ghost use Rattle.std.specs.List.{list_any};
ghost use Rattle.network_cache.specs.Freshness.{taken_at, is_fresh, persists, has_other_key};
ghost use Rattle.network_cache.specs.Ends.{end_of, ends_at, ends_elsewhere};

use alt_base::{Duplicate, ListOf, Moment, NoMemory};
use altsvc_grammar::{Alt, AltKey, Alts, same_key};
use std::alloc::Global;

/// An alternative that is kept (RFC 7838 3.1), with the moment at which its value was taken and the age that the value
/// had then, both in seconds.
#[derive(Debug, Drop)]
pub struct Kept {
    pub alt: Alt,
    pub moment: u32,
    pub age: u32,
}

/// The alternatives of a value, as they are kept.
pub(crate) fn taken(
    alloc: Global,
    now: Moment,
    age: u32,
    alts: Alts,
) -> Result<ListOf<Kept>, NoMemory>
    ensures { IfOk result (λ all. all ≡ map (taken_at now.0 age) alts) }
{
    let mut all = Vec::new(alloc);
    for alt in alts.into_vec() {
        all.push(Kept {
            alt,
            moment: now.0,
            age,
        })?;
    }
    Ok(ListOf::from_vec(all))
}

// Whether an alternative is fresh.
fn is_fresh(kept: &Kept, now: Moment) -> bool
    ensures { result ≡ is_fresh now.0 kept.now }
{
    let since = u64::from(now.0.saturating_sub(kept.moment));
    u64::from(kept.age) + since < u64::from(kept.alt.ma)
}

/// The moment at which an alternative is fresh no more, 0 where it never is.
pub(crate) fn end_of(kept: &Kept) -> u64
    ensures { result ≡ end_of kept.now }
{
    if kept.age < kept.alt.ma {
        u64::from(kept.moment) + u64::from(kept.alt.ma - kept.age)
    } else {
        0
    }
}

/// Whether an alternative ends at a moment.
pub(crate) fn some_ends_at(all: &[Kept], end: u64) -> bool
    ensures { result ≡ list_any (ends_at end) all.now }
{
    all.iter().any(|kept| end_of(kept) == end)
}

/// Drops those that end at a moment.
pub(crate) fn drop_ended(all: &mut Vec<Kept>, end: u64)
    ensures { all.new.items ≡ filter (ends_elsewhere end) all.old.items }
{
    all.retain(|kept| end_of(kept) != end);
}

/// Drops those that don't stay when the network changes.
pub(crate) fn drop_passing(all: &mut Vec<Kept>)
    ensures { all.new.items ≡ filter persists all.old.items }
{
    all.retain(|kept| kept.alt.persist);
}

/// Drops those of a key.
pub(crate) fn drop_key(all: &mut Vec<Kept>, key: &AltKey)
    ensures { all.new.items ≡ filter (has_other_key key.now) all.old.items }
{
    all.retain(|kept| !same_key(&kept.alt.key, key));
}

/// The alternatives that are fresh, in order.
pub(crate) fn fresh(alloc: Global, all: &[Kept], now: Moment) -> Result<Alts, NoMemory>
    ensures { IfOk result (λ alts. alts ≡ map (λ (k : Kept). k.alt) (filter (is_fresh now.0) all.now)) }
{
    let mut alts = ListOf::new(alloc);
    for kept in all {
        push_fresh(alloc, &mut alts, kept, now)?;
    }
    Ok(alts)
}

// Appends an alternative, where it is fresh.
fn push_fresh(alloc: Global, alts: &mut Alts, kept: &Kept, now: Moment) -> Result<(), NoMemory>
    ensures { OnOk result (alts.new ≡ alts.old ++ (if is_fresh now.0 kept.now then kept.now.alt ∷ [] else [])) }
{
    if is_fresh(kept, now) {
        alts.push(kept.alt.copy(alloc)?)?;
    }
    Ok(())
}

/// How many are fresh.
pub(crate) fn count_fresh(all: &[Kept], now: Moment) -> u64
    ensures { result ≡ length (filter (is_fresh now.0) all.now) }
{
    all.iter().filter(|kept| is_fresh(kept, now)).count() as u64
}
