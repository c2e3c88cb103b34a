ghost use Rattle.std.specs.Prelude.{◌≡◌, ◌<◌, ◌≤◌, true, [], nat_lt, length, filter, if◌then◌else◌};
ghost use Rattle.std.specs.Prelude.{min};
ghost use Rattle.std.specs.Option.{option_copied};
ghost use Rattle.std.specs.Map.{keys_of};
ghost use Rattle.indexmap.specs.IndexMap.{spare};
ghost use Rattle.origin_values.specs.Equality.{origin_eq};
ghost use Rattle.origin_values.specs.declared.origin.Origin.{Origin};
ghost use Rattle.network_cache.specs.Freshness.{persists, has_other_key};
ghost use Rattle.network_cache.specs.Ends.{ends_elsewhere};
ghost use Rattle.network_cache.specs.Origins.{are_distinct};
ghost use Rattle.network_cache.specs.Entries.{all_of, kept_in, fresh_among};

use crate::Kept;
use crate::kept::{count_fresh, drop_ended, drop_key, drop_passing};
use alt_base::{ListOf, Moment};
use altsvc_grammar::AltKey;
use indexmap::IndexMap;
use origin_values::Origin;
use std::alloc::Global;
use std::mem;

/// The alternatives that are kept for each origin; no origin has an empty list.
pub(crate) type Index = IndexMap<Origin, ListOf<Kept>>;

fn without_ended(alloc: Global, list: &mut ListOf<Kept>, end: u64)
    ensures { list.new ≡ filter (ends_elsewhere end) list.old }
{
    let mut all = mem::replace(list, ListOf::new(alloc)).into_vec();
    drop_ended(&mut all, end);
    *list = ListOf::from_vec(all);
}

fn without_key(alloc: Global, list: &mut ListOf<Kept>, key: &AltKey)
    ensures { list.new ≡ filter (has_other_key key.now) list.old }
{
    let mut all = mem::replace(list, ListOf::new(alloc)).into_vec();
    drop_key(&mut all, key);
    *list = ListOf::from_vec(all);
}

// Whether an alternative is left, once those are dropped that don't stay when the network changes.
fn without_passing(alloc: Global, list: &mut ListOf<Kept>) -> bool
    ensures list { list.new ≡ filter persists list.old }
    ensures left { result ≡ nat_lt 0 (length list.new) }
{
    let mut all = mem::replace(list, ListOf::new(alloc)).into_vec();
    drop_passing(&mut all);
    *list = ListOf::from_vec(all);
    list.len() > 0
}

/// What is kept for an origin, if anything is.
pub(crate) fn alternatives_of<'a>(index: &'a Index, origin: &Origin) -> Option<&'a ListOf<Kept>>
    ensures { all_of (option_copied result) ≡ kept_in index.now origin.now }
{
    index.get(origin)
}

/// Takes what is kept for an origin.
pub(crate) fn take(alloc: Global, index: &mut Index, origin: &Origin) -> ListOf<Kept>
    ensures taken { result ≡ kept_in index.old origin.now }
    ensures others { (o : Origin) → kept_in index.new o ≡ (if origin_eq o origin.now then [] else kept_in index.old o) }
    ensures room { spare index.old ≤ spare index.new }
{
    match index.swap_remove(origin) {
        Some(all) => all,
        None => ListOf::new(alloc),
    }
}

/// Keeps alternatives for an origin for which nothing is kept. It takes no memory.
pub(crate) fn place(index: &mut Index, origin: Origin, alternatives: ListOf<Kept>)
    requires room { 0 < spare index.old }
    requires vacant { kept_in index.old origin ≡ [] }
    ensures { (o : Origin) → kept_in index.new o ≡ (if origin_eq o origin then alternatives else kept_in index.old o) }
{
    if alternatives.len() == 0 {
        return;
    }
    index.insert(origin, alternatives).unwrap();
}

fn is_emptied(index: &Index, origin: &Origin) -> bool
    ensures { result ≡ true → kept_in index.now origin.now ≡ [] }
{
    match index.get(origin) {
        Some(all) => all.len() == 0,
        None => false,
    }
}

// Drops the entry of an origin, where nothing is left in it.
fn drop_emptied(index: &mut Index, origin: &Origin)
    ensures { (o : Origin) → kept_in index.new o ≡ kept_in index.old o }
{
    if is_emptied(index, origin) {
        index.swap_remove(origin);
    }
}

/// Drops an origin's alternatives that end at a moment.
pub(crate) fn drop_ended_of(alloc: Global, index: &mut Index, origin: &Origin, end: u64)
    ensures { (o : Origin) → kept_in index.new o ≡ (if origin_eq o origin.now then filter (ends_elsewhere end) (kept_in index.old o) else kept_in index.old o) }
{
    let Some(all) = index.get_mut(origin) else {
        return;
    };
    without_ended(alloc, all, end);
    drop_emptied(index, origin);
}

/// Drops an origin's alternatives of a key.
pub(crate) fn drop_key_of(alloc: Global, index: &mut Index, origin: &Origin, key: &AltKey)
    ensures { (o : Origin) → kept_in index.new o ≡ (if origin_eq o origin.now then filter (has_other_key key.now) (kept_in index.old o) else kept_in index.old o) }
{
    let Some(all) = index.get_mut(origin) else {
        return;
    };
    without_key(alloc, all, key);
    drop_emptied(index, origin);
}

/// Drops all alternatives that don't stay when the network changes.
pub(crate) fn keep_persistent(alloc: Global, index: &mut Index)
    ensures { (o : Origin) → kept_in index.new o ≡ filter persists (kept_in index.old o) }
{
    let _count = index.len();
    index.retain(|_, all| without_passing(alloc, all));
}

/// How many alternatives are fresh, at most 18,446,744,073,709,551,615.
pub(crate) fn count_all_fresh(index: &Index, now: Moment) -> u64
    ensures count { result ≡ min (fresh_among now.0 index.now.entries) 18446744073709551615 }
    ensures distinct { are_distinct (keys_of index.now.entries) ≡ true }
{
    let mut total = 0u64;
    for (_, all) in index.iter() {
        total = total.saturating_add(count_fresh(all.as_slice(), now));
    }
    total
}
