//! Origins, each once, in the order in which they came first. Equal ones are looked up by their hash.
ghost use Rattle.std.specs.Prelude.{◌≡◌, ◌<◌, ◌^◌, true, ◌∷◌, [], length, take, OnOk, OnErr};
ghost use Rattle.origin_values.specs.Equality.{origin_eq};
ghost use Rattle.route_events.specs.Distinct.{are_apart};
ghost use Rattle.conn_states.specs.Origins.{is_among, joined, without};

use alt_base::{Duplicate, ListOf, NoMemory};
use indexmap::IndexSet;
use origin_values::{Origin, same_origin};
use std::alloc::Global;

/// Origins in order.
pub type Origins = ListOf<Origin>;

pub(crate) type OriginSet = IndexSet<Origin>;

// Whether an origin is one of the set.
pub(crate) fn holds(set: &OriginSet, origin: &Origin) -> bool
    ensures { result ≡ is_among set.now.keys origin.now }
{
    set.contains(origin)
}

// The origins in order; no two of them are one.
pub(crate) fn items(set: &OriginSet) -> &[Origin]
    ensures items { result.now ≡ set.now.keys }
    ensures apart { are_apart origin_eq set.now.keys ≡ true }
    ensures few { length set.now.keys < 2 ^ 63 }
{
    let _count = set.len();
    set.as_slice()
}

// With an origin, if it isn't one of them. Only then it takes memory.
pub(crate) fn note(set: &mut OriginSet, alloc: Global, origin: &Origin) -> Result<(), NoMemory>
    ensures ok { OnOk result (set.new.keys ≡ joined set.old.keys (origin.now ∷ [])) }
    ensures err { OnErr result (set.new.keys ≡ set.old.keys) }
{
    if !set.contains(origin) {
        set.insert(origin.copy(alloc)?)?;
    }
    Ok(())
}

// With each of some origins, in order. Where memory isn't found, some of them are there, behind what was.
fn note_each(set: &mut OriginSet, alloc: Global, origins: &[Origin]) -> Result<(), NoMemory>
    ensures ok { OnOk result (set.new.keys ≡ joined set.old.keys origins.now) }
    ensures err { OnErr result (take (length set.old.keys) set.new.keys ≡ set.old.keys) }
{
    for origin in origins {
        note(set, alloc, origin)?;
    }
    Ok(())
}

// With each of some origins, in order. Where memory isn't found, the set stays as it was.
pub(crate) fn join(set: &mut OriginSet, alloc: Global, origins: &[Origin]) -> Result<(), NoMemory>
    ensures ok { OnOk result (set.new.keys ≡ joined set.old.keys origins.now) }
    ensures err { OnErr result (set.new.keys ≡ set.old.keys) }
{
    let before = set.len();
    match note_each(set, alloc, origins) {
        Ok(()) => Ok(()),
        Err(fault) => {
            set.truncate(before);
            Err(fault)
        }
    }
}

// Without some origins. It takes no memory.
pub(crate) fn forget(set: &mut OriginSet, origins: &[Origin])
    ensures { set.new.keys ≡ without origins.now set.old.keys }
{
    set.retain(|origin| !is_listed(origins, origin));
}

fn is_listed(origins: &[Origin], origin: &Origin) -> bool
    ensures { result ≡ is_among origins.now origin.now }
{
    origins.iter().any(|listed| same_origin(listed, origin))
}
