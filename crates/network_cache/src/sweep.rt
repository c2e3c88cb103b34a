ghost use Rattle.std.specs.Prelude.{◌≡◌, ◌&&◌, ◌||◌, ℕ, OnOk, OnErr};
ghost use Rattle.std.specs.List.{list_any};
ghost use Rattle.origin_values.specs.Equality.{origin_eq};
ghost use Rattle.origin_values.specs.declared.origin.Origin.{Origin};
ghost use Rattle.network_cache.specs.Ends.{ends_at};
ghost use Rattle.network_cache.specs.Queue.{is_queued};
ghost use Rattle.network_cache.specs.Entries.{kept_in};

use crate::Kept;
use crate::index::{Index, alternatives_of};
use crate::kept::some_ends_at;
use crate::queue::{Place, Queue, enter};
use alt_base::NoMemory;
use origin_values::Origin;
use std::alloc::Global;

// Whether an alternative of the place's origin ends at its moment.
fn stands(index: &Index, place: &Place) -> bool
    ensures { result ≡ list_any (ends_at place.now.0) (kept_in index.now place.now.1) }
{
    match alternatives_of(index, place.1.origin()) {
        Some(all) => some_ends_at(all.as_slice(), place.0),
        None => false,
    }
}

/// Takes each place out of the queue at which nothing ends.
pub(crate) fn sweep(index: &Index, queue: &mut Queue)
    ensures { (e : ℕ) (o : Origin) → is_queued queue.new e o ≡ (list_any (ends_at e) (kept_in index.now o) && is_queued queue.old e o) }
{
    queue.retain(|place| stands(index, place));
}

/// Adds the place of each of an origin's alternatives. After NoMemory the queue has the places that it had.
pub(crate) fn enter_all(
    alloc: Global,
    index: &Index,
    queue: &mut Queue,
    origin: &Origin,
    alternatives: &[Kept],
) -> Result<(), NoMemory>
    requires { (e : ℕ) (o : Origin) → is_queued queue.old e o ≡ list_any (ends_at e) (kept_in index.now o) }
    ensures ok { OnOk result ((e : ℕ) (o : Origin) → is_queued queue.new e o ≡ ((origin_eq origin.now o && list_any (ends_at e) alternatives.now) || is_queued queue.old e o)) }
    ensures err { OnErr result ((e : ℕ) (o : Origin) → is_queued queue.new e o ≡ is_queued queue.old e o) }
{
    match enter(alloc, queue, origin, alternatives) {
        Ok(()) => Ok(()),
        Err(fault) => {
            sweep(index, queue);
            Err(fault)
        }
    }
}
