ghost use Rattle.std.specs.Prelude.{◌≡◌, ◌≤◌, ◌<◌, ◌+◌, ℕ, true, false, ◌&&◌, ◌||◌, not, OnOk, OnErr, IfSome, IfNone, if◌then◌else◌};
ghost use Rattle.std.specs.List.{list_any};
ghost use Rattle.std.specs.BTreeSet.{btree_set_len, IsUnchanged};
ghost use Rattle.origin_values.specs.Equality.{origin_eq};
ghost use Rattle.origin_values.specs.declared.origin.Origin.{Origin};
ghost use Rattle.network_cache.specs.Ends.{ends_at};
ghost use Rattle.network_cache.specs.Queue.{is_place, is_queued};

use crate::Kept;
use crate::kept::{end_of, some_ends_at};
use crate::sorted_origin::SortedOrigin;
use alt_base::{Duplicate, Moment, NoMemory};
use origin_values::Origin;
use std::alloc::Global;
use std::collections::BTreeSet;

/// A moment, and an origin of which an alternative ends then.
pub(crate) type Place = (u64, SortedOrigin);

/// Places, the first to end in front.
pub(crate) type Queue = BTreeSet<Place>;

/// Adds the place of each of an origin's alternatives. After NoMemory some of them are there.
pub(crate) fn enter(
    alloc: Global,
    queue: &mut Queue,
    origin: &Origin,
    alternatives: &[Kept],
) -> Result<(), NoMemory>
    ensures ok { OnOk result ((e : ℕ) (o : Origin) → is_queued queue.new e o ≡ ((origin_eq origin.now o && list_any (ends_at e) alternatives.now) || is_queued queue.old e o)) }
    ensures err { OnErr result ((e : ℕ) (o : Origin) → is_queued queue.old e o ≡ true → is_queued queue.new e o ≡ true) }
{
    for kept in alternatives {
        let twin = SortedOrigin::new(origin.copy(alloc)?);
        queue.insert((end_of(kept), twin))?;
    }
    Ok(())
}

// Takes out a place at a moment, unless one of the alternatives that are left ends then.
fn leave_at(queue: &mut Queue, place: &mut Place, end: u64, left: &[Kept])
    ensures origin { place.new.1 ≡ place.old.1 }
    ensures queue { (e : ℕ) (o : Origin) → is_queued queue.new e o ≡ (not (is_place (end, place.old.1) (e, o) && not (list_any (ends_at end) left.now)) && is_queued queue.old e o) }
{
    if some_ends_at(left, end) {
        return;
    }
    place.0 = end;
    queue.remove(&*place);
}

/// Takes out the places of an origin's alternatives, but where one of those that are left ends too.
pub(crate) fn leave(queue: &mut Queue, origin: Origin, before: &[Kept], left: &[Kept]) -> Origin
    ensures origin { result ≡ origin }
    ensures queue { (e : ℕ) (o : Origin) → is_queued queue.new e o ≡ (not (origin_eq origin o && (list_any (ends_at e) before.now && not (list_any (ends_at e) left.now))) && is_queued queue.old e o) }
{
    let mut place = (0, SortedOrigin::new(origin));
    for kept in before {
        leave_at(queue, &mut place, end_of(kept), left);
    }
    place.1.into_origin()
}

/// Takes the front of the queue where it has ended.
pub(crate) fn pop_ended(queue: &mut Queue, now: Moment) -> Option<Place>
    ensures ended { IfSome result (λ p. p.0 ≤ now.0) }
    ensures member { IfSome result (λ p. is_queued queue.old p.0 p.1 ≡ true) }
    ensures fewer { IfSome result (λ p. btree_set_len queue.new + 1 ≡ btree_set_len queue.old) }
    ensures others { IfSome result (λ p. (e : ℕ) (o : Origin) → is_queued queue.new e o ≡ (if is_place p (e, o) then false else is_queued queue.old e o)) }
    ensures unchanged { IfNone result (IsUnchanged queue.old queue.new) }
    ensures later { IfNone result ((e : ℕ) (o : Origin) → is_queued queue.old e o ≡ true → now.0 < e) }
{
    let Some(first) = queue.first() else {
        return None;
    };
    if u64::from(now.0) < first.0 {
        return None;
    }
    queue.pop_first()
}
