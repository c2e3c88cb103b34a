ghost use Rattle.std.specs.Prelude.{◌≡◌, ◌≤◌, ◌<◌, ◌+◌, ℕ, List, true, false, ◌==◌, ◌&&◌, not, IfSome, IfNone, if◌then◌else◌};
ghost use Rattle.std.specs.BTreeSet.{contains, btree_set_len, IsUnchanged};
ghost use Rattle.answer_store.specs.Ends.{end_of, ends_at};
ghost use Rattle.dns_names.specs.Names.{name_eq};
ghost use Rattle.answer_store.specs.Names.{name_cmp};
ghost use Rattle.answer_store.specs.Queue.{place_cmp, is_place};

use crate::sorted_name::SortedName;
use alias_chain::Held;
use alt_base::Moment;
use dns_names::Name;
use std::collections::BTreeSet;

/// The names of a table by the moments at which their answers end, the first to end in front.
pub(crate) type Queue = BTreeSet<(u64, SortedName)>;

/// The moment at which an answer is in force no more.
pub(crate) fn end_of<B>(held: &Held<B>) -> u64
    ensures { result ≡ end_of held.now }
{
    u64::from(held.moment) + u64::from(held.ttl)
}

// Takes a place out of the queue, and gives the name back.
fn take_out(queue: &mut Queue, end: u64, name: Name) -> Name
    ensures name { result ≡ name }
    ensures queue { (e : ℕ) (n : List (List ℕ)) → contains (place_cmp name_cmp) queue.new (e, n) ≡ (if is_place name_eq (end, name) (e, n) then false else contains (place_cmp name_cmp) queue.old (e, n)) }
{
    let place = (end, SortedName::new(name));
    queue.remove(&place);
    place.1.into_name()
}

/// Takes the place of what was held for a name out of the queue, unless the name has that place still. Gives the name back.
pub(crate) fn leave<B: Drop>(
    queue: &mut Queue,
    before: Option<Held<B>>,
    name: Name,
    end: u64,
) -> Name
    ensures name { result ≡ name }
    ensures queue { (e : ℕ) (n : List (List ℕ)) → contains (place_cmp name_cmp) queue.new (e, n) ≡ (if name_eq name n && (ends_at e before && not (end == e)) then false else contains (place_cmp name_cmp) queue.old (e, n)) }
{
    let Some(before) = before else {
        return name;
    };
    let ended = end_of(&before);
    if ended == end {
        return name;
    }
    take_out(queue, ended, name)
}

/// Takes the front of the queue where it has ended.
pub(crate) fn pop_ended(queue: &mut Queue, now: Moment) -> Option<(u64, SortedName)>
    ensures ended { IfSome result (λ p. p.0 ≤ now.0) }
    ensures member { IfSome result (λ p. contains (place_cmp name_cmp) queue.old p ≡ true) }
    ensures fewer { IfSome result (λ p. btree_set_len queue.new + 1 ≡ btree_set_len queue.old) }
    ensures others { IfSome result (λ p. (e : ℕ) (n : List (List ℕ)) → contains (place_cmp name_cmp) queue.new (e, n) ≡ (if is_place name_eq p (e, n) then false else contains (place_cmp name_cmp) queue.old (e, n))) }
    ensures unchanged { IfNone result (IsUnchanged queue.old queue.new) }
    ensures later { IfNone result ((e : ℕ) (n : List (List ℕ)) → contains (place_cmp name_cmp) queue.old (e, n) ≡ true → now.0 < e) }
{
    let Some(first) = queue.first() else {
        return None;
    };
    if u64::from(now.0) < first.0 {
        return None;
    }
    queue.pop_first()
}
