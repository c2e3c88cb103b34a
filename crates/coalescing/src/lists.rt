ghost use Rattle.std.specs.Prelude.{◌≡◌, ◌++◌, ◌∷◌, [], OnOk, OnErr, if◌then◌else◌};
ghost use Rattle.coalescing.specs.Lists.{list_at};

use alt_base::{ListOf, NoMemory};
use indexmap::IndexMap;
use std::alloc::Global;
use std::hash::Hash;

/// Appends an item to the list of a key. After NoMemory each key has the list that it had.
pub(crate) fn append<K: Eq + Hash + Drop, T: Drop>(
    alloc: Global,
    lists: &mut IndexMap<K, ListOf<T>>,
    key: K,
    item: T,
) -> Result<(), NoMemory>
    ensures ok { OnOk result ((k : K) → list_at K.eq lists.new k ≡ (if K.eq key k then list_at K.eq lists.old k ++ item ∷ [] else list_at K.eq lists.old k)) }
    ensures err { OnErr result ((k : K) → list_at K.eq lists.new k ≡ list_at K.eq lists.old k) }
{
    if let Some(list) = lists.get_mut(&key) {
        list.push(item)?;
        return Ok(());
    }
    let mut list = ListOf::new(alloc);
    list.push(item)?;
    lists.insert(key, list)?;
    Ok(())
}
