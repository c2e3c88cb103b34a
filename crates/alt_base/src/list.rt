ghost use Rattle.std.specs.Prelude.{◌≡◌, [], ◌∷◌, ◌++◌, ◌<◌, ◌≤◌, length, slice_get, take, ◌↔◌, IsNone, IfOk, OnOk, OnErr};
ghost use Rattle.std.specs.Option.{option_copied};
ghost use Rattle.std.specs.Cmp.Lexicographic.{pointwise, lists_per, lists_equiv};
ghost use Rattle.std.specs.Hash.{items_Alike};
ghost use Rattle.std.specs.Hash as fed;

use crate::{Duplicate, NoMemory};
use std::alloc::Global;
use std::hash::{Hash, Hasher};
use std::marker::Model;

/// A list to every contract, over a `Vec`.
#[derive(Debug, Drop)]
pub struct ListOf<T> {
    items: Vec<T>,
}

impl<T> Model for ListOf<T> {
    ghost use Rattle.std.specs.Prelude.{List};
    ghost use Rattle.std.specs.Coded.{coded_list};

    ghost Value = { List T };

    ghost coded = { coded_list T.code };

    ghost view = { λ list. list.items.items };
}

/// Bytes, mostly of a text.
pub type Text = ListOf<u8>;
/// Bytes.
pub type Bytes = ListOf<u8>;
/// The words of a command line, without the program's name.
pub type Words = ListOf<Text>;
/// The numbers of the calls that are to fail, from 1.
pub type Calls = ListOf<u32>;

impl<T> ListOf<T> {
    /// The empty list. It takes no memory.
    pub fn new(alloc: Global) -> ListOf<T>
        ensures { result ≡ [] }
    {
        ListOf {
            items: Vec::new(alloc),
        }
    }

    /// The items of a `Vec`, in order. It takes no memory.
    pub fn from_vec(items: Vec<T>) -> ListOf<T>
        ensures { result ≡ items.items }
    {
        ListOf { items }
    }

    /// The items as a `Vec`, in order. It takes no memory.
    pub fn into_vec(self) -> Vec<T>
        ensures { result.items ≡ self }
    {
        let ListOf { items } = self;
        items
    }

    /// The number of items.
    pub fn len(&self) -> usize
        ensures { result ≡ length self.now }
    {
        self.items.len()
    }

    /// The item at a place, from 0; None exactly where the place is at least the length.
    pub fn get(&self, place: usize) -> Option<&T>
        ensures item { option_copied result ≡ slice_get self.now place }
        ensures past { IsNone result ↔ (length self.now ≤ place) }
    {
        self.items.get(place)
    }

    /// The items as a slice.
    pub fn as_slice(&self) -> &[T]
        ensures { result.now ≡ self.now }
    {
        self.items.as_slice()
    }
}

impl<T: Drop> ListOf<T> {
    /// Appends an item. Where memory isn't found, the list stays as it was.
    pub fn push(&mut self, item: T) -> Result<(), NoMemory>
        ensures ok { OnOk result (self.new ≡ self.old ++ item ∷ []) }
        ensures err { OnErr result (self.new ≡ self.old) }
    {
        self.items.push(item)?;
        Ok(())
    }

    /// Drops all items. The room stays.
    pub fn clear(&mut self)
        ensures { self.new ≡ [] }
    {
        self.items.clear();
    }
}

impl<T: PartialEq> PartialEq for ListOf<T> {
    ghost eq = { pointwise T.eq };

    ghost laws = { lists_per T.laws };

    fn eq(&self, other: &Self) -> bool {
        self.items.as_slice() == other.items.as_slice()
    }
}

impl<T: Eq> Eq for ListOf<T> {
    ghost laws = { lists_equiv T.Eq.laws };
}

impl<T: Hash> Hash for ListOf<T> {
    ghost hash_input = { fed.slice T.hash_input };

    ghost respects_eq = { (items_Alike (record { fed = T.respects_eq })).fed };

    fn hash<H: Hasher>(&self, state: &mut H) {
        self.items.as_slice().hash(state);
    }
}

impl<T: Duplicate> Duplicate for ListOf<T> {
    fn copy(&self, alloc: Global) -> Result<Self, NoMemory> {
        Ok(ListOf {
            items: copied(alloc, self.items.as_slice())?,
        })
    }
}

// A twin of each item, in order.
fn copied<T: Duplicate>(alloc: Global, items: &[T]) -> Result<Vec<T>, NoMemory>
    ensures { IfOk result (λ twins. twins.items ≡ items.now) }
{
    let mut twins = Vec::new(alloc);
    for item in items {
        twins.push(item.copy(alloc)?)?;
    }
    Ok(twins)
}
