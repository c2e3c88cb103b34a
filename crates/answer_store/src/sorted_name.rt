ghost use Rattle.std.specs.Prelude.{◌≡◌, refl};
ghost use Rattle.std.specs.Cmp.{partial_equiv_from_equiv, unsigned_po};
ghost use Rattle.std.specs.Cmp.Lexicographic.{slice_partial_cmp, lists_equiv, nat_list_eq_equiv, lists_po, lists_total, lists_agrees, lists_ties, nat_list_cmp_total, texts_ties, slice_cmp};
ghost use Rattle.std.specs.Ordering.{nat_cmp};
ghost use Rattle.dns_names.specs.Names.{name_eq};
ghost use Rattle.answer_store.specs.Names.{name_cmp, name_partial_cmp};

use alt_base::Bytes;
use dns_names::Name;
use std::cmp::Ordering;
use std::marker::Model;

/// A name with an order: by the bytes of its labels, from the first label on. To a contract it is the list of its labels.
#[derive(Debug, Drop)]
pub(crate) struct SortedName {
    name: Name,
}

impl Model for SortedName {
    ghost use Rattle.std.specs.Prelude.{List, ℕ};

    ghost Value = { List (List ℕ) };

    ghost view = { λ sorted. sorted.name };
}

impl SortedName {
    pub(crate) fn new(name: Name) -> SortedName
        ensures { result ≡ name }
    {
        SortedName { name }
    }

    pub(crate) fn name(&self) -> &Name
        ensures { result.now ≡ self.now }
    {
        &self.name
    }

    pub(crate) fn into_name(self) -> Name
        ensures { result ≡ self }
    {
        let SortedName { name } = self;
        name
    }
}

impl PartialEq for SortedName {
    ghost eq = { name_eq };

    ghost laws = { partial_equiv_from_equiv (lists_equiv nat_list_eq_equiv) };

    fn eq(&self, other: &Self) -> bool {
        self.name == other.name
    }
}

impl Eq for SortedName {
    ghost laws = { lists_equiv nat_list_eq_equiv };
}

impl PartialOrd for SortedName {
    ghost partial_cmp = { name_partial_cmp };

    ghost laws = { lists_po (lists_po unsigned_po) };

    fn partial_cmp(&self, other: &Self) -> Option<Ordering> {
        Some(self.cmp(other))
    }
}

impl Ord for SortedName {
    ghost cmp = { name_cmp };

    ghost total = { lists_total nat_list_cmp_total };

    ghost matches_partial_cmp = { lists_agrees (lists_agrees (λ x y. refl)) };

    ghost matches_eq = { lists_ties (slice_cmp nat_cmp) texts_ties };

    fn cmp(&self, other: &Self) -> Ordering {
        order_of(self.name.labels(), other.name.labels())
    }
}

// The order of labels, by the first that differ.
fn order_of(labels: &[Bytes], others: &[Bytes]) -> Ordering
    ensures { result ≡ name_cmp labels.now others.now }
{
    match labels {
        [] => match others {
            [] => Ordering::Equal,
            [_, ..] => Ordering::Less,
        },
        [label, labels @ ..] => match others {
            [] => Ordering::Greater,
            [other, others @ ..] => label
                .as_slice()
                .cmp(other.as_slice())
                .then(order_of(labels, others)),
        },
    }
}
