ghost use Rattle.std.specs.Prelude.{◌≡◌, false, [], map, IfOk, OnOk};
ghost use Rattle.altsvc_grammar.specs.SeenElements.{seen_of};
ghost use Rattle.altsvc_grammar.specs.ValueReading.{keep, see, alt_of, value_of};
ghost use Rattle.alt_base.specs.Answers.{Answers};

use crate::element::Element;
use crate::terms::Terms;
use crate::{Alt, AltKey, AltRefusal, AltSvc, Alts};
use alt_base::{ListOf, NoMemory, Refused};
use indexmap::IndexMap;
use std::alloc::Global;

/// What the elements so far give: whether one of them is `clear`, and the alternatives, each key once, in order. Equal
/// keys are looked up by their hash.
#[derive(Drop)]
pub(crate) struct Seen {
    clear: bool,
    kept: IndexMap<AltKey, Terms>,
}

impl Seen {
    // Before any element.
    pub(crate) fn new(alloc: Global) -> Seen
        ensures clear { result.clear ≡ false }
        ensures kept { result.kept.entries ≡ [] }
    {
        Seen {
            clear: false,
            kept: IndexMap::new(alloc),
        }
    }

    // With one element more; an alternative whose key stands there is left out.
    pub(crate) fn see(&mut self, element: Element) -> Result<(), NoMemory>
        ensures { OnOk result (seen_of self.new ≡ see (seen_of self.old) element) }
    {
        match element {
            Element::Clear => self.clear = true,
            Element::Alternative(key, terms) => keep(&mut self.kept, key, terms)?,
        }
        Ok(())
    }

    // The value of a text of this length.
    pub(crate) fn into_value(
        self,
        alloc: Global,
        length: u32,
    ) -> Result<AltSvc, Refused<AltRefusal>>
        ensures { Answers result (value_of length (seen_of self)) }
    {
        let Seen { clear, kept } = self;
        if clear {
            return Ok(AltSvc::Clear);
        }
        if kept.is_empty() {
            return Err(Refused::At {
                place: length,
                reason: AltRefusal::Empty,
            });
        }
        Ok(AltSvc::List(alts_of(alloc, kept)?))
    }
}

// With one alternative more, unless its key stands there.
fn keep(kept: &mut IndexMap<AltKey, Terms>, key: AltKey, terms: Terms) -> Result<(), NoMemory>
    ensures { OnOk result (kept.new.entries ≡ keep kept.old.entries key terms) }
{
    if !kept.contains_key(&key) {
        kept.insert(key, terms)?;
    }
    Ok(())
}

// The alternatives, in order.
fn alts_of(alloc: Global, kept: IndexMap<AltKey, Terms>) -> Result<Alts, NoMemory>
    ensures { IfOk result (λ alts. alts ≡ map alt_of kept.entries) }
{
    let mut alts = Vec::new(alloc);
    for (key, terms) in kept {
        alts.push(Alt {
            key,
            ma: terms.ma,
            persist: terms.persist,
        })?;
    }
    Ok(ListOf::from_vec(alts))
}
