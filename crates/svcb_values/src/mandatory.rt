ghost use Rattle.std.specs.Prelude.{◌≡◌, IfOk};
ghost use Rattle.svcb_values.specs.ValueReading.{read_keys};

use crate::key_names::key_named;
use alt_base::{ListOf, NoMemory};
use std::alloc::Global;
use std::collections::BTreeSet;
use svcb_wire::Keys;

// The keys of a mandatory list, in order, where it names keys, none of them twice and none mandatory itself.
pub(crate) fn read_keys(alloc: Global, text: &[u8]) -> Result<Option<Keys>, NoMemory>
    ensures { IfOk result (λ keys. keys ≡ read_keys text.now) }
{
    let mut keys = BTreeSet::new(alloc);
    for name in text.split(|b| *b == b',') {
        let Some(key) = key_named(name) else {
            return Ok(None);
        };
        if key == 0 {
            return Ok(None);
        }
        if !keys.insert(key)? {
            return Ok(None);
        }
    }
    Ok(Some(listed(alloc, &keys)?))
}

// The keys of a set, in order.
fn listed(alloc: Global, keys: &BTreeSet<u16>) -> Result<Keys, NoMemory>
    ensures { IfOk result (λ list. list ≡ keys.now.keys) }
{
    Ok(ListOf::from_vec(keys.iter().copied().collect(alloc)?))
}
