ghost use Rattle.std.specs.Prelude.{◌≡◌, IfOk};
ghost use Rattle.svcb_values.specs.ValueReading.{read_ids, is_escaped, is_id};

use alt_base::{Bytes, ListOf, NoMemory};
use std::alloc::Global;
use svcb_wire::Ids;

// The ids that a text joins by commas; in an id a comma and a backslash stand behind a backslash.
pub(crate) fn read_ids(alloc: Global, text: &[u8]) -> Result<Option<Ids>, NoMemory>
    ensures { IfOk result (λ ids. ids ≡ read_ids text.now) }
{
    let mut ids = ListOf::new(alloc);
    let mut id = ListOf::new(alloc);
    let mut rest = text;
    while let [byte, behind @ ..] = rest {
        rest = behind;
        if *byte == b',' {
            if !is_id(&id) {
                return Ok(None);
            }
            ids.push(id)?;
            id = ListOf::new(alloc);
        } else if *byte == b'\\' {
            let [escaped, more @ ..] = behind else {
                return Ok(None);
            };
            if !is_escaped(*escaped) {
                return Ok(None);
            }
            id.push(*escaped)?;
            rest = more;
        } else {
            id.push(*byte)?;
        }
    }
    if !is_id(&id) {
        return Ok(None);
    }
    ids.push(id)?;
    Ok(Some(ids))
}

// Whether a byte may stand behind a backslash.
fn is_escaped(byte: u8) -> bool
    ensures { result ≡ is_escaped byte }
{
    byte == b',' || byte == b'\\'
}

// Whether an id has 1 to 255 bytes.
fn is_id(id: &Bytes) -> bool
    ensures { result ≡ is_id id.now }
{
    1 <= id.len() && id.len() <= 255
}
