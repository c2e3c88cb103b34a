ghost use Rattle.std.specs.Prelude.{◌≡◌, IfOk};
ghost use Rattle.svcb_values.specs.ValueReading.{read_nothing, read_value};

use crate::Unescaped;
use crate::hints::{read_v4s, read_v6s};
use crate::ids::read_ids;
use crate::mandatory::read_keys;
use crate::port::read_port;
use alt_base::{Duplicate, NoMemory};
use std::alloc::Global;
use svcb_wire::Param;

/// The parameter of a key and of what a string stands for (RFC 9460 7, 8 and appendix A.1): None where the value isn't of
/// the key's form.
pub fn read_value(alloc: Global, key: u16, value: &Unescaped) -> Result<Option<Param>, NoMemory>
    ensures { IfOk result (λ param. param ≡ read_value key value.now) }
{
    let text = value.bytes.as_slice();
    match key {
        1 => Ok(read_ids(alloc, text)?.map(|ids| Param::Alpn(ids))),
        2 => Ok(read_nothing(text)),
        0 | 3 | 4 | 6 if !value.plain => Ok(None),
        0 => Ok(read_keys(alloc, text)?.map(|keys| Param::Mandatory(keys))),
        3 => Ok(read_port(text).map(|port| Param::Port(port))),
        4 => Ok(read_v4s(alloc, text)?.map(|addresses| Param::V4Hint(addresses))),
        6 => Ok(read_v6s(alloc, text)?.map(|addresses| Param::V6Hint(addresses))),
        _ => Ok(Some(Param::Other {
            key,
            value: value.bytes.copy(alloc)?,
        })),
    }
}

fn read_nothing(text: &[u8]) -> Option<Param>
    ensures { result ≡ read_nothing text.now }
{
    if text.is_empty() {
        Some(Param::NoDefaultAlpn)
    } else {
        None
    }
}
