ghost use Rattle.std.specs.Prelude.{◌≡◌, ◌++◌, IfOk, codes};
ghost use Rattle.hex.specs.Hex.{encode_lower};
ghost use Rattle.altroute_show.specs.Given.{octets_line, text_given};
ghost use Rattle.svcb_wire.specs.Records.{IsRecord, record_octets};

use crate::give::{refused_given, trimmed};
use crate::given::Given;
use alt_base::{Bytes, ListOf, NoMemory, Refused};
use std::alloc::Global;
use svcb_text::parse;
use svcb_wire::{Svcb, write};

// A record's octets in lower-case hex, as one line.
fn write_octets(alloc: Global, value: &Svcb) -> Result<Bytes, NoMemory>
    requires { IsRecord value.now }
    ensures { IfOk result (λ line. line ≡ octets_line value.now) }
{
    let octets = write(alloc, value)?;
    let text = hex::encode(alloc, octets.as_slice())?;
    let mut line = text.into_bytes();
    line.push(b'\n')?;
    Ok(ListOf::from_vec(line))
}

/// What is written for an input that is a record's text.
pub(crate) fn text_given(alloc: Global, input: &[u8]) -> Result<Given, NoMemory>
    ensures { IfOk result (λ given. given ≡ text_given input.now) }
{
    match parse(alloc, trimmed(input)) {
        Ok(value) => Ok(Given::Shown(write_octets(alloc, &value)?)),
        Err(Refused::NoMemory) => Err(NoMemory),
        Err(Refused::At { place, reason }) => {
            refused_given(alloc, u32::from(reason.number()), place)
        }
    }
}
