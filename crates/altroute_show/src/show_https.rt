ghost use Rattle.std.specs.Prelude.{◌≡◌, IfOk};
ghost use Rattle.altroute_show.specs.Given.{hex_given, record_given};
ghost use Rattle.svcb_wire.specs.RecordReading.{read_record};

use crate::give::{refused_given, trimmed};
use crate::given::Given;
use crate::record_form::{RecordForm, write_line};
use alt_base::{ListOf, NoMemory, Refused};
use hex::FromHexError;
use std::alloc::Global;
use svcb_wire::parse;

// What is written for the octets of a record.
fn record_given(alloc: Global, form: RecordForm, octets: &[u8]) -> Result<Given, NoMemory>
    ensures { IfOk result (λ given. given ≡ record_given form (read_record octets.now)) }
{
    match parse(alloc, octets) {
        Ok(value) => Ok(Given::Shown(write_line(alloc, &value, form)?)),
        Err(Refused::NoMemory) => Err(NoMemory),
        Err(Refused::At { place, reason }) => {
            refused_given(alloc, u32::from(reason.number()), place)
        }
    }
}

/// What is written for an input of hex digits, the record in a form.
pub(crate) fn hex_given(alloc: Global, form: RecordForm, input: &[u8]) -> Result<Given, NoMemory>
    ensures { IfOk result (λ given. given ≡ hex_given form input.now) }
{
    match hex::decode(alloc, trimmed(input)) {
        Ok(octets) => record_given(alloc, form, octets.as_slice()),
        Err(FromHexError::OutOfMemory) => Err(NoMemory),
        Err(_) => Ok(Given::Refused(ListOf::from_vec(Vec::from_slice(alloc, b"refused hex\n")?))),
    }
}
