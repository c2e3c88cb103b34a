ghost use Rattle.std.specs.Prelude.{◌≡◌, ◌++◌, IfOk, codes};
ghost use Rattle.altroute_show.specs.Given.{form_line};
ghost use Rattle.svcb_text.specs.Written.{record_text};
ghost use Rattle.svcb_wire.specs.Records.{IsRecord};

use crate::record_json::write_record;
use alt_base::{Bytes, ListOf, NoMemory};
use std::alloc::Global;
use svcb_wire::Svcb;

/// The form in which a record is written as a line.
#[derive(Clone, Copy, Debug, PartialEq, Eq)]
pub enum RecordForm {
    /// Its text (RFC 9460 2.1).
    Text,
    /// One compact object of JSON.
    Json,
}

// A record's text as one line.
fn write_text(alloc: Global, value: &Svcb) -> Result<Bytes, NoMemory>
    requires { IsRecord value.now }
    ensures { IfOk result (λ line. line ≡ record_text value.now ++ codes "\n") }
{
    let mut line = svcb_text::write(alloc, value)?.into_vec();
    line.push(b'\n')?;
    Ok(ListOf::from_vec(line))
}

/// A record as one line.
pub(crate) fn write_line(alloc: Global, value: &Svcb, form: RecordForm) -> Result<Bytes, NoMemory>
    requires { IsRecord value.now }
    ensures { IfOk result (λ line. line ≡ form_line form value.now) }
{
    match form {
        RecordForm::Text => write_text(alloc, value),
        RecordForm::Json => write_record(alloc, value),
    }
}
