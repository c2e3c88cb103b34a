ghost use Rattle.std.specs.Prelude.{◌≡◌, ◌≤◌, length, IfOk};
ghost use Rattle.svcb_wire.specs.Records.{IsRecord, record_octets};
ghost use Rattle.svcb_text.specs.TextGrammar.{IsAllowed};
ghost use Rattle.svcb_text.specs.TextReading.{read_record_text};
ghost use Rattle.svcb_text.specs.Written.{record_text};

use crate::param_writer::append_params;
use alt_base::{NoMemory, Text};
use std::alloc::Global;
use svcb_wire::Svcb;

/// The text of a record (RFC 9460 2.1): the priority, the target with its final dot, and the parameters in the order of
/// their keys, each behind one space. Keys with a form of their own stand by their names, others as `key` and their
/// number; protocol ids and the values of other keys stand between quotes. The record's parameters stand in strictly
/// increasing keys, each with a value of its key's form. [`parse`](crate::parse) gives the record back where text and
/// RDATA have at most 65,535 bytes, unless the record has a priority and isn't consistent.
pub fn write(alloc: Global, value: &Svcb) -> Result<Text, NoMemory>
    requires { IsRecord value.now }
    ensures written { IfOk result (λ text. text ≡ record_text value.now) }
    ensures read_back { IfOk result (λ text. IsAllowed value.now → length (record_octets value.now) ≤ 65535 → length text ≤ 65535 →
        read_record_text text ≡ Ok value.now) }
{
    let mut text = Vec::new(alloc);
    text.extend_from_slice(value.priority.to_string(alloc)?.as_bytes())?;
    text.push(b' ')?;
    text.extend_from_slice(value.target.to_text(alloc)?.as_slice())?;
    append_params(&mut text, alloc, value.params.as_slice())?;
    Ok(Text::from_vec(text))
}
