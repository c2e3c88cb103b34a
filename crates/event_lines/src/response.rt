ghost use Rattle.std.specs.Prelude.{◌≡◌, ◌≤◌, ◌<◌, ◌+◌, ◌^◌, length, None, IfOk, OnOk};
ghost use Rattle.field_text.specs.Runs.{run_of};
ghost use Rattle.event_lines.specs.Reads.{MayGive};
ghost use Rattle.event_lines.specs.ResponseGrammar.{is_field_byte};
ghost use Rattle.event_lines.specs.ResponseReading.{seconds_of, age_with, joined, altsvc_with, with_field, fields_reading};

use crate::LineRefusal;
use crate::line_reader::bad_field;
use crate::response_field::{Field, field_of};
use alt_base::{Bytes, ListOf, NoMemory, Refused};
use field_text::delta_seconds;
use std::alloc::Global;

/// How many fields a response may have.
const MOST_FIELDS: u32 = 64;

/// What the fields of a response say: the seconds of the first Age field (RFC 9111 5.1), and the values of the Alt-Svc
/// fields (RFC 7838 3), joined.
#[derive(Drop)]
pub(crate) struct Reply {
    pub age: Option<u32>,
    pub altsvc: Option<Bytes>,
}

impl Reply {
    // What no field says.
    pub(crate) fn empty() -> Reply
        ensures { result ≡ record { age = None; altsvc = None } }
    {
        Reply {
            age: None,
            altsvc: None,
        }
    }

    // Adds what a further field says.
    fn add(&mut self, alloc: Global, field: &Field) -> Result<(), NoMemory>
        ensures { OnOk result (self.new ≡ with_field self.old field.now) }
    {
        self.age = age_with(self.age, field);
        add_altsvc(alloc, &mut self.altsvc, field)
    }
}

// The seconds of the first Age field, with a further field.
fn age_with(age: Option<u32>, field: &Field) -> Option<u32>
    ensures { result ≡ age_with age field.now }
{
    if field.name.as_bytes() == b"age".as_slice() {
        Some(age.unwrap_or(seconds_of(field.value)))
    } else {
        age
    }
}

// The seconds that a value tells.
fn seconds_of(value: &[u8]) -> u32
    ensures { result ≡ seconds_of value.now }
{
    delta_seconds(value).unwrap_or(0)
}

// Adds the value of an Alt-Svc field.
fn add_altsvc(alloc: Global, altsvc: &mut Option<Bytes>, field: &Field) -> Result<(), NoMemory>
    ensures { OnOk result (altsvc.new ≡ altsvc_with altsvc.old field.now) }
{
    if field.name.as_bytes() == b"alt-svc".as_slice() {
        let value = joined(alloc, altsvc.take(), field.value)?;
        *altsvc = Some(value);
    }
    Ok(())
}

// A value behind those before it.
fn joined(alloc: Global, before: Option<Bytes>, value: &[u8]) -> Result<Bytes, NoMemory>
    ensures { IfOk result (λ text. text ≡ joined before value.now) }
{
    match before {
        None => Ok(ListOf::from_vec(Vec::from_slice(alloc, value)?)),
        Some(before) => {
            let mut text = before.into_vec();
            text.extend_from_slice(b", ")?;
            text.extend_from_slice(value)?;
            Ok(ListOf::from_vec(text))
        }
    }
}

// What the fields of a text say, with a tab between two of them. The first field is at this place.
pub(crate) fn read_fields(
    alloc: Global,
    text: &[u8],
    begin: u32,
) -> Result<Reply, Refused<LineRefusal>>
    requires { begin + length text.now < 2 ^ 32 }
    ensures { MayGive result (fields_reading begin text.now) }
{
    let mut reply = Reply::empty();
    let mut rest = text;
    let mut place = begin;
    for _count in 0..MOST_FIELDS {
        let length = field_length(rest);
        match field_of(alloc, &rest[..length])? {
            None => return Err(Refused::from(bad_field(place))),
            Some(field) => reply.add(alloc, &field)?,
        }
        match &rest[length..] {
            [] => return Ok(reply),
            [_, more @ ..] => {
                rest = more;
                place += length as u32 + 1;
            }
        }
    }
    Err(Refused::from(bad_field(place)))
}

// How many bytes stand before the first tab, or the end.
fn field_length(text: &[u8]) -> usize
    ensures value { result ≡ length (run_of is_field_byte text.now) }
    ensures within { result ≤ length text.now }
{
    for (i, b) in text.iter().enumerate() {
        if *b == b'\t' {
            return i;
        }
    }
    text.len()
}
