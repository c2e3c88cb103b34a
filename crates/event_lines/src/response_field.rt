ghost use Rattle.std.specs.Prelude.{◌≡◌, ◌≤◌, length, IfOk};
ghost use Rattle.std.specs.List.{list_all};
ghost use Rattle.alt_base.specs.Classes.{in_ranges};
ghost use Rattle.field_text.specs.Runs.{run_of, after_run};
ghost use Rattle.event_lines.specs.Parts.{is_space};
ghost use Rattle.event_lines.specs.ResponseGrammar.{value_class, is_value_byte};
ghost use Rattle.event_lines.specs.ResponseReading.{is_before_colon, without_last_spaces, trimmed, field_from, field_of};

use alt_base::{ClassTable, NoMemory};
use http_header::{HeaderName, HeaderNameError};
use std::alloc::Global;
use std::marker::Model;

/// A field of a response.
#[derive(Drop)]
pub(crate) struct Field<'a> {
    pub name: HeaderName,
    pub value: &'a [u8],
}

impl<'a> Model for Field<'a> {
    ghost use Rattle.event_lines.specs.ResponseGrammar.{Field};

    ghost Value = { Field };

    ghost view = { λ field. record { name = field.name; value = field.value.now } };
}

// The field that a text spells, if it spells one: a name, a colon and a value, without the spaces at the value's ends.
pub(crate) fn field_of<'a>(alloc: Global, text: &'a [u8]) -> Result<Option<Field<'a>>, NoMemory>
    ensures { IfOk result (λ field. field ≡ field_of text.now) }
{
    let count = name_length(text);
    match &text[count..] {
        [] => Ok(None),
        [_, value @ ..] => field_from(alloc, &text[..count], trimmed(value)),
    }
}

// The field of a name and a value.
fn field_from<'a>(
    alloc: Global,
    name: &[u8],
    value: &'a [u8],
) -> Result<Option<Field<'a>>, NoMemory>
    ensures { IfOk result (λ field. field ≡ field_from name.now value.now) }
{
    if !is_value(value) {
        return Ok(None);
    }
    match HeaderName::from_bytes(alloc, name) {
        Ok(name) => Ok(Some(Field { name, value })),
        Err(HeaderNameError::Invalid) => Ok(None),
        Err(HeaderNameError::OutOfMemory) => Err(NoMemory),
    }
}

// How many bytes stand before the first colon, or the end.
fn name_length(text: &[u8]) -> usize
    ensures value { result ≡ length (run_of is_before_colon text.now) }
    ensures within { result ≤ length text.now }
{
    for (i, b) in text.iter().enumerate() {
        if *b == b':' {
            return i;
        }
    }
    text.len()
}

// A text without the spaces at its ends.
fn trimmed(text: &[u8]) -> &[u8]
    ensures { result.now ≡ trimmed text.now }
{
    let text = &text[space_length(text)..];
    &text[..length_before_spaces(text)]
}

// How many spaces stand in front.
fn space_length(text: &[u8]) -> usize
    ensures value { result ≡ length (run_of is_space text.now) }
    ensures within { result ≤ length text.now }
{
    for (i, b) in text.iter().enumerate() {
        if *b != b' ' {
            return i;
        }
    }
    text.len()
}

// How many bytes stand before the spaces at the end.
fn length_before_spaces(text: &[u8]) -> usize
    ensures value { result ≡ length (without_last_spaces text.now) }
    ensures within { result ≤ length text.now }
{
    let mut length = 0;
    for (i, b) in text.iter().enumerate() {
        if *b != b' ' {
            length = i + 1;
        }
    }
    length
}

// Whether all bytes may stand in a value.
fn is_value(text: &[u8]) -> bool
    ensures { result ≡ list_all is_value_byte text.now }
{
    let table = value_table();
    text.iter().all(|b| table.has(*b))
}

// The bytes of a value (RFC 9110 5.5), without the tab.
fn value_table() -> ClassTable<2>
    ensures { result ≡ value_class }
{
    ClassTable::new([(0x20, 0x7e), (0x80, 0xff)])
}
