ghost use Rattle.std.specs.Prelude.{◌≡◌, ◌≤◌, ◌<◌, ◌+◌, ◌^◌, false, length, IfOk};
ghost use Rattle.std.specs.BTreeMap as tree;
ghost use Rattle.field_text.specs.Runs.{run_of};
ghost use Rattle.svcb_wire.specs.Octets.{key_of};
ghost use Rattle.svcb_wire.specs.Usable.{has_key};
ghost use Rattle.alt_base.specs.Answers.{Answers};
ghost use Rattle.svcb_values.specs.KeyNames.{is_key_byte};
ghost use Rattle.svcb_text.specs.ParamOrder.{AreKeyed};
ghost use Rattle.svcb_values.specs.StringReading.{read_string};
ghost use Rattle.svcb_text.specs.TextReading.{by_value, by_string, behind_key, ends_key, first_param, read_params};
ghost use Rattle.svcb_values.specs.ValueReading.{read_value};

use crate::RecordTextRefusal;
use alt_base::{Bytes, ListOf, NoMemory, Refused, record_key_table};
use field_text::ows;
use std::alloc::Global;
use std::collections::BTreeMap;
use svcb_values::{StringFault, Unescaped, key_named, read_string, read_value};
use svcb_wire::{Param, Params, param_key};

// How many bytes of keys stand in front.
fn key_len(rest: &[u8]) -> usize
    ensures run { result ≡ length (run_of is_key_byte rest.now) }
    ensures within { result ≤ length rest.now }
{
    let table = record_key_table();
    for (i, byte) in rest.iter().enumerate() {
        if !table.has(*byte) {
            return i;
        }
    }
    rest.len()
}

// Whether a key may end before this.
fn ends_key(rest: &[u8]) -> bool
    ensures { result ≡ ends_key rest.now }
{
    match rest.first() {
        None => true,
        Some(byte) => *byte == b'=' || *byte == b' ' || *byte == b'\t',
    }
}

// The parameter of a key, whose value begins at a place, and how many bytes it takes with its key.
fn with_value(
    alloc: Global,
    key: u16,
    value: &Unescaped,
    place: u32,
    count: usize,
) -> Result<(Param, usize), Refused<RecordTextRefusal>>
    ensures reading { Answers result (by_value (read_value key value.now) place key count) }
    ensures same { IfOk result (λ found. found.1 ≡ count) }
{
    match read_value(alloc, key, value)? {
        Some(param) => Ok((param, count)),
        None => Err(Refused::At {
            place,
            reason: RecordTextRefusal::BadValue { key },
        }),
    }
}

// The parameter of a key, whose value's string begins at a place, and how many bytes it takes with what stands before.
fn with_string(
    alloc: Global,
    key: u16,
    place: u32,
    count: usize,
    string: &[u8],
) -> Result<(Param, usize), Refused<RecordTextRefusal>>
    requires placed { place + length string.now < 2 ^ 32 }
    requires counted { count + length string.now < 2 ^ 32 }
    ensures reading { Answers result (by_string (read_string string.now) place key count) }
    ensures within { IfOk result (λ found. found.1 ≤ count + length string.now) }
    ensures some { IfOk result (λ found. count ≤ found.1) }
{
    match read_string(alloc, string) {
        Ok((value, size)) => with_value(alloc, key, &value, place, count + size),
        Err(StringFault::NoMemory) => Err(Refused::NoMemory),
        Err(StringFault::At { place: at }) => Err(Refused::At {
            place: place + at as u32,
            reason: RecordTextRefusal::BadString,
        }),
    }
}

// The parameter of a key, which begins at a place and has so many bytes, and how many bytes it takes.
fn behind_key(
    alloc: Global,
    key: u16,
    place: u32,
    count: usize,
    rest: &[u8],
) -> Result<(Param, usize), Refused<RecordTextRefusal>>
    requires { place + count + length rest.now < 2 ^ 32 }
    ensures reading { Answers result (behind_key place key count rest.now) }
    ensures within { IfOk result (λ found. found.1 ≤ count + length rest.now) }
    ensures some { IfOk result (λ found. count ≤ found.1) }
{
    if let Some((b'=', string)) = rest.split_first() {
        return with_string(alloc, key, place + count as u32 + 1, count + 1, string);
    }
    let value = Unescaped {
        bytes: Bytes::new(alloc),
        plain: true,
    };
    with_value(alloc, key, &value, place + count as u32, count)
}

// The parameter at the front of a text, which begins at a place, and how many bytes it takes. Its key isn't one of those
// that were found.
fn first_param(
    alloc: Global,
    found: &BTreeMap<u16, Param>,
    place: u32,
    rest: &[u8],
) -> Result<(Param, usize), Refused<RecordTextRefusal>>
    requires small { place + length rest.now < 2 ^ 32 }
    requires keyed { AreKeyed found.now.entries }
    ensures reading { Answers result (first_param (tree.values found.now) place rest.now) }
    ensures within { IfOk result (λ found. found.1 ≤ length rest.now) }
    ensures some { IfOk result (λ found. 1 ≤ found.1) }
    ensures is_new { IfOk result (λ answer. has_key (key_of answer.0) (tree.values found.now) ≡ false) }
{
    let count = key_len(rest);
    let behind = &rest[count..];
    let Some(key) = key_named(&rest[..count]) else {
        return Err(Refused::At {
            place,
            reason: RecordTextRefusal::BadKey,
        });
    };
    if !ends_key(behind) {
        return Err(Refused::At {
            place,
            reason: RecordTextRefusal::BadKey,
        });
    }
    if found.contains_key(&key) {
        return Err(Refused::At {
            place,
            reason: RecordTextRefusal::RepeatedKey,
        });
    }
    behind_key(alloc, key, place, count, behind)
}

// The parameters in the order of their keys.
fn in_order(alloc: Global, found: BTreeMap<u16, Param>) -> Result<Params, NoMemory>
    ensures { IfOk result (λ params. params ≡ tree.values found) }
{
    Ok(ListOf::from_vec(found.into_values().collect(alloc)?))
}

// The parameters from a place on, to the end of the text, in the order of their keys.
pub(crate) fn read_params(
    alloc: Global,
    text: &[u8],
    place: u32,
) -> Result<Params, Refused<RecordTextRefusal>>
    requires { place + length text.now < 2 ^ 32 }
    ensures { Answers result (read_params place text.now) }
{
    let mut found: BTreeMap<u16, Param> = BTreeMap::new(alloc);
    let mut at = place;
    let mut rest = text;
    loop {
        let blanks = ows(rest, 0);
        at += blanks;
        rest = &rest[blanks as usize..];
        if rest.is_empty() {
            return Ok(in_order(alloc, found)?);
        }
        let (param, size) = first_param(alloc, &found, at, rest)?;
        found.insert(param_key(&param), param)?;
        at += size as u32;
        rest = &rest[size..];
    }
}
