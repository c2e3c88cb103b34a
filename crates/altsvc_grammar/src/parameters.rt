ghost use Rattle.std.specs.Prelude.{◌≡◌, ◌≤◌, ◌<◌, ◌^◌, ◌+◌, length, drop, IfOk};
ghost use Rattle.altsvc_grammar.specs.Steps.{GivesStep, begins_with};
ghost use Rattle.std.specs.Bool.{OnTrue};
ghost use Rattle.altsvc_grammar.specs.declared.refusal.AltRefusal.TheVariants.{BadParameter};
ghost use Rattle.alt_base.specs.declared.refusal.Refused.TheVariants.{At as RefusedThere};
ghost use Rattle.altsvc_grammar.specs.ParameterReading.{nothing_given, read_parameter_value, read_parameter, read_parameters};

use crate::AltRefusal;
use crate::given::{Given, note, nothing_given};
use crate::unquoted::unquoted;
use alt_base::{Bytes, ListOf, Refused};
use field_text::{ows, quoted, token};
use std::alloc::Global;

// Whether a byte stands at a place.
pub(crate) fn stands_at(input: &[u8], place: u32, byte: u8) -> bool
    requires { place ≤ length input.now }
    ensures value { result ≡ begins_with byte (drop place input.now) }
    ensures within { OnTrue result (place < length input.now) }
{
    match &input[place as usize..] {
        [b, ..] => *b == byte,
        [] => false,
    }
}

// What the parameters at a place give, and the place behind them and the blanks that follow.
pub(crate) fn read_parameters(
    alloc: Global,
    input: &[u8],
    start: u32,
) -> Result<(Given, u32), Refused<AltRefusal>>
    requires place { start ≤ length input.now }
    requires small { length input.now < 2 ^ 32 }
    ensures reading { GivesStep input.now result (read_parameters (length input.now + 1) nothing_given start (drop start input.now)) }
    ensures within { IfOk result (λ answer. answer.1 ≤ length input.now) }
{
    let mut given = nothing_given();
    let mut place = start;
    for turn in 0..input.len() + 1 {
        let here = ows(input, place);
        if !stands_at(input, here, b';') {
            return Ok((given, here));
        }
        (given, place) = read_parameter(alloc, input, ows(input, here + 1), given)?;
    }
    Ok((given, place))
}

// What the parameters so far and the one at a place give, and the place behind it.
fn read_parameter(
    alloc: Global,
    input: &[u8],
    place: u32,
    given: Given,
) -> Result<(Given, u32), Refused<AltRefusal>>
    requires place { place ≤ length input.now }
    requires small { length input.now < 2 ^ 32 }
    ensures reading { GivesStep input.now result (read_parameter given place (drop place input.now)) }
    ensures within { IfOk result (λ answer. answer.1 ≤ length input.now) }
{
    let end = match token(input, place) {
        Ok(end) => end,
        Err(_) => return Err(bad_parameter(place)),
    };
    if !stands_at(input, end, b'=') {
        return Err(bad_parameter(end));
    }
    let (value, after) = read_parameter_value(alloc, input, end + 1)?;
    let name = &input[place as usize..end as usize];
    Ok((note(given, name, value.as_slice()), after))
}

// The value of a parameter, and the place behind it.
fn read_parameter_value(
    alloc: Global,
    input: &[u8],
    place: u32,
) -> Result<(Bytes, u32), Refused<AltRefusal>>
    requires place { place ≤ length input.now }
    requires small { length input.now < 2 ^ 32 }
    ensures reading { GivesStep input.now result (read_parameter_value place (drop place input.now)) }
    ensures within { IfOk result (λ answer. answer.1 ≤ length input.now) }
{
    if let Ok(end) = token(input, place) {
        let value = Vec::from_slice(alloc, &input[place as usize..end as usize])?;
        return Ok((ListOf::from_vec(value), end));
    }
    match quoted(input, place) {
        Ok(end) => Ok((ListOf::from_vec(unquoted(alloc, input, place, end)?), end)),
        Err(at) => Err(bad_parameter(at.place)),
    }
}

fn bad_parameter(place: u32) -> Refused<AltRefusal>
    ensures { result ≡ RefusedThere place BadParameter }
{
    Refused::At {
        place,
        reason: AltRefusal::BadParameter,
    }
}
