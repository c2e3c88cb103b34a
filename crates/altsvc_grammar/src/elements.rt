ghost use Rattle.std.specs.Prelude.{◌≡◌, ◌≤◌, ◌<◌, ◌^◌, ◌+◌, length, drop, nat_eq, codes, false, [], IfOk};
ghost use Rattle.std.specs.Cmp.Lexicographic.{pointwise};
ghost use Rattle.alt_base.specs.Answers.{Answers};
ghost use Rattle.alt_base.specs.declared.refusal.Refused.TheVariants.{At as RefusedThere};
ghost use Rattle.altsvc_grammar.specs.Steps.{GivesStep};
ghost use Rattle.altsvc_grammar.specs.ValueReading.{nothing_seen, lone_token, with_protocol, with_terms, read_element, seen_element, read_elements};
ghost use Rattle.altsvc_grammar.specs.ParameterReading.{read_parameters as read_the_parameters, nothing_given};
ghost use Rattle.altsvc_grammar.specs.SeenElements.{seen_of, GivesSeen, GivesPlace};

use crate::authority::read_authority;
use crate::element::Element;
use crate::given::terms_of;
use crate::parameters::{read_parameters, stands_at};
use crate::protocol::read_protocol;
use crate::seen::Seen;
use crate::unquoted::unquoted;
use crate::{AltKey, AltRefusal};
use alt_base::{Bytes, Refused};
use field_text::{ows, quoted, token};
use std::alloc::Global;

// What the elements of an input give.
pub(crate) fn read_elements(alloc: Global, input: &[u8]) -> Result<Seen, Refused<AltRefusal>>
    requires { length input.now < 2 ^ 32 }
    ensures { GivesSeen result (read_elements (length input.now + 1) (length input.now + 1) nothing_seen 0 input.now) }
{
    let mut seen = Seen::new(alloc);
    let mut place = 0;
    for turn in 0..input.len() + 1 {
        let end = see_element(alloc, input, ows(input, place), &mut seen)?;
        if end as usize == input.len() {
            return Ok(seen);
        }
        if !stands_at(input, end, b',') {
            return Err(refused(end, AltRefusal::Trailing));
        }
        place = end + 1;
    }
    Ok(seen)
}

// Sees the element at a place, where neither a comma nor the end stands there. The place behind it and the blanks that
// follow.
fn see_element(
    alloc: Global,
    input: &[u8],
    place: u32,
    seen: &mut Seen,
) -> Result<u32, Refused<AltRefusal>>
    requires place { place ≤ length input.now }
    requires small { length input.now < 2 ^ 32 }
    ensures reading { GivesPlace input.now seen.new result (seen_element (length input.now + 1) (seen_of seen.old) place (drop place input.now)) }
    ensures within { IfOk result (λ end. end ≤ length input.now) }
{
    if place as usize == input.len() || stands_at(input, place, b',') {
        return Ok(place);
    }
    let (element, end) = read_element(alloc, input, place)?;
    seen.see(element)?;
    Ok(end)
}

// The element at a place, and the place behind it and the blanks that follow.
fn read_element(
    alloc: Global,
    input: &[u8],
    place: u32,
) -> Result<(Element, u32), Refused<AltRefusal>>
    requires place { place ≤ length input.now }
    requires small { length input.now < 2 ^ 32 }
    ensures reading { GivesStep input.now result (read_element (length input.now + 1) place (drop place input.now)) }
    ensures within { IfOk result (λ answer. answer.1 ≤ length input.now) }
{
    let end = match token(input, place) {
        Ok(end) => end,
        Err(_) => return Err(refused(place, AltRefusal::BadToken)),
    };
    let name = &input[place as usize..end as usize];
    if !stands_at(input, end, b'=') {
        return read_lone_token(input, name, end);
    }
    let proto = read_protocol(alloc, name, place)?;
    read_alternative(alloc, input, proto, end + 1)
}

// A token that no `=` follows, which ends at a place.
fn read_lone_token(
    input: &[u8],
    token: &[u8],
    place: u32,
) -> Result<(Element, u32), Refused<AltRefusal>>
    requires place { place ≤ length input.now }
    requires small { length input.now < 2 ^ 32 }
    ensures reading { GivesStep input.now result (lone_token token.now place (drop place input.now)) }
    ensures within { IfOk result (λ answer. answer.1 ≤ length input.now) }
{
    if token == b"clear".as_slice() {
        Ok((Element::Clear, ows(input, place)))
    } else {
        Err(refused(place, AltRefusal::NoEquals))
    }
}

// The alternative of a protocol: its authority at a place, and its parameters.
fn read_alternative(
    alloc: Global,
    input: &[u8],
    proto: Bytes,
    place: u32,
) -> Result<(Element, u32), Refused<AltRefusal>>
    requires place { place ≤ length input.now }
    requires small { length input.now < 2 ^ 32 }
    ensures reading { GivesStep input.now result (with_protocol (length input.now + 1) place (drop place input.now) (Ok proto)) }
    ensures within { IfOk result (λ answer. answer.1 ≤ length input.now) }
{
    let end = match quoted(input, place) {
        Ok(end) => end,
        Err(at) => return Err(refused(at.place, AltRefusal::BadQuoted)),
    };
    let text = unquoted(alloc, input, place, end)?;
    let (host, port) = match read_authority(alloc, text.as_slice())? {
        Some(authority) => authority,
        None => return Err(refused(place, AltRefusal::BadAuthority)),
    };
    read_terms(alloc, input, AltKey { proto, host, port }, end)
}

// The parameters of an alternative of this key, at a place.
fn read_terms(
    alloc: Global,
    input: &[u8],
    key: AltKey,
    place: u32,
) -> Result<(Element, u32), Refused<AltRefusal>>
    requires place { place ≤ length input.now }
    requires small { length input.now < 2 ^ 32 }
    ensures reading { GivesStep input.now result (with_terms key (read_the_parameters (length input.now + 1) nothing_given place (drop place input.now))) }
    ensures within { IfOk result (λ answer. answer.1 ≤ length input.now) }
{
    let (given, end) = read_parameters(alloc, input, place)?;
    Ok((Element::Alternative(key, terms_of(given)), end))
}

fn refused(place: u32, reason: AltRefusal) -> Refused<AltRefusal>
    ensures { result ≡ RefusedThere place reason }
{
    Refused::At { place, reason }
}
