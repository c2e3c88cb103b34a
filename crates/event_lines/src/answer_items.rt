ghost use Rattle.std.specs.Prelude.{◌≡◌, ◌<◌, ◌+◌, ◌^◌, length};
ghost use Rattle.event_lines.specs.AnswerReading.{v4_among, v6_among, item_of, words_behind, items_from, items_in};
ghost use Rattle.event_lines.specs.Reads.{MayGive};
ghost use Rattle.event_lines.specs.declared.answer_kind.AnswerKind.TheVariants.{Ipv4, Ipv6, Https};
ghost use Rattle.origin_values.specs.HostReading.{read_addr};

use crate::LineRefusal;
use crate::answer_kind::AnswerKind;
use crate::fields::octets_of;
use crate::line_reader::{bad_field, word_length};
use alt_base::{ListOf, Refused};
use origin_values::Addr;
use route_events::{AnswerBody, Rdatas};
use std::alloc::Global;
use svcb_wire::{V4s, V6s};

// What the words of a text bring, each behind a space. The text begins at this place.
pub(crate) fn read_items(
    alloc: Global,
    kind: AnswerKind,
    text: &[u8],
    begin: u32,
) -> Result<AnswerBody, Refused<LineRefusal>>
    requires { begin + length text.now < 2 ^ 32 }
    ensures { MayGive result (items_in kind begin text.now) }
{
    match kind {
        AnswerKind::Ipv4 => Ok(AnswerBody::V4(read_v4s(alloc, text, begin)?)),
        AnswerKind::Ipv6 => Ok(AnswerBody::V6(read_v6s(alloc, text, begin)?)),
        AnswerKind::Https => Ok(AnswerBody::Https(read_rdatas(alloc, text, begin)?)),
    }
}

// The addresses of IPv4 in a text.
fn read_v4s(alloc: Global, text: &[u8], begin: u32) -> Result<V4s, Refused<LineRefusal>>
    requires { begin + length text.now < 2 ^ 32 }
    ensures { MayGive result (items_from (item_of Ipv4) begin (words_behind text.now)) }
{
    let mut addresses = ListOf::new(alloc);
    let mut rest = text;
    let mut place = begin;
    while let [_, behind @ ..] = rest {
        let count = word_length(behind);
        match v4_of(&behind[..count]) {
            None => return Err(Refused::from(bad_field(place + 1))),
            Some(address) => addresses.push(address)?,
        }
        rest = &behind[count..];
        place += 1 + count as u32;
    }
    Ok(addresses)
}

// The addresses of IPv6 in a text.
fn read_v6s(alloc: Global, text: &[u8], begin: u32) -> Result<V6s, Refused<LineRefusal>>
    requires { begin + length text.now < 2 ^ 32 }
    ensures { MayGive result (items_from (item_of Ipv6) begin (words_behind text.now)) }
{
    let mut addresses = ListOf::new(alloc);
    let mut rest = text;
    let mut place = begin;
    while let [_, behind @ ..] = rest {
        let count = word_length(behind);
        match v6_of(&behind[..count]) {
            None => return Err(Refused::from(bad_field(place + 1))),
            Some(address) => addresses.push(address)?,
        }
        rest = &behind[count..];
        place += 1 + count as u32;
    }
    Ok(addresses)
}

// The octets of records in a text.
fn read_rdatas(alloc: Global, text: &[u8], begin: u32) -> Result<Rdatas, Refused<LineRefusal>>
    requires { begin + length text.now < 2 ^ 32 }
    ensures { MayGive result (items_from (item_of Https) begin (words_behind text.now)) }
{
    let mut rdatas = ListOf::new(alloc);
    let mut rest = text;
    let mut place = begin;
    while let [_, behind @ ..] = rest {
        let count = word_length(behind);
        match octets_of(alloc, &behind[..count])? {
            None => return Err(Refused::from(bad_field(place + 1))),
            Some(octets) => rdatas.push(octets)?,
        }
        rest = &behind[count..];
        place += 1 + count as u32;
    }
    Ok(rdatas)
}

// The address of IPv4 that a text spells.
fn v4_of(text: &[u8]) -> Option<[u8; 4]>
    ensures { result ≡ v4_among (read_addr text.now) }
{
    match Addr::parse(text) {
        Some(Addr::V4(octets)) => Some(octets),
        _ => None,
    }
}

// The address of IPv6 that a text spells.
fn v6_of(text: &[u8]) -> Option<[u8; 16]>
    ensures { result ≡ v6_among (read_addr text.now) }
{
    match Addr::parse(text) {
        Some(Addr::V6(octets)) => Some(octets),
        _ => None,
    }
}
