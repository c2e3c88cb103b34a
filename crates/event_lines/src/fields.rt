ghost use Rattle.std.specs.Prelude.{◌≡◌, ◌<◌, ◌^◌, length, IfOk};
ghost use Rattle.event_lines.specs.Fields.{port_of, status_of, proto_of, origin_of, names_of, octets_of, dns_name_of, answer_kind_of};
ghost use Rattle.event_lines.specs.ServerReading.{alts_of};

use crate::answer_kind::AnswerKind;
use crate::number::number_of;
use alt_base::{Bytes, ListOf, NoMemory, Refused};
use altsvc_grammar::{AltSvc, Alts, parse};
use coalescing::{CertNames, parse_names};
use dns_names::Name;
use hex::FromHexError;
use origin_values::{Origin, Proto};
use std::alloc::Global;

/// The greatest port.
const MOST_PORT: u64 = 65535;
/// The least status of a final response (RFC 9110 15).
const LEAST_STATUS: u64 = 200;
/// The greatest status.
const MOST_STATUS: u64 = 599;

// A port, from 1 to 65535.
pub(crate) fn port_of(text: &[u8]) -> Option<u16>
    ensures { result ≡ port_of text.now }
{
    match number_of(text, MOST_PORT) {
        Some(number) if number > 0 => Some(number as u16),
        _ => None,
    }
}

// A status of a final response, of three digits.
pub(crate) fn status_of(text: &[u8]) -> Option<u16>
    ensures { result ≡ status_of text.now }
{
    if text.len() != 3 {
        return None;
    }
    match number_of(text, MOST_STATUS) {
        Some(number) if number >= LEAST_STATUS => Some(number as u16),
        _ => None,
    }
}

// The protocol of a connection.
pub(crate) fn proto_of(text: &[u8]) -> Option<Proto>
    ensures { result ≡ proto_of text.now }
{
    if text == b"h2".as_slice() {
        Some(Proto::H2)
    } else if text == b"h3".as_slice() {
        Some(Proto::H3)
    } else if text == b"http/1.1".as_slice() {
        Some(Proto::Http11)
    } else if text == b"other".as_slice() {
        Some(Proto::Other)
    } else {
        None
    }
}

// The origin that a text spells, if it spells one.
pub(crate) fn origin_of(alloc: Global, text: &[u8]) -> Result<Option<Origin>, NoMemory>
    requires { length text.now < 2 ^ 32 }
    ensures { IfOk result (λ origin. origin ≡ origin_of text.now) }
{
    match Origin::parse(alloc, text) {
        Ok(origin) => Ok(Some(origin)),
        Err(Refused::NoMemory) => Err(NoMemory),
        Err(Refused::At { .. }) => Ok(None),
    }
}

// The names of a certificate that a text spells, if it spells any.
pub(crate) fn names_of(alloc: Global, text: &[u8]) -> Result<Option<CertNames>, NoMemory>
    requires { length text.now < 2 ^ 32 }
    ensures { IfOk result (λ names. names ≡ names_of text.now) }
{
    match parse_names(alloc, text) {
        Ok(names) => Ok(Some(names)),
        Err(Refused::NoMemory) => Err(NoMemory),
        Err(Refused::At { .. }) => Ok(None),
    }
}

// The name of DNS that a text spells, if it spells one.
pub(crate) fn dns_name_of(alloc: Global, text: &[u8]) -> Result<Option<Name>, NoMemory>
    requires { length text.now < 2 ^ 32 }
    ensures { IfOk result (λ name. name ≡ dns_name_of text.now) }
{
    match Name::from_text(alloc, text) {
        Ok(name) => Ok(Some(name)),
        Err(Refused::NoMemory) => Err(NoMemory),
        Err(Refused::At { .. }) => Ok(None),
    }
}

// The kind of an answer.
pub(crate) fn answer_kind_of(text: &[u8]) -> Option<AnswerKind>
    ensures { result ≡ answer_kind_of text.now }
{
    if text == b"a".as_slice() {
        Some(AnswerKind::Ipv4)
    } else if text == b"aaaa".as_slice() {
        Some(AnswerKind::Ipv6)
    } else if text == b"https".as_slice() {
        Some(AnswerKind::Https)
    } else {
        None
    }
}

// The octets that hex digits spell, if a text has any and is such digits.
pub(crate) fn octets_of(alloc: Global, text: &[u8]) -> Result<Option<Bytes>, NoMemory>
    ensures { IfOk result (λ octets. octets ≡ octets_of text.now) }
{
    if text.is_empty() {
        return Ok(None);
    }
    match hex::decode(alloc, text) {
        Ok(octets) => Ok(Some(ListOf::from_vec(octets))),
        Err(FromHexError::OutOfMemory) => Err(NoMemory),
        Err(_) => Ok(None),
    }
}

// The alternatives that a value of Alt-Svc lists, if a text spells one other than `clear`.
pub(crate) fn alts_of(alloc: Global, text: &[u8]) -> Result<Option<Alts>, NoMemory>
    ensures { IfOk result (λ alts. alts ≡ alts_of text.now) }
{
    match parse(alloc, text) {
        Ok(AltSvc::List(alts)) => Ok(Some(alts)),
        Ok(AltSvc::Clear) => Ok(None),
        Err(Refused::NoMemory) => Err(NoMemory),
        Err(Refused::At { .. }) => Ok(None),
    }
}
