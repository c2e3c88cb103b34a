ghost use Rattle.std.specs.Prelude.{◌≡◌, ◌≤◌, ◌<◌, ◌^◌, ◌+◌, length, true, [], ◌∷◌, IfOk, IfSome};
ghost use Rattle.percent_encoding.specs.Percent.{percent_decode};
ghost use Rattle.alt_base.specs.Answers.{Answers};
ghost use Rattle.altsvc_grammar.specs.Written.{is_plain};
ghost use Rattle.altsvc_grammar.specs.ProtocolReading.{is_upper_hex, hex_value, is_coded, is_bad_percent, bad_percent, read_protocol};

use crate::AltRefusal;
use alt_base::{Bytes, ListOf, NoMemory, Refused, token_table};
use percent_encoding::percent_decode;
use std::alloc::Global;

/// The most bytes of a protocol.
const PROTOCOL_BYTES: usize = 255;

// The protocol of a token that stands at a place.
pub(crate) fn read_protocol(
    alloc: Global,
    token: &[u8],
    place: u32,
) -> Result<Bytes, Refused<AltRefusal>>
    requires { place + length token.now < 2 ^ 32 }
    ensures { Answers result (read_protocol place token.now) }
{
    if let Some(bad) = bad_percent(token, place) {
        return Err(Refused::At {
            place: bad,
            reason: AltRefusal::BadPercent,
        });
    }
    let proto = decoded(alloc, token)?;
    if proto.len() > PROTOCOL_BYTES {
        return Err(Refused::At {
            place,
            reason: AltRefusal::BadToken,
        });
    }
    Ok(ListOf::from_vec(proto))
}

fn decoded(alloc: Global, token: &[u8]) -> Result<Vec<u8>, NoMemory>
    ensures { IfOk result (λ bytes. bytes.items ≡ percent_decode token.now) }
{
    let mut bytes = Vec::new(alloc);
    percent_decode(token).append_to(&mut bytes)?;
    Ok(bytes)
}

// The place of the first `%` that codes no byte.
fn bad_percent(token: &[u8], place: u32) -> Option<u32>
    requires { place + length token.now < 2 ^ 32 }
    ensures { result ≡ bad_percent place token.now }
{
    for i in 0..token.len() {
        if is_bad_percent(&token[i..]) {
            return Some(place + i as u32);
        }
    }
    None
}

// Whether a `%` that codes no byte stands in front.
fn is_bad_percent(text: &[u8]) -> bool
    ensures { result ≡ is_bad_percent text.now }
{
    match text {
        [b'%', rest @ ..] => !is_coded(rest),
        _ => false,
    }
}

// Whether two upper-case hex digits of a byte that isn't plain stand in front.
fn is_coded(text: &[u8]) -> bool
    ensures { result ≡ is_coded text.now }
{
    match text {
        [high, low, ..] => codes_byte(*high, *low),
        _ => false,
    }
}

fn codes_byte(high: u8, low: u8) -> bool
    ensures { result ≡ is_coded (high ∷ low ∷ []) }
{
    is_upper_hex(high) && is_upper_hex(low) && !is_plain(16 * hex_value(high) + hex_value(low))
}

fn is_upper_hex(b: u8) -> bool
    ensures { result ≡ is_upper_hex b }
{
    (b'0' <= b && b <= b'9') || (b'A' <= b && b <= b'F')
}

// The value of an upper-case hex digit.
fn hex_value(b: u8) -> u8
    requires { is_upper_hex b ≡ true }
    ensures value { result ≡ hex_value b }
    ensures small { result < 16 }
{
    if b <= b'9' { b - b'0' } else { b - b'A' + 10 }
}

// Whether a byte stands for itself in the name of a protocol.
pub(crate) fn is_plain(b: u8) -> bool
    ensures { result ≡ is_plain b }
{
    token_table().has(b) && b != b'%'
}
