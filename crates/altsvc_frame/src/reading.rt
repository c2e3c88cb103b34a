ghost use Rattle.std.specs.Prelude.{◌≡◌, ◌<◌, ◌+◌, ◌^◌, length, IfOk};
ghost use Rattle.alt_base.specs.Answers.{Answers, IfRefused};
ghost use Rattle.altsvc_frame.specs.FrameGrammar.{SpellsFrame, FrameRefusedAt};
ghost use Rattle.altsvc_frame.specs.FrameWritten.{IsAltFrame};
ghost use Rattle.altsvc_frame.specs.FrameReading.{read_field, read_on_zero, read_on_other, read_parts, read_octets, read_frame};

use crate::{AltFrame, AltFrameRefusal};
use alt_base::Refused;
use origin_values::{Origin, ascii_origin};
use std::alloc::Global;

/// What an ALTSVC frame on this stream with this payload says (RFC 7838 4): on stream 0 an origin, as its ASCII text
/// (RFC 6454 6.2), and on another stream none; and the value of an Alt-Svc field.
///
/// Refused, in this order: `Short` at the length where there are fewer than two octets, `OriginPast` at 0 where the
/// origin's length passes the end, `EmptyOnZero` at 0 on stream 0 without an origin, `OriginOnStream` at 0 on another
/// stream with one, `BadOrigin` at 2 where no origin is written so, and `BadField` where the value of the field is
/// refused, at its place behind the two octets and the origin.
pub fn parse(
    alloc: Global,
    stream: u32,
    payload: &[u8],
) -> Result<AltFrame, Refused<AltFrameRefusal>>
    ensures reading { Answers result (read_frame stream payload.now) }
    ensures ok { IfOk result (λ frame. SpellsFrame stream payload.now frame) }
    ensures valid { IfOk result IsAltFrame }
    ensures refused { IfRefused result (λ place reason. FrameRefusedAt stream payload.now place reason) }
{
    read_frame(alloc, stream, payload)
}

fn read_frame(
    alloc: Global,
    stream: u32,
    payload: &[u8],
) -> Result<AltFrame, Refused<AltFrameRefusal>>
    ensures { Answers result (read_frame stream payload.now) }
{
    match payload {
        [high, low, octets @ ..] => {
            let count = usize::from(*high) * 256 + usize::from(*low);
            read_octets(alloc, stream, count, octets)
        }
        _ => Err(Refused::At {
            place: payload.len() as u32,
            reason: AltFrameRefusal::Short,
        }),
    }
}

// An origin of so many octets, and the field.
fn read_octets(
    alloc: Global,
    stream: u32,
    count: usize,
    octets: &[u8],
) -> Result<AltFrame, Refused<AltFrameRefusal>>
    requires { count < 2 ^ 16 }
    ensures { Answers result (read_octets stream count octets.now) }
{
    if octets.len() < count {
        return Err(Refused::At {
            place: 0,
            reason: AltFrameRefusal::OriginPast,
        });
    }
    read_parts(alloc, stream, &octets[..count], &octets[count..])
}

fn read_parts(
    alloc: Global,
    stream: u32,
    text: &[u8],
    field: &[u8],
) -> Result<AltFrame, Refused<AltFrameRefusal>>
    requires { length text.now < 2 ^ 16 }
    ensures { Answers result (read_parts stream text.now field.now) }
{
    if stream == 0 {
        read_on_zero(alloc, text, field)
    } else {
        read_on_other(alloc, text, field)
    }
}

fn read_on_zero(
    alloc: Global,
    text: &[u8],
    field: &[u8],
) -> Result<AltFrame, Refused<AltFrameRefusal>>
    requires { length text.now < 2 ^ 16 }
    ensures { Answers result (read_on_zero text.now field.now) }
{
    if text.is_empty() {
        return Err(Refused::At {
            place: 0,
            reason: AltFrameRefusal::EmptyOnZero,
        });
    }
    match ascii_origin(alloc, text)? {
        Some(origin) => read_field(alloc, Some(origin), 2 + text.len() as u32, field),
        None => Err(Refused::At {
            place: 2,
            reason: AltFrameRefusal::BadOrigin,
        }),
    }
}

fn read_on_other(
    alloc: Global,
    text: &[u8],
    field: &[u8],
) -> Result<AltFrame, Refused<AltFrameRefusal>>
    ensures { Answers result (read_on_other text.now field.now) }
{
    if !text.is_empty() {
        return Err(Refused::At {
            place: 0,
            reason: AltFrameRefusal::OriginOnStream,
        });
    }
    read_field(alloc, None, 2, field)
}

// The field's value, at a place.
fn read_field(
    alloc: Global,
    origin: Option<Origin>,
    place: u32,
    field: &[u8],
) -> Result<AltFrame, Refused<AltFrameRefusal>>
    requires { place < 2 ^ 17 }
    ensures { Answers result (read_field origin place field.now) }
{
    match altsvc_grammar::parse(alloc, field) {
        Ok(value) => Ok(AltFrame { origin, value }),
        Err(Refused::At { place: inside, .. }) => Err(Refused::At {
            place: place + inside,
            reason: AltFrameRefusal::BadField,
        }),
        Err(Refused::NoMemory) => Err(Refused::NoMemory),
    }
}
