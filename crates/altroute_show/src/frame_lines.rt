ghost use Rattle.std.specs.Prelude.{◌≡◌, ◌≤◌, ◌++◌, length, IfOk, OnOk, codes};
ghost use Rattle.altroute_show.specs.FrameLines.{spaced, ignored_line, origin_or_none, altsvc_line, altsvc_reading_line, spaced_origins, origin_line, origin_reading_line, passed_line, frame_line, frame_lines};
ghost use Rattle.altroute_show.specs.FrameSteps.{IsShort, AreShort};
ghost use Rattle.altsvc_frame.specs.FrameReading.{read_frame};
ghost use Rattle.origin_frame.specs.PayloadReading.{read_listed};
ghost use Rattle.origin_values.specs.Written.{origin_text};

use crate::texts::{put, put_number};
use alt_base::{Bytes, ListOf, NoMemory, Refused};
use altsvc_frame::AltFrame;
use h2_framing::{Frame, Head};
use origin_frame::Listed;
use origin_values::Origin;
use std::alloc::Global;

/// The kind of an ALTSVC frame (RFC 7838 4).
const ALTSVC: u8 = 10;

/// The lines of some frames, in order.
pub(crate) fn write_frames(alloc: Global, frames: &[Frame]) -> Result<Bytes, NoMemory>
    requires { AreShort frames.now }
    ensures { IfOk result (λ text. text ≡ frame_lines frames.now) }
{
    let mut text = Vec::new(alloc);
    for frame in frames {
        put_frame(alloc, &mut text, frame)?;
    }
    Ok(ListOf::from_vec(text))
}

// A frame's line.
fn put_frame(alloc: Global, text: &mut Vec<u8>, frame: &Frame) -> Result<(), NoMemory>
    requires { IsShort frame.now }
    ensures { OnOk result (text.new.items ≡ text.old.items ++ frame_line frame.now) }
{
    match frame {
        Frame::Kept { head, payload } => {
            if head.kind == ALTSVC {
                put_altsvc(alloc, text, head.stream, payload.as_slice())
            } else {
                put_origin(alloc, text, *head, payload.as_slice())
            }
        }
        Frame::Passed { head } => put_passed(alloc, text, *head),
    }
}

// The line of an ALTSVC frame with this payload.
fn put_altsvc(
    alloc: Global,
    text: &mut Vec<u8>,
    stream: u32,
    payload: &[u8],
) -> Result<(), NoMemory>
    ensures { OnOk result (text.new.items ≡ text.old.items ++ altsvc_reading_line stream (read_frame stream payload.now)) }
{
    match altsvc_frame::parse(alloc, stream, payload) {
        Ok(frame) => put_alternatives(alloc, text, stream, &frame),
        Err(Refused::NoMemory) => Err(NoMemory),
        Err(Refused::At { place, reason }) => {
            put_ignored(
                alloc,
                text,
                b"altsvc",
                stream,
                u32::from(reason.number()),
                place,
            )
        }
    }
}

// The line of what an ALTSVC frame says.
fn put_alternatives(
    alloc: Global,
    text: &mut Vec<u8>,
    stream: u32,
    frame: &AltFrame,
) -> Result<(), NoMemory>
    ensures { OnOk result (text.new.items ≡ text.old.items ++ altsvc_line stream frame.now) }
{
    let value = altsvc_grammar::write(alloc, &frame.value)?;
    put(text, b"altsvc")?;
    put_spaced(alloc, text, stream)?;
    put(text, b" ")?;
    put_origin_or_none(alloc, text, &frame.origin)?;
    put(text, b" ")?;
    put(text, value.as_slice())?;
    put(text, b"\n")
}

// An origin, or `-`.
fn put_origin_or_none(
    alloc: Global,
    text: &mut Vec<u8>,
    origin: &Option<Origin>,
) -> Result<(), NoMemory>
    ensures { OnOk result (text.new.items ≡ text.old.items ++ origin_or_none origin.now) }
{
    match origin {
        None => put(text, b"-"),
        Some(origin) => {
            let written = origin.write(alloc)?;
            put(text, written.as_slice())
        }
    }
}

// The line of an ORIGIN frame with this head and payload.
fn put_origin(alloc: Global, text: &mut Vec<u8>, head: Head, payload: &[u8]) -> Result<(), NoMemory>
    requires { length payload.now ≤ 16384 }
    ensures { OnOk result (text.new.items ≡ text.old.items ++ origin_reading_line head.stream (read_listed head.stream head.flags payload.now)) }
{
    match origin_frame::parse(alloc, head.stream, head.flags, payload) {
        Ok(listed) => put_listed(alloc, text, head.stream, &listed),
        Err(Refused::NoMemory) => Err(NoMemory),
        Err(Refused::At { place, reason }) => {
            put_ignored(
                alloc,
                text,
                b"origin",
                head.stream,
                u32::from(reason.number()),
                place,
            )
        }
    }
}

// The line of what an ORIGIN frame lists.
fn put_listed(
    alloc: Global,
    text: &mut Vec<u8>,
    stream: u32,
    listed: &Listed,
) -> Result<(), NoMemory>
    ensures { OnOk result (text.new.items ≡ text.old.items ++ origin_line stream listed.now) }
{
    put(text, b"origin")?;
    put_spaced(alloc, text, stream)?;
    put_spaced(alloc, text, listed.skipped)?;
    put_origins(alloc, text, listed.origins.as_slice())?;
    put(text, b"\n")
}

// Origins, each behind a space.
fn put_origins(alloc: Global, text: &mut Vec<u8>, origins: &[Origin]) -> Result<(), NoMemory>
    ensures { OnOk result (text.new.items ≡ text.old.items ++ spaced_origins origins.now) }
{
    for origin in origins {
        put_spaced_origin(alloc, text, origin)?;
    }
    Ok(())
}

fn put_spaced_origin(alloc: Global, text: &mut Vec<u8>, origin: &Origin) -> Result<(), NoMemory>
    ensures { OnOk result (text.new.items ≡ text.old.items ++ (codes " " ++ origin_text origin.now)) }
{
    let written = origin.write(alloc)?;
    put(text, b" ")?;
    put(text, written.as_slice())
}

// The line of a frame of another kind.
fn put_passed(alloc: Global, text: &mut Vec<u8>, head: Head) -> Result<(), NoMemory>
    ensures { OnOk result (text.new.items ≡ text.old.items ++ passed_line head) }
{
    put(text, b"passed")?;
    put_spaced(alloc, text, u32::from(head.kind))?;
    put_spaced(alloc, text, head.length)?;
    put_spaced(alloc, text, head.stream)?;
    put(text, b"\n")
}

// The line of a payload that is refused.
fn put_ignored(
    alloc: Global,
    text: &mut Vec<u8>,
    kind: &[u8],
    stream: u32,
    number: u32,
    place: u32,
) -> Result<(), NoMemory>
    ensures { OnOk result (text.new.items ≡ text.old.items ++ ignored_line kind.now stream number place) }
{
    put(text, b"ignored ")?;
    put(text, kind)?;
    put_spaced(alloc, text, stream)?;
    put_spaced(alloc, text, number)?;
    put_spaced(alloc, text, place)?;
    put(text, b"\n")
}

// A space and a number.
fn put_spaced(alloc: Global, text: &mut Vec<u8>, number: u32) -> Result<(), NoMemory>
    ensures { OnOk result (text.new.items ≡ text.old.items ++ spaced number) }
{
    put(text, b" ")?;
    put_number(alloc, text, number)
}
