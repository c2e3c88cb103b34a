ghost use Rattle.std.specs.Prelude.{◌≡◌, ◌≤◌, ◌<◌, ◌+◌, ◌-◌, ◌++◌, length, ℕ, List, OnOk, IfOk};
ghost use Rattle.h2_framing.specs.Streams.{rest_of};
ghost use Rattle.altroute_show.specs.FrameLines.{frame_lines};
ghost use Rattle.altroute_show.specs.Given.{refused_at};
ghost use Rattle.altroute_show.specs.Causes.{ResultCause, SinkCause};
ghost use Rattle.altroute_show.specs.FrameOutcome.{place_behind};
ghost use Rattle.altroute_show.specs.FrameSteps.{Stands, StandsForSome, AreShort, frame_size, frames_size, TextEnds, OctetsEnd, EndEnds};

use crate::Status;
use crate::frame_lines::write_frames;
use crate::frames_so_far::FramesSoFar;
use crate::give::write_refused_at;
use alt_base::{Bytes, ListOf, NoMemory, Sink, write_all};
use h2_framing::{Fed, Frame, FrameReader};
use std::alloc::Global;
use std::mem;

const INPUT_LIMIT: u32 = 67_108_864;

// How many octets a frame has.
fn frame_size(frame: &Frame) -> u32
    requires { frame_size frame.now < 4294967296 }
    ensures { result ≡ frame_size frame.now }
{
    match frame {
        Frame::Kept { head, .. } => 9 + head.length,
        Frame::Passed { head } => 9 + head.length,
    }
}

// How many octets some frames have.
fn frames_size(frames: &[Frame]) -> u32
    requires { frames_size frames.now < 4294967296 }
    ensures { result ≡ frames_size frames.now }
{
    let mut size = 0;
    for frame in frames {
        size += frame_size(frame);
    }
    size
}

// How many octets the whole frames so far have.
fn place_behind(state: &FramesSoFar) -> u32
    requires { StandsForSome state.now }
    ensures { (octets : List ℕ) → Stands state.now octets → result ≡ place_behind octets }
{
    state.taken - state.reader.rest()
}

// The lines of some frames and, behind them, refusal 1 at a place.
fn write_too_large(alloc: Global, frames: &[Frame], place: u32) -> Result<Bytes, NoMemory>
    requires { AreShort frames.now }
    ensures { IfOk result (λ text. text ≡ frame_lines frames.now ++ refused_at 1 place) }
{
    let mut text = write_frames(alloc, frames)?.into_vec();
    let refusal = write_refused_at(alloc, 1, place)?;
    text.extend_from_slice(refusal.as_slice())?;
    Ok(ListOf::from_vec(text))
}

// Writes a text, where memory was found for it.
fn write_text<K: Sink>(text: Result<Bytes, NoMemory>, sink: &mut K) -> Result<(), Status>
    ensures ends { (all : List ℕ) → IfOk text (λ found. found ≡ all) →
        TextEnds result (K.written sink.old) (K.written sink.new) all }
    ensures cause { ResultCause result (K.faults sink.old) (K.faults sink.new) }
{
    match text {
        Err(_) => Err(Status::NoMemory),
        Ok(text) => match write_all(sink, text.as_slice()) {
            Ok(()) => Ok(()),
            Err(_) => Err(Status::WriteFault),
        },
    }
}

// Takes octets that are within the limit of an input.
fn take_within<K: Sink>(
    alloc: Global,
    state: &mut FramesSoFar,
    octets: &[u8],
    sink: &mut K,
) -> Result<(), Status>
    requires stands { StandsForSome state.old }
    requires room { state.old.taken + length octets.now ≤ 67108864 }
    ensures ends { (before : List ℕ) → Stands state.old before →
        OctetsEnd result state.new (K.written sink.old) (K.written sink.new) before (before ++ octets.now) }
    ensures cause { ResultCause result (K.faults sink.old) (K.faults sink.new) }
    ensures counts { OnOk result (state.new.taken ≡ state.old.taken + length octets.now) }
{
    let place = place_behind(state);
    let reader = mem::replace(&mut state.reader, FrameReader::new(alloc));
    match reader.feed(octets) {
        Err(_) => Err(Status::NoMemory),
        Ok(Fed::Going { reader, frames }) => {
            state.reader = reader;
            state.taken += octets.len() as u32;
            write_text(write_frames(alloc, frames.as_slice()), sink)
        }
        Ok(Fed::TooLarge { frames, length: _ }) => {
            let head = place + frames_size(frames.as_slice());
            match write_text(write_too_large(alloc, frames.as_slice(), head), sink) {
                Ok(()) => Err(Status::Refused),
                Err(status) => Err(status),
            }
        }
    }
}

// Takes the octets of a piece, up to the limit of an input.
pub(crate) fn take_octets<K: Sink>(
    alloc: Global,
    state: &mut FramesSoFar,
    piece: &[u8],
    sink: &mut K,
) -> Result<(), Status>
    requires stands { StandsForSome state.old }
    ensures ends { (before : List ℕ) → Stands state.old before →
        OctetsEnd result state.new (K.written sink.old) (K.written sink.new) before (before ++ piece.now) }
    ensures cause { ResultCause result (K.faults sink.old) (K.faults sink.new) }
    ensures counts { OnOk result (state.new.taken ≡ state.old.taken + length piece.now) }
{
    let room = (INPUT_LIMIT - state.taken) as usize;
    if piece.len() <= room {
        return take_within(alloc, state, piece, sink);
    }
    match take_within(alloc, state, &piece[..room], sink) {
        Ok(()) => Err(Status::TooLong),
        Err(status) => Err(status),
    }
}

// Takes the end of the input.
pub(crate) fn end_octets<K: Sink>(alloc: Global, state: &FramesSoFar, sink: &mut K) -> Status
    ensures ends { (octets : List ℕ) → Stands state.now octets →
        EndEnds result (K.written sink.old) (K.written sink.new) octets }
    ensures cause { SinkCause result (K.faults sink.old) (K.faults sink.new) }
{
    if state.reader.rest() == 0 {
        return Status::Done;
    }
    match write_text(write_refused_at(alloc, 2, state.taken), sink) {
        Ok(()) => Status::Refused,
        Err(status) => status,
    }
}
