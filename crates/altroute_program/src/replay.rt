ghost use Rattle.std.specs.Prelude.{◌≡◌, ◌≤◌, ◌<◌, ◌+◌, ◌++◌, [], ◌∷◌, length, ℕ, List, OnOk, IfNone};
ghost use Rattle.both_ends.specs.Histories.{History};
ghost use Rattle.both_ends.specs.StandsFor.{StandsFor};
ghost use Rattle.event_lines.specs.LineReading.{line_reading};
ghost use Rattle.altroute_program.specs.Outcome.{after_reading};
ghost use Rattle.altroute_show.specs.Causes.{ResultCause, SinkCause};
ghost use Rattle.altroute_program.specs.Reached.{LineEnds, BytesEnd, FinishEnds, Reached, status_after};

use crate::Status;
use crate::answers::{Answer, answer_line};
use crate::state::Replay;
use alt_base::{Sink, write_all};
use both_ends::BothEnds;
use std::alloc::Global;
use std::mem;

const LINE_LIMIT: usize = 65_536;

const INPUT_LIMIT: u32 = 67_108_864;

// Acts on a line and writes what it gives.
fn act_on_line<K: Sink>(
    alloc: Global,
    ends: BothEnds,
    number: u32,
    line: &[u8],
    sink: &mut K,
) -> Result<BothEnds, Status>
    requires { length line.now ≤ 65536 }
    ensures ends { (text : List ℕ) (j : History) → StandsFor ends j →
        LineEnds result (K.written sink.old) (K.written sink.new) text number (after_reading text j number (line_reading line.now)) }
    ensures cause { ResultCause result (K.faults sink.old) (K.faults sink.new) }
{
    match answer_line(alloc, ends, number, line) {
        Err(_) => Err(Status::NoMemory),
        Ok(Answer::Goes { ends, text }) => match write_all(sink, &text) {
            Ok(()) => Ok(ends),
            Err(_) => Err(Status::WriteFault),
        },
        Ok(Answer::Refused { text }) => match write_all(sink, &text) {
            Ok(()) => Err(Status::Refused),
            Err(_) => Err(Status::WriteFault),
        },
    }
}

// Takes the newline that ends a line.
fn end_line<K: Sink>(alloc: Global, replay: &mut Replay, sink: &mut K) -> Result<(), Status>
    requires room { replay.old.taken < 67108864 }
    requires short { length replay.old.line ≤ 65536 }
    ensures ends { (bytes text : List ℕ) (j : History) → Reached replay.old bytes text j →
        BytesEnd result replay.new (K.written sink.old) (K.written sink.new) (bytes ++ 10 ∷ []) text }
    ensures cause { ResultCause result (K.faults sink.old) (K.faults sink.new) }
    ensures counts { OnOk result (replay.new.taken ≡ replay.old.taken + 1) }
    ensures empty { OnOk result (replay.new.line ≡ []) }
{
    let ends = mem::replace(&mut replay.ends, BothEnds::new(alloc));
    let number = replay.lines + 1;
    match act_on_line(alloc, ends, number, replay.line.as_slice(), sink) {
        Ok(next) => {
            replay.ends = next;
            replay.line.clear();
            replay.taken += 1;
            replay.lines = number;
            Ok(())
        }
        Err(status) => Err(status),
    }
}

// Takes a byte.
pub(crate) fn take_byte<K: Sink>(
    alloc: Global,
    replay: &mut Replay,
    byte: u8,
    sink: &mut K,
) -> Result<(), Status>
    requires { length replay.old.line ≤ 65536 }
    ensures ends { (bytes text : List ℕ) (j : History) → Reached replay.old bytes text j →
        BytesEnd result replay.new (K.written sink.old) (K.written sink.new) (bytes ++ byte ∷ []) text }
    ensures cause { ResultCause result (K.faults sink.old) (K.faults sink.new) }
    ensures counts { OnOk result (replay.new.taken ≡ replay.old.taken + 1) }
    ensures short { OnOk result (length replay.new.line ≤ 65536) }
{
    if replay.taken == INPUT_LIMIT {
        return Err(Status::TooLong);
    }
    if byte == b'\n' {
        return end_line(alloc, replay, sink);
    }
    if replay.line.len() >= LINE_LIMIT {
        return Err(Status::TooLong);
    }
    match replay.line.push(byte) {
        Ok(()) => {
            replay.taken += 1;
            Ok(())
        }
        Err(_) => Err(Status::NoMemory),
    }
}

// Takes the bytes of a piece.
pub(crate) fn take_piece<K: Sink>(
    alloc: Global,
    replay: &mut Replay,
    piece: &[u8],
    sink: &mut K,
) -> Result<(), Status>
    requires { length replay.old.line ≤ 65536 }
    ensures ends { (bytes text : List ℕ) (j : History) → Reached replay.old bytes text j →
        BytesEnd result replay.new (K.written sink.old) (K.written sink.new) (bytes ++ piece.now) text }
    ensures cause { ResultCause result (K.faults sink.old) (K.faults sink.new) }
    ensures counts { OnOk result (replay.new.taken ≡ replay.old.taken + length piece.now) }
    ensures short { OnOk result (length replay.new.line ≤ 65536) }
{
    for byte in piece {
        match take_byte(alloc, replay, *byte, sink) {
            Ok(()) => {}
            Err(status) => return Err(status),
        }
    }
    Ok(())
}

// Acts on the rest at the end of the input.
pub(crate) fn finish<K: Sink>(alloc: Global, replay: &mut Replay, sink: &mut K) -> Status
    requires { length replay.old.line ≤ 65536 }
    ensures ends { (bytes text : List ℕ) (j : History) → Reached replay.old bytes text j →
        FinishEnds result (K.written sink.old) (K.written sink.new) bytes text }
    ensures cause { SinkCause result (K.faults sink.old) (K.faults sink.new) }
{
    if replay.line.len() == 0 {
        return Status::Done;
    }
    let ends = mem::replace(&mut replay.ends, BothEnds::new(alloc));
    let number = replay.lines + 1;
    status_after(act_on_line(alloc, ends, number, replay.line.as_slice(), sink))
}

// The status after the last line.
fn status_after(acted: Result<BothEnds, Status>) -> Status
    ensures { result ≡ status_after acted }
{
    match acted {
        Ok(_) => Status::Done,
        Err(status) => status,
    }
}
