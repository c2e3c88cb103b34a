ghost use Rattle.std.specs.Prelude.{◌≡◌, ◌≤◌, ◌<◌, length, IfNone};
ghost use Rattle.altroute_show.specs.Seen.{Seen};
ghost use Rattle.altroute_program.specs.Ends.{ReplayEnds};
ghost use Rattle.altroute_program.specs.Reached.{HasRun, TurnEnds};

use crate::Status;
use crate::replay::{finish, take_piece};
use crate::state::Replay;
use alt_base::{ListOf, Sink, Source};
use both_ends::BothEnds;
use std::alloc::Global;

const PIECE: usize = 4_096;

// Reads once, and takes the piece that was read, or acts on the end. None goes on.
fn take_turn<S: Source, K: Sink>(
    alloc: Global,
    state: &mut Replay,
    source: &mut S,
    sink: &mut K,
) -> Option<Status>
    requires { length state.old.line ≤ 65536 }
    ensures further { IfNone result (state.old.taken < state.new.taken) }
    ensures short { IfNone result (length state.new.line ≤ 65536) }
    ensures runs { (first : Seen) →
        HasRun state.old first (record { left = S.left source.old; source_ended = S.ended source.old; read_faults = S.faults source.old; written = K.written sink.old; write_faults = K.faults sink.old }) →
        TurnEnds result state.new first (record { left = S.left source.new; source_ended = S.ended source.new; read_faults = S.faults source.new; written = K.written sink.new; write_faults = K.faults sink.new }) }
{
    let mut buf = [0_u8; PIECE];
    match source.read(&mut buf) {
        Err(_) => Some(Status::ReadFault),
        Ok(count) => {
            if count == 0 {
                return Some(finish(alloc, state, sink));
            }
            match take_piece(alloc, state, &buf[..count], sink) {
                Ok(()) => None,
                Err(status) => Some(status),
            }
        }
    }
}

/// Reads event lines to the end, and writes the lines of their actions.
pub(crate) fn replay<S: Source, K: Sink>(alloc: Global, source: &mut S, sink: &mut K) -> Status
    ensures { ReplayEnds result
        (record { left = S.left source.old; source_ended = S.ended source.old; read_faults = S.faults source.old; written = K.written sink.old; write_faults = K.faults sink.old })
        (record { left = S.left source.new; source_ended = S.ended source.new; read_faults = S.faults source.new; written = K.written sink.new; write_faults = K.faults sink.new }) }
{
    let mut state = Replay {
        ends: BothEnds::new(alloc),
        line: ListOf::new(alloc),
        lines: 0,
        taken: 0,
    };
    loop {
        if let Some(status) = take_turn(alloc, &mut state, source, sink) {
            return status;
        }
    }
}
