ghost use Rattle.std.specs.Prelude.{◌≡◌, ◌<◌, IfNone};
ghost use Rattle.altroute_show.specs.Seen.{Seen};
ghost use Rattle.altroute_show.specs.FrameEnds.{FrameEnds, AreComplete};
ghost use Rattle.altroute_show.specs.FrameSteps.{StandsForSome, HaveRun, FrameTurn};

use crate::Status;
use crate::frame_steps::{end_octets, take_octets};
use crate::frames_so_far::FramesSoFar;
use alt_base::{Sink, Source};
use h2_framing::FrameReader;
use std::alloc::Global;

const PIECE: usize = 4_096;

// Reads once, and takes the piece that was read, or the end. None goes on.
fn take_turn<S: Source, K: Sink>(
    alloc: Global,
    state: &mut FramesSoFar,
    source: &mut S,
    sink: &mut K,
) -> Option<Status>
    requires { StandsForSome state.old }
    ensures further { IfNone result (state.old.taken < state.new.taken) }
    ensures stands { IfNone result (StandsForSome state.new) }
    ensures runs { (first : Seen) →
        HaveRun state.old first (record { left = S.left source.old; source_ended = S.ended source.old; read_faults = S.faults source.old; written = K.written sink.old; write_faults = K.faults sink.old }) →
        FrameTurn result state.new first (record { left = S.left source.new; source_ended = S.ended source.new; read_faults = S.faults source.new; written = K.written sink.new; write_faults = K.faults sink.new }) }
{
    let mut buf = [0_u8; PIECE];
    match source.read(&mut buf) {
        Err(_) => Some(Status::ReadFault),
        Ok(count) => {
            if count == 0 {
                return Some(end_octets(alloc, state, sink));
            }
            match take_octets(alloc, state, &buf[..count], sink) {
                Ok(()) => None,
                Err(status) => Some(status),
            }
        }
    }
}

/// Reads the octets of frames to the end, and writes the line of each frame as soon as its last octet has come.
pub fn show_frames<S: Source, K: Sink>(alloc: Global, source: &mut S, sink: &mut K) -> Status
    ensures ends { FrameEnds result
        (record { left = S.left source.old; source_ended = S.ended source.old; read_faults = S.faults source.old; written = K.written sink.old; write_faults = K.faults sink.old })
        (record { left = S.left source.new; source_ended = S.ended source.new; read_faults = S.faults source.new; written = K.written sink.new; write_faults = K.faults sink.new }) }
    ensures complete { AreComplete result
        (record { left = S.left source.old; source_ended = S.ended source.old; read_faults = S.faults source.old; written = K.written sink.old; write_faults = K.faults sink.old })
        (record { left = S.left source.new; source_ended = S.ended source.new; read_faults = S.faults source.new; written = K.written sink.new; write_faults = K.faults sink.new }) }
{
    let mut state = FramesSoFar {
        reader: FrameReader::new(alloc),
        taken: 0,
    };
    loop {
        if let Some(status) = take_turn(alloc, &mut state, source, sink) {
            return status;
        }
    }
}
