ghost use Rattle.altroute_program.specs.Commands.{command_of};
ghost use Rattle.altroute_show.specs.Seen.{Seen};
ghost use Rattle.altroute_program.specs.Runs.{RunEnds, IsComplete};

use crate::Status;
use crate::command::{Command, command_of};
use crate::turns::replay;
use alt_base::{Sink, Source, Words};
use altroute_show::{run_whole, show_frames};
use std::alloc::Global;

/// Does all that the program does, for the words of its command line, without the program's name.
///
/// For `replay` it writes exactly the actions of the journal's rules, for the lines up to the first that is refused:
/// a request is sent only on an open connection that is authoritative for its origin at that moment by the whole
/// history, waits only for a pending usable route or a busy authoritative connection, and is refused only where no
/// authoritative open connection and no usable route exists.
///
/// For `show frames` it writes exactly the line of each frame that the octets split into, in whatever pieces they come,
/// up to a head that is too large or to an end of the input within a frame, which is refused.
pub fn run<S: Source, K: Sink>(alloc: Global, words: &Words, source: &mut S, sink: &mut K) -> Status
    ensures ends { RunEnds (command_of words.now) result
        (record { left = S.left source.old; source_ended = S.ended source.old; read_faults = S.faults source.old; written = K.written sink.old; write_faults = K.faults sink.old })
        (record { left = S.left source.new; source_ended = S.ended source.new; read_faults = S.faults source.new; written = K.written sink.new; write_faults = K.faults sink.new }) }
    ensures complete { IsComplete (command_of words.now) result
        (record { left = S.left source.old; source_ended = S.ended source.old; read_faults = S.faults source.old; written = K.written sink.old; write_faults = K.faults sink.old })
        (record { left = S.left source.new; source_ended = S.ended source.new; read_faults = S.faults source.new; written = K.written sink.new; write_faults = K.faults sink.new }) }
{
    match command_of(words) {
        Some(Command::Replay) => replay(alloc, source, sink),
        Some(Command::ShowFrames) => show_frames(alloc, source, sink),
        Some(Command::Whole(command)) => run_whole(alloc, command, source, sink),
        None => Status::Usage,
    }
}
