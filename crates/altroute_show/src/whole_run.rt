ghost use Rattle.std.specs.Prelude.{◌≡◌, IfOk};
ghost use Rattle.altroute_show.specs.Seen.{Seen};
ghost use Rattle.altroute_show.specs.Given.{given_for};
ghost use Rattle.altroute_show.specs.WholeInput.{WholeEnds, IsWholeComplete};

use crate::give::give;
use crate::given::Given;
use crate::record_form::RecordForm;
use crate::show_altsvc::altsvc_given;
use crate::show_https::hex_given;
use crate::whole_input::read_all;
use crate::write_https::text_given;
use crate::{Status, WholeCommand};
use alt_base::{NoMemory, Sink, Source};
use std::alloc::Global;

// What is written for an input.
fn given_for(alloc: Global, command: WholeCommand, input: &[u8]) -> Result<Given, NoMemory>
    ensures { IfOk result (λ given. given ≡ given_for command input.now) }
{
    match command {
        WholeCommand::ShowAltSvc => altsvc_given(alloc, input),
        WholeCommand::ShowHttps => hex_given(alloc, RecordForm::Text, input),
        WholeCommand::ShowHttpsJson => hex_given(alloc, RecordForm::Json, input),
        WholeCommand::WriteHttps => text_given(alloc, input),
    }
}

/// Reads one value, to the end of the input, and writes what the command gives for it.
pub fn run_whole<S: Source, K: Sink>(
    alloc: Global,
    command: WholeCommand,
    source: &mut S,
    sink: &mut K,
) -> Status
    ensures ends { WholeEnds (given_for command) result
        (record { left = S.left source.old; source_ended = S.ended source.old; read_faults = S.faults source.old; written = K.written sink.old; write_faults = K.faults sink.old })
        (record { left = S.left source.new; source_ended = S.ended source.new; read_faults = S.faults source.new; written = K.written sink.new; write_faults = K.faults sink.new }) }
    ensures complete { IsWholeComplete (given_for command) result
        (record { left = S.left source.old; source_ended = S.ended source.old; read_faults = S.faults source.old; written = K.written sink.old; write_faults = K.faults sink.old })
        (record { left = S.left source.new; source_ended = S.ended source.new; read_faults = S.faults source.new; written = K.written sink.new; write_faults = K.faults sink.new }) }
{
    match read_all(alloc, source) {
        Err(status) => status,
        Ok(input) => match given_for(alloc, command, input.as_slice()) {
            Err(_) => Status::NoMemory,
            Ok(given) => give(&given, sink),
        },
    }
}
