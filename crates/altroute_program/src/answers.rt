ghost use Rattle.std.specs.Prelude.{◌≡◌, ◌≤◌, ℕ, List, length, IfOk};
ghost use Rattle.event_lines.specs.Valid.{IsServerAct};
ghost use Rattle.event_lines.specs.LineReading.{line_reading};
ghost use Rattle.event_lines.specs.declared.event.Event.{Event as EventValue};
ghost use Rattle.router_core.specs.Fitting.{IsFit};
ghost use Rattle.both_ends.specs.Histories.{History, event_refusal};
ghost use Rattle.both_ends.specs.StandsFor.{StandsFor};
ghost use Rattle.altroute_program.specs.Outcome.{after_reading, after_event, after_taking};
ghost use Rattle.altroute_program.specs.Reached.{AnswersSo, IsTakenSo};

use crate::texts::{write_end_refusal, write_line_refusal, write_output, write_refused};
use alt_base::{Moment, NoMemory, Refused};
use both_ends::{BothEnds, EndFault, Output};
use event_lines::{Event, ServerAct, read_line};
use route_events::Fact;
use std::alloc::Global;

/// What a line gives: both ends that go on and the text of what they do, or the text of its refusal.
#[derive(Drop)]
pub(crate) enum Answer {
    Goes { ends: BothEnds, text: Vec<u8> },
    Refused { text: Vec<u8> },
}

// The text of what both ends give for an event, or of its refusal.
fn answer_taken(
    alloc: Global,
    number: u32,
    taken: Result<(BothEnds, Output), EndFault>,
) -> Result<Answer, NoMemory>
    ensures { IfOk result (λ a. (text : List ℕ) (h : History) (now : ℕ) (event : EventValue) → IsTakenSo taken h now event →
        AnswersSo a text number (after_taking text h number now event (event_refusal h now event))) }
{
    match taken {
        Ok((ends, output)) => Ok(Answer::Goes {
            ends,
            text: write_output(alloc, &output)?,
        }),
        Err(EndFault::NoMemory) => Err(NoMemory),
        Err(EndFault::Refused(refusal)) => {
            let why = write_end_refusal(alloc, refusal)?;
            Ok(Answer::Refused {
                text: write_refused(alloc, number, why.as_slice())?,
            })
        }
    }
}

// Takes a fact.
fn answer_fact(
    alloc: Global,
    ends: BothEnds,
    number: u32,
    now: Moment,
    fact: Fact,
) -> Result<Answer, NoMemory>
    requires { IsFit fact }
    ensures { IfOk result (λ a. (text : List ℕ) (h : History) → StandsFor ends h →
        AnswersSo a text number (after_event text h number now.0 (Event.Client fact))) }
{
    answer_taken(alloc, number, ends.take_fact(now, fact))
}

// Takes an act of the server.
fn answer_act(
    alloc: Global,
    ends: BothEnds,
    number: u32,
    now: Moment,
    act: ServerAct,
) -> Result<Answer, NoMemory>
    requires { IsServerAct act }
    ensures { IfOk result (λ a. (text : List ℕ) (h : History) → StandsFor ends h →
        AnswersSo a text number (after_event text h number now.0 (Event.Server act))) }
{
    answer_taken(alloc, number, ends.take_act(now, act))
}

/// Acts on a line.
pub(crate) fn answer_line(
    alloc: Global,
    ends: BothEnds,
    number: u32,
    line: &[u8],
) -> Result<Answer, NoMemory>
    requires { length line.now ≤ 65536 }
    ensures { IfOk result (λ a. (text : List ℕ) (h : History) → StandsFor ends h →
        AnswersSo a text number (after_reading text h number (line_reading line.now))) }
{
    match read_line(alloc, line) {
        Ok((_, Event::Skip)) => Ok(Answer::Goes {
            ends,
            text: Vec::new(alloc),
        }),
        Ok((now, Event::Client(fact))) => answer_fact(alloc, ends, number, now, fact),
        Ok((now, Event::Server(act))) => answer_act(alloc, ends, number, now, act),
        Err(Refused::NoMemory) => Err(NoMemory),
        Err(Refused::At { place, reason }) => {
            let why = write_line_refusal(alloc, place, reason)?;
            Ok(Answer::Refused {
                text: write_refused(alloc, number, why.as_slice())?,
            })
        }
    }
}
