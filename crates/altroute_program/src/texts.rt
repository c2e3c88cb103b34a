ghost use Rattle.std.specs.Prelude.{◌≡◌, ◌++◌, IfOk, OnOk, codes};
ghost use Rattle.event_lines.specs.ActionTexts.{action_text};
ghost use Rattle.altroute_program.specs.Texts.{actions_text, refused_line, step_refusal_text, end_refusal_text, line_refusal_text, line_refusal_number, message_line, answer_word, answered_line, output_text};

use advertiser_core::Answer;
use alt_base::NoMemory;
use altroute_show::{put, put_number};
use both_ends::{EndRefusal, Output, ServerOutput, ServerRefusal};
use event_lines::{LineRefusal, write_action};
use route_events::{Action, StepRefusal};
use std::alloc::Global;

// An action's line.
fn put_action(alloc: Global, text: &mut Vec<u8>, action: &Action) -> Result<(), NoMemory>
    ensures { OnOk result (text.new.items ≡ text.old.items ++ (action_text action.now ++ codes "\n")) }
{
    put(text, write_action(alloc, action)?.as_slice())?;
    put(text, b"\n")
}

// The lines of some actions.
fn write_actions(alloc: Global, actions: &[Action]) -> Result<Vec<u8>, NoMemory>
    ensures { IfOk result (λ text. text.items ≡ actions_text actions.now) }
{
    let mut text = Vec::new(alloc);
    for action in actions {
        put_action(alloc, &mut text, action)?;
    }
    Ok(text)
}

/// The line that says why a line is refused.
pub(crate) fn write_refused(alloc: Global, number: u32, why: &[u8]) -> Result<Vec<u8>, NoMemory>
    ensures { IfOk result (λ text. text.items ≡ refused_line number why.now) }
{
    let mut text = Vec::new(alloc);
    put(&mut text, b"refused ")?;
    put_number(alloc, &mut text, number)?;
    put(&mut text, why)?;
    put(&mut text, b"\n")?;
    Ok(text)
}

// Why a step is refused.
fn write_step_refusal(alloc: Global, refusal: StepRefusal) -> Result<Vec<u8>, NoMemory>
    ensures { IfOk result (λ text. text.items ≡ step_refusal_text refusal) }
{
    let mut text = Vec::new(alloc);
    match refusal {
        StepRefusal::TimeBack { last } => {
            put(&mut text, b" step 1 last ")?;
            put_number(alloc, &mut text, last.0)?;
        }
        StepRefusal::NumberNotAbove { last } => {
            put(&mut text, b" step 2 last ")?;
            put_number(alloc, &mut text, last)?;
        }
        StepRefusal::NoSuchAttempt => put(&mut text, b" step 3")?,
        StepRefusal::NoSuchConn => put(&mut text, b" step 4")?,
        StepRefusal::NoSuchRequest => put(&mut text, b" step 5")?,
        StepRefusal::NotFramed => put(&mut text, b" step 6")?,
        StepRefusal::Spent { facts: _ } => put(&mut text, b" step 7")?,
    }
    Ok(text)
}

// Why the server refuses an act.
fn write_server_refusal(alloc: Global, refusal: ServerRefusal) -> Result<Vec<u8>, NoMemory>
    ensures { IfOk result (λ text. text.items ≡ end_refusal_text (EndRefusal.Server refusal)) }
{
    let mut text = Vec::new(alloc);
    put(&mut text, b" server ")?;
    put_number(alloc, &mut text, u32::from(refusal.number()))?;
    Ok(text)
}

/// Why an event is refused.
pub(crate) fn write_end_refusal(alloc: Global, refusal: EndRefusal) -> Result<Vec<u8>, NoMemory>
    ensures { IfOk result (λ text. text.items ≡ end_refusal_text refusal) }
{
    match refusal {
        EndRefusal::Server(refusal) => write_server_refusal(alloc, refusal),
        EndRefusal::Step(refusal) => write_step_refusal(alloc, refusal),
    }
}

// The line of a message that was made.
fn put_message(alloc: Global, text: &mut Vec<u8>, number: u32) -> Result<(), NoMemory>
    ensures { OnOk result (text.new.items ≡ text.old.items ++ message_line number) }
{
    put(text, b"message ")?;
    put_number(alloc, text, number)?;
    put(text, b"\n")
}

fn answer_word(answer: Answer) -> &'static [u8]
    ensures { result.now ≡ answer_word answer }
{
    match answer {
        Answer::Serve => b"serve",
        Answer::Misdirected => b"misdirect",
    }
}

// The line of a request that the server answered.
fn put_answered(
    alloc: Global,
    text: &mut Vec<u8>,
    request: u32,
    answer: Answer,
) -> Result<(), NoMemory>
    ensures { OnOk result (text.new.items ≡ text.old.items ++ answered_line request answer) }
{
    put(text, b"answered ")?;
    put_number(alloc, text, request)?;
    put(text, b" ")?;
    put(text, answer_word(answer))?;
    put(text, b"\n")
}

/// The lines of what both ends give for an event.
pub(crate) fn write_output(alloc: Global, output: &Output) -> Result<Vec<u8>, NoMemory>
    ensures { IfOk result (λ text. text.items ≡ output_text output.now.server output.now.actions) }
{
    let mut text = Vec::new(alloc);
    let actions = write_actions(alloc, output.actions.as_slice())?;
    match output.server {
        ServerOutput::Nothing => put(&mut text, actions.as_slice())?,
        ServerOutput::Made(number) => {
            put(&mut text, actions.as_slice())?;
            put_message(alloc, &mut text, number)?;
        }
        ServerOutput::Answered { request, answer } => {
            put_answered(alloc, &mut text, request, answer)?;
            put(&mut text, actions.as_slice())?;
        }
    }
    Ok(text)
}

fn line_refusal_number(refusal: LineRefusal) -> u32
    ensures { result ≡ line_refusal_number refusal }
{
    match refusal {
        LineRefusal::BadMoment => 1,
        LineRefusal::UnknownKind => 2,
        LineRefusal::BadField => 3,
        LineRefusal::ExtraField => 4,
    }
}

/// Why a line is refused, and where.
pub(crate) fn write_line_refusal(
    alloc: Global,
    place: u32,
    reason: LineRefusal,
) -> Result<Vec<u8>, NoMemory>
    ensures { IfOk result (λ text. text.items ≡ line_refusal_text (record { place = place; reason = reason })) }
{
    let mut text = Vec::new(alloc);
    put(&mut text, b" line ")?;
    put_number(alloc, &mut text, line_refusal_number(reason))?;
    put(&mut text, b" at ")?;
    put_number(alloc, &mut text, place)?;
    Ok(text)
}
