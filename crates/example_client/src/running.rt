//! The loop of every client: something happens, the router is told, and what it answers is done.
ghost use Rattle.std.specs.Prelude.{◌≡◌, [], ◌++◌, ℕ, List, Option, IfOk, OnOk, codes, false};
ghost use Rattle.route_events.specs.Journal.{Journal};
ghost use Rattle.router_core.specs.Fitting.{IsFit};
ghost use Rattle.router_core.specs.StandsFor.{StandsFor, Takes};
ghost use Rattle.example_client.specs.Telling.{CanBeTold};
ghost use Rattle.example_client.specs.Transcript.{action_line, actions_text, fact_line, HasTold, IsPrinted};

use crate::client::Client;
use crate::fault::Fault;
use alt_base::{Bytes, Duplicate, Moment, NoMemory, Sink, write_all};
use event_lines::{Event, write_action, write_event};
use route_events::{Action, Actions, Fact};
use router_core::{Router, StepFault};
use std::alloc::Global;
use std::mem;

/// More turns than a router takes facts.
const MOST_TURNS: u32 = 67_108_864;

/// Lets all happen that is to come, and prints it, until nothing waits.
pub(crate) fn run<K: Sink>(alloc: Global, client: &mut Client, sink: &mut K) -> Result<(), Fault>
    ensures printed { OnOk result (IsPrinted (K.written sink.old) (K.written sink.new)) }
    ensures nothing_left { OnOk result (client.new.queue.arrivals.items ≡ []) }
{
    let mut router = Router::new(alloc);
    for _turn in 0..MOST_TURNS {
        if !take_turn(alloc, client, &mut router, sink)? {
            return Ok(());
        }
    }
    Err(Fault::TooMuch)
}

// Takes the next thing that happens: the router is told, and what it answers is done. False where nothing is to come.
fn take_turn<K: Sink>(
    alloc: Global,
    client: &mut Client,
    router: &mut Router,
    sink: &mut K,
) -> Result<bool, Fault>
    ensures told { OnOk result ((first : Option (List ℕ)) → HasTold router.old first (K.written sink.old) → HasTold router.new first (K.written sink.new)) }
    ensures nothing_left { IfOk result (λ goes_on. goes_on ≡ false → client.new.queue.arrivals.items ≡ []) }
{
    let Some((now, arrival)) = client.queue.next() else {
        return Ok(false);
    };
    let Some(fact) = client.fact_of(now, arrival)? else {
        return Ok(true);
    };
    let actions = tell(alloc, router, now, fact, sink)?;
    for action in actions.as_slice() {
        client.perform(now, action, router)?;
    }
    Ok(true)
}

// Tells the router a fact, and prints the lines of both.
fn tell<K: Sink>(
    alloc: Global,
    router: &mut Router,
    now: Moment,
    fact: Fact,
    sink: &mut K,
) -> Result<Actions, Fault>
    requires { CanBeTold fact }
    ensures { OnOk result ((first : Option (List ℕ)) → HasTold router.old first (K.written sink.old) → HasTold router.new first (K.written sink.new)) }
{
    let line = event_line(alloc, now, &fact)?;
    let actions = hand_in(alloc, router, now, fact)?;
    let text = lines(alloc, line.as_slice(), actions.as_slice())?;
    write_all(sink, &text)?;
    Ok(actions)
}

// Hands a fact in. A step takes the router and gives the next one, so a new one takes its place meanwhile.
fn hand_in(alloc: Global, router: &mut Router, now: Moment, fact: Fact) -> Result<Actions, Fault>
    requires { IsFit fact }
    ensures { IfOk result (λ actions. (journal : Journal) → StandsFor router.old journal → Takes router.new actions journal now.0 fact) }
{
    match mem::replace(router, Router::new(alloc)).step(now, fact) {
        Ok((next, actions)) => {
            *router = next;
            Ok(actions)
        }
        Err(
            StepFault::Refused {
                router: same,
                refusal,
            },
        ) => {
            *router = same;
            Err(Fault::Refused(refusal))
        }
        Err(StepFault::NoMemory) => Err(Fault::NoMemory),
    }
}

// The line of a fact.
fn event_line(alloc: Global, now: Moment, fact: &Fact) -> Result<Bytes, NoMemory>
    requires { CanBeTold fact.now }
    ensures { IfOk result (λ line. line ≡ fact_line now.0 fact.now) }
{
    write_event(alloc, now, &Event::Client(fact.copy(alloc)?))
}

// An event's line, and the lines of the actions.
fn lines(alloc: Global, line: &[u8], actions: &[Action]) -> Result<Vec<u8>, NoMemory>
    ensures { IfOk result (λ text. text.items ≡ (line.now ++ codes "\n") ++ actions_text actions.now) }
{
    let mut text = Vec::from_slice(alloc, line)?;
    text.extend_from_slice(b"\n")?;
    for action in actions {
        append_action(alloc, &mut text, action)?;
    }
    Ok(text)
}

// An action's line, set in.
fn append_action(alloc: Global, text: &mut Vec<u8>, action: &Action) -> Result<(), NoMemory>
    ensures { OnOk result (text.new.items ≡ text.old.items ++ action_line action.now) }
{
    text.extend_from_slice(b"  ")?;
    text.extend_from_slice(write_action(alloc, action)?.as_slice())?;
    text.extend_from_slice(b"\n")?;
    Ok(())
}
