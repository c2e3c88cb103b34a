ghost use Rattle.std.specs.Prelude.{◌≡◌, ◌≤◌, ◌++◌, ℕ, List, map, OnOk};
ghost use Rattle.answer_store.specs.Bodies.{Kind};
ghost use Rattle.answer_store.specs.Contents.{kept as kept_answer, newest_moment as newest_answer};
ghost use Rattle.network_cache.specs.Contents.{newest_moment};
ghost use Rattle.route_events.specs.declared.action.Action.TheVariants.{Lost as LostAction};
ghost use Rattle.route_events.specs.Answers.{answer_after};
ghost use Rattle.request_dispatch.specs.AttemptTable.{attempt_among};
ghost use Rattle.request_dispatch.specs.Looks.{live_at, address_at};
ghost use Rattle.router_core.specs.Fitting.{IsFit};
ghost use Rattle.router_core.specs.Effects.{arrived, ended, opened, closed, cut_so, with_effect, with_end, with_connection};
ghost use Rattle.router_core.specs.StoredAnswers.{brought};

use crate::answer::answer;
use crate::dns_answer::take_answer;
use crate::frame::deliver;
use alt_base::{Duplicate, Moment, NoMemory};
use answer_store::AnswerStore;
use coalescing::CertNames;
use network_cache::Cache;
use origin_values::{Addr, Origin, Proto};
use request_dispatch::{StepState, gives, is_success};
use route_events::{Action, Actions, Attempt, Connection, Fact};
use std::alloc::Global;

// What an opening told.
#[derive(Debug, Drop)]
struct Opening {
    proto: Proto,
    addr: Addr,
    port: u16,
    names: CertNames,
}

fn arrive(alloc: Global, state: &mut StepState, number: u32, origin: Origin) -> Result<(), NoMemory>
    ensures { OnOk result (state.new ≡ arrived state.old number origin) }
{
    state.tables.requests.arrive(alloc, number, origin)
}

// An attempt ends: it isn't pending any more, and each waiting request of its origin has tried its route.
fn end_attempt(alloc: Global, state: &mut StepState, attempt: &Attempt) -> Result<(), NoMemory>
    ensures { OnOk result (state.new ≡ with_end state.old attempt.now) }
{
    state.tables.attempts.end(attempt.number);
    state
        .tables
        .requests
        .note_end(alloc, &attempt.origin, &attempt.route)
}

fn fail(alloc: Global, state: &mut StepState, number: u64) -> Result<(), NoMemory>
    ensures { OnOk result (state.new ≡ ended state.old (attempt_among state.old.tables.attempts.pending number)) }
{
    let found = match state.tables.attempts.of_number(number) {
        None => return Ok(()),
        Some(attempt) => attempt.copy(alloc)?,
    };
    end_attempt(alloc, state, &found)
}

fn keep_connection(
    alloc: Global,
    cache: &Cache,
    now: Moment,
    state: &mut StepState,
    made: Connection,
) -> Result<(), NoMemory>
    requires { newest_moment cache.now ≤ now.0 }
    ensures { OnOk result (state.new ≡ with_connection (live_at cache.now now.0) state.old made) }
{
    let live = cache.live(alloc, now, &made.origin)?;
    let bound = is_success(&made) && gives(live.as_slice(), &made.route);
    state.tables.connections.open(alloc, made, bound)
}

fn open(
    alloc: Global,
    cache: &Cache,
    now: Moment,
    state: &mut StepState,
    number: u64,
    opening: Opening,
) -> Result<(), NoMemory>
    requires { newest_moment cache.now ≤ now.0 }
    ensures { OnOk result (state.new ≡ opened (live_at cache.now now.0) state.old (attempt_among state.old.tables.attempts.pending number) opening.proto opening.addr opening.port opening.names) }
{
    let found = match state.tables.attempts.of_number(number) {
        None => return Ok(()),
        Some(attempt) => attempt.copy(alloc)?,
    };
    end_attempt(alloc, state, &found)?;
    let made = Connection {
        number: found.number,
        origin: found.origin,
        route: found.route,
        proto: opening.proto,
        addr: opening.addr,
        port: opening.port,
        names: opening.names,
    };
    keep_connection(alloc, cache, now, state, made)
}

fn lose_all(actions: &mut Actions, requests: &[u32]) -> Result<(), NoMemory>
    ensures { OnOk result (actions.new ≡ actions.old ++ map LostAction requests.now) }
{
    for request in requests {
        actions.push(Action::Lost { request: *request })?;
    }
    Ok(())
}

fn close(alloc: Global, state: &mut StepState, conn: u64) -> Result<(), NoMemory>
    ensures { OnOk result (state.new ≡ closed state.old conn) }
{
    let lost = state.tables.connections.close(alloc, conn);
    lose_all(&mut state.actions, lost.as_slice())?;
    state.tables.requests.lose(lost.as_slice());
    Ok(())
}

/// A connection was cut, where a head gave a length that is too large: it is closed.
pub(crate) fn cut_off(
    alloc: Global,
    state: &mut StepState,
    conn: u64,
    length: u32,
) -> Result<(), NoMemory>
    ensures { OnOk result (state.new ≡ cut_so state.old conn length) }
{
    state.actions.push(Action::Close { conn, length })?;
    close(alloc, state, conn)
}

/// The effect of a fact, on the state and on the answers of DNS.
pub(crate) fn take_fact(
    alloc: Global,
    cache: &Cache,
    answers: &mut AnswerStore,
    now: Moment,
    state: &mut StepState,
    fact: Fact,
) -> Result<(), NoMemory>
    requires known { newest_moment cache.now ≤ now.0 }
    requires answered { newest_answer answers.old ≤ now.0 }
    requires fit { IsFit fact }
    ensures state { OnOk result (state.new ≡ with_effect (live_at cache.now now.0) (address_at answers.old now.0) state.old fact) }
    ensures answers { OnOk result ((q : List (List ℕ)) (k : Kind) → kept_answer answers.new q k ≡ answer_after (brought k) q now.0 fact (kept_answer answers.old q k)) }
    ensures moment { OnOk result (newest_answer answers.new ≤ now.0) }
{
    match fact {
        Fact::Request { number, origin } => arrive(alloc, state, number, origin),
        Fact::Opened {
            attempt,
            proto,
            addr,
            port,
            names,
        } => open(
            alloc,
            cache,
            now,
            state,
            attempt,
            Opening {
                proto,
                addr,
                port,
                names,
            },
        ),
        Fact::Failed { attempt } => fail(alloc, state, attempt),
        Fact::Closed { conn } => close(alloc, state, conn),
        Fact::Response {
            request,
            status,
            age: _,
            altsvc,
        } => answer(alloc, answers, now, state, request, status, altsvc),
        Fact::Delivered {
            conn,
            head,
            payload,
        } => deliver(alloc, answers, now, state, conn, head, payload.as_slice()),
        Fact::Answer { name, ttl, body } => take_answer(
            alloc,
            answers,
            &mut state.actions,
            now,
            name,
            ttl,
            body,
        ),
        Fact::Network => {
            answers.network();
            Ok(())
        }
        Fact::Input { .. } | Fact::Tick | Fact::Who { .. } | Fact::Stats => Ok(()),
    }
}
