ghost use Rattle.std.specs.Prelude.{◌≡◌, ◌≤◌, ◌<◌, ◌+◌, ◌^◌, [], length, OnOk};
ghost use Rattle.answer_store.specs.Contents.{newest_moment as newest_answer};
ghost use Rattle.network_cache.specs.Contents.{newest_moment};
ghost use Rattle.route_choice.specs.Contents.{newest_moment as newest_failure};
ghost use Rattle.request_dispatch.specs.ConnectionTable.{most_sends};
ghost use Rattle.request_dispatch.specs.Looks.{look_of};
ghost use Rattle.request_dispatch.specs.Asked.{asked_by};
ghost use Rattle.request_dispatch.specs.StepStates.{with_start, with_beside, with_send, by_choice, settled_by, settled};

use crate::choice::{Choice, choose};
use crate::origin_addresses::OriginAddresses;
use crate::step_state::StepState;
use crate::waiting::Waiting;
use alt_base::{Duplicate, Moment, NoMemory};
use answer_store::AnswerStore;
use network_cache::Cache;
use origin_values::{Host, Origin};
use route_choice::Broken;
use route_events::{Action, Route};
use std::alloc::Global;

// Starts an attempt for an origin by a route.
fn start(
    alloc: Global,
    state: &mut StepState,
    origin: &Origin,
    route: Route,
) -> Result<(), NoMemory>
    requires { state.old.tables.attempts.opened < 2 ^ 63 }
    ensures { OnOk result (state.new ≡ with_start origin.now route state.old) }
{
    let attempt = state.tables.attempts.opened() + 1;
    state.tables.attempts.start(alloc, origin, &route)?;
    state.actions.push(Action::OpenTo {
        attempt,
        origin: origin.copy(alloc)?,
        route,
    })
}

fn start_beside(
    alloc: Global,
    state: &mut StepState,
    origin: &Origin,
    route: Option<Route>,
) -> Result<(), NoMemory>
    requires { state.old.tables.attempts.opened < 2 ^ 63 }
    ensures { OnOk result (state.new ≡ with_beside origin.now route state.old) }
{
    match route {
        None => Ok(()),
        Some(route) => start(alloc, state, origin, route),
    }
}

// Sends a request on a connection.
fn send(
    state: &mut StepState,
    waiting: Waiting,
    conn: u64,
    stream: Option<u32>,
    alt_used: Option<(Host, u16)>,
    addresses: &OriginAddresses<'_>,
) -> Result<(), NoMemory>
    requires sends { most_sends state.old.tables.connections < 16777215 }
    requires asked { (asked_by addresses.now).origin ≡ waiting.request.origin }
    ensures { OnOk result (state.new ≡ with_send (asked_by addresses.now).is_address waiting conn stream alt_used state.old) }
{
    let request = waiting.request.number;
    state.tables.connections.send(conn, addresses, request)?;
    state.tables.requests.push_sent(waiting, conn, stream)?;
    state.actions.push(Action::SendOn {
        request,
        conn,
        stream,
        alt_used,
    })
}

// Does what was chosen for a waiting request.
fn apply(
    alloc: Global,
    state: &mut StepState,
    waiting: Waiting,
    addresses: &OriginAddresses<'_>,
    choice: Choice,
) -> Result<(), NoMemory>
    requires opened { state.old.tables.attempts.opened < 2 ^ 63 }
    requires sends { most_sends state.old.tables.connections < 16777215 }
    requires asked { (asked_by addresses.now).origin ≡ waiting.request.origin }
    ensures { OnOk result (state.new ≡ by_choice (asked_by addresses.now).is_address state.old waiting choice) }
{
    match choice {
        Choice::Wait => state.tables.requests.push_waiting(waiting),
        Choice::Open(route) => {
            start(alloc, state, &waiting.request.origin, route)?;
            state.tables.requests.push_waiting(waiting)
        }
        Choice::Send {
            conn,
            stream,
            alt_used,
            beside,
        } => {
            send(state, waiting, conn, stream, alt_used, addresses)?;
            start_beside(alloc, state, addresses.origin(), beside)
        }
        Choice::Refuse => state.actions.push(Action::Refuse {
            request: waiting.request.number,
        }),
    }
}

// Settles one request.
fn settle_one(
    alloc: Global,
    cache: &Cache,
    broken: &Broken,
    answers: &AnswerStore,
    now: Moment,
    state: &mut StepState,
    waiting: Waiting,
) -> Result<(), NoMemory>
    requires opened { state.old.tables.attempts.opened < 2 ^ 63 }
    requires sends { most_sends state.old.tables.connections < 16777215 }
    requires alternatives { newest_moment cache.now ≤ now.0 }
    requires failures { newest_failure broken.now ≤ now.0 }
    requires answers { newest_answer answers.now ≤ now.0 }
    ensures { OnOk result (state.new ≡ settled_by (look_of cache.now broken.now answers.now now.0) state.old waiting) }
{
    let origin = waiting.request.origin.copy(alloc)?;
    let addresses = OriginAddresses::begin(alloc, answers, now, origin)?;
    let choice = choose(
        alloc,
        cache,
        broken,
        answers,
        now,
        &addresses,
        &state.tables,
        &waiting,
    )?;
    apply(alloc, state, waiting, &addresses, choice)
}

/// Settles all requests that wait, in the order of their arrival: for each, what is chosen by the tables as they then are
/// is done, and its actions follow those before. The moment may not be below those that the tables of alternatives, failures
/// and answers were given. NoMemory comes only where memory isn't found.
pub fn settle(
    alloc: Global,
    cache: &Cache,
    broken: &Broken,
    answers: &AnswerStore,
    now: Moment,
    state: &mut StepState,
) -> Result<(), NoMemory>
    requires opened { state.old.tables.attempts.opened + length state.old.tables.requests.waiting < 2 ^ 63 }
    requires sends { most_sends state.old.tables.connections + length state.old.tables.requests.waiting ≤ 16777215 }
    requires alternatives { newest_moment cache.now ≤ now.0 }
    requires failures { newest_failure broken.now ≤ now.0 }
    requires answers { newest_answer answers.now ≤ now.0 }
    ensures { OnOk result (state.new ≡ settled (look_of cache.now broken.now answers.now now.0) state.old) }
{
    let waiting = state.tables.requests.take_waiting(alloc);
    for request in waiting.into_vec() {
        settle_one(alloc, cache, broken, answers, now, state, request)?;
    }
    Ok(())
}
