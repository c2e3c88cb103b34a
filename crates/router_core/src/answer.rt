ghost use Rattle.std.specs.Prelude.{◌≡◌, ◌≤◌, ◌∷◌, ◌++◌, [], IfOk, OnOk, map, nat_eq, if◌then◌else◌};
ghost use Rattle.std.specs.Option.{option_copied, option_map_or};
ghost use Rattle.altsvc_grammar.specs.ValueReading.{read_value};
ghost use Rattle.route_events.specs.Advertisements.{value_of_reading, value_taken, retries};
ghost use Rattle.answer_store.specs.Contents.{newest_moment};
ghost use Rattle.request_dispatch.specs.Carriers.{is_answered_by_authority};
ghost use Rattle.request_dispatch.specs.Looks.{address_at};
ghost use Rattle.request_dispatch.specs.RequestTable.{request_among};
ghost use Rattle.request_dispatch.specs.ConnectionTable.{misdirected_by};
ghost use Rattle.router_core.specs.Effects.{advertised, field_done, answer_done, misdirected_for, after_answer, answered_so, answered};
ghost use Rattle.router_core.specs.Rebinding.{rebound_by};

use crate::misdirection::MISDIRECTED;
use alt_base::{Bytes, Duplicate, ListOf, Moment, NoMemory, Refused};
use altsvc_grammar::{AltSvc, parse};
use answer_store::AnswerStore;
use origin_values::Origin;
use request_dispatch::{Connections, OriginAddresses, Outstanding, Requests, StepState, is_secure};
use route_events::{Action, Actions, Request};
use std::alloc::Global;

// A field that isn't taken, for a reason of its own.
fn ignored(request: u32, reason: u8) -> Action
    ensures { result ≡ Action.Field request reason 0 }
{
    Action::Field {
        request,
        reason,
        place: 0,
    }
}

// A value is taken for the request's origin, or is none.
fn value_taken(alloc: Global, request: &Request, value: &[u8]) -> Result<Action, NoMemory>
    ensures { IfOk result (λ action. action ≡ value_taken request.now value.now) }
{
    read_field(alloc, request, value)
}

fn read_field(alloc: Global, request: &Request, value: &[u8]) -> Result<Action, NoMemory>
    ensures { IfOk result (λ action. action ≡ value_of_reading request.now (read_value value.now)) }
{
    match parse(alloc, value) {
        Ok(value) => Ok(Action::Alternatives {
            origin: request.origin.copy(alloc)?,
            value,
        }),
        Err(Refused::NoMemory) => Err(NoMemory),
        Err(Refused::At { place, reason }) => Ok(Action::Field {
            request: request.number,
            reason: reason.number(),
            place,
        }),
    }
}

// Whether a connection on which the request is outstanding is authoritative for its origin.
fn is_answered_by_authority(
    alloc: Global,
    answers: &AnswerStore,
    now: Moment,
    connections: &Connections,
    request: &Request,
) -> Result<bool, NoMemory>
    requires { newest_moment answers.now ≤ now.0 }
    ensures { IfOk result (λ is. is ≡ is_answered_by_authority (address_at answers.now now.0) request.now.number request.now.origin connections.now) }
{
    let origin = request.origin.copy(alloc)?;
    let addresses = OriginAddresses::begin(alloc, answers, now, origin)?;
    Ok(connections.is_answered_by_authority(request.number, &addresses))
}

// What is done for the Alt-Svc of a response.
fn advertised(
    alloc: Global,
    answers: &AnswerStore,
    now: Moment,
    connections: &Connections,
    status: u16,
    request: &Request,
    value: &[u8],
) -> Result<Action, NoMemory>
    requires { newest_moment answers.now ≤ now.0 }
    ensures { IfOk result (λ action. action ≡ advertised (address_at answers.now now.0) connections.now status request.now value.now) }
{
    if status == MISDIRECTED {
        return Ok(ignored(request.number, 11));
    }
    if !is_secure(request.origin.scheme) {
        return Ok(ignored(request.number, 12));
    }
    let authorised = is_answered_by_authority(alloc, answers, now, connections, request)?;
    if !authorised {
        return Ok(ignored(request.number, 13));
    }
    value_taken(alloc, request, value)
}

fn field_done(
    alloc: Global,
    answers: &AnswerStore,
    now: Moment,
    connections: &Connections,
    status: u16,
    altsvc: &Option<Bytes>,
    answered: &Outstanding,
) -> Result<Actions, NoMemory>
    requires { newest_moment answers.now ≤ now.0 }
    ensures { IfOk result (λ actions. actions ≡ field_done (address_at answers.now now.0) connections.now status altsvc.now answered.now) }
{
    let mut actions = ListOf::new(alloc);
    if let Some(value) = altsvc {
        let request = &answered.request;
        let value = value.as_slice();
        actions.push(advertised(alloc, answers, now, connections, status, request, value)?)?;
    }
    Ok(actions)
}

// A request that was turned away is tried again.
fn retries(alloc: Global, request: u32, status: u16) -> Result<Actions, NoMemory>
    ensures { IfOk result (λ actions. actions ≡ retries request status) }
{
    let mut actions = ListOf::new(alloc);
    if status == MISDIRECTED {
        actions.push(Action::Retry { request })?;
    }
    Ok(actions)
}

fn field_actions(
    alloc: Global,
    answers: &AnswerStore,
    now: Moment,
    state: &StepState,
    request: u32,
    status: u16,
    altsvc: &Option<Bytes>,
) -> Result<Actions, NoMemory>
    requires { newest_moment answers.now ≤ now.0 }
    ensures { IfOk result (λ actions. actions ≡ option_map_or (field_done (address_at answers.now now.0) state.now.tables.connections status altsvc.now) (request_among state.now.tables.requests.outstanding request) []) }
{
    match state.tables.requests.of_number(request) {
        None => Ok(ListOf::new(alloc)),
        Some(found) => {
            let connections = &state.tables.connections;
            field_done(alloc, answers, now, connections, status, altsvc, found)
        }
    }
}

fn answer_actions(
    alloc: Global,
    answers: &AnswerStore,
    now: Moment,
    state: &StepState,
    request: u32,
    status: u16,
    altsvc: &Option<Bytes>,
) -> Result<Actions, NoMemory>
    requires { newest_moment answers.now ≤ now.0 }
    ensures { IfOk result (λ actions. actions ≡ answer_done (address_at answers.now now.0) state.now.tables.connections request status altsvc.now (request_among state.now.tables.requests.outstanding request)) }
{
    let mut actions = retries(alloc, request, status)?;
    let field = field_actions(alloc, answers, now, state, request, status, altsvc)?;
    append_actions(&mut actions, field)?;
    Ok(actions)
}

// The connection of a request that was turned away is misdirected for its origin.
fn misdirect(
    found: Option<&Outstanding>,
    connections: &mut Connections,
    request: u32,
    status: u16,
) -> Result<(), NoMemory>
    ensures { OnOk result (connections.new ≡ misdirected_for request status (option_copied found.entry) connections.old) }
{
    match found {
        None => Ok(()),
        Some(sent) => misdirect_for(&sent.request.origin, connections, request, status),
    }
}

fn misdirect_for(
    origin: &Origin,
    connections: &mut Connections,
    request: u32,
    status: u16,
) -> Result<(), NoMemory>
    ensures { OnOk result (connections.new ≡ (if nat_eq status 421 then map (misdirected_by request origin.now) connections.old else connections.old)) }
{
    if status == MISDIRECTED {
        return connections.misdirect(request, origin);
    }
    Ok(())
}

// A value that was taken, for the connections.
pub(crate) fn rebind_by(actions: &[Action], connections: &mut Connections)
    ensures { connections.new ≡ rebound_by actions.now connections.old }
{
    if let Some(Action::Alternatives { origin, value }) = actions.first() {
        match value {
            AltSvc::Clear => connections.rebind(origin, &[]),
            AltSvc::List(alts) => connections.rebind(origin, alts.as_slice()),
        }
    }
}

// The request ends, or waits again.
fn end_or_send_back(
    alloc: Global,
    requests: &mut Requests,
    request: u32,
    status: u16,
) -> Result<(), NoMemory>
    ensures { OnOk result (requests.new ≡ after_answer request status requests.old) }
{
    if status == MISDIRECTED {
        return requests.send_back(alloc, request);
    }
    requests.lose(&[request]);
    Ok(())
}

pub(crate) fn append_actions(actions: &mut Actions, more: Actions) -> Result<(), NoMemory>
    ensures { OnOk result (actions.new ≡ actions.old ++ more) }
{
    for action in more.into_vec() {
        actions.push(action)?;
    }
    Ok(())
}

/// A request is answered: it isn't outstanding any more, and the Alt-Svc of its response is taken, or isn't. Where it was
/// turned away, it waits again, and its connection is misdirected for its origin.
pub(crate) fn answer(
    alloc: Global,
    answers: &AnswerStore,
    now: Moment,
    state: &mut StepState,
    request: u32,
    status: u16,
    altsvc: Option<Bytes>,
) -> Result<(), NoMemory>
    requires { newest_moment answers.now ≤ now.0 }
    ensures { OnOk result (state.new ≡ answered (address_at answers.now now.0) state.old request status altsvc) }
{
    let actions = answer_actions(alloc, answers, now, state, request, status, &altsvc)?;
    let found = state.tables.requests.of_number(request);
    misdirect(found, &mut state.tables.connections, request, status)?;
    state.tables.connections.note_answer(request);
    rebind_by(actions.as_slice(), &mut state.tables.connections);
    end_or_send_back(alloc, &mut state.tables.requests, request, status)?;
    append_actions(&mut state.actions, actions)
}
