//! What is done for a frame that the server sent on a connection: an ALTSVC frame (RFC 7838 4) or an ORIGIN frame
//! (RFC 8336 2).
ghost use Rattle.std.specs.Prelude.{◌≡◌, ◌≤◌, ◌<◌, ◌^◌, length, Some, IfOk, OnOk};
ghost use Rattle.std.specs.Option.{option_copied, option_map};
ghost use Rattle.altsvc_frame.specs.FrameReading.{read_frame};
ghost use Rattle.origin_frame.specs.PayloadReading.{read_listed};
ghost use Rattle.conn_states.specs.Said.{said};
ghost use Rattle.route_events.specs.FrameAdvertisements.{listing_action, origin_action};
ghost use Rattle.route_events.specs.OriginSets.{origins_of};
ghost use Rattle.answer_store.specs.Contents.{newest_moment};
ghost use Rattle.request_dispatch.specs.ConnectionTable.{is_carrier};
ghost use Rattle.request_dispatch.specs.Looks.{address_at};
ghost use Rattle.request_dispatch.specs.RequestTable.{request_on};
ghost use Rattle.router_core.specs.FrameEffects.{spoken_for, value_done, reading_done, altsvc_done, frame_done, frame_actions, listed_at, listed_in, with_listing, delivered_so};

use crate::answer::{append_actions, rebind_by};
use alt_base::{Duplicate, ListOf, Moment, NoMemory, Refused};
use altsvc_frame::AltFrame;
use altsvc_grammar::AltSvc;
use answer_store::AnswerStore;
use h2_framing::Head;
use origin_frame::{Listed, Origins};
use origin_values::Origin;
use request_dispatch::{
    Connections, OpenConnection, OriginAddresses, Requests, StepState, Tables, is_carrier,
    is_secure,
};
use route_events::{Action, Actions};
use std::alloc::Global;

const ALTSVC: u8 = 10;

const ORIGIN: u8 = 12;

const UNAUTHORISED: u8 = 7;

const NO_REQUEST: u8 = 8;

const NOT_SECURE: u8 = 9;

const CLEARTEXT: u8 = 10;

fn ignored(conn: u64, kind: u8, reason: u8, place: u32) -> Action
    ensures { result ≡ Action.Ignored conn kind reason place }
{
    Action::Ignored {
        conn,
        kind,
        reason,
        place,
    }
}

// The origin whose alternatives a frame brings: on stream 0 its own, on another stream that of the request there.
fn spoken_for<'a>(
    requests: &'a Requests,
    connection: &OpenConnection,
    stream: u32,
    frame: &'a AltFrame,
) -> Option<&'a Origin>
    ensures { option_copied result ≡ spoken_for requests.now.outstanding connection.now.outstanding stream frame.now }
{
    if stream == 0 {
        return own_origin(frame);
    }
    origin_on(requests, connection, stream)
}

fn own_origin(frame: &AltFrame) -> Option<&Origin>
    ensures { option_copied result ≡ frame.now.origin }
{
    match &frame.origin {
        None => None,
        Some(origin) => Some(origin),
    }
}

fn origin_on<'a>(
    requests: &'a Requests,
    connection: &OpenConnection,
    stream: u32,
) -> Option<&'a Origin>
    ensures { option_copied result ≡ option_map (λ x. x.request.origin) (request_on requests.now.outstanding stream connection.now.outstanding) }
{
    match requests.on_stream(stream, connection.outstanding()) {
        None => None,
        Some(sent) => Some(&sent.request.origin),
    }
}

// Whether the connection is authoritative for an origin.
fn may_speak_for(
    alloc: Global,
    answers: &AnswerStore,
    now: Moment,
    connection: &OpenConnection,
    origin: &Origin,
) -> Result<bool, NoMemory>
    requires { newest_moment answers.now ≤ now.0 }
    ensures { IfOk result (λ may. may ≡ is_carrier (address_at answers.now now.0) origin.now connection.now) }
{
    let asked = origin.copy(alloc)?;
    let addresses = OriginAddresses::begin(alloc, answers, now, asked)?;
    Ok(is_carrier(connection, &addresses))
}

// A value is taken for an origin, or isn't.
fn value_done(
    alloc: Global,
    answers: &AnswerStore,
    now: Moment,
    connection: &OpenConnection,
    value: &AltSvc,
    origin: Option<&Origin>,
) -> Result<Action, NoMemory>
    requires { newest_moment answers.now ≤ now.0 }
    ensures { IfOk result (λ action. action ≡ value_done (address_at answers.now now.0) (said connection.now) value.now (option_copied origin.entry)) }
{
    match origin {
        None => Ok(ignored(connection.number(), ALTSVC, NO_REQUEST, 0)),
        Some(origin) => value_done_for(alloc, answers, now, connection, value, origin),
    }
}

fn value_done_for(
    alloc: Global,
    answers: &AnswerStore,
    now: Moment,
    connection: &OpenConnection,
    value: &AltSvc,
    origin: &Origin,
) -> Result<Action, NoMemory>
    requires { newest_moment answers.now ≤ now.0 }
    ensures { IfOk result (λ action. action ≡ value_done (address_at answers.now now.0) (said connection.now) value.now (Some origin.now)) }
{
    if !is_secure(origin.scheme) {
        return Ok(ignored(connection.number(), ALTSVC, NOT_SECURE, 0));
    }
    let may_speak = may_speak_for(alloc, answers, now, connection, origin)?;
    if !may_speak {
        return Ok(ignored(connection.number(), ALTSVC, UNAUTHORISED, 0));
    }
    Ok(Action::Alternatives {
        origin: origin.copy(alloc)?,
        value: value.copy(alloc)?,
    })
}

fn reading_done(
    alloc: Global,
    answers: &AnswerStore,
    now: Moment,
    requests: &Requests,
    connection: &OpenConnection,
    stream: u32,
    payload: &[u8],
) -> Result<Action, NoMemory>
    requires { newest_moment answers.now ≤ now.0 }
    ensures { IfOk result (λ action. action ≡ reading_done (address_at answers.now now.0) requests.now.outstanding (said connection.now) stream (read_frame stream payload.now)) }
{
    match altsvc_frame::parse(alloc, stream, payload) {
        Ok(frame) => {
            let origin = spoken_for(requests, connection, stream, &frame);
            value_done(alloc, answers, now, connection, &frame.value, origin)
        }
        Err(Refused::NoMemory) => Err(NoMemory),
        Err(Refused::At { place, reason }) => Ok(ignored(
            connection.number(),
            ALTSVC,
            reason.number(),
            place,
        )),
    }
}

// What is done for an ALTSVC frame.
fn altsvc_done(
    alloc: Global,
    answers: &AnswerStore,
    now: Moment,
    requests: &Requests,
    connection: &OpenConnection,
    head: Head,
    payload: &[u8],
) -> Result<Action, NoMemory>
    requires { newest_moment answers.now ≤ now.0 }
    ensures { IfOk result (λ action. action ≡ altsvc_done (address_at answers.now now.0) requests.now.outstanding (said connection.now) head payload.now) }
{
    if !is_secure(connection.made().origin.scheme) {
        return Ok(ignored(connection.number(), ALTSVC, CLEARTEXT, 0));
    }
    let stream = head.stream;
    reading_done(alloc, answers, now, requests, connection, stream, payload)
}

// What is done for an ORIGIN frame.
fn listing_done(
    alloc: Global,
    connection: &OpenConnection,
    head: Head,
    payload: &[u8],
) -> Result<Action, NoMemory>
    requires { length payload.now < 2 ^ 32 }
    ensures { IfOk result (λ action. action ≡ listing_action (said connection.now).made (read_listed head.stream head.flags payload.now)) }
{
    match origin_frame::parse(alloc, head.stream, head.flags, payload) {
        Ok(listed) => Ok(Action::Origins {
            conn: connection.number(),
            taken: listed.origins.len() as u32,
            skipped: listed.skipped,
        }),
        Err(Refused::NoMemory) => Err(NoMemory),
        Err(Refused::At { place, reason }) => Ok(ignored(
            connection.number(),
            ORIGIN,
            reason.number(),
            place,
        )),
    }
}

fn origin_done(
    alloc: Global,
    connection: &OpenConnection,
    head: Head,
    payload: &[u8],
) -> Result<Action, NoMemory>
    requires { length payload.now < 2 ^ 32 }
    ensures { IfOk result (λ action. action ≡ origin_action (said connection.now).made head payload.now) }
{
    if !is_secure(connection.made().origin.scheme) {
        return Ok(ignored(connection.number(), ORIGIN, CLEARTEXT, 0));
    }
    listing_done(alloc, connection, head, payload)
}

// What is done for a frame, by its kind.
fn frame_done(
    alloc: Global,
    answers: &AnswerStore,
    now: Moment,
    requests: &Requests,
    connection: &OpenConnection,
    head: Head,
    payload: &[u8],
) -> Result<Actions, NoMemory>
    requires known { newest_moment answers.now ≤ now.0 }
    requires small { length payload.now < 2 ^ 32 }
    ensures { IfOk result (λ actions. actions ≡ frame_done (address_at answers.now now.0) requests.now.outstanding head payload.now (said connection.now)) }
{
    let mut actions = ListOf::new(alloc);
    match head.kind {
        ALTSVC => actions.push(altsvc_done(
            alloc, answers, now, requests, connection, head, payload,
        )?)?,
        ORIGIN => actions.push(origin_done(alloc, connection, head, payload)?)?,
        _ => {}
    }
    Ok(actions)
}

fn frame_actions(
    alloc: Global,
    answers: &AnswerStore,
    now: Moment,
    tables: &Tables,
    conn: u64,
    head: Head,
    payload: &[u8],
) -> Result<Actions, NoMemory>
    requires known { newest_moment answers.now ≤ now.0 }
    requires small { length payload.now < 2 ^ 32 }
    ensures { IfOk result (λ actions. actions ≡ frame_actions (address_at answers.now now.0) tables.now conn head payload.now) }
{
    match tables.connections.of_number(conn) {
        None => Ok(ListOf::new(alloc)),
        Some(connection) => {
            let requests = &tables.requests;
            frame_done(alloc, answers, now, requests, connection, head, payload)
        }
    }
}

// The origins that a payload lists, where it is that of an ORIGIN frame.
fn origins_of(alloc: Global, head: Head, payload: &[u8]) -> Result<Option<Origins>, NoMemory>
    requires { length payload.now < 2 ^ 32 }
    ensures { IfOk result (λ listed. listed ≡ origins_of (read_listed head.stream head.flags payload.now)) }
{
    match origin_frame::parse(alloc, head.stream, head.flags, payload) {
        Ok(Listed { origins, .. }) => Ok(Some(origins)),
        Err(Refused::NoMemory) => Err(NoMemory),
        Err(Refused::At { .. }) => Ok(None),
    }
}

fn listed_on(
    alloc: Global,
    connection: &OpenConnection,
    head: Head,
    payload: &[u8],
) -> Result<Option<Origins>, NoMemory>
    requires { length payload.now < 2 ^ 32 }
    ensures { IfOk result (λ listed. listed ≡ listed_at head payload.now (said connection.now).made) }
{
    if !is_secure(connection.made().origin.scheme) || head.kind != ORIGIN {
        return Ok(None);
    }
    origins_of(alloc, head, payload)
}

// The origins that a frame lists on the connection of a number, where it is an ORIGIN frame that is accepted.
fn listed_in(
    alloc: Global,
    connections: &Connections,
    conn: u64,
    head: Head,
    payload: &[u8],
) -> Result<Option<Origins>, NoMemory>
    requires { length payload.now < 2 ^ 32 }
    ensures { IfOk result (λ listed. listed ≡ listed_in connections.now conn head payload.now) }
{
    match connections.of_number(conn) {
        None => Ok(None),
        Some(connection) => listed_on(alloc, connection, head, payload),
    }
}

fn list(
    alloc: Global,
    connections: &mut Connections,
    conn: u64,
    listed: &Option<Origins>,
) -> Result<(), NoMemory>
    ensures { OnOk result (connections.new ≡ with_listing conn listed.now connections.old) }
{
    match listed {
        None => Ok(()),
        Some(origins) => connections.list(alloc, conn, origins),
    }
}

/// A frame came whole on a connection: what it says is taken or not. NoMemory comes only where memory isn't found.
pub(crate) fn deliver(
    alloc: Global,
    answers: &AnswerStore,
    now: Moment,
    state: &mut StepState,
    conn: u64,
    head: Head,
    payload: &[u8],
) -> Result<(), NoMemory>
    requires known { newest_moment answers.now ≤ now.0 }
    requires small { length payload.now < 2 ^ 32 }
    ensures { OnOk result (state.new ≡ delivered_so (address_at answers.now now.0) state.old conn head payload.now) }
{
    let actions = frame_actions(alloc, answers, now, &state.tables, conn, head, payload)?;
    let listed = listed_in(alloc, &state.tables.connections, conn, head, payload)?;
    list(alloc, &mut state.tables.connections, conn, &listed)?;
    rebind_by(actions.as_slice(), &mut state.tables.connections);
    append_actions(&mut state.actions, actions)
}
