ghost use Rattle.std.specs.Prelude.{◌≡◌, ◌++◌, IfOk, OnOk, decimal};
ghost use Rattle.event_lines.specs.ActionTexts.{action_text, stream_text, alt_used_text, authority_text, open_text, send_text, close_text, alternatives_text, ignored_field_text, frame_text, ignored_text, origins_text, malformed_text, numbers_text, conns_text, who_text, stats_text};

use crate::pieces::{append, append_number};
use crate::protocols::protos_text;
use crate::route_words::{route_host, route_port, route_text};
use alt_base::{Bytes, ListOf, NoMemory};
use altsvc_grammar::{AltSvc, write};
use dns_names::Name;
use origin_values::{Host, Origin};
use route_events::{Action, Route, protocols_of};
use std::alloc::Global;

/// The port that isn't written where an alternative is told to the server (RFC 7838 5): that of https.
const PLAIN_PORT: u16 = 443;
/// The kind of an ALTSVC frame (RFC 7838 4).
const ALTSVC: u8 = 10;

/// The line of an action, without a newline: `open A ORIGIN KIND PROTOS HOST PORT`, of kind `direct`, `alt` or `rec`, with the
/// protocols in the order h2, h3, http/1.1 and the host and port that the route goes to, the host of an endpoint as the text of a
/// name (RFC 1035 5.1); `send Q on C`, with ` stream S`
/// on HTTP/2 and ` alt-used X` where an alternative is told to the server (RFC 7838 5); `refuse Q`; `lost Q`; `retry Q`;
/// `close C frame LENGTH`; `alternatives ORIGIN VALUE` with the canonical text of a value of Alt-Svc (RFC 7838 3);
/// `field Q R PLACE`; `ignored C altsvc R PLACE` or `ignored C origin R PLACE`; `origins C TAKEN SKIPPED`;
/// `malformed NAME I R PLACE`; `who ORIGIN C C` with each connection behind one space, or ` none` in their place;
/// `stats alternatives A answers N broken B connections C waiting W`. Numbers are decimal.
pub fn write_action(alloc: Global, action: &Action) -> Result<Bytes, NoMemory>
    ensures { IfOk result (λ line. line ≡ action_text action.now) }
{
    let mut line = Vec::new(alloc);
    match action {
        Action::OpenTo {
            attempt,
            origin,
            route,
        } => append_open(&mut line, alloc, *attempt, origin, route)?,
        Action::SendOn {
            request,
            conn,
            stream,
            alt_used,
        } => {
            append_send(&mut line, alloc, *request, *conn)?;
            append_stream(&mut line, alloc, *stream)?;
            append_alt_used(&mut line, alloc, alt_used)?;
        }
        Action::Refuse { request } => {
            append(&mut line, b"refuse ")?;
            append_number(&mut line, alloc, u64::from(*request))?;
        }
        Action::Lost { request } => {
            append(&mut line, b"lost ")?;
            append_number(&mut line, alloc, u64::from(*request))?;
        }
        Action::Retry { request } => {
            append(&mut line, b"retry ")?;
            append_number(&mut line, alloc, u64::from(*request))?;
        }
        Action::Close { conn, length } => append_close(&mut line, alloc, *conn, *length)?,
        Action::Alternatives { origin, value } => {
            append_alternatives(&mut line, alloc, origin, value)?
        }
        Action::Field {
            request,
            reason,
            place,
        } => append_field(&mut line, alloc, *request, *reason, *place)?,
        Action::Ignored {
            conn,
            kind,
            reason,
            place,
        } => append_ignored(&mut line, alloc, *conn, *kind, *reason, *place)?,
        Action::Origins {
            conn,
            taken,
            skipped,
        } => append_origins(&mut line, alloc, *conn, *taken, *skipped)?,
        Action::Malformed {
            name,
            item,
            reason,
            place,
        } => append_malformed(&mut line, alloc, name, *item, *reason, *place)?,
        Action::Who { origin, conns } => { append_who(&mut line, alloc, origin, conns.as_slice())? }
        Action::Stats {
            alternatives,
            answers,
            broken,
            connections,
            waiting,
        } => append_stats(
            &mut line,
            alloc,
            *alternatives,
            *answers,
            *broken,
            *connections,
            *waiting,
        )?,
    }
    Ok(ListOf::from_vec(line))
}

fn append_open(
    line: &mut Vec<u8>,
    alloc: Global,
    attempt: u64,
    origin: &Origin,
    route: &Route,
) -> Result<(), NoMemory>
    ensures { OnOk result (line.new.items ≡ line.old.items ++ open_text attempt origin.now route.now) }
{
    append(line, b"open ")?;
    append_number(line, alloc, attempt)?;
    append(line, b" ")?;
    append(line, origin.write(alloc)?.as_slice())?;
    append(line, b" ")?;
    append(line, route_text(route))?;
    append(line, b" ")?;
    append(line, protos_text(protocols_of(origin.scheme, route)))?;
    append(line, b" ")?;
    append(line, route_host(alloc, route, origin)?.as_slice())?;
    append(line, b" ")?;
    append_number(line, alloc, u64::from(route_port(route, origin)))
}

fn append_send(line: &mut Vec<u8>, alloc: Global, request: u32, conn: u64) -> Result<(), NoMemory>
    ensures { OnOk result (line.new.items ≡ line.old.items ++ send_text request conn) }
{
    append(line, b"send ")?;
    append_number(line, alloc, u64::from(request))?;
    append(line, b" on ")?;
    append_number(line, alloc, conn)
}

fn append_stream(line: &mut Vec<u8>, alloc: Global, stream: Option<u32>) -> Result<(), NoMemory>
    ensures { OnOk result (line.new.items ≡ line.old.items ++ stream_text stream) }
{
    match stream {
        None => Ok(()),
        Some(number) => {
            append(line, b" stream ")?;
            append_number(line, alloc, u64::from(number))
        }
    }
}

fn append_alt_used(
    line: &mut Vec<u8>,
    alloc: Global,
    alt_used: &Option<(Host, u16)>,
) -> Result<(), NoMemory>
    ensures { OnOk result (line.new.items ≡ line.old.items ++ alt_used_text alt_used.now) }
{
    match alt_used {
        None => Ok(()),
        Some((host, port)) => {
            append(line, b" alt-used ")?;
            append_authority(line, alloc, host, *port)
        }
    }
}

fn append_authority(
    line: &mut Vec<u8>,
    alloc: Global,
    host: &Host,
    port: u16,
) -> Result<(), NoMemory>
    ensures { OnOk result (line.new.items ≡ line.old.items ++ authority_text host.now port) }
{
    append(line, host.write(alloc)?.as_slice())?;
    if port != PLAIN_PORT {
        append(line, b":")?;
        append_number(line, alloc, u64::from(port))?;
    }
    Ok(())
}

fn append_alternatives(
    line: &mut Vec<u8>,
    alloc: Global,
    origin: &Origin,
    value: &AltSvc,
) -> Result<(), NoMemory>
    ensures { OnOk result (line.new.items ≡ line.old.items ++ alternatives_text origin.now value.now) }
{
    append(line, b"alternatives ")?;
    append(line, origin.write(alloc)?.as_slice())?;
    append(line, b" ")?;
    append(line, write(alloc, value)?.as_slice())
}

fn append_field(
    line: &mut Vec<u8>,
    alloc: Global,
    request: u32,
    reason: u8,
    place: u32,
) -> Result<(), NoMemory>
    ensures { OnOk result (line.new.items ≡ line.old.items ++ ignored_field_text request reason place) }
{
    append(line, b"field ")?;
    append_number(line, alloc, u64::from(request))?;
    append(line, b" ")?;
    append_number(line, alloc, u64::from(reason))?;
    append(line, b" ")?;
    append_number(line, alloc, u64::from(place))
}

fn append_close(line: &mut Vec<u8>, alloc: Global, conn: u64, length: u32) -> Result<(), NoMemory>
    ensures { OnOk result (line.new.items ≡ line.old.items ++ close_text conn length) }
{
    append(line, b"close ")?;
    append_number(line, alloc, conn)?;
    append(line, b" frame ")?;
    append_number(line, alloc, u64::from(length))
}

// The name of a frame's kind.
fn frame_text(kind: u8) -> &'static [u8]
    ensures { result.now ≡ frame_text kind }
{
    if kind == ALTSVC { b"altsvc" } else { b"origin" }
}

fn append_ignored(
    line: &mut Vec<u8>,
    alloc: Global,
    conn: u64,
    kind: u8,
    reason: u8,
    place: u32,
) -> Result<(), NoMemory>
    ensures { OnOk result (line.new.items ≡ line.old.items ++ ignored_text conn kind reason place) }
{
    append(line, b"ignored ")?;
    append_number(line, alloc, conn)?;
    append(line, b" ")?;
    append(line, frame_text(kind))?;
    append(line, b" ")?;
    append_number(line, alloc, u64::from(reason))?;
    append(line, b" ")?;
    append_number(line, alloc, u64::from(place))
}

fn append_origins(
    line: &mut Vec<u8>,
    alloc: Global,
    conn: u64,
    taken: u32,
    skipped: u32,
) -> Result<(), NoMemory>
    ensures { OnOk result (line.new.items ≡ line.old.items ++ origins_text conn taken skipped) }
{
    append(line, b"origins ")?;
    append_number(line, alloc, conn)?;
    append(line, b" ")?;
    append_number(line, alloc, u64::from(taken))?;
    append(line, b" ")?;
    append_number(line, alloc, u64::from(skipped))
}

fn append_malformed(
    line: &mut Vec<u8>,
    alloc: Global,
    name: &Name,
    item: u64,
    reason: u8,
    place: u32,
) -> Result<(), NoMemory>
    ensures { OnOk result (line.new.items ≡ line.old.items ++ malformed_text name.now item reason place) }
{
    append(line, b"malformed ")?;
    append(line, name.to_text(alloc)?.as_slice())?;
    append(line, b" ")?;
    append_number(line, alloc, item)?;
    append(line, b" ")?;
    append_number(line, alloc, u64::from(reason))?;
    append(line, b" ")?;
    append_number(line, alloc, u64::from(place))
}

fn append_stats(
    line: &mut Vec<u8>,
    alloc: Global,
    alternatives: u64,
    answers: u64,
    broken: u64,
    connections: u64,
    waiting: u64,
) -> Result<(), NoMemory>
    ensures { OnOk result (line.new.items ≡ line.old.items ++ stats_text alternatives answers broken connections waiting) }
{
    append_count(line, alloc, b"stats alternatives ", alternatives)?;
    append_count(line, alloc, b" answers ", answers)?;
    append_count(line, alloc, b" broken ", broken)?;
    append_count(line, alloc, b" connections ", connections)?;
    append_count(line, alloc, b" waiting ", waiting)
}

// Appends a number behind its name.
fn append_count(line: &mut Vec<u8>, alloc: Global, name: &[u8], count: u64) -> Result<(), NoMemory>
    ensures { OnOk result (line.new.items ≡ line.old.items ++ (name.now ++ decimal count)) }
{
    append(line, name)?;
    append_number(line, alloc, count)
}

fn append_who(
    line: &mut Vec<u8>,
    alloc: Global,
    origin: &Origin,
    conns: &[u64],
) -> Result<(), NoMemory>
    ensures { OnOk result (line.new.items ≡ line.old.items ++ who_text origin.now conns.now) }
{
    append(line, b"who ")?;
    append(line, origin.write(alloc)?.as_slice())?;
    append_conns(line, alloc, conns)
}

// Appends the numbers of connections, or that there are none.
fn append_conns(line: &mut Vec<u8>, alloc: Global, conns: &[u64]) -> Result<(), NoMemory>
    ensures { OnOk result (line.new.items ≡ line.old.items ++ conns_text conns.now) }
{
    match conns {
        [] => append(line, b" none"),
        _ => append_numbers(line, alloc, conns),
    }
}

// Appends numbers, each behind a space.
fn append_numbers(line: &mut Vec<u8>, alloc: Global, numbers: &[u64]) -> Result<(), NoMemory>
    ensures { OnOk result (line.new.items ≡ line.old.items ++ numbers_text numbers.now) }
{
    for number in numbers {
        append(line, b" ")?;
        append_number(line, alloc, *number)?;
    }
    Ok(())
}
