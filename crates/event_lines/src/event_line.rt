ghost use Rattle.std.specs.Prelude.{◌≡◌, ◌++◌, IfOk, OnOk};
ghost use Rattle.event_lines.specs.EventTexts.{proto_text, opened_text, age_text, altsvc_text, response_text, input_text, fact_text, event_text};
ghost use Rattle.event_lines.specs.HaveLines.{HasText};

use crate::Event;
use crate::answer_line::append_answer;
use crate::pieces::{append, append_number};
use crate::server_line::append_act;
use alt_base::{Bytes, ListOf, Moment, NoMemory};
use coalescing::{CertNames, write_names};
use origin_values::{Addr, Proto};
use route_events::Fact;
use std::alloc::Global;

/// The line of an event, without a newline: the moment, a space, and what happened, as `read_line` reads it. The line
/// of a skipped one is empty, whatever the moment. Octets are written in lower-case hex, the name of an answer with its
/// final dot, and alternatives in the canonical text of a value of Alt-Svc (RFC 7838 3). A frame that came whole has no line.
pub fn write_event(alloc: Global, now: Moment, event: &Event) -> Result<Bytes, NoMemory>
    requires { HasText event.now }
    ensures { IfOk result (λ line. line ≡ event_text now.0 event.now) }
{
    let mut line = Vec::new(alloc);
    match event {
        Event::Client(fact) => {
            append_number(&mut line, alloc, u64::from(now.0))?;
            append(&mut line, b" ")?;
            append_fact(&mut line, alloc, fact)?;
        }
        Event::Server(act) => {
            append_number(&mut line, alloc, u64::from(now.0))?;
            append(&mut line, b" ")?;
            append_act(&mut line, alloc, act)?;
        }
        Event::Skip => {}
    }
    Ok(ListOf::from_vec(line))
}

fn append_fact(line: &mut Vec<u8>, alloc: Global, fact: &Fact) -> Result<(), NoMemory>
    ensures { OnOk result (line.new.items ≡ line.old.items ++ fact_text fact.now) }
{
    match fact {
        Fact::Request { number, origin } => {
            append(line, b"request ")?;
            append_number(line, alloc, u64::from(*number))?;
            append(line, b" ")?;
            append(line, origin.write(alloc)?.as_slice())
        }
        Fact::Opened {
            attempt,
            proto,
            addr,
            port,
            names,
        } => append_opened(line, alloc, *attempt, *proto, addr, *port, names),
        Fact::Failed { attempt } => {
            append(line, b"failed ")?;
            append_number(line, alloc, *attempt)
        }
        Fact::Closed { conn } => {
            append(line, b"closed ")?;
            append_number(line, alloc, *conn)
        }
        Fact::Response {
            request,
            status,
            age,
            altsvc,
        } => append_response(line, alloc, *request, *status, *age, altsvc),
        Fact::Input { conn, bytes } => append_input(line, alloc, *conn, bytes.as_slice()),
        Fact::Delivered { .. } => Ok(()),
        Fact::Answer { name, ttl, body } => append_answer(line, alloc, name, *ttl, body),
        Fact::Network => append(line, b"network"),
        Fact::Tick => append(line, b"tick"),
        Fact::Who { origin } => {
            append(line, b"who ")?;
            append(line, origin.write(alloc)?.as_slice())
        }
        Fact::Stats => append(line, b"stats"),
    }
}

fn append_opened(
    line: &mut Vec<u8>,
    alloc: Global,
    attempt: u64,
    proto: Proto,
    addr: &Addr,
    port: u16,
    names: &CertNames,
) -> Result<(), NoMemory>
    ensures { OnOk result (line.new.items
        ≡ line.old.items ++ opened_text attempt proto addr.now port names.now) }
{
    append(line, b"opened ")?;
    append_number(line, alloc, attempt)?;
    append(line, b" ")?;
    append(line, proto_text(proto))?;
    append(line, b" ")?;
    append(line, addr.write(alloc)?.as_slice())?;
    append(line, b" ")?;
    append_number(line, alloc, u64::from(port))?;
    append(line, b" ")?;
    append(line, write_names(alloc, names)?.as_slice())
}

fn append_response(
    line: &mut Vec<u8>,
    alloc: Global,
    request: u32,
    status: u16,
    age: u32,
    altsvc: &Option<Bytes>,
) -> Result<(), NoMemory>
    ensures { OnOk result (line.new.items
        ≡ line.old.items ++ response_text request status age altsvc.now) }
{
    append(line, b"response ")?;
    append_number(line, alloc, u64::from(request))?;
    append(line, b" ")?;
    append_number(line, alloc, u64::from(status))?;
    append_age(line, alloc, age)?;
    append_altsvc(line, altsvc)
}

fn append_age(line: &mut Vec<u8>, alloc: Global, age: u32) -> Result<(), NoMemory>
    ensures { OnOk result (line.new.items ≡ line.old.items ++ age_text age) }
{
    if age != 0 {
        append(line, b"\tage: ")?;
        append_number(line, alloc, u64::from(age))?;
    }
    Ok(())
}

fn append_altsvc(line: &mut Vec<u8>, altsvc: &Option<Bytes>) -> Result<(), NoMemory>
    ensures { OnOk result (line.new.items ≡ line.old.items ++ altsvc_text altsvc.now) }
{
    match altsvc {
        None => Ok(()),
        Some(value) => {
            append(line, b"\talt-svc: ")?;
            append(line, value.as_slice())
        }
    }
}

fn append_input(line: &mut Vec<u8>, alloc: Global, conn: u64, bytes: &[u8]) -> Result<(), NoMemory>
    ensures { OnOk result (line.new.items ≡ line.old.items ++ input_text conn bytes.now) }
{
    append(line, b"input ")?;
    append_number(line, alloc, conn)?;
    append(line, b" ")?;
    append(line, hex::encode(alloc, bytes)?.as_bytes())
}

// The name of a protocol.
fn proto_text(proto: Proto) -> &'static [u8]
    ensures { result.now ≡ proto_text proto }
{
    match proto {
        Proto::H2 => b"h2",
        Proto::H3 => b"h3",
        Proto::Http11 => b"http/1.1",
        Proto::Other => b"other",
    }
}
