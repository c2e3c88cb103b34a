ghost use Rattle.event_lines.specs.LineReading.{request_fields, opened_fields, failed_fields, closed_fields, response_fields, input_fields, answer_fields, who_fields, kind_reading};
ghost use Rattle.event_lines.specs.Reads.{Reads, MayRead};

use crate::line_reader::LineReader;
use crate::part::Part;
use crate::server_kinds::read_server_kind;
use crate::{Event, LineRefusal};
use alt_base::{At, Refused};
use route_events::Fact;
use std::alloc::Global;

// What the fields of this kind say.
pub(crate) fn read_kind(
    alloc: Global,
    kind: &Part,
    reader: &mut LineReader,
) -> Result<Event, Refused<LineRefusal>>
    ensures { MayRead result reader.new (kind_reading kind.now reader.old) }
{
    if kind.text == b"request".as_slice() {
        read_request(alloc, reader)
    } else if kind.text == b"opened".as_slice() {
        read_opened(alloc, reader)
    } else if kind.text == b"failed".as_slice() {
        Ok(read_failed(reader)?)
    } else if kind.text == b"closed".as_slice() {
        Ok(read_closed(reader)?)
    } else if kind.text == b"response".as_slice() {
        read_response(alloc, reader)
    } else if kind.text == b"input".as_slice() {
        read_input(alloc, reader)
    } else if kind.text == b"answer".as_slice() {
        read_answer(alloc, reader)
    } else if kind.text == b"network".as_slice() {
        Ok(Event::Client(Fact::Network))
    } else if kind.text == b"tick".as_slice() {
        Ok(Event::Client(Fact::Tick))
    } else if kind.text == b"who".as_slice() {
        read_who(alloc, reader)
    } else if kind.text == b"stats".as_slice() {
        Ok(Event::Client(Fact::Stats))
    } else {
        read_server_kind(alloc, kind, reader)
    }
}

// `request Q ORIGIN`
fn read_request(alloc: Global, reader: &mut LineReader) -> Result<Event, Refused<LineRefusal>>
    ensures { MayRead result reader.new (request_fields reader.old) }
{
    let number = reader.short_number()?;
    let origin = reader.origin(alloc)?;
    Ok(Event::Client(Fact::Request { number, origin }))
}

// `opened A PROTO ADDR PORT NAMES`
fn read_opened(alloc: Global, reader: &mut LineReader) -> Result<Event, Refused<LineRefusal>>
    ensures { MayRead result reader.new (opened_fields reader.old) }
{
    let attempt = reader.long_number()?;
    let proto = reader.proto()?;
    let addr = reader.addr()?;
    let port = reader.port()?;
    let names = reader.names(alloc)?;
    Ok(Event::Client(Fact::Opened {
        attempt,
        proto,
        addr,
        port,
        names,
    }))
}

// `failed A`
fn read_failed(reader: &mut LineReader) -> Result<Event, At<LineRefusal>>
    ensures { Reads result reader.new (failed_fields reader.old) }
{
    let attempt = reader.long_number()?;
    Ok(Event::Client(Fact::Failed { attempt }))
}

// `closed C`
fn read_closed(reader: &mut LineReader) -> Result<Event, At<LineRefusal>>
    ensures { Reads result reader.new (closed_fields reader.old) }
{
    let conn = reader.long_number()?;
    Ok(Event::Client(Fact::Closed { conn }))
}

// `response Q STATUS`, and the fields of the response
fn read_response(alloc: Global, reader: &mut LineReader) -> Result<Event, Refused<LineRefusal>>
    ensures { MayRead result reader.new (response_fields reader.old) }
{
    let request = reader.short_number()?;
    let status = reader.status()?;
    let reply = reader.reply(alloc)?;
    Ok(Event::Client(Fact::Response {
        request,
        status,
        age: reply.age.unwrap_or(0),
        altsvc: reply.altsvc,
    }))
}

// `input C HEX`
fn read_input(alloc: Global, reader: &mut LineReader) -> Result<Event, Refused<LineRefusal>>
    ensures { MayRead result reader.new (input_fields reader.old) }
{
    let conn = reader.long_number()?;
    let bytes = reader.octets(alloc)?;
    Ok(Event::Client(Fact::Input { conn, bytes }))
}

// `answer NAME a|aaaa|https TTL`, and what the answer brings
fn read_answer(alloc: Global, reader: &mut LineReader) -> Result<Event, Refused<LineRefusal>>
    ensures { MayRead result reader.new (answer_fields reader.old) }
{
    let name = reader.dns_name(alloc)?;
    let kind = reader.answer_kind()?;
    let ttl = reader.ttl()?;
    let body = reader.items(alloc, kind)?;
    Ok(Event::Client(Fact::Answer { name, ttl, body }))
}

// `who ORIGIN`
fn read_who(alloc: Global, reader: &mut LineReader) -> Result<Event, Refused<LineRefusal>>
    ensures { MayRead result reader.new (who_fields reader.old) }
{
    let origin = reader.origin(alloc)?;
    Ok(Event::Client(Fact::Who { origin }))
}
