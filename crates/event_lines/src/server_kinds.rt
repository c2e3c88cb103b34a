ghost use Rattle.event_lines.specs.ServerReading.{origin_fields, offer_fields, deliver_fields, ask_fields, server_reading};
ghost use Rattle.event_lines.specs.Reads.{Reads, MayRead};
ghost use Rattle.event_lines.specs.declared.server_act.ServerAct.TheVariants.{Serve, Unserve, Withdraw};

use crate::line_reader::LineReader;
use crate::part::Part;
use crate::{Event, LineRefusal, ServerAct};
use alt_base::{At, Refused};
use std::alloc::Global;

// What the fields of this kind of the server's say.
pub(crate) fn read_server_kind(
    alloc: Global,
    kind: &Part,
    reader: &mut LineReader,
) -> Result<Event, Refused<LineRefusal>>
    ensures { MayRead result reader.new (server_reading kind.now reader.old) }
{
    if kind.text == b"serve".as_slice() {
        read_serve(alloc, reader)
    } else if kind.text == b"unserve".as_slice() {
        read_unserve(alloc, reader)
    } else if kind.text == b"offer".as_slice() {
        read_offer(alloc, reader)
    } else if kind.text == b"withdraw".as_slice() {
        read_withdraw(alloc, reader)
    } else if kind.text == b"announce".as_slice() {
        Ok(Event::Server(ServerAct::Announce))
    } else if kind.text == b"deliver".as_slice() {
        Ok(read_deliver(reader)?)
    } else if kind.text == b"ask".as_slice() {
        Ok(read_ask(reader)?)
    } else {
        Err(Refused::At {
            place: kind.place,
            reason: LineRefusal::UnknownKind,
        })
    }
}

// `serve ORIGIN`
fn read_serve(alloc: Global, reader: &mut LineReader) -> Result<Event, Refused<LineRefusal>>
    ensures { MayRead result reader.new (origin_fields (λ origin. Serve origin) reader.old) }
{
    let origin = reader.origin(alloc)?;
    Ok(Event::Server(ServerAct::Serve { origin }))
}

// `unserve ORIGIN`
fn read_unserve(alloc: Global, reader: &mut LineReader) -> Result<Event, Refused<LineRefusal>>
    ensures { MayRead result reader.new (origin_fields (λ origin. Unserve origin) reader.old) }
{
    let origin = reader.origin(alloc)?;
    Ok(Event::Server(ServerAct::Unserve { origin }))
}

// `offer ORIGIN VALUE`
fn read_offer(alloc: Global, reader: &mut LineReader) -> Result<Event, Refused<LineRefusal>>
    ensures { MayRead result reader.new (offer_fields reader.old) }
{
    let origin = reader.origin(alloc)?;
    let alts = reader.alts(alloc)?;
    Ok(Event::Server(ServerAct::Offer { origin, alts }))
}

// `withdraw ORIGIN`
fn read_withdraw(alloc: Global, reader: &mut LineReader) -> Result<Event, Refused<LineRefusal>>
    ensures { MayRead result reader.new (origin_fields (λ origin. Withdraw origin) reader.old) }
{
    let origin = reader.origin(alloc)?;
    Ok(Event::Server(ServerAct::Withdraw { origin }))
}

// `deliver N C`
fn read_deliver(reader: &mut LineReader) -> Result<Event, At<LineRefusal>>
    ensures { Reads result reader.new (deliver_fields reader.old) }
{
    let message = reader.short_number()?;
    let conn = reader.long_number()?;
    Ok(Event::Server(ServerAct::Deliver { message, conn }))
}

// `ask Q`
fn read_ask(reader: &mut LineReader) -> Result<Event, At<LineRefusal>>
    ensures { Reads result reader.new (ask_fields reader.old) }
{
    let request = reader.short_number()?;
    Ok(Event::Server(ServerAct::Ask { request }))
}
