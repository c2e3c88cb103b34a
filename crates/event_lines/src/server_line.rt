ghost use Rattle.std.specs.Prelude.{◌≡◌, ◌++◌, OnOk};
ghost use Rattle.origin_values.specs.Written.{origin_text};
ghost use Rattle.event_lines.specs.ServerTexts.{offer_text, deliver_text, act_text};

use crate::ServerAct;
use crate::pieces::{append, append_number};
use alt_base::{Duplicate, NoMemory};
use altsvc_grammar::{AltSvc, Alts, write};
use origin_values::Origin;
use std::alloc::Global;

// Appends what the server is told, or does.
pub(crate) fn append_act(line: &mut Vec<u8>, alloc: Global, act: &ServerAct) -> Result<(), NoMemory>
    ensures { OnOk result (line.new.items ≡ line.old.items ++ act_text act.now) }
{
    match act {
        ServerAct::Serve { origin } => append_named(line, alloc, b"serve ", origin),
        ServerAct::Unserve { origin } => append_named(line, alloc, b"unserve ", origin),
        ServerAct::Offer { origin, alts } => append_offer(line, alloc, origin, alts),
        ServerAct::Withdraw { origin } => append_named(line, alloc, b"withdraw ", origin),
        ServerAct::Announce => append(line, b"announce"),
        ServerAct::Deliver { message, conn } => append_deliver(line, alloc, *message, *conn),
        ServerAct::Ask { request } => {
            append(line, b"ask ")?;
            append_number(line, alloc, u64::from(*request))
        }
    }
}

// Appends an origin behind the name of a kind.
fn append_named(
    line: &mut Vec<u8>,
    alloc: Global,
    name: &[u8],
    origin: &Origin,
) -> Result<(), NoMemory>
    ensures { OnOk result (line.new.items ≡ line.old.items ++ (name.now ++ origin_text origin.now)) }
{
    append(line, name)?;
    append(line, origin.write(alloc)?.as_slice())
}

// Appends an offer: the origin, and the canonical text of its alternatives.
fn append_offer(
    line: &mut Vec<u8>,
    alloc: Global,
    origin: &Origin,
    alts: &Alts,
) -> Result<(), NoMemory>
    ensures { OnOk result (line.new.items ≡ line.old.items ++ offer_text origin.now alts.now) }
{
    let value = AltSvc::List(alts.copy(alloc)?);
    append_named(line, alloc, b"offer ", origin)?;
    append(line, b" ")?;
    append(line, write(alloc, &value)?.as_slice())
}

fn append_deliver(
    line: &mut Vec<u8>,
    alloc: Global,
    message: u32,
    conn: u64,
) -> Result<(), NoMemory>
    ensures { OnOk result (line.new.items ≡ line.old.items ++ deliver_text message conn) }
{
    append(line, b"deliver ")?;
    append_number(line, alloc, u64::from(message))?;
    append(line, b" ")?;
    append_number(line, alloc, conn)
}
