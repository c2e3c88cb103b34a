//! What an act of the server does there, and what it tells the client.
ghost use Rattle.std.specs.Prelude.{◌≡◌, ◌≤◌, ℕ, List, Option, length, IfOk, IfErr, IfSome, Some, None};
ghost use Rattle.std.specs.Option.{option_copied};
ghost use Rattle.origin_values.specs.Valid.{IsOrigin};
ghost use Rattle.origin_values.specs.declared.origin.Origin.{Origin as OriginValue};
ghost use Rattle.altsvc_grammar.specs.Valid.{AreListed};
ghost use Rattle.advertiser_core.specs.Acts.{Act};
ghost use Rattle.advertiser_core.specs.StandsFor.{StandsFor as ServerStandsFor};
ghost use Rattle.event_lines.specs.Valid.{IsServerAct};
ghost use Rattle.router_core.specs.Fitting.{IsFit};
ghost use Rattle.both_ends.specs.ServerActs.{answer_for, status_of};
ghost use Rattle.both_ends.specs.StandsFor.{ServerTakes, ServerRefuses};

use crate::fault::refused;
use crate::{EndFault, ServerOutput, ServerRefusal};
use advertiser_core::{Advertiser, Answer};
use alt_base::{Bytes, Duplicate, ListOf, NoMemory};
use altsvc_grammar::Alts;
use event_lines::ServerAct;
use origin_values::Origin;
use route_events::Fact;
use std::alloc::Global;

/// The longest payload of a frame (RFC 9113 4.2).
const LONGEST_PAYLOAD: usize = 16_384;

fn serve(advertiser: &mut Advertiser, origin: Origin) -> Result<(Fact, ServerOutput), EndFault>
    requires { IsOrigin origin }
    ensures fits { IfOk result (λ r. IsFit r.0) }
    ensures ok { IfOk result (λ r. (acts : List Act) (asked : Option OriginValue) → ServerStandsFor advertiser.old acts → ServerTakes advertiser.new r.0 r.1 acts asked (ServerAct.Serve origin)) }
    ensures err { IfErr result (λ fault. ServerRefuses advertiser.old (ServerAct.Serve origin) fault) }
{
    advertiser.serve(origin)?;
    Ok((Fact::Tick, ServerOutput::Nothing))
}

fn unserve(advertiser: &mut Advertiser, origin: &Origin) -> Result<(Fact, ServerOutput), EndFault>
    ensures fits { IfOk result (λ r. IsFit r.0) }
    ensures ok { IfOk result (λ r. (acts : List Act) (asked : Option OriginValue) → ServerStandsFor advertiser.old acts → ServerTakes advertiser.new r.0 r.1 acts asked (ServerAct.Unserve origin.now)) }
    ensures err { IfErr result (λ fault. ServerRefuses advertiser.old (ServerAct.Unserve origin.now) fault) }
{
    match advertiser.unserve(origin) {
        Ok(()) => Ok((Fact::Tick, ServerOutput::Nothing)),
        Err(_) => Err(refused(ServerRefusal::NotServed)),
    }
}

fn offer(
    advertiser: &mut Advertiser,
    origin: &Origin,
    alts: &Alts,
) -> Result<(Fact, ServerOutput), EndFault>
    requires origin { IsOrigin origin.now }
    requires alts { AreListed alts.now }
    ensures fits { IfOk result (λ r. IsFit r.0) }
    ensures ok { IfOk result (λ r. (acts : List Act) (asked : Option OriginValue) → ServerStandsFor advertiser.old acts → ServerTakes advertiser.new r.0 r.1 acts asked (ServerAct.Offer origin.now alts.now)) }
    ensures err { IfErr result (λ fault. ServerRefuses advertiser.old (ServerAct.Offer origin.now alts.now) fault) }
{
    let number = advertiser.offer(origin, alts)?;
    Ok((Fact::Tick, ServerOutput::Made(number)))
}

fn withdraw(advertiser: &mut Advertiser, origin: &Origin) -> Result<(Fact, ServerOutput), EndFault>
    requires { IsOrigin origin.now }
    ensures fits { IfOk result (λ r. IsFit r.0) }
    ensures ok { IfOk result (λ r. (acts : List Act) (asked : Option OriginValue) → ServerStandsFor advertiser.old acts → ServerTakes advertiser.new r.0 r.1 acts asked (ServerAct.Withdraw origin.now)) }
    ensures err { IfErr result (λ fault. ServerRefuses advertiser.old (ServerAct.Withdraw origin.now) fault) }
{
    let number = advertiser.withdraw(origin)?;
    Ok((Fact::Tick, ServerOutput::Made(number)))
}

fn announce(advertiser: &mut Advertiser) -> Result<(Fact, ServerOutput), EndFault>
    ensures fits { IfOk result (λ r. IsFit r.0) }
    ensures ok { IfOk result (λ r. (acts : List Act) (asked : Option OriginValue) → ServerStandsFor advertiser.old acts → ServerTakes advertiser.new r.0 r.1 acts asked ServerAct.Announce) }
    ensures err { IfErr result (λ fault. ServerRefuses advertiser.old ServerAct.Announce fault) }
{
    let number = advertiser.announce()?;
    Ok((Fact::Tick, ServerOutput::Made(number)))
}

fn copied(alloc: Global, bytes: &[u8]) -> Result<Bytes, NoMemory>
    ensures { IfOk result (λ copy. copy ≡ bytes.now) }
{
    Ok(ListOf::from_vec(Vec::from_slice(alloc, bytes)?))
}

// The frame of a message, as it reaches a connection.
fn deliver(
    alloc: Global,
    advertiser: &Advertiser,
    message: u32,
    conn: u64,
) -> Result<(Fact, ServerOutput), EndFault>
    ensures fits { IfOk result (λ r. IsFit r.0) }
    ensures ok { IfOk result (λ r. (acts : List Act) (asked : Option OriginValue) → ServerStandsFor advertiser.now acts → ServerTakes advertiser.now r.0 r.1 acts asked (ServerAct.Deliver message conn)) }
    ensures err { IfErr result (λ fault. ServerRefuses advertiser.now (ServerAct.Deliver message conn) fault) }
{
    let Some((head, payload)) = advertiser.message(message) else {
        return Err(refused(ServerRefusal::NoSuchMessage));
    };
    // No message is longer, as its contract says of each list of acts; so this refuses none.
    if payload.len() > LONGEST_PAYLOAD {
        return Err(refused(ServerRefusal::NoSuchMessage));
    }
    let fact = Fact::Delivered {
        conn,
        head: *head,
        payload: copied(alloc, payload)?,
    };
    Ok((fact, ServerOutput::Nothing))
}

// The status of an answer.
fn status_of(answer: Answer) -> u16
    ensures { result ≡ status_of answer }
{
    match answer {
        Answer::Serve => 200,
        Answer::Misdirected => 421,
    }
}

fn answer_for(advertiser: &Advertiser, asked: Option<&Origin>) -> Answer
    ensures { (acts : List Act) → ServerStandsFor advertiser.now acts → result ≡ answer_for acts (option_copied asked.entry) }
{
    match asked {
        None => Answer::Serve,
        Some(origin) => advertiser.ask(origin),
    }
}

// The answer to a request, for this origin where it is outstanding.
fn ask(advertiser: &Advertiser, asked: Option<&Origin>, request: u32) -> (Fact, ServerOutput)
    ensures fits { IsFit result.0 }
    ensures told { (acts : List Act) → ServerStandsFor advertiser.now acts → ServerTakes advertiser.now result.0 result.1 acts (option_copied asked.entry) (ServerAct.Ask request) }
{
    let answer = answer_for(advertiser, asked);
    let fact = Fact::Response {
        request,
        status: status_of(answer),
        age: 0,
        altsvc: None,
    };
    (fact, ServerOutput::Answered { request, answer })
}

/// The server takes an act; answered is the fact that the client is told, and what the server gives. The origin is that of the
/// request that is to be answered, where it is outstanding.
pub(crate) fn consult(
    alloc: Global,
    advertiser: &mut Advertiser,
    asked: Option<&Origin>,
    act: &ServerAct,
) -> Result<(Fact, ServerOutput), EndFault>
    requires { IsServerAct act.now }
    ensures fits { IfOk result (λ r. IsFit r.0) }
    ensures ok { IfOk result (λ r. (acts : List Act) → ServerStandsFor advertiser.old acts → ServerTakes advertiser.new r.0 r.1 acts (option_copied asked.entry) act.now) }
    ensures err { IfErr result (λ fault. ServerRefuses advertiser.old act.now fault) }
{
    match act {
        ServerAct::Serve { origin } => serve(advertiser, origin.copy(alloc)?),
        ServerAct::Unserve { origin } => unserve(advertiser, origin),
        ServerAct::Offer { origin, alts } => offer(advertiser, origin, alts),
        ServerAct::Withdraw { origin } => withdraw(advertiser, origin),
        ServerAct::Announce => announce(advertiser),
        ServerAct::Deliver { message, conn } => deliver(alloc, advertiser, *message, *conn),
        ServerAct::Ask { request } => Ok(ask(advertiser, asked, *request)),
    }
}
