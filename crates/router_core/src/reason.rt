ghost use Rattle.std.specs.Prelude.{◌≡◌, is_some, if◌then◌else◌};
ghost use Rattle.std.specs.Option.{option_copied};
ghost use Rattle.route_events.specs.Connections.{is_h2};
ghost use Rattle.router_core.specs.Reasons.{frame_reason, reason_of_fact, reason_of, newest_after};
ghost use Rattle.request_dispatch.specs.AttemptTable.{attempt_among};
ghost use Rattle.request_dispatch.specs.ConnectionTable.{connection_among};
ghost use Rattle.request_dispatch.specs.RequestTable.{request_among};

use alt_base::Moment;
use origin_values::Proto;
use request_dispatch::{OpenConnection, Tables};
use route_events::{Fact, StepRefusal};

/// The most facts that one router takes.
pub(crate) const MOST_FACTS: u32 = 16_777_215;

/// The number of the newest request after a fact.
pub(crate) fn newest_after(newest: u32, fact: &Fact) -> u32
    ensures { result ≡ newest_after newest fact.now }
{
    match fact {
        Fact::Request { number, .. } => *number,
        _ => newest,
    }
}

fn unless(holds: bool, refusal: StepRefusal) -> Option<StepRefusal>
    ensures { result ≡ (if holds then None else Some refusal) }
{
    if holds { None } else { Some(refusal) }
}

fn is_pending(tables: &Tables, attempt: u64) -> bool
    ensures { result ≡ is_some (attempt_among tables.now.attempts.pending attempt) }
{
    tables.attempts.of_number(attempt).is_some()
}

fn is_open(tables: &Tables, conn: u64) -> bool
    ensures { result ≡ is_some (connection_among tables.now.connections conn) }
{
    tables.connections.of_number(conn).is_some()
}

fn is_h2(proto: Proto) -> bool
    ensures { result ≡ is_h2 proto }
{
    match proto {
        Proto::H2 => true,
        _ => false,
    }
}

// Why octets or a frame don't come on a connection.
fn frame_reason(connection: Option<&OpenConnection>) -> Option<StepRefusal>
    ensures { result ≡ frame_reason (option_copied connection.entry) }
{
    match connection {
        None => Some(StepRefusal::NoSuchConn),
        Some(connection) => unless(is_h2(connection.made().proto), StepRefusal::NotFramed),
    }
}

fn is_outstanding(tables: &Tables, request: u32) -> bool
    ensures { result ≡ is_some (request_among tables.now.requests.outstanding request) }
{
    tables.requests.of_number(request).is_some()
}

// Why a fact isn't taken, by the fact alone.
fn reason_of_fact(newest: u32, tables: &Tables, fact: &Fact) -> Option<StepRefusal>
    ensures { result ≡ reason_of_fact newest tables.now fact.now }
{
    match fact {
        Fact::Request { number, .. } => unless(
            newest < *number,
            StepRefusal::NumberNotAbove { last: newest },
        ),
        Fact::Opened { attempt, .. } => {
            unless(is_pending(tables, *attempt), StepRefusal::NoSuchAttempt)
        }
        Fact::Failed { attempt } => {
            unless(is_pending(tables, *attempt), StepRefusal::NoSuchAttempt)
        }
        Fact::Closed { conn } => unless(is_open(tables, *conn), StepRefusal::NoSuchConn),
        Fact::Response { request, .. } => {
            unless(is_outstanding(tables, *request), StepRefusal::NoSuchRequest)
        }
        Fact::Input { conn, .. } | Fact::Delivered { conn, .. } => {
            frame_reason(tables.connections.of_number(*conn))
        }
        Fact::Answer { .. } | Fact::Network | Fact::Tick | Fact::Who { .. } | Fact::Stats => None,
    }
}

/// The first reason why a step isn't taken.
pub(crate) fn reason_of(
    facts: u32,
    last: u32,
    newest: u32,
    tables: &Tables,
    now: Moment,
    fact: &Fact,
) -> Option<StepRefusal>
    ensures { result ≡ reason_of facts last newest tables.now now.0 fact.now }
{
    if facts == MOST_FACTS {
        return Some(StepRefusal::Spent { facts });
    }
    if now.0 < last {
        return Some(StepRefusal::TimeBack { last: Moment(last) });
    }
    reason_of_fact(newest, tables, fact)
}
