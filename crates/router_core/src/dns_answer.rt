//! DNS answers: what one brings is put into the store, and a malformed record is named.
ghost use Rattle.std.specs.Prelude.{◌≡◌, ◌≤◌, ◌∷◌, ◌++◌, [], ℕ, List, Err, unwrap_or, IfOk, OnOk};
ghost use Rattle.std.specs.Result.{result_ok};
ghost use Rattle.answer_store.specs.Bodies.{Kind};
ghost use Rattle.answer_store.specs.Contents.{kept, newest_moment};
ghost use Rattle.svcb_wire.specs.RecordReading.{read_record};
ghost use Rattle.route_events.specs.declared.answer.AnswerBody.TheVariants.{Https as HttpsBody};
ghost use Rattle.route_events.specs.declared.fact.Fact.TheVariants.{Answer as AnswerFact};
ghost use Rattle.route_events.specs.Answers.{read_records, malformed, malformed_effects, answer_after};
ghost use Rattle.router_core.specs.StoredAnswers.{brought};

use alias_chain::SvcbSet;
use alt_base::{At, Bytes, Duplicate, ListOf, Moment, NoMemory, Refused};
use answer_store::AnswerStore;
use dns_names::Name;
use route_events::{Action, Actions, AnswerBody};
use std::alloc::Global;
use svcb_wire::{Svcb, WireRefusal, parse};

// The record that some octets are, or why and where they are none.
fn read_record(alloc: Global, octets: &[u8]) -> Result<Result<Svcb, At<WireRefusal>>, NoMemory>
    ensures { IfOk result (λ read. read ≡ read_record octets.now) }
{
    match parse(alloc, octets) {
        Ok(svcb) => Ok(Ok(svcb)),
        Err(Refused::NoMemory) => Err(NoMemory),
        Err(Refused::At { place, reason }) => Ok(Err(At { place, reason })),
    }
}

// All records of a set; or the number of the first that is malformed, from 1, and why and where it is none.
fn read_records(
    alloc: Global,
    rdatas: &[Bytes],
) -> Result<Result<SvcbSet, (u64, At<WireRefusal>)>, NoMemory>
    ensures { IfOk result (λ read. read ≡ read_records 1 rdatas.now) }
{
    let mut records = ListOf::new(alloc);
    for (i, rdata) in rdatas.iter().enumerate() {
        match read_record(alloc, rdata.as_slice())? {
            Ok(svcb) => records.push(svcb)?,
            Err(at) => return Ok(Err((i as u64 + 1, at))),
        }
    }
    Ok(Ok(records))
}

// The action that names a malformed record.
fn malformed(alloc: Global, name: &Name, item: u64, at: At<WireRefusal>) -> Result<Action, NoMemory>
    ensures { IfOk result (λ action. action ∷ [] ≡ malformed name.now (Err (item, at))) }
{
    Ok(Action::Malformed {
        name: name.copy(alloc)?,
        item,
        reason: at.reason.number(),
        place: at.place,
    })
}

// Names the malformed record of a set, if there is one, and gives the records that count: none where one is malformed
// (RFC 9460 2.2).
fn records_of(
    alloc: Global,
    actions: &mut Actions,
    name: &Name,
    read: Result<SvcbSet, (u64, At<WireRefusal>)>,
) -> Result<SvcbSet, NoMemory>
    ensures records { IfOk result (λ records. records ≡ unwrap_or (result_ok read) []) }
    ensures named { IfOk result (λ _. actions.new ≡ actions.old ++ malformed name.now read) }
{
    match read {
        Ok(records) => Ok(records),
        Err((item, at)) => {
            actions.push(malformed(alloc, name, item, at)?)?;
            Ok(ListOf::new(alloc))
        }
    }
}

// An answer of HTTPS records.
fn take_records(
    alloc: Global,
    answers: &mut AnswerStore,
    actions: &mut Actions,
    now: Moment,
    name: Name,
    ttl: u32,
    rdatas: &[Bytes],
) -> Result<(), NoMemory>
    requires { newest_moment answers.old ≤ now.0 }
    ensures told { OnOk result ((q : List (List ℕ)) (k : Kind) → kept answers.new q k ≡ answer_after (brought k) q now.0 (AnswerFact name ttl (HttpsBody rdatas.now)) (kept answers.old q k)) }
    ensures named { OnOk result (actions.new ≡ actions.old ++ malformed_effects name (HttpsBody rdatas.now)) }
    ensures moment { OnOk result (newest_moment answers.new ≤ now.0) }
{
    let read = read_records(alloc, rdatas)?;
    let records = records_of(alloc, actions, &name, read)?;
    answers.put_https(now, name, ttl, records)?;
    Ok(())
}

/// An answer came for a name: what it brings replaces what an earlier one brought of its kind (RFC 1035 3.2.1). Of HTTPS
/// records the first malformed one is named, and then the set counts as empty (RFC 9460 2.2). NoMemory comes only where
/// memory isn't found.
pub(crate) fn take_answer(
    alloc: Global,
    answers: &mut AnswerStore,
    actions: &mut Actions,
    now: Moment,
    name: Name,
    ttl: u32,
    body: AnswerBody,
) -> Result<(), NoMemory>
    requires { newest_moment answers.old ≤ now.0 }
    ensures told { OnOk result ((q : List (List ℕ)) (k : Kind) → kept answers.new q k ≡ answer_after (brought k) q now.0 (AnswerFact name ttl body) (kept answers.old q k)) }
    ensures named { OnOk result (actions.new ≡ actions.old ++ malformed_effects name body) }
    ensures moment { OnOk result (newest_moment answers.new ≤ now.0) }
{
    match body {
        AnswerBody::V4(addresses) => answers.put_v4(now, name, ttl, addresses)?,
        AnswerBody::V6(addresses) => answers.put_v6(now, name, ttl, addresses)?,
        AnswerBody::Https(rdatas) => {
            take_records(alloc, answers, actions, now, name, ttl, rdatas.as_slice())?
        }
    }
    Ok(())
}
