ghost use Rattle.std.specs.Prelude.{◌≡◌, ◌≤◌, ◌<◌, ◌+◌, ◌*◌, ◌^◌, [], ℕ, length, is_some, IfSome, IfOk, IfErr};
ghost use Rattle.answer_store.specs.Contents.{newest_moment as newest_answer};
ghost use Rattle.network_cache.specs.Contents.{newest_moment};
ghost use Rattle.route_choice.specs.Contents.{newest_moment as newest_failure};
ghost use Rattle.std.specs.Option.{option_copied, option_map};
ghost use Rattle.request_dispatch.specs.ConnectionTable.{most_sends};
ghost use Rattle.request_dispatch.specs.OpenConnections.{record_lent};
ghost use Rattle.request_dispatch.specs.RequestTable.{request_among};

use crate::StepFault;
use crate::answer::append_actions;
use crate::course::{Course, begin, follow};
use crate::octets::read_octets;
use crate::question::{Question, asked_in};
use crate::reason::{newest_after, reason_of};
use alt_base::{Duplicate, ListOf, Moment, NoMemory};
use answer_store::AnswerStore;
use frame_readers::Readers;
use network_cache::Cache;
use origin_values::Origin;
use request_dispatch::{
    Attempts, Connections, Lent, OpenConnection, OriginAddresses, Requests, StepState, Tables,
};
use route_choice::Broken;
use route_events::{Action, Actions, Fact};
use std::alloc::Global;

/// The client. It is told what happened, step by step, and answers what to do.
#[derive(Drop)]
pub struct Router {
    alloc: Global,
    facts: u32,
    last: u32,
    newest: u32,
    tables: Tables,
    alternatives: Cache,
    answers: AnswerStore,
    broken: Broken,
    readers: Readers,
    ghost bounded: { facts ≤ 16777215 },
    ghost few_sends: { most_sends tables.connections + length tables.requests.waiting ≤ facts },
    ghost few_attempts: { tables.attempts.opened ≤ facts * 2 ^ 38 },
    ghost alternatives_known: { newest_moment alternatives ≤ last },
    ghost answers_known: { newest_answer answers ≤ last },
    ghost failures_known: { newest_failure broken ≤ last },
}

fn origin_of(requests: &Requests, request: u32) -> Option<&Origin>
    ensures { option_copied result ≡ option_map (λ x. x.request.origin) (request_among requests.now.outstanding request) }
{
    match requests.of_number(request) {
        None => None,
        Some(sent) => Some(&sent.request.origin),
    }
}

fn lent(connection: Option<&OpenConnection>) -> Option<Lent<'_>>
    ensures { option_map record_lent result ≡ option_copied connection.entry }
{
    match connection {
        None => None,
        Some(connection) => Some(connection.lend()),
    }
}

impl Router {
    ghost use Rattle.origin_values.specs.declared.origin.Origin.{Origin as OriginValue};
    ghost use Rattle.origin_values.specs.declared.address.Addr.{Addr as AddrValue};
    ghost use Rattle.alias_chain.specs.Held.{in_force, body_at};
    ghost use Rattle.alias_chain.specs.Walk.{NameOf};
    ghost use Rattle.answer_store.specs.Bodies.{Kind, kind_of, lists_address};
    ghost use Rattle.answer_store.specs.Contents.{kept, https_held};
    ghost use Rattle.network_cache.specs.Contents.{live, kept as kept_alternatives};
    ghost use Rattle.network_cache.specs.Freshness.{is_fresh};
    ghost use Rattle.route_choice.specs.Contents.{kept_failures};
    ghost use Rattle.route_events.specs.declared.route.Route.{Route as RouteValue};
    ghost use Rattle.route_events.specs.Addresses.{resolves_to};
    ghost use Rattle.route_events.specs.Alternatives.{live as journal_live};
    ghost use Rattle.route_events.specs.Answers.{records, answer_at};
    ghost use Rattle.route_events.specs.Backoff.{is_barred_by, is_broken};
    ghost use Rattle.route_events.specs.Journal.{Journal, newest_moment as newest_step};
    ghost use Rattle.route_events.specs.Step.{step};
    ghost use Rattle.route_events.specs.Headline.{SendsOnlyOn, RefusesOnlyWhere, WaitsOnlyFor};
    ghost use Rattle.std.specs.Prelude.{◌∷◌, filter};
    ghost use Rattle.request_dispatch.specs.ConnectionTable.{carrier_numbers};
    ghost use Rattle.router_core.specs.Asking.{known_by, IsAnswered, IsCounted};
    ghost use Rattle.router_core.specs.Fitting.{IsFit};
    ghost use Rattle.router_core.specs.StoredAnswers.{answer_of};
    ghost use Rattle.router_core.specs.StepBecomes.{PartsBecome, StepBecomes};
    ghost use Rattle.route_events.specs.Connections.{is_open_number};
    ghost use Rattle.router_core.specs.Lent.{outstanding_origin, IsLent};
    ghost use Rattle.router_core.specs.Reasons.{reason_of};
    ghost use Rattle.router_core.specs.StandsFor.{StandsFor, Takes, Refuses};

    /// A router to which nothing has happened. It takes no memory.
    pub fn new(alloc: Global) -> Router
        ensures { StandsFor result [] }
    {
        Router {
            alloc,
            facts: 0,
            last: 0,
            newest: 0,
            tables: Tables {
                attempts: Attempts::new(alloc),
                requests: Requests::new(alloc),
                connections: Connections::new(alloc),
            },
            alternatives: Cache::new(alloc),
            answers: AnswerStore::new(alloc),
            broken: Broken::new(alloc),
            readers: Readers::new(alloc),
        }
    }

    /// Takes a fact at a moment, and answers the router that goes on and the actions in order. For each journal that
    /// the router stands for, the actions are those of the journal's step, and the new router stands for the journal
    /// after it.
    ///
    /// A step is refused where 16,777,215 facts were taken, where the moment is before that of the newest step, where a
    /// request's number isn't above the newest request's, where an attempt that ends isn't pending, where a connection
    /// that ends, or on which octets or a frame come, isn't open, where such a connection isn't one of HTTP/2, and where a
    /// request that is answered isn't outstanding, tried in this order; the router comes back as it was. After NoMemory it
    /// is gone. At most 65,536 octets come at once, and the payload of a frame has at most 16,384 (RFC 9113 4.2).
    pub fn step(self, now: Moment, fact: Fact) -> Result<(Router, Actions), StepFault>
        requires { IsFit fact }
        ensures taken { IfOk result (λ r. (journal : Journal) → StandsFor self journal → Takes r.0 r.1 journal now.0 fact) }
        ensures refused { IfErr result (λ fault. Refuses self now.0 fact fault) }

        // What a client may rely on.
        ensures sent_only_on { IfOk result (λ r. (journal : Journal) → StandsFor self journal → SendsOnlyOn (step journal now.0 fact)) }
        ensures refused_only_where { IfOk result (λ r. (journal : Journal) → StandsFor self journal → RefusesOnlyWhere (step journal now.0 fact)) }
        ensures waits_only_for { IfOk result (λ r. (journal : Journal) → StandsFor self journal → WaitsOnlyFor (step journal now.0 fact)) }
    {
        let reason = reason_of(self.facts, self.last, self.newest, &self.tables, now, &fact);
        if let Some(refusal) = reason {
            return Err(StepFault::Refused {
                router: self,
                refusal,
            });
        }
        self.take(now, fact)
    }

    /// The origin of a request that is outstanding; None exactly where it isn't. It takes no memory.
    pub fn origin_of(&self, request: u32) -> Option<&Origin>
        ensures { (journal : Journal) → StandsFor self.now journal → option_copied result ≡ outstanding_origin journal request }
    {
        origin_of(&self.tables.requests, request)
    }

    /// The open connection of a number, lent in its state; None exactly where no connection of that number is open. What it
    /// says of itself is what the journal says of it. It takes no memory.
    pub fn conn(&self, conn: u64) -> Option<Lent<'_>>
        ensures open { (journal : Journal) → StandsFor self.now journal → is_some result ≡ is_open_number journal conn }
        ensures lent { (journal : Journal) → StandsFor self.now journal → IfSome result (λ lent. IsLent journal conn (record_lent lent)) }
    {
        lent(self.tables.connections.of_number(conn))
    }

    /// What is known of the alternatives of origins: at each moment from that of the newest step on, what the journal says
    /// is live. None is kept that has ended by the newest step. It takes no memory.
    pub fn alternatives(&self) -> &Cache
        ensures live { (journal : Journal) → StandsFor self.now journal → (o : OriginValue) (at : ℕ) → newest_step journal ≤ at → live result.now o at ≡ journal_live journal o at }
        ensures none_ended { (journal : Journal) → StandsFor self.now journal → (o : OriginValue) → filter (is_fresh (newest_step journal)) (kept_alternatives result.now o) ≡ kept_alternatives result.now o }
        ensures moment { (journal : Journal) → StandsFor self.now journal → newest_moment result.now ≤ newest_step journal }
    {
        &self.alternatives
    }

    /// The DNS answers that are kept: at each moment from that of the newest step on, those that the journal says are in
    /// force. So a name has an address there exactly where it resolves to it by the journal, and its HTTPS records are the
    /// journal's. None is kept that has ended by the newest step. It takes no memory.
    pub fn answers(&self) -> &AnswerStore
        ensures held { (journal : Journal) → StandsFor self.now journal → (name : NameOf) (kind : Kind) (at : ℕ) → newest_step journal ≤ at → in_force at (kept result.now name kind) ≡ in_force at (answer_of journal name kind) }
        ensures addresses { (journal : Journal) → StandsFor self.now journal → (name : NameOf) (addr : AddrValue) (at : ℕ) → newest_step journal ≤ at → lists_address addr (body_at at (kept result.now name (kind_of addr))) ≡ resolves_to journal at addr name }
        ensures https { (journal : Journal) → StandsFor self.now journal → (name : NameOf) (at : ℕ) → newest_step journal ≤ at → body_at at (https_held result.now name) ≡ answer_at records journal at name }
        ensures none_ended { (journal : Journal) → StandsFor self.now journal → (name : NameOf) (kind : Kind) → in_force (newest_step journal) (kept result.now name kind) ≡ kept result.now name kind }
        ensures moment { (journal : Journal) → StandsFor self.now journal → newest_answer result.now ≤ newest_step journal }
    {
        &self.answers
    }

    /// What is known of failed routes: at each moment from that of the newest step on, what the journal says is broken. It
    /// takes no memory.
    pub fn broken(&self) -> &Broken
        ensures broken { (journal : Journal) → StandsFor self.now journal → (o : OriginValue) (r : RouteValue) (at : ℕ) → is_barred_by (kept_failures result.now o r) r at ≡ is_broken journal o r at }
        ensures moment { (journal : Journal) → StandsFor self.now journal → newest_failure result.now ≤ newest_step journal }
    {
        &self.broken
    }

    // The answer to what is asked, at the moment of the newest step. NoMemory comes only where memory isn't found.
    fn answer(&self, asked: Option<Question>) -> Result<Actions, NoMemory>
        ensures { IfOk result (λ answer. IsAnswered self.now asked answer) }
    {
        match asked {
            None => Ok(ListOf::new(self.alloc)),
            Some(Question::Carriers(origin)) => self.name_carriers(origin),
            Some(Question::Counts) => self.count_all(),
        }
    }

    // Which connections are authoritative for an origin, in the order of their opening.
    fn name_carriers(&self, origin: Origin) -> Result<Actions, NoMemory>
        ensures { IfOk result (λ answer. answer ≡ Action.Who origin (carrier_numbers (known_by self.now).is_address origin self.now.tables.connections) ∷ []) }
    {
        let asked = origin.copy(self.alloc)?;
        let now = Moment(self.last);
        let addresses = OriginAddresses::begin(self.alloc, &self.answers, now, asked)?;
        let conns = self.tables.connections.carriers(self.alloc, &addresses)?;
        let mut answer = ListOf::new(self.alloc);
        answer.push(Action::Who { origin, conns })?;
        Ok(answer)
    }

    // How much of each there is.
    fn count_all(&self) -> Result<Actions, NoMemory>
        ensures { IfOk result (λ answer. IsCounted self.now answer) }
    {
        let now = Moment(self.last);
        let mut answer = ListOf::new(self.alloc);
        answer.push(Action::Stats {
            alternatives: self.alternatives.count(now),
            answers: self.answers.count(now),
            broken: self.broken.count(now),
            connections: self.tables.connections.len() as u64,
            waiting: self.tables.requests.waiting_len() as u64,
        })?;
        Ok(answer)
    }

    // The parts of a step that isn't refused, and what is kept of them. NoMemory comes only where memory isn't found.
    fn take_parts(self, now: Moment, fact: Fact) -> Result<(Router, Actions), NoMemory>
        requires free { reason_of self.facts self.last self.newest self.tables now.0 fact ≡ None }
        requires fit { IsFit fact }
        ensures { IfOk result (λ r. PartsBecome self r.0 r.1 now.0 fact) }
    {
        let newest = newest_after(self.newest, &fact);
        let Router {
            alloc,
            facts,
            last: _,
            newest: _,
            tables,
            alternatives,
            answers,
            broken,
            mut readers,
        } = self;
        let octets = read_octets(alloc, &mut readers, &fact)?;
        let begun = begin(alloc, tables, alternatives, answers, broken);
        let Course {
            state,
            mut alternatives,
            mut answers,
            broken,
        } = follow(alloc, begun, now, fact, octets)?;
        alternatives.purge(now);
        answers.purge(now);
        let StepState { tables, actions } = state;
        Ok((
            Router {
                alloc,
                facts: facts + 1,
                last: now.0,
                newest,
                tables,
                alternatives,
                answers,
                broken,
                readers,
            },
            actions,
        ))
    }

    // A step that isn't refused.
    fn take(self, now: Moment, fact: Fact) -> Result<(Router, Actions), StepFault>
        requires free { reason_of self.facts self.last self.newest self.tables now.0 fact ≡ None }
        requires fit { IsFit fact }
        ensures ok { IfOk result (λ r. StepBecomes self r.0 r.1 now.0 fact) }
        ensures err { IfErr result (λ fault. fault ≡ StepFault.NoMemory) }
    {
        let asked = asked_in(self.alloc, &fact)?;
        let (router, mut actions) = self.take_parts(now, fact)?;
        let answer = router.answer(asked)?;
        append_actions(&mut actions, answer)?;
        Ok((router, actions))
    }
}
