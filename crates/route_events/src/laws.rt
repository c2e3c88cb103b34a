//! Laws of the journal, stated over its definitions alone.
ghost use Rattle.std.specs.Prelude.{◌≡◌, ◌↔◌, ◌≤◌, ℕ, ◌+◌, length, true, false, List, [], ◌∷◌, ◌++◌, Some, None, All, Any};
ghost use Rattle.std.specs.List.{list_any};
ghost use Rattle.origin_values.specs.Equality.{origin_eq};
ghost use Rattle.origin_values.specs.declared.origin.Origin.{Origin as OriginValue};
ghost use Rattle.altsvc_grammar.specs.declared.alt.Alt.{Alt as Alternative};
ghost use Rattle.h2_framing.specs.Streams.{too_large_of};
ghost use Rattle.svcb_wire.specs.declared.svcb.Svcb.{Svcb};
ghost use Rattle.alias_chain.specs.declared.held.Held.{Held};
ghost use Rattle.alias_chain.specs.Walk.{NameOf};
ghost use Rattle.route_events.specs.declared.connection.Connection.{Connection as ConnectionValue};
ghost use Rattle.route_events.specs.declared.fact.Fact.{Fact as FactValue};
ghost use Rattle.route_events.specs.declared.reach.Reach.{Reach as ReachValue};
ghost use Rattle.route_events.specs.declared.route.Route.{Route as RouteValue};
ghost use Rattle.route_events.specs.Journal.{Journal, Happened, Taken, newest_moment, step_count};
ghost use Rattle.route_events.specs.Step.{step, run, refusal, newest_actions, actions, IsRun, settled};
ghost use Rattle.route_events.specs.Requests.{OutOn, standing};
ghost use Rattle.route_events.specs.Connections.{open_connections, is_one_of, outstanding};
ghost use Rattle.route_events.specs.Frames.{octets_on};
ghost use Rattle.route_events.specs.Alternatives.{live};
ghost use Rattle.route_events.specs.Records.{ConnectionRecord};
ghost use Rattle.route_events.specs.Authority.{authorises, is_candidate};
ghost use Rattle.route_events.specs.Backoff.{failures, no_failures};
ghost use Rattle.route_events.specs.Distinct.{are_apart, advertised_origins, pair_eq, attempted_routes};
ghost use Rattle.dns_names.specs.Names.{name_eq};
ghost use Rattle.route_events.specs.Answers.{addresses4, addresses6, records, newest_answer};
ghost use Rattle.route_events.specs.Counts.{answered_names};
ghost use Rattle.route_events.specs.AnswersInWords.{IsNewestAnswer};
ghost use Rattle.route_events.specs.InWords.{IsLive, AreFailures};
ghost use Rattle.route_events.specs.Headline.{IsAllowed, SendsOnlyOn, RefusesOnlyWhere, WaitsOnlyFor};

use crate::{Action, Fact};

/// A request is sent only on a connection that, in the journal just before the send, is open, authoritative for the
/// request's origin, and not busy.
pub fn sent_only_on()
    ensures { (events : List (ℕ × FactValue)) → SendsOnlyOn (run [] events) }
{}

/// A request is refused only where, in the journal just before the refusal, no connection is authoritative for its
/// origin and no route is usable.
pub fn refused_only_where()
    ensures { (events : List (ℕ × FactValue)) → RefusesOnlyWhere (run [] events) }
{}

/// After each step a request waits only for a pending attempt by a usable route, or for a busy connection that is
/// authoritative for its origin.
pub fn waits_only_for()
    ensures { (events : List (ℕ × FactValue)) → WaitsOnlyFor (run [] events) }
{}

/// Settling again at the same moment writes nothing, and a tick at that moment neither.
pub fn settles_once()
    ensures again { (events : List (ℕ × FactValue)) → settled (run [] events) (newest_moment (run [] events)) ≡ run [] events }
    ensures tick { (events : List (ℕ × FactValue)) →
        step (run [] events) (newest_moment (run [] events)) Fact.Tick ≡ Happened (newest_moment (run [] events)) Fact.Tick true ∷ run [] events }
{}

/// The same of each journal that a run gives, one law for all actions.
pub fn each_action()
    ensures allowed { (journal newer before : Journal) (action : Action) → IsRun journal → journal ≡ newer ++ Taken action ∷ before → IsAllowed before action }
    ensures waits { (journal : Journal) → IsRun journal → WaitsOnlyFor journal }
    ensures settled { (journal : Journal) → IsRun journal → settled journal (newest_moment journal) ≡ journal }
    ensures runs { (events : List (ℕ × FactValue)) → IsRun (run [] events) }
{}

/// Only the octets that come on a connection and their moments matter, not how they are cut (RFC 9113 4.1): two inputs at
/// one moment, with nothing between them and both taken, have together the actions of one input with both pieces, which is
/// taken as well; and whatever happens then, all actions are the same, while steps are left.
pub fn pieces_join()
    ensures actions { (journal : Journal) (now conn : ℕ) (a b : List ℕ) → IsRun journal →
        refusal journal now (Fact.Input conn a) ≡ None → refusal (step journal now (Fact.Input conn a)) now (Fact.Input conn b) ≡ None →
        newest_actions (step journal now (Fact.Input conn a)) ++ newest_actions (step (step journal now (Fact.Input conn a)) now (Fact.Input conn b))
        ≡ newest_actions (step journal now (Fact.Input conn (a ++ b))) }
    ensures later { (journal : Journal) (now conn : ℕ) (a b : List ℕ) (events : List (ℕ × FactValue)) → IsRun journal →
        refusal journal now (Fact.Input conn a) ≡ None → refusal (step journal now (Fact.Input conn a)) now (Fact.Input conn b) ≡ None →
        step_count journal + 2 + length events ≤ 16777215 →
        actions (run (step (step journal now (Fact.Input conn a)) now (Fact.Input conn b)) events) ≡ actions (run (step journal now (Fact.Input conn (a ++ b))) events) }
    ensures taken { (journal : Journal) (now conn : ℕ) (a b : List ℕ) → refusal journal now (Fact.Input conn a) ≡ None → refusal journal now (Fact.Input conn (a ++ b)) ≡ None }
{}

/// The octets of an open connection have no head whose length is too large (RFC 9113 4.2): one that has closes it.
pub fn open_goes_on()
    ensures { (journal : Journal) → IsRun journal → All (λ (c : ConnectionValue). too_large_of (octets_on journal c.number) ≡ None) (open_connections journal) }
{}

/// In the words of RFC 7838 (2.2, 3, 3.1), of every journal: an alternative is live where the value that was taken last for
/// the origin lists it, it is still fresh, no 421 came since on a connection that was opened for the origin by it (RFC 9110
/// 15.5.20), and it persists or the network hasn't changed since.
pub fn live_in_words()
    ensures { (journal : Journal) (o : OriginValue) (now : ℕ) (a : Alternative) → Any (λ b. b ≡ a) (live journal o now) ↔ IsLive journal o now a }
{}

/// Of every journal: the failures of an origin's route are those since its newest success and the newest change of the
/// network, and the last of them is the newest.
pub fn failures_in_words()
    ensures { (journal : Journal) (o : OriginValue) (r : RouteValue) → AreFailures journal o r (failures journal o r).count (failures journal o r).last }
{}

/// Of every journal: the newest answer of a name and a kind is that of the newest fact that answers it, with nothing since that
/// ends it (RFC 1035 3.2.1); and where none ever came for a name, there is none. So all there is to know of answers is at the
/// different names that were answered.
pub fn answers_in_words()
    ensures v4 { (journal : Journal) (name : NameOf) (answer : Held (List (List ℕ))) → (newest_answer addresses4 journal name ≡ Some answer) ↔ IsNewestAnswer addresses4 journal name answer }
    ensures v6 { (journal : Journal) (name : NameOf) (answer : Held (List (List ℕ))) → (newest_answer addresses6 journal name ≡ Some answer) ↔ IsNewestAnswer addresses6 journal name answer }
    ensures https { (journal : Journal) (name : NameOf) (answer : Held (List Svcb)) → (newest_answer records journal name ≡ Some answer) ↔ IsNewestAnswer records journal name answer }
    ensures no_v4 { (journal : Journal) (name : NameOf) → list_any (λ n. name_eq n name) (answered_names journal) ≡ false → newest_answer addresses4 journal name ≡ None }
    ensures no_v6 { (journal : Journal) (name : NameOf) → list_any (λ n. name_eq n name) (answered_names journal) ≡ false → newest_answer addresses6 journal name ≡ None }
    ensures no_https { (journal : Journal) (name : NameOf) → list_any (λ n. name_eq n name) (answered_names journal) ≡ false → newest_answer records journal name ≡ None }
    ensures names { (journal : Journal) → are_apart name_eq (answered_names journal) ≡ true }
{}

/// After each step a request is outstanding on a connection exactly where the newest entry that moved it sent it there.
pub fn outstanding_in_words()
    ensures { (events : List (ℕ × FactValue)) (number conn : ℕ) →
        (is_one_of number (outstanding (run [] events) conn) ≡ true) ↔ (standing (run [] events) number ≡ Some (OutOn conn)) }
{}

/// Of every journal: no alternative is live for an origin for which no value was ever taken, and no route failed by which
/// no attempt for the origin ever started. So all there is to know of alternatives and failures is at the different origins
/// with a value and the different origins with a route that was tried.
pub fn nothing_elsewhere()
    ensures live { (journal : Journal) (o : OriginValue) (now : ℕ) → list_any (λ p. origin_eq p o) (advertised_origins journal) ≡ false → live journal o now ≡ [] }
    ensures failures { (journal : Journal) (o : OriginValue) (r : RouteValue) → list_any (λ p. pair_eq p (o, r)) (attempted_routes journal) ≡ false → failures journal o r ≡ no_failures }
    ensures origins { (journal : Journal) → are_apart origin_eq (advertised_origins journal) ≡ true }
    ensures routes { (journal : Journal) → are_apart pair_eq (attempted_routes journal) ≡ true }
{}

/// A connection is authoritative for an origin only where it was opened for it, where its origin set holds it, or where it
/// stands at the origin's port and at one of its addresses.
pub fn only_candidates()
    ensures { (c : ConnectionRecord) (o : OriginValue) (reach : ReachValue) → is_candidate c o reach ≡ false → authorises c o reach ≡ false }
{}
