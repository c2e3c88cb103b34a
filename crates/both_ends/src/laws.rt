//! Laws of both ends, of every history, in whatever order and however often messages are delivered.
ghost use Rattle.std.specs.Prelude.{◌≡◌, ◌↔◌, ℕ, ◌+◌, List, ◌∷◌, ◌++◌, length, true, Option, Some, Any};
ghost use Rattle.std.specs.List.{list_any};
ghost use Rattle.altsvc_grammar.specs.declared.alt.Alt.{Alt};
ghost use Rattle.origin_values.specs.declared.host.Host.{Host};
ghost use Rattle.origin_values.specs.declared.origin.Origin.{Origin};
ghost use Rattle.advertiser_core.specs.Acts.{Act};
ghost use Rattle.advertiser_core.specs.Messages.{messages, numbered};
ghost use Rattle.advertiser_core.specs.Refusals.{AreAccepted};
ghost use Rattle.advertiser_core.specs.ServedList.{is_served};
ghost use Rattle.advertiser_core.specs.declared.answer.Answer.TheVariants.{Serve};
ghost use Rattle.event_lines.specs.declared.event.Event.{Event};
ghost use Rattle.event_lines.specs.declared.event.Event.TheVariants.{Server};
ghost use Rattle.event_lines.specs.declared.server_act.ServerAct.{ServerAct};
ghost use Rattle.event_lines.specs.declared.server_act.ServerAct.TheVariants.{Deliver, Ask};
ghost use Rattle.route_events.specs.Alternatives.{live};
ghost use Rattle.route_events.specs.Connections.{connection_of};
ghost use Rattle.route_events.specs.Journal.{Journal, Taken};
ghost use Rattle.route_events.specs.Step.{IsRun};
ghost use Rattle.route_events.specs.declared.action.Action.TheVariants.{SendOn};
ghost use Rattle.route_events.specs.declared.connection.Connection.{Connection};
ghost use Rattle.router_core.specs.Lent.{outstanding_origin};
ghost use Rattle.both_ends.specs.ServerActs.{message_by};
ghost use Rattle.both_ends.specs.Histories.{History, IsHistory, acts_of, journal_of, server_output};
ghost use Rattle.both_ends.specs.Deliveries.{last_taking, WasOffered};
ghost use Rattle.both_ends.specs.Misdirections.{IsMisdirected, answered, is_for, lists_on};
ghost use Rattle.both_ends.specs.declared.output.ServerOutput.TheVariants.{Made, Answered};

/// The client's journal of a history is one that a run gives, and the server's acts are accepted, so that all that is said of
/// either end holds of both.
pub fn each_end_alone()
    ensures client { (history : History) → IsHistory history → IsRun (journal_of history) }
    ensures server { (history : History) → IsHistory history → AreAccepted (acts_of history) }
{}

/// Where an alternative is live for an origin, and the value that was taken for the origin last came by the delivery of a
/// message, the message of that number was made by an earlier offer for the origin that lists the alternative, while the
/// origin was served (RFC 7838 4).
pub fn live_by_a_delivery()
    ensures { (history older : History) (o : Origin) (a : Alt) (now at message conn : ℕ) → IsHistory history →
        last_taking history o ≡ Some (record { now = now; event = Server (Deliver message conn); older = older }) →
        Any (λ b. b ≡ a) (live (journal_of history) o at) → WasOffered older message o a }
{
    advertiser_core::messages_are_read();
}

/// A request that is outstanding is answered `serve` exactly where its origin is served; and a message that is made is the one
/// of its act, and its number the count of the messages so far.
pub fn what_the_server_gives()
    ensures answers { (history : History) (request : ℕ) (o : Origin) → outstanding_origin (journal_of history) request ≡ Some o →
        (server_output history (Server (Ask request)) ≡ Answered request Serve) ↔ (is_served (acts_of history) o ≡ true) }
    ensures counts { (history : History) (act : ServerAct) (now n : ℕ) → server_output history (Server act) ≡ Made n →
        n ≡ length (messages (acts_of ((now, Server act) ∷ history))) }
    ensures messages { (history : History) (act : ServerAct) (now n : ℕ) → server_output history (Server act) ≡ Made n →
        numbered (messages (acts_of ((now, Server act) ∷ history))) n ≡ message_by (acts_of history) act }
{}

/// After a request of an origin was answered `misdirect` on a connection, no request of the origin is sent there until an ORIGIN
/// frame that lists the origin is accepted on it (RFC 9110 15.5.20, RFC 8336 2.3).
pub fn misdirected_until_listed()
    ensures { (history older newer : History) (now asked conn request : ℕ) (o : Origin) (stream : Option ℕ) (used : Option (Host × ℕ)) (later between : Journal) (c : Connection) →
        IsHistory history → history ≡ newer ++ (now, Server (Ask asked)) ∷ older → IsMisdirected older asked conn o →
        journal_of history ≡ later ++ Taken (SendOn request conn stream used) ∷ (between ++ answered older now asked) →
        is_for (between ++ answered older now asked) o request ≡ true → connection_of (between ++ answered older now asked) conn ≡ Some c →
        list_any (lists_on c o) between ≡ true }
{}
