use crate::messages::Messages;
use crate::payloads::{origins_payload, value_payload};
use crate::{Answer, NotServed, ServerFault};
use alt_base::{Duplicate, NoMemory};
use altsvc_grammar::{AltSvc, Alts};
use h2_framing::Head;
use indexmap::IndexSet;
use origin_values::Origin;
use std::alloc::Global;

/// The kind of an ALTSVC frame (RFC 7838 4).
const ALTSVC_KIND: u8 = 10;

/// The kind of an ORIGIN frame (RFC 8336 2).
const ORIGIN_KIND: u8 = 12;

/// A server that says which origins it serves, and advertises alternatives for them. It keeps the origins that are
/// served, in the order of adding, and the messages that it has made.
#[derive(Drop)]
pub struct Advertiser {
    alloc: Global,
    served: IndexSet<Origin>,
    messages: Messages,
}

impl Advertiser {
    ghost use Rattle.std.specs.Prelude.{◌≡◌, ◌≢◌, ◌+◌, ◌<◌, true, false, [], ℕ, List, length, IfOk, IfErr, OnOk, OnErr, IfSome, IsNone, ◌↔◌, Err};
    ghost use Rattle.std.specs.Option.{option_map};
    ghost use Rattle.origin_values.specs.Valid.{IsOrigin};
    ghost use Rattle.altsvc_grammar.specs.Valid.{AreListed};
    ghost use Rattle.altsvc_grammar.specs.Valid.{IsAltSvc};
    ghost use Rattle.altsvc_grammar.specs.declared.alt_svc.AltSvc.TheVariants as alt_svc;
    ghost use Rattle.origin_frame.specs.PayloadWritten.{payload_of as origins_payload};
    ghost use Rattle.advertiser_core.specs.declared.message.Message.{Message as MessageValue};
    ghost use Rattle.advertiser_core.specs.Acts.{Act, Serve as ServeAct, Unserve, Announce, Advertise, offer_of, withdrawal_of};
    ghost use Rattle.advertiser_core.specs.ServedList.{is_served, served_list};
    ghost use Rattle.advertiser_core.specs.Messages.{messages, numbered, value_payload, IsWhole};
    ghost use Rattle.advertiser_core.specs.Refusals.{most_messages, IsFull, IsOver};
    ghost use Rattle.advertiser_core.specs.StandsFor.{StandsFor, Takes, StandsAsBefore, Refuses, answer_to};

    /// A server that serves nothing and has made no message. It takes no memory.
    pub fn new(alloc: Global) -> Advertiser
        ensures { StandsFor result [] }
    {
        Advertiser {
            alloc,
            served: IndexSet::new(alloc),
            messages: Messages::new(alloc),
        }
    }

    /// Serves an origin from now on. One that is served keeps its place, any other goes to the end. After NoMemory, which
    /// comes only where memory isn't found, the server is as it was.
    pub fn serve(&mut self, origin: Origin) -> Result<(), NoMemory>
        requires { IsOrigin origin }
        ensures served { OnOk result (Takes self.old self.new (ServeAct origin)) }
        ensures as_before { OnErr result (StandsAsBefore self.old self.new) }
    {
        self.served.insert(origin)?;
        Ok(())
    }

    /// Doesn't serve an origin any more. The others keep their order. Refused exactly where it isn't served; the server is
    /// then as it was. It takes no memory.
    pub fn unserve(&mut self, origin: &Origin) -> Result<(), NotServed>
        ensures unserved { OnOk result (Takes self.old self.new (Unserve origin.now)) }
        ensures not_served { OnErr result ((acts : List Act) → StandsFor self.old acts → is_served acts origin.now ≡ false) }
        ensures as_before { OnErr result (StandsAsBefore self.old self.new) }
    {
        if self.served.shift_remove(origin) {
            Ok(())
        } else {
            Err(NotServed)
        }
    }

    /// What a request of an origin is answered: `Serve` exactly where the origin is served, else `Misdirected` (RFC 9110
    /// 15.5.20). It takes no memory.
    pub fn ask(&self, origin: &Origin) -> Answer
        ensures { (acts : List Act) → StandsFor self.now acts → result ≡ answer_to acts origin.now }
    {
        if self.served.contains(origin) {
            Answer::Serve
        } else {
            Answer::Misdirected
        }
    }

    /// Makes an ORIGIN frame that lists all origins that are served, in order (RFC 8336 2), and answers its number.
    ///
    /// Refused, in this order: `Full` where 16,777,215 messages are kept, and `OverFrame` where the payload would have more
    /// than 16,384 octets. After a refusal and after NoMemory the server is as it was.
    pub fn announce(&mut self) -> Result<u32, ServerFault>
        ensures announced { OnOk result (Takes self.old self.new Announce) }
        ensures number { IfOk result (λ n. (acts : List Act) → StandsFor self.old acts → n ≡ length (messages acts) + 1) }
        ensures refused { IfErr result (λ fault. Refuses self.old Announce fault) }
        ensures not_served { result ≢ Err ServerFault.NotServed }
        ensures full { result ≡ Err ServerFault.Full → (acts : List Act) → StandsFor self.old acts → IsFull acts }
        ensures over_frame { (n : ℕ) → result ≡ Err (ServerFault.OverFrame n) → (acts : List Act) → StandsFor self.old acts → (length (messages acts) < most_messages) × IsOver (origins_payload (served_list acts)) n }
        ensures as_before { OnErr result (StandsAsBefore self.old self.new) }
    {
        if self.messages.is_full() {
            return Err(ServerFault::Full);
        }
        let payload = origins_payload(self.alloc, self.served.as_slice())?;
        Ok(self.messages.add(ORIGIN_KIND, payload)?)
    }

    /// Makes an ALTSVC frame on stream 0 that brings these alternatives of an origin (RFC 7838 4), and answers its number.
    /// The list isn't empty, and no two have one key.
    ///
    /// Refused, in this order: `NotServed` where the origin isn't served, `Full` where 16,777,215 messages are kept, and
    /// `OverFrame` where the payload would have more than 16,384 octets. After a refusal and after NoMemory the server is as
    /// it was.
    pub fn offer(&mut self, origin: &Origin, alts: &Alts) -> Result<u32, ServerFault>
        requires origin { IsOrigin origin.now }
        requires alts { AreListed alts.now }
        ensures offered { OnOk result (Takes self.old self.new (offer_of origin.now alts.now)) }
        ensures number { IfOk result (λ n. (acts : List Act) → StandsFor self.old acts → n ≡ length (messages acts) + 1) }
        ensures refused { IfErr result (λ fault. Refuses self.old (offer_of origin.now alts.now) fault) }
        ensures not_served { result ≡ Err ServerFault.NotServed → (acts : List Act) → StandsFor self.old acts → is_served acts origin.now ≡ false }
        ensures full { result ≡ Err ServerFault.Full → (acts : List Act) → StandsFor self.old acts → (is_served acts origin.now ≡ true) × IsFull acts }
        ensures over_frame { (n : ℕ) → result ≡ Err (ServerFault.OverFrame n) → (acts : List Act) → StandsFor self.old acts → (is_served acts origin.now ≡ true) × (length (messages acts) < most_messages) × IsOver (value_payload origin.now (alt_svc.List alts.now)) n }
        ensures as_before { OnErr result (StandsAsBefore self.old self.new) }
    {
        let value = AltSvc::List(alts.copy(self.alloc)?);
        self.advertise(origin, value)
    }

    /// Makes an ALTSVC frame on stream 0 that takes back all alternatives of an origin by `clear` (RFC 7838 3 and 4), and
    /// answers its number. Refused as `offer` is.
    pub fn withdraw(&mut self, origin: &Origin) -> Result<u32, ServerFault>
        requires { IsOrigin origin.now }
        ensures withdrawn { OnOk result (Takes self.old self.new (withdrawal_of origin.now)) }
        ensures number { IfOk result (λ n. (acts : List Act) → StandsFor self.old acts → n ≡ length (messages acts) + 1) }
        ensures refused { IfErr result (λ fault. Refuses self.old (withdrawal_of origin.now) fault) }
        ensures not_served { result ≡ Err ServerFault.NotServed → (acts : List Act) → StandsFor self.old acts → is_served acts origin.now ≡ false }
        ensures full { result ≡ Err ServerFault.Full → (acts : List Act) → StandsFor self.old acts → (is_served acts origin.now ≡ true) × IsFull acts }
        ensures over_frame { (n : ℕ) → result ≡ Err (ServerFault.OverFrame n) → (acts : List Act) → StandsFor self.old acts → (is_served acts origin.now ≡ true) × (length (messages acts) < most_messages) × IsOver (value_payload origin.now alt_svc.Clear) n }
        ensures as_before { OnErr result (StandsAsBefore self.old self.new) }
    {
        self.advertise(origin, AltSvc::Clear)
    }

    /// The message of a number: its head and its payload. None exactly where no message has the number; the first has 1.
    /// It takes no memory.
    pub fn message(&self, number: u32) -> Option<(&Head, &[u8])>
        ensures message { (acts : List Act) → StandsFor self.now acts → option_map (λ m. let made : MessageValue = record { head = m.0.now; payload = m.1.now } in made) result ≡ numbered (messages acts) number }
        ensures none { (acts : List Act) → StandsFor self.now acts → IsNone result ↔ IsNone (numbered (messages acts) number) }
        ensures whole { (acts : List Act) → StandsFor self.now acts → IfSome result (λ m. IsWhole (record { head = m.0.now; payload = m.1.now })) }
    {
        let message = self.messages.get(number)?;
        Some((&message.head, message.payload.as_slice()))
    }

    // Makes an ALTSVC frame on stream 0.
    fn advertise(&mut self, origin: &Origin, value: AltSvc) -> Result<u32, ServerFault>
        requires origin { IsOrigin origin.now }
        requires value { IsAltSvc value }
        ensures advertised { OnOk result (Takes self.old self.new (Advertise origin.now value)) }
        ensures number { IfOk result (λ n. (acts : List Act) → StandsFor self.old acts → n ≡ length (messages acts) + 1) }
        ensures refused { IfErr result (λ fault. Refuses self.old (Advertise origin.now value) fault) }
        ensures as_before { OnErr result (StandsAsBefore self.old self.new) }
    {
        if !self.served.contains(origin) {
            return Err(ServerFault::NotServed);
        }
        if self.messages.is_full() {
            return Err(ServerFault::Full);
        }
        let payload = value_payload(self.alloc, origin, value)?;
        Ok(self.messages.add(ALTSVC_KIND, payload)?)
    }
}
