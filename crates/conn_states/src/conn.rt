ghost use Rattle.std.specs.Prelude.{◌≡◌, ◌<◌, ◌≤◌, None, Some, true, false, is_some, IfOk, OnOk, OnErr, if◌then◌else◌, ◌||◌};
ghost use Rattle.origin_values.specs.Equality.{origin_eq};
ghost use Rattle.route_events.specs.Authority.{authorises, authorises_https, authorises_http, rests_on, may_coalesce, is_https};
ghost use Rattle.route_events.specs.Connections.{is_http11, is_none_out, is_one_of, without as without_request};
ghost use Rattle.route_events.specs.Distinct.{are_apart};
ghost use Rattle.route_events.specs.Records.{is_occupied};
ghost use Rattle.conn_states.specs.Changes.{begun, with_listed, with_misdirected, unbound, with_sent, with_answered, leave};
ghost use Rattle.conn_states.specs.Origins.{known};
ghost use Rattle.conn_states.specs.Said.{said, as_made, set_size};

use crate::made::{count_others, is_initial, is_secure, is_tls, may_coalesce};
use crate::origin_set::{OriginSet, Origins, forget, holds, items, join, note};
use crate::{Closed, Gated, Made, Permit, Plain, Sent, View};
use alt_base::NoMemory;
use coalescing::covers;
use origin_values::{Origin, Proto, same_origin};
use route_events::Reach;
use std::alloc::Global;
use std::marker::Model;

/// A connection in its state: `Plain` without an origin set, `Gated` with one (RFC 8336 2.3).
///
/// To every contract it is one record (`specs/Record.antt`), and the rules of authority are asked of what that record says
/// (`specs/Said.antt`).
#[derive(Drop)]
pub struct Conn<S: View> {
    alloc: Global,
    number: u64,
    made: Made,
    bound: bool,
    state: S,
    misdirected: OriginSet,
    outstanding: Vec<u32>,
    sends: u32,
}

impl<S: View> Model for Conn<S> {
    ghost use Rattle.std.specs.Prelude.{◌≤◌};
    ghost use Rattle.conn_states.specs.Record.{Record};

    ghost Value = { Record };

    ghost view = { λ c. record { number = c.number; made = c.made; bound = c.bound; listed = S.listed c.state; misdirected = c.misdirected.keys; outstanding = c.outstanding.items; sends = c.sends } };

    ghost invariant = { λ c. c.sends ≤ 16777215 };
}

impl Conn<Plain> {
    /// A connection of a number that has just been opened. It takes no memory.
    pub fn begin(alloc: Global, number: u64, made: Made) -> Conn<Plain>
        ensures { result ≡ begun number made }
    {
        let bound = made.bound;
        Conn {
            alloc,
            number,
            made,
            bound,
            state: Plain::new(),
            misdirected: OriginSet::new(alloc),
            outstanding: Vec::new(alloc),
            sends: 0,
        }
    }

    /// The first ORIGIN frame is accepted: from now on the connection has an origin set (RFC 8336 2.3), and isn't
    /// misdirected any more for what the frame lists. Where memory isn't found, the connection is gone.
    pub fn gate(self, listed: &Origins) -> Result<Conn<Gated>, NoMemory>
        ensures { IfOk result (λ gated. gated ≡ with_listed listed.now self) }
    {
        let mut set = OriginSet::new(self.alloc);
        join(&mut set, self.alloc, listed.as_slice())?;
        let Conn {
            alloc,
            number,
            made,
            bound,
            state: _,
            mut misdirected,
            outstanding,
            sends,
        } = self;
        forget(&mut misdirected, listed.as_slice());
        Ok(Conn {
            alloc,
            number,
            made,
            bound,
            state: Gated { listed: set },
            misdirected,
            outstanding,
            sends,
        })
    }

    /// What the state says: there is no origin set.
    pub fn has_no_set(&self)
        ensures { self.now.listed ≡ None }
    {
        let _ = &self.state;
    }
}

impl Conn<Gated> {
    /// A further ORIGIN frame is accepted: what it lists joins the origin set (RFC 8336 2.3), each origin once, and the
    /// connection isn't misdirected for it any more.
    pub fn add(&mut self, listed: &Origins) -> Result<(), NoMemory>
        ensures ok { OnOk result (self.new ≡ with_listed listed.now self.old) }
        ensures err { OnErr result (self.new ≡ self.old) }
    {
        join(&mut self.state.listed, self.alloc, listed.as_slice())?;
        forget(&mut self.misdirected, listed.as_slice());
        Ok(())
    }

    /// How many different origins the origin set holds, the initial one included (RFC 8336 2.3). What was listed again is
    /// counted and kept once. It takes no memory.
    pub fn held(&self) -> u64
        ensures size { result ≡ set_size self.now }
        ensures apart { are_apart origin_eq (known self.now.listed) ≡ true }
    {
        count_others(&self.made, items(&self.state.listed)) as u64 + 1
    }

    /// What the state says: there is an origin set.
    pub fn has_a_set(&self)
        ensures { is_some self.now.listed ≡ true }
    {
        let _ = &self.state;
    }
}

impl<S: View> Conn<S> {
    /// The connection's number. It takes no memory.
    pub fn number(&self) -> u64
        ensures { result ≡ self.now.number }
    {
        self.number
    }

    /// How many sends it has carried: at most 16,777,215. It takes no memory.
    pub fn sends(&self) -> u32
        ensures count { result ≡ self.now.sends }
        ensures few { result ≤ 16777215 }
    {
        self.sends
    }

    /// What the connection was begun with. It takes no memory.
    pub fn made(&self) -> &Made
        ensures { result.now ≡ self.now.made }
    {
        &self.made
    }

    /// Whether it has a basis now. It takes no memory.
    pub fn bound(&self) -> bool
        ensures { result ≡ self.now.bound }
    {
        self.bound
    }

    /// The requests that are outstanding here, in the order of their sends. It takes no memory.
    pub fn outstanding(&self) -> &[u32]
        ensures { result.now ≡ self.now.outstanding }
    {
        self.outstanding.as_slice()
    }

    /// A 421 came for an origin: the connection is misdirected for it until an ORIGIN frame lists it again
    /// (RFC 9110 15.5.20).
    pub fn misdirect(&mut self, origin: &Origin) -> Result<(), NoMemory>
        ensures ok { OnOk result (self.new ≡ with_misdirected origin.now self.old) }
        ensures err { OnErr result (self.new ≡ self.old) }
    {
        note(&mut self.misdirected, self.alloc, origin)
    }

    /// Takes the basis away. It takes no memory.
    pub fn unbind(&mut self)
        ensures { self.new ≡ unbound self.old }
    {
        self.bound = false;
    }

    /// Whether the connection, where it is open, may carry requests of an origin (RFC 9110 4.3, RFC 9113 9.1.1). It takes
    /// no memory.
    pub fn authorises(&self, origin: &Origin, reach: Reach) -> bool
        ensures { result ≡ authorises (said self.now) origin.now reach }
    {
        !holds(&self.misdirected, origin) && self.serves(origin, reach)
    }

    /// Whether it carries one request at a time, and one is outstanding (RFC 9112 9.3). It takes no memory.
    pub fn busy(&self) -> bool
        ensures { result ≡ is_occupied (said self.now) }
    {
        is_one_at_a_time(self.made.proto) && !is_empty(self.outstanding.as_slice())
    }

    /// Whether a request is outstanding here. It takes no memory.
    pub fn carries(&self, request: u32) -> bool
        ensures { result ≡ is_one_of request self.now.outstanding }
    {
        is_one_of(self.outstanding.as_slice(), request)
    }

    /// Leave for one send for an origin; None exactly where the connection may not carry its requests. The permit borrows
    /// the connection, so nothing can take its authority away before the permit is spent. It takes no memory.
    pub fn permit(&self, origin: &Origin, reach: Reach) -> Option<Permit<'_>>
        requires free { is_occupied (said self.now) ≡ false }
        requires few { self.now.sends < 16777215 }
        ensures { result ≡ leave origin.now reach self.now }
    {
        if self.authorises(origin, reach) {
            Some(Permit::new(&self.number, self.made.proto, self.sends))
        } else {
            None
        }
    }

    /// Carries a send that it permitted, and no other since: its request is outstanding from now on.
    pub fn carry(&mut self, sent: Sent) -> Result<(), NoMemory>
        requires here { sent.conn ≡ self.old.number }
        requires next { sent.before ≡ self.old.sends }
        requires apart { is_one_of sent.request self.old.outstanding ≡ false }
        ensures ok { OnOk result (self.new ≡ with_sent sent.request self.old) }
        ensures err { OnErr result (self.new ≡ self.old) }
    {
        let sends = sent.before() + 1;
        self.outstanding.push(sent.request())?;
        self.sends = sends;
        Ok(())
    }

    /// Whether a request was outstanding here, which it isn't any more. It takes no memory.
    pub fn answered(&mut self, request: u32) -> bool
        ensures was { result ≡ is_one_of request self.old.outstanding }
        ensures change { self.new ≡ with_answered request self.old }
    {
        let was = is_one_of(self.outstanding.as_slice(), request);
        drop_number(&mut self.outstanding, request);
        was
    }

    /// The end of the connection, which tells what is lost by it. It takes no memory.
    pub fn close(self) -> Closed
        ensures { result ≡ self.outstanding }
    {
        Closed::new(self.outstanding)
    }

    // Whether it may carry requests of an origin for which it isn't misdirected.
    fn serves(&self, origin: &Origin, reach: Reach) -> bool
        ensures { result ≡ (if is_https origin.now.scheme then authorises_https (said self.now) origin.now reach else authorises_http (said self.now) origin.now) }
    {
        if is_secure(origin.scheme) {
            is_tls(&self.made)
                && covers(&self.made.names, &origin.host)
                && self.is_for(origin, reach)
        } else {
            !is_tls(&self.made) && self.rests_on(origin)
        }
    }

    // Whether the origin set holds an origin, or, where there is no set, it has a basis for it or its address.
    fn is_for(&self, origin: &Origin, reach: Reach) -> bool
        ensures { result ≡ (if (said self.now).gated then (said self.now).holds origin.now else rests_on (said self.now) origin.now || may_coalesce (as_made self.now.number self.now.made) origin.now reach) }
    {
        if self.state.has_set() {
            is_initial(&self.made, origin) || self.state.is_listed(origin)
        } else {
            self.rests_on(origin) || may_coalesce(&self.made, origin, reach)
        }
    }

    fn rests_on(&self, origin: &Origin) -> bool
        ensures { result ≡ rests_on (said self.now) origin.now }
    {
        same_origin(&self.made.origin, origin) && self.bound
    }
}

fn is_one_at_a_time(proto: Proto) -> bool
    ensures { result ≡ is_http11 proto }
{
    match proto {
        Proto::Http11 => true,
        _ => false,
    }
}

fn is_empty(outstanding: &[u32]) -> bool
    ensures { result ≡ is_none_out outstanding.now }
{
    match outstanding {
        [] => true,
        _ => false,
    }
}

fn is_one_of(numbers: &[u32], number: u32) -> bool
    ensures { result ≡ is_one_of number numbers.now }
{
    numbers.iter().any(|one| number == *one)
}

fn drop_number(numbers: &mut Vec<u32>, number: u32)
    ensures { numbers.new.items ≡ without_request number numbers.old.items }
{
    numbers.retain(|one| *one != number);
}
