ghost use Rattle.std.specs.Prelude.{◌≡◌, ◌<◌, ◌++◌, ◌∷◌, [], length, map, nat_eq, OnOk, IfOk};
ghost use Rattle.std.specs.List.{list_any, position_from};
ghost use Rattle.std.specs.Option.{option_copied, option_and_then};
ghost use Rattle.request_dispatch.specs.ConnectionTable.{connection_among, other_connections, out_on, begun, is_carrier, is_carrier_of, carrier_numbers, sent_on, listed_on, misdirected_by, carrying, rebound, is_opened_by, most_sends};
ghost use Rattle.conn_states.specs.Changes.{with_answered};
ghost use Rattle.request_dispatch.specs.Carriers.{candidates, best_connection, is_answered_by_authority};
ghost use Rattle.request_dispatch.specs.Asked.{asked_by};

use crate::carriers::{
    candidates, carrier_numbers, is_answered_by_authority, is_any_carrier, is_carrier,
};
use crate::connection_changes::{forget_request, list_on, misdirect_all, rebind_all, send_on};
use crate::open_connection::OpenConnection;
use crate::origin_addresses::OriginAddresses;
use alt_base::{ListOf, NoMemory};
use altsvc_grammar::Alt;
use conn_states::{Made, Origins, Requests as Lost};
use origin_values::{Origin, same_origin};
use route_choice::{Candidates, best};
use route_events::{Connection, Conns, Route, same_route};
use std::alloc::Global;
use std::marker::Model;
use std::mem;

/// The open connections, in the order of their opening.
#[derive(Drop)]
pub struct Connections {
    open: Vec<OpenConnection>,
}

impl Model for Connections {
    ghost use Rattle.std.specs.Prelude.{List};
    ghost use Rattle.conn_states.specs.Record.{Record};

    ghost Value = { List Record };

    ghost view = { λ connections. connections.open.items };
}

impl Connections {
    /// No connections. It takes no memory.
    pub fn new(alloc: Global) -> Connections
        ensures { result ≡ [] }
    {
        Connections {
            open: Vec::new(alloc),
        }
    }

    /// A connection opens: nothing is outstanding on it, and nothing was sent. NoMemory comes only where memory isn't
    /// found.
    pub fn open(&mut self, alloc: Global, made: Connection, bound: bool) -> Result<(), NoMemory>
        ensures { OnOk result (self.new ≡ self.old ++ begun made bound ∷ []) }
    {
        let Connection {
            number,
            origin,
            route,
            proto,
            addr,
            port,
            names,
        } = made;
        let made = Made {
            origin,
            route,
            proto,
            addr,
            port,
            names,
            bound,
        };
        self.open.push(OpenConnection::begin(alloc, number, made))?;
        Ok(())
    }

    /// The open connection of a number; None exactly where none has it. It takes no memory.
    pub fn of_number(&self, number: u64) -> Option<&OpenConnection>
        ensures { option_copied result ≡ connection_among self.now number }
    {
        connection_among(self.open.as_slice(), number)
    }

    /// How many there are. It takes no memory.
    pub fn len(&self) -> usize
        ensures { result ≡ length self.now }
    {
        self.open.len()
    }

    /// The connection of a number isn't open any more. Answers the requests that are lost by its end, in the order of their
    /// sends. It takes no memory.
    pub fn close(&mut self, alloc: Global, number: u64) -> Lost
        ensures lost { result ≡ out_on (connection_among self.old number) }
        ensures left { self.new ≡ other_connections self.old number }
    {
        let lost = close_one(alloc, &mut self.open, number);
        drop_connection(&mut self.open, number);
        lost
    }

    /// A request of the origin that is asked for is sent on the connection of a number, where that may carry it: where it is
    /// authoritative for the origin and not busy, and the request isn't outstanding on it. NoMemory comes only where memory
    /// isn't found.
    pub fn send(
        &mut self,
        conn: u64,
        addresses: &OriginAddresses<'_>,
        request: u32,
    ) -> Result<(), NoMemory>
        requires { most_sends self.old < 16777215 }
        ensures { OnOk result (self.new ≡ map (sent_on (asked_by addresses.now).is_address (asked_by addresses.now).origin conn request) self.old) }
    {
        send_on(&mut self.open, conn, addresses, request)
    }

    /// A request isn't outstanding any more, on any connection. It takes no memory.
    pub fn note_answer(&mut self, request: u32)
        ensures { self.new ≡ map (with_answered request) self.old }
    {
        forget_request(&mut self.open, request);
    }

    /// A 421 came for a request of an origin (RFC 9110 15.5.20): the connection on which it is outstanding is misdirected for
    /// the origin. NoMemory comes only where memory isn't found.
    pub fn misdirect(&mut self, request: u32, origin: &Origin) -> Result<(), NoMemory>
        ensures { OnOk result (self.new ≡ map (misdirected_by request origin.now) self.old) }
    {
        misdirect_all(&mut self.open, request, origin)
    }

    /// An ORIGIN frame that lists these origins is accepted on the connection of a number (RFC 8336 2.3). NoMemory comes only
    /// where memory isn't found, and then the connections are gone.
    pub fn list(&mut self, alloc: Global, conn: u64, listed: &Origins) -> Result<(), NoMemory>
        ensures { OnOk result (self.new ≡ map (listed_on conn listed.now) self.old) }
    {
        let open = mem::replace(&mut self.open, Vec::new(alloc));
        self.open = list_on(alloc, open, conn, listed)?;
        Ok(())
    }

    /// Whether the connection of a number is open and authoritative for the origin that is asked for, busy or not. It takes
    /// no memory.
    pub fn is_carrier(&self, conn: u64, addresses: &OriginAddresses<'_>) -> bool
        ensures { result ≡ is_carrier_of (asked_by addresses.now).is_address (asked_by addresses.now).origin conn self.now }
    {
        is_carrier_of(self.open.as_slice(), conn, addresses)
    }

    /// The numbers of the connections that are authoritative for the origin that is asked for, busy or not, in the order of
    /// their opening. NoMemory comes only where memory isn't found.
    pub fn carriers(
        &self,
        alloc: Global,
        addresses: &OriginAddresses<'_>,
    ) -> Result<Conns, NoMemory>
        ensures { IfOk result (λ numbers. numbers ≡ carrier_numbers (asked_by addresses.now).is_address (asked_by addresses.now).origin self.now) }
    {
        carrier_numbers(alloc, self.open.as_slice(), addresses)
    }

    /// The connection on which a request is outstanding; None exactly where there is none. It takes no memory.
    pub fn carrying(&self, request: u32) -> Option<&OpenConnection>
        ensures { option_copied result ≡ carrying self.now request }
    {
        carrying(self.open.as_slice(), request)
    }

    /// A value of Alt-Svc was taken for an origin: its connections that were opened by alternatives that the value doesn't
    /// list rest on nothing any more (RFC 7838 2.4). It takes no memory.
    pub fn rebind(&mut self, origin: &Origin, alts: &[Alt])
        ensures { self.new ≡ map (rebound origin.now alts.now) self.old }
    {
        rebind_all(&mut self.open, origin, alts);
    }

    /// Whether a connection is authoritative for the origin that is asked for, busy or not. It takes no memory.
    pub fn has_carrier(&self, addresses: &OriginAddresses<'_>) -> bool
        ensures { result ≡ list_any (is_carrier (asked_by addresses.now).is_address (asked_by addresses.now).origin) self.now }
    {
        is_any_carrier(self.open.as_slice(), addresses)
    }

    /// Whether a connection was opened for the origin by the route. It takes no memory.
    pub fn is_open_by(&self, origin: &Origin, route: &Route) -> bool
        ensures { result ≡ list_any (is_opened_by origin.now route.now) self.now }
    {
        is_any_opened_by(self.open.as_slice(), origin, route)
    }

    /// Whether a connection on which the request of this number is outstanding is authoritative for the origin that is asked
    /// for. It takes no memory.
    pub fn is_answered_by_authority(&self, request: u32, addresses: &OriginAddresses<'_>) -> bool
        ensures { result ≡ is_answered_by_authority (asked_by addresses.now).is_address request (asked_by addresses.now).origin self.now }
    {
        is_answered_by_authority(self.open.as_slice(), request, addresses)
    }

    /// The connections that are authoritative for the origin that is asked for and not busy, each with its basis, in the order
    /// of their opening. NoMemory comes only where memory isn't found.
    pub fn candidates(
        &self,
        alloc: Global,
        addresses: &OriginAddresses<'_>,
    ) -> Result<Candidates, NoMemory>
        ensures { IfOk result (λ free. free ≡ candidates (asked_by addresses.now).is_address (asked_by addresses.now).origin self.now) }
    {
        candidates(alloc, self.open.as_slice(), addresses)
    }

    /// The best of them: one that was opened by an alternative and rests on it, else one with another basis, else any;
    /// among equals the one that was opened earliest; None exactly where there is none. NoMemory comes only where memory
    /// isn't found.
    pub fn best(
        &self,
        alloc: Global,
        addresses: &OriginAddresses<'_>,
    ) -> Result<Option<&OpenConnection>, NoMemory>
        ensures { IfOk result (λ found. option_copied found ≡ best_connection (asked_by addresses.now).is_address (asked_by addresses.now).origin self.now) }
    {
        let free = self.candidates(alloc, addresses)?;
        Ok(maybe_of_number(self.open.as_slice(), best(&free)))
    }
}

fn connection_among(connections: &[OpenConnection], number: u64) -> Option<&OpenConnection>
    ensures { option_copied result ≡ connection_among connections.now number }
{
    connections
        .iter()
        .find(|connection| connection.number() == number)
}

fn carrying(connections: &[OpenConnection], request: u32) -> Option<&OpenConnection>
    ensures { option_copied result ≡ carrying connections.now request }
{
    connections
        .iter()
        .find(|connection| connection.carries(request))
}

// The one of a number, if there is a number.
fn maybe_of_number(connections: &[OpenConnection], number: Option<u64>) -> Option<&OpenConnection>
    ensures { option_copied result ≡ option_and_then (connection_among connections.now) number }
{
    match number {
        None => None,
        Some(number) => connection_among(connections, number),
    }
}

// Whether the one of a number is authoritative for the origin that is asked for.
fn is_carrier_of(connections: &[OpenConnection], conn: u64, addresses: &OriginAddresses<'_>) -> bool
    ensures { result ≡ is_carrier_of (asked_by addresses.now).is_address (asked_by addresses.now).origin conn connections.now }
{
    match connection_among(connections, conn) {
        None => false,
        Some(connection) => is_carrier(connection, addresses),
    }
}

// The place of the one of a number.
fn place_of(connections: &[OpenConnection], number: u64) -> Option<usize>
    ensures { result ≡ position_from (λ c. nat_eq c.number number) 0 connections.now }
{
    connections
        .iter()
        .position(|connection| connection.number() == number)
}

// Ends the one of a number, the first if there were two.
fn close_one(alloc: Global, connections: &mut Vec<OpenConnection>, number: u64) -> Lost
    ensures lost { result ≡ out_on (connection_among connections.old.items number) }
    ensures left { other_connections connections.new.items number ≡ other_connections connections.old.items number }
{
    match place_of(connections.as_slice(), number) {
        None => ListOf::new(alloc),
        Some(place) => connections.remove(place).close(),
    }
}

fn drop_connection(connections: &mut Vec<OpenConnection>, number: u64)
    ensures { connections.new.items ≡ other_connections connections.old.items number }
{
    connections.retain(|connection| number != connection.number());
}

fn is_any_opened_by(connections: &[OpenConnection], origin: &Origin, route: &Route) -> bool
    ensures { result ≡ list_any (is_opened_by origin.now route.now) connections.now }
{
    connections.iter().any(|c| same_origin(&c.made().origin, origin)
        && same_route(&c.made().route, route))
}
