ghost use Rattle.std.specs.Prelude.{◌≡◌, ◌<◌, ◌≤◌, IfOk, OnOk, OnErr};
ghost use Rattle.conn_states.specs.Changes.{begun as begun_record, with_listed, with_misdirected, with_answered, unbound};
ghost use Rattle.conn_states.specs.Said.{said};
ghost use Rattle.route_events.specs.Authority.{authorises};
ghost use Rattle.route_events.specs.Connections.{is_one_of};
ghost use Rattle.route_events.specs.Records.{is_occupied};
ghost use Rattle.request_dispatch.specs.ConnectionTable.{sent_for};
ghost use Rattle.request_dispatch.specs.OpenConnections.{record_lent};
ghost use Rattle.request_dispatch.specs.Asked.{asked_by};

use crate::authority::reach;
use crate::connection_state::ConnectionState;
use crate::lent::Lent;
use crate::origin_addresses::OriginAddresses;
use alt_base::NoMemory;
use conn_states::{Conn, Made, Origins, Requests as Lost, send_where_authoritative};
use origin_values::Origin;
use route_events::Reach;
use std::alloc::Global;
use std::marker::Model;

/// A connection that is open, with or without an origin set. To every contract it is one record, the one of conn_states.
#[derive(Drop)]
pub struct OpenConnection {
    state: ConnectionState,
}

impl Model for OpenConnection {
    ghost use Rattle.conn_states.specs.Record.{Record};
    ghost use Rattle.request_dispatch.specs.OpenConnections.{record_in};

    ghost Value = { Record };

    ghost view = { λ connection. record_in connection.state };
}

impl OpenConnection {
    // One that was just opened.
    pub(crate) fn begin(alloc: Global, number: u64, made: Made) -> OpenConnection
        ensures { result ≡ begun_record number made }
    {
        OpenConnection {
            state: ConnectionState::Plain(Conn::begin(alloc, number, made)),
        }
    }

    /// Its number. It takes no memory.
    pub fn number(&self) -> u64
        ensures { result ≡ self.now.number }
    {
        match &self.state {
            ConnectionState::Plain(conn) => conn.number(),
            ConnectionState::Gated(conn) => conn.number(),
        }
    }

    /// What it was begun with. It takes no memory.
    pub fn made(&self) -> &Made
        ensures { result.now ≡ self.now.made }
    {
        match &self.state {
            ConnectionState::Plain(conn) => conn.made(),
            ConnectionState::Gated(conn) => conn.made(),
        }
    }

    /// Whether it has a basis for the origin that it was opened for. It takes no memory.
    pub fn bound(&self) -> bool
        ensures { result ≡ self.now.bound }
    {
        match &self.state {
            ConnectionState::Plain(conn) => conn.bound(),
            ConnectionState::Gated(conn) => conn.bound(),
        }
    }

    /// How many sends it has carried. It takes no memory.
    pub fn sends(&self) -> u32
        ensures count { result ≡ self.now.sends }
        ensures few { result ≤ 16777215 }
    {
        match &self.state {
            ConnectionState::Plain(conn) => conn.sends(),
            ConnectionState::Gated(conn) => conn.sends(),
        }
    }

    /// Whether a request is outstanding on it. It takes no memory.
    pub fn carries(&self, request: u32) -> bool
        ensures { result ≡ is_one_of request self.now.outstanding }
    {
        match &self.state {
            ConnectionState::Plain(conn) => conn.carries(request),
            ConnectionState::Gated(conn) => conn.carries(request),
        }
    }

    /// Whether it is busy (RFC 9112 9.3). It takes no memory.
    pub fn busy(&self) -> bool
        ensures { result ≡ is_occupied (said self.now) }
    {
        match &self.state {
            ConnectionState::Plain(conn) => conn.busy(),
            ConnectionState::Gated(conn) => conn.busy(),
        }
    }

    /// Whether it is authoritative for an origin that it reaches so (RFC 9110 4.3; RFC 9113 9.1.1). It takes no memory.
    pub fn authorises(&self, origin: &Origin, reach: Reach) -> bool
        ensures { result ≡ authorises (said self.now) origin.now reach }
    {
        match &self.state {
            ConnectionState::Plain(conn) => conn.authorises(origin, reach),
            ConnectionState::Gated(conn) => conn.authorises(origin, reach),
        }
    }

    /// It, in the state that its type says. It takes no memory.
    pub fn lend(&self) -> Lent<'_>
        ensures { record_lent result ≡ self.now }
    {
        match &self.state {
            ConnectionState::Plain(conn) => Lent::Plain(conn),
            ConnectionState::Gated(conn) => Lent::Gated(conn),
        }
    }

    // Sends a request for the origin that is asked for, where it may carry it now.
    pub(crate) fn send(
        &mut self,
        addresses: &OriginAddresses<'_>,
        request: u32,
    ) -> Result<(), NoMemory>
        requires { self.old.sends < 16777215 }
        ensures { OnOk result (self.new ≡ sent_for (asked_by addresses.now).is_address (asked_by addresses.now).origin request self.old) }
    {
        if self.busy() || self.carries(request) {
            return Ok(());
        }
        let origin = addresses.origin();
        let reach = reach(addresses, self.made());
        let _sent = match &mut self.state {
            ConnectionState::Plain(conn) => send_where_authoritative(conn, origin, reach, request)?,
            ConnectionState::Gated(conn) => send_where_authoritative(conn, origin, reach, request)?,
        };
        Ok(())
    }

    // A 421 came for an origin (RFC 9110 15.5.20).
    pub(crate) fn misdirect(&mut self, origin: &Origin) -> Result<(), NoMemory>
        ensures { OnOk result (self.new ≡ with_misdirected origin.now self.old) }
    {
        match &mut self.state {
            ConnectionState::Plain(conn) => conn.misdirect(origin),
            ConnectionState::Gated(conn) => conn.misdirect(origin),
        }
    }

    // Its basis is taken away.
    pub(crate) fn unbind(&mut self)
        ensures { self.new ≡ unbound self.old }
    {
        match &mut self.state {
            ConnectionState::Plain(conn) => conn.unbind(),
            ConnectionState::Gated(conn) => conn.unbind(),
        }
    }

    // A request isn't outstanding on it any more.
    pub(crate) fn answered(&mut self, request: u32)
        ensures { self.new ≡ with_answered request self.old }
    {
        let _was = match &mut self.state {
            ConnectionState::Plain(conn) => conn.answered(request),
            ConnectionState::Gated(conn) => conn.answered(request),
        };
    }

    /// The requests that are outstanding on it, in the order of their sends. It takes no memory.
    pub fn outstanding(&self) -> &[u32]
        ensures { result.now ≡ self.now.outstanding }
    {
        match &self.state {
            ConnectionState::Plain(conn) => conn.outstanding(),
            ConnectionState::Gated(conn) => conn.outstanding(),
        }
    }

    // An ORIGIN frame that lists these origins is accepted on it (RFC 8336 2.3).
    pub(crate) fn list(self, listed: &Origins) -> Result<OpenConnection, NoMemory>
        ensures { IfOk result (λ connection. connection ≡ with_listed listed.now self) }
    {
        let state = match self.state {
            ConnectionState::Plain(conn) => ConnectionState::Gated(conn.gate(listed)?),
            ConnectionState::Gated(mut conn) => {
                conn.add(listed)?;
                ConnectionState::Gated(conn)
            }
        };
        Ok(OpenConnection { state })
    }

    // Its end, and what is lost by it, in the order of the sends.
    pub(crate) fn close(self) -> Lost
        ensures { result ≡ self.outstanding }
    {
        match self.state {
            ConnectionState::Plain(conn) => conn.close().lost(),
            ConnectionState::Gated(conn) => conn.close().lost(),
        }
    }
}
