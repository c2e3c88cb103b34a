//! What arrives, as the facts that the router is told.
ghost use Rattle.std.specs.Prelude.{IfOk, IfSome};
ghost use Rattle.example_client.specs.Telling.{CanBeTold};

use crate::arrival::Arrival;
use crate::asked::Asked;
use crate::client::Client;
use crate::fault::Fault;
use crate::socket::Socket;
use alt_base::{Bytes, Duplicate, Moment};
use origin_values::Origin;
use route_events::Fact;

/// The status by which a server says that it isn't the origin's (RFC 9110 15.5.20).
const MISDIRECTED: u16 = 421;

impl Client {
    /// What the router is told of an arrival; None where it came of a connection that was closed since.
    pub(crate) fn fact_of(&mut self, now: Moment, arrival: Arrival) -> Result<Option<Fact>, Fault>
        ensures { IfOk result (λ told. IfSome told CanBeTold) }
    {
        match arrival {
            Arrival::Asked { origin, again } => self.ask(origin, again),
            Arrival::Resolved { name, ttl, body } => Ok(Some(Fact::Answer { name, ttl, body })),
            Arrival::Reached { attempt, server } => self.connect(now, attempt, server),
            Arrival::Missed { attempt } => Ok(Some(Fact::Failed { attempt })),
            Arrival::Readable { conn } => self.read(now, conn),
            Arrival::Answered {
                conn,
                request,
                status,
                altsvc,
            } => Ok(self.take_answer(conn, request, status, altsvc)),
            Arrival::Ended { conn } => {
                if self.close(conn) {
                    Ok(Some(Fact::Closed { conn }))
                } else {
                    Ok(None)
                }
            }
            Arrival::Moved => Ok(Some(Fact::Network)),
        }
    }

    // Numbers of requests rise in the order in which the router is told of them.
    fn ask(&mut self, origin: Origin, again: bool) -> Result<Option<Fact>, Fault>
        ensures { IfOk result (λ told. IfSome told CanBeTold) }
    {
        let Some(number) = self.newest.checked_add(1) else {
            return Err(Fault::TooMuch);
        };
        let kept = origin.copy(self.alloc)?;
        self.asked.push(Asked {
            number,
            origin: kept,
            again,
        })?;
        self.newest = number;
        Ok(Some(Fact::Request { number, origin }))
    }

    // A connection has the number of its attempt. What is told of it is what TLS and the socket say, and not what was wanted.
    fn connect(&mut self, now: Moment, attempt: u64, place: usize) -> Result<Option<Fact>, Fault>
        ensures { IfOk result (λ told. IfSome told CanBeTold) }
    {
        let Some(server) = self.network.servers.get(place) else {
            return Ok(Some(Fact::Failed { attempt }));
        };
        let opened = Fact::Opened {
            attempt,
            proto: server.proto,
            addr: server.addr,
            port: server.port,
            names: server.names.copy(self.alloc)?,
        };
        let unread = server.greeting.copy(self.alloc)?;
        self.sockets.push(Socket {
            conn: attempt,
            server: place,
            unread,
        })?;
        self.queue.add(now, 1, Arrival::Readable { conn: attempt })?;
        Ok(Some(opened))
    }

    // The next octets that came on a connection; the rest is read at the same moment, as further inputs.
    fn read(&mut self, now: Moment, conn: u64) -> Result<Option<Fact>, Fault>
        ensures { IfOk result (λ told. IfSome told CanBeTold) }
    {
        let alloc = self.alloc;
        let Some(place) = self.place_of(conn) else {
            return Ok(None);
        };
        let Some(socket) = self.sockets.get_mut(place) else {
            return Ok(None);
        };
        let bytes = socket.read(alloc)?;
        if bytes.len() == 0 {
            return Ok(None);
        }
        self.queue.add(now, 0, Arrival::Readable { conn })?;
        Ok(Some(Fact::Input { conn, bytes }))
    }

    // A request whose answer is 421 isn't over: the router sends it again, or refuses it.
    fn take_answer(
        &mut self,
        conn: u64,
        request: u32,
        status: u16,
        altsvc: Option<Bytes>,
    ) -> Option<Fact>
        ensures { IfSome result CanBeTold }
    {
        self.place_of(conn)?;
        if status != MISDIRECTED {
            let _ = self.end(request);
        }
        Some(Fact::Response {
            request,
            status,
            age: 0,
            altsvc,
        })
    }
}
