//! What the client does for the actions that the router answers.
use crate::arrival::Arrival;
use crate::client::Client;
use crate::fault::Fault;
use crate::texts::host_of;
use alt_base::{Duplicate, Moment};
use origin_values::{Host, Origin};
use route_events::{Action, Route, protocols_of};
use router_core::Router;
use std::alloc::Global;

impl Client {
    /// Does what an action asks for. The router stands as it is behind the step that the action is of.
    pub(crate) fn perform(
        &mut self,
        now: Moment,
        action: &Action,
        router: &Router,
    ) -> Result<(), Fault> {
        match action {
            Action::OpenTo {
                attempt,
                origin,
                route,
            } => self.open(now, *attempt, origin, route),
            Action::SendOn { request, conn, .. } => self.send(now, *request, *conn, router),
            Action::Close { conn, .. } => {
                // The router has closed it already, and isn't told so.
                let _ = self.close(*conn);
                Ok(())
            }
            Action::Refuse { request } => {
                let _ = self.end(*request);
                Ok(())
            }
            Action::Lost { request } => self.ask_again(now, *request),
            // It waits again, and the router says where it goes.
            Action::Retry { .. } => Ok(()),
            // What the router has learnt, which it says for those who want to know.
            Action::Alternatives { .. } => Ok(()),
            Action::Field { .. } => Ok(()),
            Action::Ignored { .. } => Ok(()),
            Action::Origins { .. } => Ok(()),
            Action::Malformed { .. } => Ok(()),
            Action::Who { .. } => Ok(()),
            Action::Stats { .. } => Ok(()),
        }
    }

    // Starts an attempt, to the host and the port that its route leads to. How it ends is told, whichever way.
    fn open(
        &mut self,
        now: Moment,
        attempt: u64,
        origin: &Origin,
        route: &Route,
    ) -> Result<(), Fault> {
        let (host, port) = target_of(self.alloc, origin, route)?;
        let protos = protocols_of(origin.scheme, route);
        let arrival = match self.network.find(&host, port, protos) {
            Some(server) => Arrival::Reached { attempt, server },
            None => Arrival::Missed { attempt },
        };
        self.queue.add(now, 1, arrival)?;
        Ok(())
    }

    // Sends a request on a connection: here its server makes up its mind at once, and the answer comes later.
    fn send(&mut self, now: Moment, request: u32, conn: u64, router: &Router) -> Result<(), Fault> {
        let Some(server) = self.server_of(conn) else {
            return Ok(());
        };
        let Some(origin) = router.origin_of(request) else {
            return Ok(());
        };
        let arrival = if server.ends {
            Arrival::Ended { conn }
        } else {
            Arrival::Answered {
                conn,
                request,
                status: server.status_for(origin),
                altsvc: server.altsvc(self.alloc)?,
            }
        };
        self.queue.add(now, 2, arrival)?;
        Ok(())
    }

    // Asks once more for what was lost, as a new request. That is only for what may be done twice (RFC 9110 9.2.2).
    fn ask_again(&mut self, now: Moment, request: u32) -> Result<(), Fault> {
        if let Some(asked) = self.end(request) {
            if !asked.again {
                let origin = asked.origin;
                self.queue.add(
                    now,
                    1,
                    Arrival::Asked {
                        origin,
                        again: true,
                    },
                )?;
            }
        }
        Ok(())
    }
}

// The host and the port that a route to an origin leads to: an alternative without a host stands at the origin's (RFC 7838
// 3), an endpoint at the name that its record has as its target (RFC 9460 3).
fn target_of(alloc: Global, origin: &Origin, route: &Route) -> Result<(Host, u16), Fault> {
    match route {
        Route::Direct => Ok((origin.host.copy(alloc)?, origin.port)),
        Route::Alt(key) => match &key.host {
            Some(host) => Ok((host.copy(alloc)?, key.port)),
            None => Ok((origin.host.copy(alloc)?, key.port)),
        },
        Route::Rec(endpoint) => Ok((host_of(alloc, &endpoint.target)?, endpoint.port)),
    }
}
