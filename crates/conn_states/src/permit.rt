ghost use Rattle.std.specs.Prelude.{◌≡◌, ◌<◌};
ghost use Rattle.conn_states.specs.Changes.{spent};

use crate::Sent;
use origin_values::Proto;
use std::marker::Model;

/// Leave for one send on a connection, which it borrows: while it lives, no call can change the connection.
#[must_use]
#[derive(Debug, Drop)]
pub struct Permit<'a> {
    conn: &'a u64,
    proto: Proto,
    before: u32,
}

impl<'a> Model for Permit<'a> {
    ghost use Rattle.std.specs.Prelude.{◌<◌};
    ghost use Rattle.conn_states.specs.Record.{PermitRecord};

    ghost Value = { PermitRecord };

    ghost view = { λ p. record { conn = p.conn.now; proto = p.proto; before = p.before } };

    ghost invariant = { λ p. p.before < 16777215 };
}

impl<'a> Permit<'a> {
    // Leave for a send on the connection of a number, which carried fewer sends than it may.
    pub(crate) fn new(conn: &'a u64, proto: Proto, before: u32) -> Permit<'a>
        requires { before < 16777215 }
        ensures { result ≡ record { conn = conn.now; proto = proto; before = before } }
    {
        Permit {
            conn,
            proto,
            before,
        }
    }

    /// The send of a request, on the connection that gave the permit. Nothing else makes a `Sent`. It takes no memory.
    pub fn spend(self, request: u32) -> Sent
        ensures { result ≡ spent request self.entry }
    {
        Sent::new(*self.conn, request, self.proto, self.before)
    }
}
