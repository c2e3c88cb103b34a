ghost use Rattle.std.specs.Prelude.{◌≡◌, ◌<◌};
ghost use Rattle.conn_states.specs.Changes.{stream_of};

use origin_values::Proto;
use std::marker::Model;

/// A send that was permitted, for its connection to carry. Only a permit makes one.
#[must_use]
#[derive(Debug, Drop)]
pub struct Sent {
    conn: u64,
    request: u32,
    proto: Proto,
    before: u32,
}

impl Model for Sent {
    ghost use Rattle.std.specs.Prelude.{◌<◌};
    ghost use Rattle.conn_states.specs.Record.{SendRecord};

    ghost Value = { SendRecord };

    ghost view = { λ s. record { conn = s.conn; request = s.request; proto = s.proto; before = s.before } };

    ghost invariant = { λ s. s.before < 16777215 };
}

impl Sent {
    // A send of a request, with fewer sends before it than a connection may carry.
    pub(crate) fn new(conn: u64, request: u32, proto: Proto, before: u32) -> Sent
        requires { before < 16777215 }
        ensures { result ≡ record { conn = conn; request = request; proto = proto; before = before } }
    {
        Sent {
            conn,
            request,
            proto,
            before,
        }
    }

    /// The connection's number. It takes no memory.
    pub fn conn(&self) -> u64
        ensures { result ≡ self.now.conn }
    {
        self.conn
    }

    /// The request. It takes no memory.
    pub fn request(&self) -> u32
        ensures { result ≡ self.now.request }
    {
        self.request
    }

    /// The stream that the send uses: the client's streams are numbered 1, 3, 5 and so on (RFC 9113 5.1.1). None exactly
    /// where the connection's protocol isn't `h2`. It takes no memory.
    pub fn stream(&self) -> Option<u32>
        ensures { result ≡ stream_of self.now.proto self.now.before }
    {
        match self.proto {
            Proto::H2 => Some(2 * self.before + 1),
            _ => None,
        }
    }

    // The number of sends that the connection carried before it.
    pub(crate) fn before(&self) -> u32
        ensures before { result ≡ self.now.before }
        ensures few { result < 16777215 }
    {
        self.before
    }
}
