use conn_states::{Conn, Gated, Plain};

/// An open connection in the state that its type says: without an origin set, or with one (RFC 8336 2.3).
#[derive(Drop)]
pub(crate) enum ConnectionState {
    Plain(Conn<Plain>),
    Gated(Conn<Gated>),
}
