use conn_states::{Conn, Gated, Plain};

/// An open connection that is lent, in the state that its type says: without an origin set, or with one (RFC 8336 2.3).
#[derive(Drop)]
pub enum Lent<'a> {
    Plain(&'a Conn<Plain>),
    Gated(&'a Conn<Gated>),
}
