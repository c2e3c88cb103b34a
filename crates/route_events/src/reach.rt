/// Whether a connection's remote address is one of an origin's (RFC 9113 9.1.1).
#[derive(Clone, Copy, Debug, PartialEq, Eq)]
pub struct Reach {
    pub address: bool,
}
