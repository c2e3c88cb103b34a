use origin_values::Addr;

/// Where a connection ends: an address and a port.
#[derive(Clone, Copy, Debug, PartialEq, Eq, Hash)]
pub(crate) struct Peer {
    pub addr: Addr,
    pub port: u16,
}
