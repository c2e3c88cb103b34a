use crate::server::Server;
use origin_values::{Host, Protos};

/// The servers that can be reached. It stands for what finds addresses, opens sockets and speaks TLS.
#[derive(Drop)]
pub(crate) struct Network {
    pub servers: Vec<Server>,
}

impl Network {
    /// The place of the server that an attempt reaches at a host and a port with one of the protocols, if it reaches one.
    pub(crate) fn find(&self, host: &Host, port: u16, protos: Protos) -> Option<usize> {
        self.servers
            .iter()
            .position(|server| server.is_reached(host, port, protos))
    }
}
