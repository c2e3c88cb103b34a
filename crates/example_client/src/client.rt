use crate::asked::Asked;
use crate::network::Network;
use crate::queue::Queue;
use crate::server::Server;
use crate::socket::Socket;
use std::alloc::Global;

/// What a client has around the router: the network, what is still to come, the sockets of the open connections, and the
/// requests that aren't over.
#[derive(Drop)]
pub(crate) struct Client {
    pub alloc: Global,
    pub network: Network,
    pub queue: Queue,
    pub sockets: Vec<Socket>,
    pub asked: Vec<Asked>,
    /// The number of the newest request, 0 where there is none.
    pub newest: u32,
}

impl Client {
    /// A client that has asked for nothing.
    pub(crate) fn new(alloc: Global, network: Network, queue: Queue) -> Client {
        Client {
            alloc,
            network,
            queue,
            sockets: Vec::new(alloc),
            asked: Vec::new(alloc),
            newest: 0,
        }
    }

    /// The place of the socket of a connection; None where it is closed.
    pub(crate) fn place_of(&self, conn: u64) -> Option<usize> {
        self.sockets.iter().position(|socket| socket.conn == conn)
    }

    /// The server at the other end of a connection.
    pub(crate) fn server_of(&self, conn: u64) -> Option<&Server> {
        let socket = self.sockets.get(self.place_of(conn)?)?;
        self.network.servers.get(socket.server)
    }

    /// Closes the socket of a connection, and says whether it was open. What still comes of it is dropped.
    pub(crate) fn close(&mut self, conn: u64) -> bool {
        let count = self.sockets.len();
        self.sockets.retain(|socket| socket.conn != conn);
        self.sockets.len() < count
    }

    /// Ends a request, and gives back what was asked.
    pub(crate) fn end(&mut self, number: u32) -> Option<Asked> {
        for place in 0..self.asked.len() {
            if self.asked[place].number == number {
                return Some(self.asked.swap_remove(place));
            }
        }
        None
    }
}
