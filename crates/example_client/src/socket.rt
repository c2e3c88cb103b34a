ghost use Rattle.std.specs.Prelude.{◌≡◌, ◌≤◌, ◌++◌, length, IfOk, OnErr};

use alt_base::{Bytes, ListOf, NoMemory};
use std::alloc::Global;

/// How many octets are read at most at once. The router takes up to 65,536, in whatever pieces they come.
const PIECE: usize = 40;

/// The client's end of an open connection: its number, the place of the server in the network, and the octets that came and
/// aren't read yet.
#[derive(Drop)]
pub(crate) struct Socket {
    pub conn: u64,
    pub server: usize,
    pub unread: Bytes,
}

impl Socket {
    /// Reads the next octets: none are lost, and none come twice. Where memory isn't found, none are read.
    pub(crate) fn read(&mut self, alloc: Global) -> Result<Bytes, NoMemory>
        ensures short { IfOk result (λ piece. length piece ≤ 65536) }
        ensures in_order { IfOk result (λ piece. piece ++ self.new.unread ≡ self.old.unread) }
        ensures kept { OnErr result (self.new.unread ≡ self.old.unread) }
    {
        let count = self.unread.len().min(PIECE);
        let (piece, rest) = self.unread.as_slice().split_at(count);
        let piece = Vec::from_slice(alloc, piece)?;
        let rest = Vec::from_slice(alloc, rest)?;
        self.unread = ListOf::from_vec(rest);
        Ok(ListOf::from_vec(piece))
    }
}
