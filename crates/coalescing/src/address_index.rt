ghost use Rattle.std.specs.Prelude.{◌≡◌, ℕ, true, nat_eq};
ghost use Rattle.std.specs.List.{list_any};
ghost use Rattle.coalescing.specs.declared.peer.Peer.{Peer};
ghost use Rattle.coalescing.specs.Lists.{list_at};
ghost use Rattle.coalescing.specs.Peers.{peer_eq, is_among};

use crate::by_peer::{ByPeer, drop_from, numbers_at};
use crate::lists::append;
use crate::peer::Peer;
use alt_base::{ListOf, NoMemory};
use indexmap::IndexMap;
use origin_values::Addr;
use std::alloc::Global;

/// The numbers of connections by the addresses and the ports at which these end, so that those at one of an origin's
/// addresses are found (RFC 9113 9.1.1). To a contract it is a map from an address and a port to numbers, in the order of
/// their insertion.
#[derive(Debug, Drop)]
pub struct AddressIndex {
    alloc: Global,
    numbers: ByPeer,
    peers: IndexMap<u64, ListOf<Peer>>,
    ghost noted: { (conn : ℕ) (peer : Peer) → list_any (nat_eq conn) (list_at peer_eq numbers peer) ≡ true → is_among (list_at nat_eq peers conn) peer ≡ true },
}

impl AddressIndex {
    ghost use Rattle.std.specs.Prelude.{◌&&◌, ◌++◌, ◌∷◌, [], filter, OnOk, OnErr, if◌then◌else◌};
    ghost use Rattle.origin_values.specs.Equality.{addr_eq};
    ghost use Rattle.origin_values.specs.declared.address.Addr.{Addr};
    ghost use Rattle.coalescing.specs.ByAddress.{connections_at, is_other};

    /// An index without connections. It takes no memory.
    pub fn new(alloc: Global) -> AddressIndex
        ensures { (a : Addr) (p : ℕ) → connections_at result a p ≡ [] }
    {
        AddressIndex {
            alloc,
            numbers: IndexMap::new(alloc),
            peers: IndexMap::new(alloc),
        }
    }

    /// The connection of a number ends at an address and a port: it stands there behind those before it, once more where it
    /// stands there already. After NoMemory, which comes only where memory isn't found, the index is as it was.
    pub fn insert(&mut self, addr: Addr, port: u16, conn: u64) -> Result<(), NoMemory>
        ensures placed { OnOk result ((a : Addr) (p : ℕ) → connections_at self.new a p ≡ (if addr_eq addr a && nat_eq port p then connections_at self.old a p ++ conn ∷ [] else connections_at self.old a p)) }
        ensures as_before { OnErr result ((a : Addr) (p : ℕ) → connections_at self.new a p ≡ connections_at self.old a p) }
    {
        let peer = Peer { addr, port };
        append(self.alloc, &mut self.peers, conn, peer)?;
        append(self.alloc, &mut self.numbers, peer, conn)?;
        Ok(())
    }

    /// The connection of a number has closed: it stands nowhere any more. It takes no memory, and looks at no place but where
    /// the number was inserted.
    pub fn remove(&mut self, conn: u64)
        ensures { (a : Addr) (p : ℕ) → connections_at self.new a p ≡ filter (is_other conn) (connections_at self.old a p) }
    {
        let Some(peers) = self.peers.swap_remove(&conn) else {
            return;
        };
        drop_from(self.alloc, &mut self.numbers, peers.as_slice(), conn);
    }

    /// The numbers that were inserted at an address and a port and not removed, in the order of their insertion. It takes no
    /// memory.
    pub fn at(&self, addr: &Addr, port: u16) -> &[u64]
        ensures { result.now ≡ connections_at self.now addr.now port }
    {
        numbers_at(&self.numbers, &Peer { addr: *addr, port })
    }
}
