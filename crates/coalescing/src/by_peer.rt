ghost use Rattle.std.specs.Prelude.{◌≡◌, true, [], filter, if◌then◌else◌};
ghost use Rattle.coalescing.specs.declared.peer.Peer.{Peer};
ghost use Rattle.coalescing.specs.Lists.{list_at};
ghost use Rattle.coalescing.specs.Peers.{peer_eq, is_among};
ghost use Rattle.coalescing.specs.ByAddress.{is_other};

use crate::peer::Peer;
use alt_base::ListOf;
use indexmap::IndexMap;
use std::alloc::Global;
use std::mem;

/// The numbers of connections by where these end; no list is empty.
pub(crate) type ByPeer = IndexMap<Peer, ListOf<u64>>;

/// The numbers of the connections that end at a peer, in the order of their insertion.
pub(crate) fn numbers_at<'a>(by_peer: &'a ByPeer, peer: &Peer) -> &'a [u64]
    ensures { result.now ≡ list_at peer_eq by_peer.now peer.now }
{
    match by_peer.get(peer) {
        Some(numbers) => numbers.as_slice(),
        None => &[],
    }
}

// Drops a number wherever it stands.
fn drop_number(numbers: &mut Vec<u64>, conn: u64)
    ensures { numbers.new.items ≡ filter (is_other conn) numbers.old.items }
{
    numbers.retain(|number| *number != conn);
}

fn without(alloc: Global, list: &mut ListOf<u64>, conn: u64)
    ensures { list.new ≡ filter (is_other conn) list.old }
{
    let mut numbers = mem::replace(list, ListOf::new(alloc)).into_vec();
    drop_number(&mut numbers, conn);
    *list = ListOf::from_vec(numbers);
}

fn is_emptied(by_peer: &ByPeer, peer: &Peer) -> bool
    ensures { result ≡ true → list_at peer_eq by_peer.now peer.now ≡ [] }
{
    match by_peer.get(peer) {
        Some(numbers) => numbers.len() == 0,
        None => false,
    }
}

// Drops the list of a peer, where nothing is left in it.
fn drop_emptied(by_peer: &mut ByPeer, peer: &Peer)
    ensures { (p : Peer) → list_at peer_eq by_peer.new p ≡ list_at peer_eq by_peer.old p }
{
    if is_emptied(by_peer, peer) {
        by_peer.swap_remove(peer);
    }
}

// Drops a number from those of a peer.
fn drop_at(alloc: Global, by_peer: &mut ByPeer, peer: &Peer, conn: u64)
    ensures { (p : Peer) → list_at peer_eq by_peer.new p ≡ (if peer_eq peer.now p then filter (is_other conn) (list_at peer_eq by_peer.old p) else list_at peer_eq by_peer.old p) }
{
    let Some(numbers) = by_peer.get_mut(peer) else {
        return;
    };
    without(alloc, numbers, conn);
    drop_emptied(by_peer, peer);
}

/// Drops a number from those of some peers. It takes no memory.
pub(crate) fn drop_from(alloc: Global, by_peer: &mut ByPeer, peers: &[Peer], conn: u64)
    ensures { (p : Peer) → list_at peer_eq by_peer.new p ≡ (if is_among peers.now p then filter (is_other conn) (list_at peer_eq by_peer.old p) else list_at peer_eq by_peer.old p) }
{
    for peer in peers {
        drop_at(alloc, by_peer, peer, conn);
    }
}
