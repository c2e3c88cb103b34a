//! The octets of connections: the frames that they end, and the cut.
ghost use Rattle.std.specs.Prelude.{◌≡◌, ◌≤◌, [], None, length, IfOk};
ghost use Rattle.std.specs.List.{All};
ghost use Rattle.frame_readers.specs.Readers.{Fits};
ghost use Rattle.router_core.specs.Fitting.{IsFit};
ghost use Rattle.router_core.specs.StepBecomes.{IsBrought, IsRead};

use alt_base::{Bytes, ListOf, NoMemory};
use frame_readers::{Brought, Readers};
use h2_framing::Frames;
use route_events::Fact;
use std::alloc::Global;

/// What a fact brings: on a connection these frames, and behind them the length of a head that is too large.
#[derive(Drop)]
pub struct Octets {
    pub conn: u64,
    pub frames: Frames,
    pub too_large: Option<u32>,
}

fn nothing(alloc: Global) -> Octets
    ensures frames { result.frames ≡ [] }
    ensures too_large { result.too_large ≡ None }
{
    Octets {
        conn: 0,
        frames: ListOf::new(alloc),
        too_large: None,
    }
}

// The frames that octets end on a connection, and the cut.
fn fed(readers: &mut Readers, conn: u64, bytes: &Bytes) -> Result<Octets, NoMemory>
    requires { length bytes.now ≤ 65536 }
    ensures conn { IfOk result (λ octets. octets.conn ≡ conn) }
    ensures brought { IfOk result (λ octets. IsRead readers.old readers.new conn bytes.now octets.frames octets.too_large) }
    ensures few { IfOk result (λ octets. length octets.frames ≤ 9103) }
    ensures fit { IfOk result (λ octets. All Fits octets.frames) }
{
    let Brought { frames, too_large } = readers.feed(conn, bytes.as_slice())?;
    Ok(Octets {
        conn,
        frames,
        too_large,
    })
}

/// The frames that a fact ends, and the cut. A connection that ends is read no further.
pub(crate) fn read_octets(
    alloc: Global,
    readers: &mut Readers,
    fact: &Fact,
) -> Result<Octets, NoMemory>
    requires { IsFit fact.now }
    ensures brought { IfOk result (λ octets. IsBrought readers.old readers.new fact.now octets.conn octets.frames octets.too_large) }
    ensures few { IfOk result (λ octets. length octets.frames ≤ 9103) }
    ensures fit { IfOk result (λ octets. All Fits octets.frames) }
{
    match fact {
        Fact::Input { conn, bytes } => fed(readers, *conn, bytes),
        Fact::Closed { conn } => {
            readers.forget(*conn);
            Ok(nothing(alloc))
        }
        Fact::Request { .. }
        | Fact::Opened { .. }
        | Fact::Failed { .. }
        | Fact::Response { .. }
        | Fact::Delivered { .. }
        | Fact::Answer { .. }
        | Fact::Network
        | Fact::Tick
        | Fact::Who { .. }
        | Fact::Stats => Ok(nothing(alloc)),
    }
}
