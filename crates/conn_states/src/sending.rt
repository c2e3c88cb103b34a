//! A permit, its send and the carrying, in their order.
ghost use Rattle.std.specs.Prelude.{◌≡◌, ◌<◌, false, IfOk, OnErr, if◌then◌else◌};
ghost use Rattle.route_events.specs.Connections.{is_one_of};
ghost use Rattle.route_events.specs.Authority.{authorises};
ghost use Rattle.route_events.specs.Records.{is_occupied};
ghost use Rattle.conn_states.specs.Changes.{with_sent};
ghost use Rattle.conn_states.specs.Said.{said};

use crate::{Conn, View};
use alt_base::NoMemory;
use origin_values::Origin;
use route_events::Reach;

/// Sends a request on a connection exactly where that may carry requests of the origin, and says whether it did. Where
/// memory isn't found, the connection is as it was.
pub fn send_where_authoritative<S: View>(
    conn: &mut Conn<S>,
    origin: &Origin,
    reach: Reach,
    request: u32,
) -> Result<bool, NoMemory>
    requires free { is_occupied (said conn.old) ≡ false }
    requires few { conn.old.sends < 16777215 }
    requires apart { is_one_of request conn.old.outstanding ≡ false }
    ensures only { IfOk result (λ done. done ≡ authorises (said conn.old) origin.now reach) }
    ensures change { IfOk result (λ done. conn.new ≡ (if done then with_sent request conn.old else conn.old)) }
    ensures err { OnErr result (conn.new ≡ conn.old) }
{
    match conn.permit(origin, reach) {
        Some(permit) => {
            let sent = permit.spend(request);
            conn.carry(sent)?;
            Ok(true)
        }
        None => Ok(false),
    }
}
