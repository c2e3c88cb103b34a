//! What happens to each of some open connections.
ghost use Rattle.std.specs.Prelude.{◌≡◌, ◌<◌, map, IfOk, OnOk};
ghost use Rattle.request_dispatch.specs.ConnectionTable.{sent_on, listed_on, misdirected_by, is_left_out, rebound, most_sends};
ghost use Rattle.conn_states.specs.Changes.{with_answered};
ghost use Rattle.request_dispatch.specs.Asked.{asked_by};

use crate::authority::gives;
use crate::open_connection::OpenConnection;
use crate::origin_addresses::OriginAddresses;
use alt_base::NoMemory;
use altsvc_grammar::Alt;
use conn_states::Origins;
use origin_values::{Origin, same_origin};
use std::alloc::Global;

// Sends a request for the origin that is asked for, where the connection is the one of this number and may carry it.
fn send_one(
    connection: &mut OpenConnection,
    conn: u64,
    addresses: &OriginAddresses<'_>,
    request: u32,
) -> Result<(), NoMemory>
    requires { connection.old.sends < 16777215 }
    ensures { OnOk result (connection.new ≡ sent_on (asked_by addresses.now).is_address (asked_by addresses.now).origin conn request connection.old) }
{
    if connection.number() == conn {
        connection.send(addresses, request)?;
    }
    Ok(())
}

/// Sends a request for the origin that is asked for on the connection of a number, where that may carry it.
pub(crate) fn send_on(
    connections: &mut [OpenConnection],
    conn: u64,
    addresses: &OriginAddresses<'_>,
    request: u32,
) -> Result<(), NoMemory>
    requires { most_sends connections.old < 16777215 }
    ensures { OnOk result (connections.new ≡ map (sent_on (asked_by addresses.now).is_address (asked_by addresses.now).origin conn request) connections.old) }
{
    for connection in connections.iter_mut() {
        send_one(connection, conn, addresses, request)?;
    }
    Ok(())
}

// An ORIGIN frame is accepted on the connection, where it is the one of this number.
fn list_one(
    connection: OpenConnection,
    conn: u64,
    listed: &Origins,
) -> Result<OpenConnection, NoMemory>
    ensures { IfOk result (λ changed. changed ≡ listed_on conn listed.now connection) }
{
    if connection.number() == conn {
        return connection.list(listed);
    }
    Ok(connection)
}

/// An ORIGIN frame that lists these origins is accepted on the connection of a number.
pub(crate) fn list_on(
    alloc: Global,
    connections: Vec<OpenConnection>,
    conn: u64,
    listed: &Origins,
) -> Result<Vec<OpenConnection>, NoMemory>
    ensures { IfOk result (λ changed. changed.items ≡ map (listed_on conn listed.now) connections.items) }
{
    let mut changed = Vec::new(alloc);
    for connection in connections {
        changed.push(list_one(connection, conn, listed)?)?;
    }
    Ok(changed)
}

/// A request isn't outstanding any more, on any connection.
pub(crate) fn forget_request(connections: &mut [OpenConnection], request: u32)
    ensures { connections.new ≡ map (with_answered request) connections.old }
{
    for connection in connections.iter_mut() {
        connection.answered(request);
    }
}

fn misdirect_one(
    connection: &mut OpenConnection,
    request: u32,
    origin: &Origin,
) -> Result<(), NoMemory>
    ensures { OnOk result (connection.new ≡ misdirected_by request origin.now connection.old) }
{
    if connection.carries(request) {
        connection.misdirect(origin)?;
    }
    Ok(())
}

/// A 421 came for a request of an origin: the connection that it is outstanding on is misdirected for the origin.
pub(crate) fn misdirect_all(
    connections: &mut [OpenConnection],
    request: u32,
    origin: &Origin,
) -> Result<(), NoMemory>
    ensures { OnOk result (connections.new ≡ map (misdirected_by request origin.now) connections.old) }
{
    for connection in connections.iter_mut() {
        misdirect_one(connection, request, origin)?;
    }
    Ok(())
}

fn is_left_out(connection: &OpenConnection, origin: &Origin, alts: &[Alt]) -> bool
    ensures { result ≡ is_left_out origin.now alts.now connection.now }
{
    let made = connection.made();
    same_origin(origin, &made.origin) && !gives(alts, &made.route)
}

fn rebind_one(connection: &mut OpenConnection, origin: &Origin, alts: &[Alt])
    ensures { connection.new ≡ rebound origin.now alts.now connection.old }
{
    if is_left_out(connection, origin, alts) {
        connection.unbind();
    }
}

/// A value was taken for an origin: its connections that were opened by alternatives that aren't listed rest on nothing
/// any more.
pub(crate) fn rebind_all(connections: &mut [OpenConnection], origin: &Origin, alts: &[Alt])
    ensures { connections.new ≡ map (rebound origin.now alts.now) connections.old }
{
    for connection in connections.iter_mut() {
        rebind_one(connection, origin, alts);
    }
}
