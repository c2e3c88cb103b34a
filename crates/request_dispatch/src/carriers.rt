ghost use Rattle.std.specs.Prelude.{◌≡◌, ◌∷◌, ◌++◌, ◌&&◌, [], OnOk, IfOk};
ghost use Rattle.std.specs.List.{list_any};
ghost use Rattle.std.specs.Option.{option_copied, option_and_then};
ghost use Rattle.route_events.specs.Connections.{is_one_of};
ghost use Rattle.request_dispatch.specs.ConnectionTable.{connection_among, is_carrier, is_free, carrier_numbers};
ghost use Rattle.request_dispatch.specs.Carriers.{candidate_of, candidates, is_answered_by_authority};
ghost use Rattle.request_dispatch.specs.Asked.{asked_by};

use crate::authority::reach;
use crate::basis::basis_of;
use crate::open_connection::OpenConnection;
use crate::origin_addresses::OriginAddresses;
use alt_base::{ListOf, NoMemory};
use route_choice::{Candidate, Candidates};
use route_events::Conns;
use std::alloc::Global;

/// Whether the connection is authoritative for the origin that is asked for, busy or not. It takes no memory.
pub fn is_carrier(connection: &OpenConnection, addresses: &OriginAddresses<'_>) -> bool
    ensures { result ≡ is_carrier (asked_by addresses.now).is_address (asked_by addresses.now).origin connection.now }
{
    connection.authorises(addresses.origin(), reach(addresses, connection.made()))
}

// Whether it may carry a request of the origin that is asked for.
fn is_free(connection: &OpenConnection, addresses: &OriginAddresses<'_>) -> bool
    ensures { result ≡ is_free (asked_by addresses.now).is_address (asked_by addresses.now).origin connection.now }
{
    is_carrier(connection, addresses) && !connection.busy()
}

/// Whether one of some connections is authoritative for the origin that is asked for.
pub(crate) fn is_any_carrier(
    connections: &[OpenConnection],
    addresses: &OriginAddresses<'_>,
) -> bool
    ensures { result ≡ list_any (is_carrier (asked_by addresses.now).is_address (asked_by addresses.now).origin) connections.now }
{
    connections
        .iter()
        .any(|connection| is_carrier(connection, addresses))
}

// Appends the connection's number, where it is authoritative for the origin that is asked for.
fn push_carrier(
    numbers: &mut Conns,
    connection: &OpenConnection,
    addresses: &OriginAddresses<'_>,
) -> Result<(), NoMemory>
    ensures { OnOk result (numbers.new ≡ numbers.old ++ carrier_numbers (asked_by addresses.now).is_address (asked_by addresses.now).origin (connection.now ∷ [])) }
{
    if is_carrier(connection, addresses) {
        return numbers.push(connection.number());
    }
    Ok(())
}

/// The numbers of those that are authoritative for the origin that is asked for, in order.
pub(crate) fn carrier_numbers(
    alloc: Global,
    connections: &[OpenConnection],
    addresses: &OriginAddresses<'_>,
) -> Result<Conns, NoMemory>
    ensures { IfOk result (λ numbers. numbers ≡ carrier_numbers (asked_by addresses.now).is_address (asked_by addresses.now).origin connections.now) }
{
    let mut numbers = ListOf::new(alloc);
    for connection in connections {
        push_carrier(&mut numbers, connection, addresses)?;
    }
    Ok(numbers)
}

fn answers(connection: &OpenConnection, request: u32, addresses: &OriginAddresses<'_>) -> bool
    ensures { result ≡ (is_one_of request connection.now.outstanding && is_carrier (asked_by addresses.now).is_address (asked_by addresses.now).origin connection.now) }
{
    connection.carries(request) && is_carrier(connection, addresses)
}

/// Whether one on which the request of this number is outstanding is authoritative for the origin that is asked for.
pub(crate) fn is_answered_by_authority(
    connections: &[OpenConnection],
    request: u32,
    addresses: &OriginAddresses<'_>,
) -> bool
    ensures { result ≡ is_answered_by_authority (asked_by addresses.now).is_address request (asked_by addresses.now).origin connections.now }
{
    connections
        .iter()
        .any(|connection| answers(connection, request, addresses))
}

// Appends the connection, with its basis, where it may carry a request of the origin that is asked for.
fn push_candidate(
    free: &mut Candidates,
    connection: &OpenConnection,
    addresses: &OriginAddresses<'_>,
) -> Result<(), NoMemory>
    ensures { OnOk result (free.new ≡ free.old ++ candidates (asked_by addresses.now).is_address (asked_by addresses.now).origin (connection.now ∷ [])) }
{
    if is_free(connection, addresses) {
        return free.push(Candidate {
            conn: connection.number(),
            basis: basis_of(connection, addresses.origin()),
        });
    }
    Ok(())
}

/// Those of some connections that may carry a request of the origin that is asked for, each with its basis, in order.
pub(crate) fn candidates(
    alloc: Global,
    connections: &[OpenConnection],
    addresses: &OriginAddresses<'_>,
) -> Result<Candidates, NoMemory>
    ensures { IfOk result (λ free. free ≡ candidates (asked_by addresses.now).is_address (asked_by addresses.now).origin connections.now) }
{
    let mut free = ListOf::new(alloc);
    for connection in connections {
        push_candidate(&mut free, connection, addresses)?;
    }
    Ok(free)
}
