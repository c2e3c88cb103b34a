ghost use Rattle.std.specs.Prelude.{◌≡◌, IfOk};
ghost use Rattle.std.specs.Option.{option_copied, option_and_then};
ghost use Rattle.origin_values.specs.declared.origin.Origin.{Origin as OriginValue};
ghost use Rattle.network_cache.specs.Contents.{kept, newest_moment};
ghost use Rattle.route_events.specs.Misdirection.{turned_away_in};
ghost use Rattle.request_dispatch.specs.ConnectionTable.{carrying};
ghost use Rattle.request_dispatch.specs.RequestTable.{request_among};
ghost use Rattle.router_core.specs.Notes.{key_of, led_by, given_up_on, given_up, spared};

use alt_base::{Duplicate, NoMemory};
use altsvc_grammar::AltKey;
use network_cache::Cache;
use origin_values::{Origin, same_origin};
use request_dispatch::{OpenConnection, Outstanding, Tables};
use route_events::{Fact, Route};
use std::alloc::Global;

/// The status of a response by a server that isn't the origin's (RFC 9110 15.5.20).
pub(crate) const MISDIRECTED: u16 = 421;

// The request that a fact turns away.
fn turned_away_in(fact: &Fact) -> Option<u32>
    ensures { result ≡ turned_away_in fact.now }
{
    match fact {
        Fact::Response {
            request,
            status,
            ..
        } => {
            if *status == MISDIRECTED {
                Some(*request)
            } else {
                None
            }
        }
        _ => None,
    }
}

fn key_of(
    alloc: Global,
    origin: &Origin,
    route: &Route,
) -> Result<Option<(Origin, AltKey)>, NoMemory>
    ensures { IfOk result (λ led. led ≡ key_of origin.now route.now) }
{
    match route {
        Route::Direct | Route::Rec(_) => Ok(None),
        Route::Alt(key) => Ok(Some((origin.copy(alloc)?, key.copy(alloc)?))),
    }
}

// The alternative by which the connection was opened for the origin.
fn led_by(
    alloc: Global,
    origin: &Origin,
    connection: &OpenConnection,
) -> Result<Option<(Origin, AltKey)>, NoMemory>
    ensures { IfOk result (λ led. led ≡ led_by origin.now connection.now) }
{
    if same_origin(&connection.made().origin, origin) {
        return key_of(alloc, origin, &connection.made().route);
    }
    Ok(None)
}

fn given_up_on(
    alloc: Global,
    sent: Option<&Outstanding>,
    connection: Option<&OpenConnection>,
) -> Result<Option<(Origin, AltKey)>, NoMemory>
    ensures { IfOk result (λ given. given ≡ given_up_on (option_copied sent.entry) (option_copied connection.entry)) }
{
    match (sent, connection) {
        (Some(sent), Some(connection)) => led_by(alloc, &sent.request.origin, connection),
        _ => Ok(None),
    }
}

/// The alternative that a fact gives up, with its origin, if there is one. NoMemory comes only where memory isn't found.
pub(crate) fn given_up(
    alloc: Global,
    tables: &Tables,
    fact: &Fact,
) -> Result<Option<(Origin, AltKey)>, NoMemory>
    ensures { IfOk result (λ given. given ≡ given_up tables.now fact.now) }
{
    match turned_away_in(fact) {
        None => Ok(None),
        Some(request) => given_up_on(
            alloc,
            tables.requests.of_number(request),
            tables.connections.carrying(request),
        ),
    }
}

/// Notes of an origin's alternatives that one of them is given up. It takes no memory.
pub(crate) fn note_given_up(cache: &mut Cache, given_up: &Option<(Origin, AltKey)>)
    ensures kept { (o : OriginValue) → kept cache.new o ≡ spared given_up.now o (kept cache.old o) }
    ensures moment { newest_moment cache.new ≡ newest_moment cache.old }
{
    if let Some((origin, key)) = given_up {
        cache.remove(origin, key);
    }
}
