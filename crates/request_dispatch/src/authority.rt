ghost use Rattle.std.specs.Prelude.{◌≡◌};
ghost use Rattle.route_events.specs.Alternatives.{is_listed};
ghost use Rattle.route_events.specs.Authority.{is_https, is_among, is_success, gives, rests_on};
ghost use Rattle.request_dispatch.specs.Successes.{succeeds};
ghost use Rattle.conn_states.specs.Said.{said, as_made};
ghost use Rattle.request_dispatch.specs.Looks.{reach_at};
ghost use Rattle.request_dispatch.specs.Asked.{asked_by};

use crate::open_connection::OpenConnection;
use crate::origin_addresses::OriginAddresses;
use altsvc_grammar::{Alt, AltKey, same_key};
use coalescing::{CertNames, covers};
use conn_states::Made;
use origin_values::{Origin, Proto, Protos, Scheme, same_origin};
use route_events::{Connection, Reach, Route, protocols_of};

/// Whether a scheme is https. It takes no memory.
pub fn is_secure(scheme: Scheme) -> bool
    ensures { result ≡ is_https scheme }
{
    match scheme {
        Scheme::Http => false,
        Scheme::Https => true,
    }
}

fn is_among(protos: Protos, proto: Proto) -> bool
    ensures { result ≡ is_among protos proto }
{
    match proto {
        Proto::H2 => protos.h2,
        Proto::H3 => protos.h3,
        Proto::Http11 => protos.http11,
        Proto::Other => false,
    }
}

/// Whether an opening with this protocol and these names is a success of an attempt for the origin by the route: the
/// protocol is one of the route's and, for https, the names cover the origin's host (RFC 9110 4.3.4). It takes no memory.
pub fn succeeds(origin: &Origin, route: &Route, proto: Proto, names: &CertNames) -> bool
    ensures { result ≡ succeeds origin.now route.now proto names.now }
{
    is_among(protocols_of(origin.scheme, route), proto)
        && (!is_secure(origin.scheme) || covers(names, &origin.host))
}

/// Whether an opening is a success of its attempt. It takes no memory.
pub fn is_success(made: &Connection) -> bool
    ensures { result ≡ is_success made.now }
{
    succeeds(&made.origin, &made.route, made.proto, &made.names)
}

fn is_listed(alts: &[Alt], key: &AltKey) -> bool
    ensures { result ≡ is_listed alts.now key.now }
{
    alts.iter().any(|alt| same_key(&alt.key, key))
}

/// Whether some alternatives give a route: one by an alternative has to be listed, the others need none. It takes no memory.
pub fn gives(alts: &[Alt], route: &Route) -> bool
    ensures { result ≡ gives alts.now route.now }
{
    match route {
        Route::Direct => true,
        Route::Alt(key) => is_listed(alts, key),
        Route::Rec(_) => true,
    }
}

/// Whether the connection has a basis for an origin.
pub(crate) fn rests_on(connection: &OpenConnection, origin: &Origin) -> bool
    ensures { result ≡ rests_on (said connection.now) origin.now }
{
    same_origin(&connection.made().origin, origin) && connection.bound()
}

/// How a connection that was made so reaches the origin that is asked for. It takes no memory.
pub fn reach(addresses: &OriginAddresses<'_>, made: &Made) -> Reach
    ensures { result ≡ reach_at (asked_by addresses.now).is_address (as_made 0 made.now) (asked_by addresses.now).origin }
{
    Reach {
        address: addresses.has(&made.addr),
    }
}
