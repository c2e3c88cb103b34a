ghost use Rattle.std.specs.Prelude.{◌≡◌};
ghost use Rattle.route_events.specs.Authority.{named, protocols};
ghost use Rattle.route_events.specs.Routes.{is_supported};

use crate::Route;
use altsvc_grammar::Alt;
use origin_values::{Protos, Scheme};

// The protocol of an ALPN identifier (RFC 7301 6), none where it isn't a supported one.
fn named(id: &[u8]) -> Protos
    ensures { result ≡ named id.now }
{
    Protos {
        h2: id == b"h2".as_slice(),
        h3: id == b"h3".as_slice(),
        http11: id == b"http/1.1".as_slice(),
    }
}

/// The protocols that a connection by a route may have: HTTP/1.1 by the direct one, and with TLS HTTP/2 too; by an
/// alternative its own alone, or none where it isn't supported; by an endpoint the endpoint's. It takes no memory.
pub fn protocols_of(scheme: Scheme, route: &Route) -> Protos
    ensures { result ≡ protocols scheme route.now }
{
    match (scheme, route) {
        (Scheme::Http, Route::Direct) => Protos {
            h2: false,
            h3: false,
            http11: true,
        },
        (Scheme::Https, Route::Direct) => Protos {
            h2: true,
            h3: false,
            http11: true,
        },
        (_, Route::Alt(key)) => named(key.proto.as_slice()),
        (_, Route::Rec(endpoint)) => endpoint.protos,
    }
}

/// Whether an alternative's protocol is HTTP/2, HTTP/3 or HTTP/1.1. It takes no memory.
pub fn is_supported(alt: &Alt) -> bool
    ensures { result ≡ is_supported alt.now }
{
    let protos = named(alt.key.proto.as_slice());
    protos.h2 || (protos.h3 || protos.http11)
}
