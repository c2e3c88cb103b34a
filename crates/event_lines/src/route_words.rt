ghost use Rattle.std.specs.Prelude.{◌≡◌, IfOk};
ghost use Rattle.event_lines.specs.ActionTexts.{route_text, route_host, route_port};

use alt_base::{NoMemory, Text};
use origin_values::Origin;
use route_events::Route;
use std::alloc::Global;

// The word of a route.
pub(crate) fn route_text(route: &Route) -> &'static [u8]
    ensures { result.now ≡ route_text route.now }
{
    match route {
        Route::Direct => b"direct",
        Route::Alt(_) => b"alt",
        Route::Rec(_) => b"rec",
    }
}

// The text of the host that a route goes to.
pub(crate) fn route_host(alloc: Global, route: &Route, origin: &Origin) -> Result<Text, NoMemory>
    ensures { IfOk result (λ text. text ≡ route_host route.now origin.now) }
{
    match route {
        Route::Direct => origin.host.write(alloc),
        Route::Alt(key) => match &key.host {
            Some(host) => host.write(alloc),
            None => origin.host.write(alloc),
        },
        Route::Rec(endpoint) => endpoint.target.to_text(alloc),
    }
}

// The port that a route goes to.
pub(crate) fn route_port(route: &Route, origin: &Origin) -> u16
    ensures { result ≡ route_port route.now origin.now }
{
    match route {
        Route::Direct => origin.port,
        Route::Alt(key) => key.port,
        Route::Rec(endpoint) => endpoint.port,
    }
}
