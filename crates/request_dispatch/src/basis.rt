ghost use Rattle.std.specs.Prelude.{◌≡◌};
ghost use Rattle.route_events.specs.Dispatch.{is_by_alternative};
ghost use Rattle.request_dispatch.specs.Carriers.{basis_of};

use crate::authority::rests_on;
use crate::open_connection::OpenConnection;
use origin_values::Origin;
use route_choice::BasisKind;
use route_events::Route;

fn is_by_alternative(route: &Route) -> bool
    ensures { result ≡ is_by_alternative route.now }
{
    match route {
        Route::Direct => false,
        Route::Alt(_) => true,
        Route::Rec(_) => false,
    }
}

/// The connection's basis for an origin.
pub(crate) fn basis_of(connection: &OpenConnection, origin: &Origin) -> BasisKind
    ensures { result ≡ basis_of origin.now connection.now }
{
    if !rests_on(connection, origin) {
        return BasisKind::Without;
    }
    if is_by_alternative(&connection.made().route) {
        return BasisKind::ByAlt;
    }
    BasisKind::ByOther
}
