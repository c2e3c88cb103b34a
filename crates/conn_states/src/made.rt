ghost use Rattle.std.specs.Prelude.{◌≡◌, not, count_by};
ghost use Rattle.origin_values.specs.Equality.{host_eq};
ghost use Rattle.route_events.specs.Authority.{is_https, is_h2, is_tls, is_initial, initial_host, addr_host, may_coalesce};
ghost use Rattle.conn_states.specs.Said.{as_made};

use coalescing::CertNames;
use origin_values::{Addr, Host, Origin, Proto, Scheme, same_host};
use route_events::{Reach, Route};

/// What a connection is begun with: the origin and the route that it was opened for, the negotiated protocol, the remote
/// address and port, the names of the certificate, and whether it has a basis for the origin. The names of a connection
/// without TLS aren't used.
#[derive(Debug, PartialEq, Eq, Drop)]
pub struct Made {
    pub origin: Origin,
    pub route: Route,
    pub proto: Proto,
    pub addr: Addr,
    pub port: u16,
    pub names: CertNames,
    pub bound: bool,
}

pub(crate) fn is_secure(scheme: Scheme) -> bool
    ensures { result ≡ is_https scheme }
{
    match scheme {
        Scheme::Http => false,
        Scheme::Https => true,
    }
}

fn is_h2(proto: Proto) -> bool
    ensures { result ≡ is_h2 proto }
{
    match proto {
        Proto::H2 => true,
        _ => false,
    }
}

// Here and below the number of a connection doesn't matter.
pub(crate) fn is_tls(made: &Made) -> bool
    ensures { result ≡ is_tls (as_made 0 made.now) }
{
    is_secure(made.origin.scheme)
}

pub(crate) fn may_coalesce(made: &Made, origin: &Origin, reach: Reach) -> bool
    ensures { result ≡ may_coalesce (as_made 0 made.now) origin.now reach }
{
    is_h2(made.proto) && made.port == origin.port && reach.address
}

pub(crate) fn is_initial(made: &Made, origin: &Origin) -> bool
    ensures { result ≡ is_initial (as_made 0 made.now) origin.now }
{
    is_secure(origin.scheme)
        && is_initial_host(&made.origin.host, &made.addr, &origin.host)
        && made.port == origin.port
}

// How many of some origins aren't the initial one.
pub(crate) fn count_others(made: &Made, listed: &[Origin]) -> usize
    ensures { result ≡ count_by (λ o. not (is_initial (as_made 0 made.now) o)) listed.now }
{
    listed
        .iter()
        .filter(|origin| !is_initial(made, *origin))
        .count()
}

// Whether a host is that of the initial origin of a connection that was opened for a host, at an address.
fn is_initial_host(opened_for: &Host, addr: &Addr, host: &Host) -> bool
    ensures { result ≡ host_eq (initial_host opened_for.now addr.now) host.now }
{
    match opened_for {
        Host::Name(_) => same_host(opened_for, host),
        _ => is_at(addr, host),
    }
}

/// Whether a host is an address. It takes no memory.
pub fn is_at(addr: &Addr, host: &Host) -> bool
    ensures { result ≡ host_eq (addr_host addr.now) host.now }
{
    match (addr, host) {
        (Addr::V4(ours), Host::V4(theirs)) => ours == theirs,
        (Addr::V6(ours), Host::V6(theirs)) => ours == theirs,
        _ => false,
    }
}
