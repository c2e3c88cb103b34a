ghost use Rattle.std.specs.Prelude.{◌≡◌, ◌∷◌, Some, nat_eq, refl};
ghost use Rattle.std.specs.Cmp.{partial_equiv_from_equiv, on_per, on_equiv, on_po};
ghost use Rattle.std.specs.Cmp.Lexicographic.{pointwise, slice_cmp, nat_list_eq_equiv, on_texts, texts_po, texts_ties};
ghost use Rattle.std.specs.Ordering.{nat_cmp};
ghost use Rattle.network_cache.specs.OriginOrder.{scheme_rank, host_rank, host_bytes, order_key, origin_cmp};

use origin_values::{Host, Origin, Scheme};
use std::cmp::Ordering;
use std::marker::Model;

/// An origin with an order: by its port, then by its scheme, then by its host. To a contract it is the origin.
#[derive(Debug, Drop)]
pub(crate) struct SortedOrigin {
    origin: Origin,
}

impl Model for SortedOrigin {
    ghost use Rattle.origin_values.specs.declared.origin.Origin.{Origin};

    ghost Value = { Origin };

    ghost view = { λ sorted. sorted.origin };
}

impl SortedOrigin {
    pub(crate) fn new(origin: Origin) -> SortedOrigin
        ensures { result ≡ origin }
    {
        SortedOrigin { origin }
    }

    pub(crate) fn origin(&self) -> &Origin
        ensures { result.now ≡ self.now }
    {
        &self.origin
    }

    pub(crate) fn into_origin(self) -> Origin
        ensures { result ≡ self }
    {
        let SortedOrigin { origin } = self;
        origin
    }
}

impl PartialEq for SortedOrigin {
    ghost eq = { λ a b. pointwise nat_eq (order_key a) (order_key b) };

    ghost laws = { on_per order_key (partial_equiv_from_equiv nat_list_eq_equiv) };

    fn eq(&self, other: &Self) -> bool {
        self.origin == other.origin
    }
}

impl Eq for SortedOrigin {
    ghost laws = { on_equiv order_key nat_list_eq_equiv };
}

impl PartialOrd for SortedOrigin {
    ghost partial_cmp = { λ a b. Some (origin_cmp a b) };

    ghost laws = { on_po order_key texts_po };

    fn partial_cmp(&self, other: &Self) -> Option<Ordering> {
        Some(self.cmp(other))
    }
}

impl Ord for SortedOrigin {
    ghost cmp = { origin_cmp };

    ghost total = { on_texts order_key };

    ghost matches_partial_cmp = { λ a b. refl };

    ghost matches_eq = { λ a b. texts_ties (order_key a) (order_key b) };

    fn cmp(&self, other: &Self) -> Ordering {
        let (a, b) = (&self.origin, &other.origin);
        let hosts = host_order(&a.host, &b.host);
        let schemes = scheme_rank(a.scheme).cmp(&scheme_rank(b.scheme));
        a.port.cmp(&b.port).then(schemes.then(hosts))
    }
}

fn scheme_rank(scheme: Scheme) -> u8
    ensures { result ≡ scheme_rank scheme }
{
    match scheme {
        Scheme::Http => 0,
        Scheme::Https => 1,
    }
}

fn host_rank(host: &Host) -> u8
    ensures { result ≡ host_rank host.now }
{
    match host {
        Host::Name(_) => 0,
        Host::V4(_) => 1,
        Host::V6(_) => 2,
    }
}

fn host_bytes(host: &Host) -> &[u8]
    ensures { result.now ≡ host_bytes host.now }
{
    match host {
        Host::Name(name) => name.as_slice(),
        Host::V4(bytes) => bytes.as_slice(),
        Host::V6(bytes) => bytes.as_slice(),
    }
}

// The order of hosts: by what they are, then by their bytes.
fn host_order(a: &Host, b: &Host) -> Ordering
    ensures { result ≡ slice_cmp nat_cmp (host_rank a.now ∷ host_bytes a.now) (host_rank b.now ∷ host_bytes b.now) }
{
    let ranks = host_rank(a).cmp(&host_rank(b));
    ranks.then(host_bytes(a).cmp(host_bytes(b)))
}
