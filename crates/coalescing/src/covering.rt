ghost use Rattle.std.specs.Prelude.{◌≡◌, nat_eq};
ghost use Rattle.std.specs.Cmp.Lexicographic.{pointwise};
ghost use Rattle.std.specs.List.{list_any};
ghost use Rattle.coalescing.specs.Covers.{covers, covers_host, adds_one_label, behind_dot};

use crate::{CertName, CertNames};
use origin_values::{Addr, Host};

/// Whether a certificate with these names is for the host (RFC 9525 6.3, RFC 9110 4.3.4): one of them is the host, or
/// is a wildcard to whose base the host adds exactly one label. A wildcard covers no address. It takes no memory.
pub fn covers(names: &CertNames, host: &Host) -> bool
    ensures { result ≡ covers names.now host.now }
{
    covers_among(names.as_slice(), host)
}

fn covers_among(names: &[CertName], host: &Host) -> bool
    ensures { result ≡ list_any (λ name. covers_host name host.now) names.now }
{
    names.iter().any(|name| covers_host(name, host))
}

// Whether a name covers a host.
fn covers_host(name: &CertName, host: &Host) -> bool
    ensures { result ≡ covers_host name.now host.now }
{
    match (name, host) {
        (CertName::Exact(exact), Host::Name(text)) => exact == text,
        (CertName::Wild(base), Host::Name(text)) => {
            adds_one_label(text.as_slice(), base.as_slice())
        }
        (CertName::Ip(Addr::V4(ours)), Host::V4(theirs)) => ours == theirs,
        (CertName::Ip(Addr::V6(ours)), Host::V6(theirs)) => ours == theirs,
        _ => false,
    }
}

// Whether a text is one label, a dot and the base.
fn adds_one_label(text: &[u8], base: &[u8]) -> bool
    ensures { result ≡ adds_one_label text.now base.now }
{
    match text {
        [] => false,
        [first, rest @ ..] => *first != b'.' && behind_dot(rest, base),
    }
}

// Whether the base stands behind the first dot.
fn behind_dot(text: &[u8], base: &[u8]) -> bool
    ensures { result ≡ behind_dot text.now base.now }
{
    let mut rest = text;
    while let [byte, more @ ..] = rest {
        if *byte == b'.' {
            return more == base;
        }
        rest = more;
    }
    false
}
