/// What an answer brings: addresses of IPv4 (RFC 1035 3.4.1), addresses of IPv6 (RFC 3596 2.2), or HTTPS records
/// (RFC 9460 2.2).
#[derive(Clone, Copy, Debug, PartialEq, Eq)]
pub(crate) enum AnswerKind {
    Ipv4,
    Ipv6,
    Https,
}
