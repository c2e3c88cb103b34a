/// Why a text isn't the names of a certificate.
#[derive(Clone, Copy, Debug, PartialEq, Eq)]
pub enum CertRefusal {
    /// An item is no host's name, no `*.` and a host's name, and no address: at its first byte.
    BadName,
}
