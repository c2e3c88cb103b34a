use alt_base::{Duplicate, ListOf, NoMemory, Text};
use origin_values::Addr;
use std::alloc::Global;

/// A name of a certificate (RFC 9525 2): a host's name, what stands behind `*.`, both in lower case, or an address.
#[derive(Debug, PartialEq, Eq, Drop)]
pub enum CertName {
    Exact(Text),
    Wild(Text),
    Ip(Addr),
}

/// The names of a certificate, in order.
pub type CertNames = ListOf<CertName>;

impl Duplicate for CertName {
    fn copy(&self, alloc: Global) -> Result<Self, NoMemory> {
        match self {
            CertName::Exact(name) => Ok(CertName::Exact(name.copy(alloc)?)),
            CertName::Wild(base) => Ok(CertName::Wild(base.copy(alloc)?)),
            CertName::Ip(addr) => Ok(CertName::Ip(*addr)),
        }
    }
}
