use alt_base::{Bytes, Duplicate, ListOf, NoMemory};
use std::alloc::Global;
use svcb_wire::{V4s, V6s};

/// The octets of records, in the order in which they were delivered.
pub type Rdatas = ListOf<Bytes>;

/// What a DNS answer brings, of one kind: addresses of IPv4 (RFC 1035 3.4.1), addresses of IPv6 (RFC 3596 2.2), or the
/// octets of HTTPS records (RFC 9460 2.2), which may be malformed.
#[derive(Debug, PartialEq, Eq, Drop)]
pub enum AnswerBody {
    V4(V4s),
    V6(V6s),
    Https(Rdatas),
}

impl Duplicate for AnswerBody {
    fn copy(&self, alloc: Global) -> Result<Self, NoMemory> {
        match self {
            AnswerBody::V4(addresses) => Ok(AnswerBody::V4(addresses.copy(alloc)?)),
            AnswerBody::V6(addresses) => Ok(AnswerBody::V6(addresses.copy(alloc)?)),
            AnswerBody::Https(records) => Ok(AnswerBody::Https(records.copy(alloc)?)),
        }
    }
}
