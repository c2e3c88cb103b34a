use crate::fault::Fault;
use crate::texts::bytes;
use alt_base::ListOf;
use route_events::AnswerBody;
use std::alloc::Global;

/// What a name has in DNS.
#[derive(Clone, Copy)]
pub(crate) enum Record {
    /// An address of IPv4 (RFC 1035 3.4.1).
    Address([u8; 4]),
    /// The octets of an HTTPS record (RFC 9460 2.2).
    Https(&'static [u8]),
}

impl Record {
    /// What an answer with this record alone brings.
    pub(crate) fn body(self, alloc: Global) -> Result<AnswerBody, Fault> {
        match self {
            Record::Address(address) => {
                let mut addresses = ListOf::new(alloc);
                addresses.push(address)?;
                Ok(AnswerBody::V4(addresses))
            }
            Record::Https(octets) => {
                let mut records = ListOf::new(alloc);
                records.push(bytes(alloc, octets)?)?;
                Ok(AnswerBody::Https(records))
            }
        }
    }
}
