ghost use Rattle.std.specs.Prelude.{◌≡◌};
ghost use Rattle.altsvc_grammar.specs.Keys.{key_eq};

use alt_base::{Bytes, Duplicate, NoMemory};
use origin_values::Host;
use std::alloc::Global;

/// What tells one alternative service from another (RFC 7838 3): the protocol's identifier, decoded, of 1 to 255 bytes;
/// the host, none where it is the origin's own; and the port, from 1 to 65535.
#[derive(Debug, PartialEq, Eq, Hash, Drop)]
pub struct AltKey {
    pub proto: Bytes,
    pub host: Option<Host>,
    pub port: u16,
}

impl Duplicate for AltKey {
    fn copy(&self, alloc: Global) -> Result<Self, NoMemory> {
        let host = match &self.host {
            Some(host) => Some(host.copy(alloc)?),
            None => None,
        };
        Ok(AltKey {
            proto: self.proto.copy(alloc)?,
            host,
            port: self.port,
        })
    }
}

/// Whether two keys are one: the same protocol, host and port. It takes no memory.
pub fn same_key(a: &AltKey, b: &AltKey) -> bool
    ensures { result ≡ key_eq a.now b.now }
{
    a == b
}
