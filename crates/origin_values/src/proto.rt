ghost use Rattle.std.specs.Prelude.{◌≡◌};
ghost use Rattle.origin_values.specs.Equality.{proto_eq};

use alt_base::{Duplicate, NoMemory};
use std::alloc::Global;

/// The protocol of a connection: HTTP/2, HTTP/3, HTTP/1.1, or one that isn't of these.
#[derive(Clone, Copy, Debug, PartialEq, Eq, Hash)]
pub enum Proto {
    H2,
    H3,
    Http11,
    Other,
}

impl Duplicate for Proto {
    fn copy(&self, alloc: Global) -> Result<Self, NoMemory> {
        Ok(*self)
    }
}

/// Whether two protocols are one. It takes no memory.
pub fn same_proto(a: Proto, b: Proto) -> bool
    ensures { result ≡ proto_eq a b }
{
    a == b
}
