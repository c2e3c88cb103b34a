ghost use Rattle.std.specs.Prelude.{◌≡◌};
ghost use Rattle.origin_values.specs.DefaultPort.{default_port_of};

use alt_base::{Duplicate, NoMemory};
use std::alloc::Global;

/// The scheme of an origin.
#[derive(Clone, Copy, Debug, PartialEq, Eq, Hash)]
pub enum Scheme {
    Http,
    Https,
}

impl Duplicate for Scheme {
    fn copy(&self, alloc: Global) -> Result<Self, NoMemory> {
        Ok(*self)
    }
}

/// The port that a scheme has where none is written: 80 or 443 (RFC 9110 4.2.1 and 4.2.2).
pub fn default_port(scheme: Scheme) -> u16
    ensures { result ≡ default_port_of scheme }
{
    match scheme {
        Scheme::Http => 80,
        Scheme::Https => 443,
    }
}
