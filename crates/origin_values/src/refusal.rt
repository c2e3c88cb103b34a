ghost use Rattle.std.specs.Prelude.{◌≡◌};
ghost use Rattle.origin_values.specs.declared.refusal.AsciiFault.TheVariants.{NoMemory as NoMemoryFound};

use alt_base::NoMemory;

/// Why a text isn't a host. It stands at place 0.
#[derive(Clone, Copy, Debug, PartialEq, Eq)]
pub enum HostRefusal {
    /// The text is no name, no IPv4 address, and no IPv6 address in brackets.
    BadHost,
}

/// Why a text isn't an origin, in the order in which they are tried.
#[derive(Clone, Copy, Debug, PartialEq, Eq)]
pub enum OriginRefusal {
    /// The text doesn't begin with `http://` or `https://`: at place 0.
    BadScheme,
    /// No host follows: at the first byte after `://`.
    BadHost,
    /// The port's digits have the value 0, or one above 65535: at the first byte after the colon.
    BadPort,
    /// Something follows: at the first byte left.
    Trailing,
}

/// Why no origin came of a text that was to be an origin's ASCII text.
#[derive(Clone, Copy, Debug, PartialEq, Eq)]
pub enum AsciiFault {
    NoMemory,
    /// No origin is written as the text.
    NotAscii,
}

impl From<NoMemory> for AsciiFault {
    ghost from_gives = { λ _ e. e ≡ NoMemoryFound };

    fn from(_: NoMemory) -> Self {
        AsciiFault::NoMemory
    }
}
