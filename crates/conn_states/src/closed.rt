ghost use Rattle.std.specs.Prelude.{◌≡◌};

use alt_base::ListOf;
use std::marker::Model;

/// Numbers of requests, in order.
pub type Requests = ListOf<u32>;

/// The end of a connection, with the requests that are lost by it. It can't be dropped: `lost` takes them.
#[must_use]
#[derive(Debug)]
pub struct Closed {
    outstanding: Vec<u32>,
}

impl Model for Closed {
    ghost use Rattle.std.specs.Prelude.{List, ℕ};

    ghost Value = { List ℕ };

    ghost view = { λ c. c.outstanding.items };
}

impl Closed {
    // The end of a connection with these requests outstanding.
    pub(crate) fn new(outstanding: Vec<u32>) -> Closed
        ensures { result ≡ outstanding.items }
    {
        Closed { outstanding }
    }

    /// The lost requests, in the order of their sends. It takes no memory.
    pub fn lost(self) -> Requests
        ensures { result ≡ self }
    {
        let Closed { outstanding } = self;
        ListOf::from_vec(outstanding)
    }
}
