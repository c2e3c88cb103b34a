ghost use Rattle.std.specs.Prelude.{◌≡◌, ◌≤◌, ℕ, List, Option};
ghost use Rattle.std.specs.Option.{option_copied};
ghost use Rattle.svcb_wire.specs.declared.svcb.Svcb.{Svcb};
ghost use Rattle.alias_chain.specs.declared.held.Held.{Held};
ghost use Rattle.alias_chain.specs.Held.{body_at};

use crate::SvcbSet;
use alt_base::Moment;
use dns_names::Name;

/// What DNS has answered. To a contract it is a newest moment, and a finite map from names to a moment, a TTL and a set
/// of HTTPS records. The map of the answers at a moment, for each moment that isn't below the newest, gives for a name its
/// set where fewer seconds than the TTL have gone since the set's moment, and else nothing.
pub trait Answers {
    ghost newest: { Self → ℕ };

    ghost held: { Self → List (List ℕ) → Option (Held (List Svcb)) };

    /// The HTTPS records of a name that are in force at a moment, which isn't below the newest moment; None exactly where
    /// the map of the answers at that moment has none. It takes no memory.
    fn https(&self, name: &Name, now: Moment) -> Option<&SvcbSet>
        requires { newest self.now ≤ now.0 }
        ensures { option_copied result ≡ body_at now.0 (held self.now name.now) };
}
