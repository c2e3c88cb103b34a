ghost use Rattle.std.specs.Prelude.{◌≡◌};
ghost use Rattle.alias_chain.specs.Held.{is_in_force};

use alt_base::Moment;

/// What an answer brought, the moment at which it came, and the seconds for which it is in force from then on, its TTL
/// (RFC 1035 3.2.1).
#[derive(Debug, Drop)]
pub struct Held<B> {
    pub moment: u32,
    pub ttl: u32,
    pub body: B,
}

/// Whether an answer is in force at a moment: fewer seconds than its TTL have gone since it came. So one with a TTL of 0
/// never is. It takes no memory.
pub fn is_in_force<B>(held: &Held<B>, now: Moment) -> bool
    ensures { result ≡ is_in_force now.0 held.now }
{
    now.0.saturating_sub(held.moment) < held.ttl
}
