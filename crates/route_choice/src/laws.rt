//! Laws of failures and of the backoff.
ghost use Rattle.std.specs.Prelude.{◌≡◌, ℕ, Bool};
ghost use Rattle.origin_values.specs.declared.origin.Origin.{Origin};
ghost use Rattle.route_events.specs.declared.route.Route.{Route};
ghost use Rattle.route_events.specs.Backoff.{Failures, failed_at, backoff, is_backing_off, is_barred_by};
ghost use Rattle.route_choice.specs.declared.broken.Broken.{Broken};
ghost use Rattle.route_choice.specs.Capped.{capped};
ghost use Rattle.route_choice.specs.Pairs.{IsNumberOf};
ghost use Rattle.route_choice.specs.Contents.{IsTotal};

/// Whether failures bar a route is the same where more than 11 of them count as 11.
pub fn capping_changes_no_backoff()
    ensures backing_off { (f : Failures) (now : ℕ) → is_backing_off (capped f) now ≡ is_backing_off f now }
    ensures barred { (f : Failures) (r : Route) (now : ℕ) → is_barred_by (capped f) r now ≡ is_barred_by f r now }
{}

/// One more failure comes to the same where those before it were capped.
pub fn failing_once_more()
    ensures { (f : Failures) (moment : ℕ) → capped (failed_at moment (capped f)) ≡ capped (failed_at moment f) }
{}

/// For how many seconds 1, 10 and 11 failures bar a route.
pub fn worked_backoffs()
    ensures one { backoff 1 ≡ 300 }
    ensures ten { backoff 10 ≡ 153600 }
    ensures eleven { backoff 11 ≡ 172800 }
{}

/// A table has one total at a moment, whichever pairs it is counted over; and so has whatever agrees with it on each
/// origin's routes.
pub fn one_total()
    ensures number { (s t : Origin → Route → Bool) (m n : ℕ) →
        ((o : Origin) (r : Route) → s o r ≡ t o r) → IsNumberOf s m → IsNumberOf t n → m ≡ n }
    ensures total { (broken : Broken) (now m n : ℕ) → IsTotal broken now m → IsTotal broken now n → m ≡ n }
{}
