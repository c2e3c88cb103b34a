//! Laws of what a router stands for.
ghost use Rattle.route_events.specs.Journal.{Journal};
ghost use Rattle.route_events.specs.Step.{IsRun};
ghost use Rattle.route_events.specs.Alike.{Alike};
ghost use Rattle.router_core.specs.StandsFor.{StandsFor};
ghost use Rattle.router_core.specs.declared.router.Router.{Router as RouterValue};

/// What may be forgotten: a router that stands for a history stands for each one that is alike. So, by the contract of
/// `Router::step`, what was forgotten changes no later refusal and no later action.
///
/// The smallest two histories that are alike, but for the failures of the direct route: a request whose only attempt
/// failed, for one origin in the first and for another in the second.
pub fn alike_histories()
    ensures { (router : RouterValue) (j k : Journal) → StandsFor router j → Alike j k → IsRun k → StandsFor router k }
{}
