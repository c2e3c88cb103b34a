//! The choice of a route and of a connection: which routes of an origin are broken, which may be taken, and which of
//! some connections is the best.
//!
//! `specs/Contents` says what a table of failures holds, as a map from origins and routes to failures and one moment.
//! The contracts say nothing else of it: how a route is looked up is the table's own matter.
#![tactic(auto)]

mod broken;
mod candidate;
mod failed_route;
mod laws;
mod origin_routes;
#[cfg(test)]
mod tests;
mod usable;

pub use broken::Broken;
pub use candidate::{BasisKind, Candidate, Candidates, best};
pub use laws::{capping_changes_no_backoff, failing_once_more, one_total, worked_backoffs};
pub use origin_routes::{alternative_routes, routes};
pub use usable::first_usable;
