//! The cache of a client's alternative services (RFC 7838 2.2): for each origin the alternatives that its newest value
//! named, with the moment at which the value was taken and the age that it had then. An alternative is fresh while that
//! age and the seconds since then are below its `ma` (RFC 7838 3.1).
//!
//! `specs/Contents` says what a cache holds, as a map from origins to lists and one moment. The contracts say nothing
//! else of it: that it is an index by origins and a queue by ends is the cache's own matter.
#![tactic(auto)]

mod cache;
mod entries;
mod index;
mod kept;
mod laws;
mod queue;
mod sorted_origin;
mod sweep;
#[cfg(test)]
mod tests;

pub use cache::Cache;
pub use kept::Kept;
pub use laws::{one_total, purge_changes_no_answer};
