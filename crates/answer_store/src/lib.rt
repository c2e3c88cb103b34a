//! The DNS answers of a client, as long as they are in force: for each name and kind the newest one, with the moment at
//! which it came and its TTL (RFC 1035 3.2.1).
//!
//! `specs/Contents` says what a store holds, as a map from names and kinds, and one moment. The contracts say nothing else
//! of it: that each kind is an index by names and a queue by ends is the store's own matter.
#![tactic(auto)]

mod laws;
mod queue;
mod sorted_name;
mod store;
mod table;
#[cfg(test)]
mod tests;

pub use laws::{one_count, purge_changes_no_answer};
pub use store::AnswerStore;
