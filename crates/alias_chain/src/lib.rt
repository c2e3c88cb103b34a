//! The endpoints of an origin by its HTTPS records (RFC 9460 2.4 and 3): which name is asked for, how aliases lead on
//! from it, and which endpoints the records of the last name give, the preferred ones first.
#![tactic(auto)]

mod answers;
mod endpoint;
mod found;
mod held;
mod laws;
mod lists;
#[cfg(test)]
mod memory_answers;
mod query;
mod ranked;
#[cfg(test)]
mod tests;
mod walk;

pub use answers::Answers;
pub use endpoint::Endpoint;
pub use found::endpoints;
pub use held::{Held, is_in_force};
pub use laws::{endpoints_exist, endpoints_have_a_source, one_list_of_endpoints, one_walk};
pub use lists::{Endpoints, SvcbSet};
