//! The payload of the ORIGIN frame (RFC 8336): the origins that it lists, read and written.
#![tactic(auto)]

mod laws;
mod listed;
mod over_fault;
mod reading;
mod refusal;
#[cfg(test)]
mod tests;
mod written;

pub use laws::{one_listed, payloads_are_read, written_origins_are_listed};
pub use listed::{Listed, Origins};
pub use over_fault::OverFault;
pub use reading::parse;
pub use refusal::OriginFrameRefusal;
pub use written::write;
