//! The names of a certificate, their text, and the hosts that they cover; and connections by the addresses and the ports at
//! which they end.
//!
//! `specs/ByAddress` says what an index of addresses holds, as a map from an address and a port to numbers. The contracts
//! say nothing else of it: that it is an index by addresses, and one by numbers beside it, is its own matter.
#![tactic(auto)]

mod address_index;
mod by_peer;
mod cert_name;
mod covering;
mod laws;
mod lists;
mod names;
mod peer;
mod refusal;
#[cfg(test)]
mod tests;
mod written;

pub use address_index::AddressIndex;
pub use cert_name::{CertName, CertNames};
pub use covering::covers;
pub use laws::{covering_is_exact, names_are_read, one_names, written_names_are_read_back};
pub use names::parse_names;
pub use refusal::CertRefusal;
pub use written::write_names;
