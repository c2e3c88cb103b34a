//! SVCB and HTTPS records (RFC 9460): their values, their wire form, and which of them a client can use.
#![tactic(auto)]

mod laws;
mod lists;
mod param;
mod reader;
mod refusal;
mod svcb;
#[cfg(test)]
mod tests;
mod usable;
mod value_writer;
mod values;
mod writer;

pub use laws::{one_record, record_means, record_reads_back, spelled_records};
pub use lists::{Ids, Keys, Params, V4s, V6s};
pub use param::{Param, param_key};
pub use reader::parse;
pub use refusal::WireRefusal;
pub use svcb::Svcb;
pub use usable::{compatible, consistent, protocols};
pub use value_writer::param_value;
pub use writer::write;
