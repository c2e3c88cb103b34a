//! The text of SVCB and HTTPS records (RFC 9460 2.1 and appendix A): one record's RDATA on one line.
#![tactic(auto)]

mod laws;
mod param_writer;
mod params;
mod reader;
mod refusal;
mod sizes;
#[cfg(test)]
mod tests;
mod writer;
mod written_laws;
#[cfg(test)]
mod written_tests;

pub use laws::{one_record_text, record_texts_are_read, spelled_record_texts};
pub use reader::parse;
pub use refusal::RecordTextRefusal;
pub use writer::write;
pub use written_laws::written_record_texts_are_read_back;
