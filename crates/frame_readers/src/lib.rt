//! The readers of HTTP/2 frames of a client, one for each connection on which octets came.
//!
//! `specs/Readers` says what the table holds of each connection: the unfinished frame at the end of its stream.
#![tactic(auto)]

mod brought;
mod laws;
mod readers;

pub use brought::Brought;
pub use laws::fresh_readers_stand;
pub use readers::{ReaderOf, Readers};

#[cfg(test)]
mod tests;
