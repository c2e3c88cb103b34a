//! What every other crate stands on: lists that contracts see as lists, the refusal of a text at a place, byte
//! classes, and the outside as two traits, a source and a sink of bytes, each with a count of its faults.
#![tactic(auto)]

mod class_table;
mod classes;
mod duplicate;
mod list;
mod memory_sink;
mod memory_source;
mod moment;
mod refusal;
mod sink;
mod source;
mod std_sink;
mod std_source;
#[cfg(test)]
mod tests;

pub use class_table::ClassTable;
pub use classes::{
    after_backslash_table, contiguous_value_table, host_name_table, quoted_text_table,
    quoted_value_table, record_key_table, token_table,
};
pub use duplicate::Duplicate;
pub use list::{Bytes, Calls, ListOf, Text, Words};
pub use memory_sink::MemorySink;
pub use memory_source::MemorySource;
pub use moment::Moment;
pub use refusal::{At, Failed, NoMemory, Refused};
pub use sink::{Sink, write_all};
pub use source::Source;
pub use std_sink::StdSink;
pub use std_source::StdSource;
