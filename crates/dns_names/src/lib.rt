//! Names of the domain name system: on the wire (RFC 1035 3.1) and in text (RFC 1035 5.1).
#![tactic(auto)]

mod laws;
mod name;
mod part;
mod refusal;
#[cfg(test)]
mod tests;
mod text;
mod text_writer;
mod token;
mod wire;

pub use laws::{
    one_text_name, one_wire_name, text_means, text_names, text_reads_back, wire_means, wire_names,
    wire_reads_back,
};
pub use name::Name;
pub use part::{decimal_byte, write_part};
pub use refusal::NameRefusal;
