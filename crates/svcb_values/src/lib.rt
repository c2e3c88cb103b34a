//! The values of parameters in text (RFC 9460 2.1, 7, 8 and appendix A): their strings, the names of keys, what a string
//! stands for by its key, and what is written for a value.
#![tactic(auto)]

mod hints;
mod ids;
mod key_names;
mod list_writer;
mod mandatory;
mod port;
mod quoting;
mod string_fault;
mod string_laws;
mod strings;
mod token;
mod unescaped;
mod value_laws;
mod values;

pub use key_names::{key_name, key_named};
pub use list_writer::{append_joined, id_texts, key_texts, v4_texts, v6_texts};
pub use quoting::in_quotes;
pub use string_fault::StringFault;
pub use string_laws::{one_string, strings_are_read, strings_hold_bytes};
pub use strings::read_string;
pub use token::Style;
pub use unescaped::Unescaped;
pub use value_laws::{keys_are_named, values_are_read};
pub use values::read_value;
