//! The values of the fields Alt-Svc and Alt-Used (RFC 7838), read and written.
//!
//! In `specs/` a file `..Grammar` says what is spelled by how a text splits, `ValueRefusals` and `UsedGrammar` have one
//! record for each row of the tables of refusals, with its place, and a file `..Reading` is the function that the
//! code's contracts cite. `Written` and `Shown` are the texts that are written. In `laws` public functions with empty
//! bodies join them: what is read is so spelled and what is spelled is read, each text is one value or one refusal and
//! never both, and what is written is read back.
#![tactic(auto)]

mod alt;
mod alt_key;
mod alt_svc;
mod authority;
mod element;
mod elements;
mod given;
mod laws;
mod parameters;
mod protocol;
mod refusal;
mod seen;
mod show;
mod terms;
#[cfg(test)]
mod tests;
mod unquoted;
mod used;
mod value;
mod written;

pub use alt::{Alt, Alts};
pub use alt_key::{AltKey, same_key};
pub use alt_svc::AltSvc;
pub use laws::{
    authorities_are_read, one_alt_svc, one_alt_used, one_key_where_equal,
    spelled_used_values_are_valid, spelled_values_are_valid, used_values_are_read, values_are_read,
    written_used_values_are_read_back, written_values_are_read_back,
};
pub use refusal::{AltRefusal, UsedRefusal};
pub use show::show_text;
pub use used::{parse_alt_used, write_alt_used};
pub use value::parse;
pub use written::write;
