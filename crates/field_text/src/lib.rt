//! The parts of a field's value that most fields share (RFC 9110 5.6): tokens, quoted strings and blanks, and the
//! number of seconds of RFC 9111 1.2.2. Every call takes no memory and looks at each byte once.
//!
//! How a grammar is written here. In `specs/` a file `..Grammar` says what is spelled by how a text splits into parts,
//! and has one record for each row of the table of refusals, with its place; a file `..Reading` is the function on the
//! list of the bytes from a place on that the code's contract cites, beside the functions that give the parts of what
//! was read. In `laws` public functions with empty bodies join the two: what is read is so spelled, what is spelled is
//! read, each text is one value or one refusal and never both, and what is written is read back.
#![tactic(auto)]

mod blanks;
mod laws;
mod quoted_strings;
mod seconds;
#[cfg(test)]
mod tests;
mod text_refusal;
mod tokens;

pub use blanks::ows;
pub use laws::{
    blanks_mean, delta_seconds_means, one_blanks, one_delta_seconds, one_quoted, one_token,
    plain_quoted_is_read, plain_token_is_read, quoted_means, quoted_parts, token_means,
    token_parts, written_delta_seconds_is_read,
};
pub use quoted_strings::quoted;
pub use seconds::delta_seconds;
pub use text_refusal::TextRefusal;
pub use tokens::token;
