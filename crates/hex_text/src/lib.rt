//! What hex digits spell, in words of a grammar, and that they are read so.
#![tactic(auto)]

mod laws;

pub use laws::hex_is_read;
