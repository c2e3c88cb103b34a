//! The server's end: which origins it serves, and the frames by which it says so (RFC 8336) and advertises alternatives
//! for them (RFC 7838 4).
//!
//! `specs/` speaks of the list of acts that were accepted, the newest first: which origins are served and in which order
//! they are listed (`ServedList`), the messages that were made (`Messages`), and why an act is refused (`Refusals`).
//! `StandsFor` says for which lists of acts an advertiser stands, and each call's contract what becomes of these.
#![tactic(auto)]

mod advertiser;
mod answer;
mod fault;
mod laws;
mod message;
mod messages;
mod payloads;
#[cfg(test)]
mod tests;

pub use advertiser::Advertiser;
pub use answer::Answer;
pub use fault::{NotServed, ServerFault};
pub use laws::{messages_are_read, messages_are_whole, messages_stay, one_served_list};
pub use message::Message;
