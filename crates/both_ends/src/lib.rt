//! Both ends in one history: a client, and a server whose messages reach it.
//!
//! A history is the list of what happened, the newest first (`specs/Histories`). It tells the server's acts and the
//! client's journal. `specs/ServerActs` says what an act of the server is to either end, `Refusals` why it is refused,
//! `StandsFor` for which histories both ends stand, and `Deliveries` what a delivery can bring.
#![tactic(auto)]

mod both_ends;
mod consult;
mod fault;
mod laws;
mod output;
mod refusal;

pub use both_ends::BothEnds;
pub use fault::{EndFault, EndRefusal};
pub use laws::{
    each_end_alone, live_by_a_delivery, misdirected_until_listed, what_the_server_gives,
};
pub use output::{Output, ServerOutput};
pub use refusal::ServerRefusal;
