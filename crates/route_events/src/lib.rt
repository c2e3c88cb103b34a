//! What a client is told and what it does, and the rules of the journal: the whole history of both, from which each
//! question is answered.
#![tactic(auto)]

mod action;
mod answer;
mod attempt;
mod connection;
mod fact;
mod histories;
mod laws;
mod protocols;
mod reach;
mod refusal;
mod request;
mod route;

pub use action::{Action, Actions, Conns};
pub use answer::{AnswerBody, Rdatas};
pub use attempt::Attempt;
pub use connection::Connection;
pub use fact::Fact;
pub use histories::{
    worked_alternatives, worked_answers, worked_coalescing, worked_frames, worked_histories,
};
pub use laws::{
    answers_in_words, each_action, failures_in_words, live_in_words, nothing_elsewhere,
    only_candidates, open_goes_on, outstanding_in_words, pieces_join, refused_only_where,
    sent_only_on, settles_once, waits_only_for,
};
pub use protocols::{is_supported, protocols_of};
pub use reach::Reach;
pub use refusal::StepRefusal;
pub use request::Request;
pub use route::{Route, Routes, same_route};
