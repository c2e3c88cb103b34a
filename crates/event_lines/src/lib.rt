//! The lines of a history: what a line says, and the lines that events and actions are written as.
#![tactic(auto)]

mod action_line;
#[cfg(test)]
mod action_tests;
mod answer_items;
mod answer_kind;
mod answer_line;
mod event;
mod event_line;
mod fields;
mod kinds;
mod laws;
mod line_reader;
mod number;
mod part;
mod pieces;
mod protocols;
mod reading;
mod refusal;
mod response;
mod response_field;
mod route_words;
mod server_act;
mod server_kinds;
mod server_line;
#[cfg(test)]
mod tests;

pub use action_line::write_action;
pub use event::Event;
pub use event_line::write_event;
pub use laws::{lines_are_read, one_line, spelled_events_are_valid, written_events_are_read_back};
pub use reading::read_line;
pub use refusal::LineRefusal;
pub use server_act::ServerAct;
