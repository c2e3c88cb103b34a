//! The client: it is told what happened, and answers what to do. Each step is the step of the journal's rules.
#![tactic(auto)]

mod answer;
mod course;
mod dns_answer;
mod effect;
mod fault;
mod frame;
mod laws;
mod misdirection;
mod notes;
mod octets;
mod question;
mod reason;
mod router;

pub use fault::StepFault;
pub use laws::alike_histories;
pub use request_dispatch::Lent;
pub use router::Router;
