//! The payload of the ALTSVC frame (RFC 7838 4): an origin and the value of an Alt-Svc field, read and written.
#![tactic(auto)]

mod frame;
mod laws;
mod reading;
mod refusal;
#[cfg(test)]
mod tests;
mod written;

pub use frame::AltFrame;
pub use laws::{one_alt_frame, payloads_are_read, written_frames_are_read};
pub use reading::parse;
pub use refusal::AltFrameRefusal;
pub use written::write;
