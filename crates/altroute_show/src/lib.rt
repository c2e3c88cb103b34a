//! Shows and writes what the wire and a text spell: an Alt-Svc value, a SVCB or HTTPS record, HTTP/2 frames. Also what
//! each status of a run says, and what a run sees of its devices.
#![tactic(auto)]

mod frame_laws;
mod frame_lines;
mod frame_steps;
mod frame_turns;
mod frames_so_far;
mod give;
mod given;
mod record_form;
mod record_json;
mod show_altsvc;
mod show_https;
mod status;
mod texts;
mod whole_command;
mod whole_input;
mod whole_laws;
mod whole_run;
mod write_https;

pub use frame_laws::{frames_are_shown, frames_stop_stays, frames_text_grows};
pub use frame_turns::show_frames;
pub use given::Given;
pub use record_form::RecordForm;
pub use status::Status;
pub use texts::{put, put_number};
pub use whole_command::WholeCommand;
pub use whole_laws::{records_are_shown, records_are_written, values_are_shown};
pub use whole_run::run_whole;
