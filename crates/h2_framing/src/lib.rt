//! HTTP/2 frames: a reader that takes a stream of octets in whatever pieces it comes, and a writer of frames.
#![tactic(auto)]

mod continued;
mod fed;
mod frame;
mod head;
mod laws;
mod reader;
mod whole_frames;
mod writer;

pub use fed::Fed;
pub use frame::{Frame, Frames};
pub use head::Head;
pub use laws::{
    pieces_bring_the_frames_of_the_whole, stream_has_one_split, too_large_stays,
    two_pieces_are_one, written_frame_is_read,
};
pub use reader::FrameReader;
pub use writer::write_frame;

#[cfg(test)]
mod tests;
