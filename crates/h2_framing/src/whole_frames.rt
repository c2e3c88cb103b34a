ghost use Rattle.std.specs.Prelude.{◌≡◌, ◌≤◌, length, IfOk};
ghost use Rattle.h2_framing.specs.Steps.{AppendsFrames};

use crate::Frames;
use crate::frame::make_frame;
use crate::head::{HEAD_OCTETS, LENGTH_LIMIT, read_head};
use alt_base::NoMemory;
use std::alloc::Global;

/// What stands behind the whole frames at the front of some octets.
pub(crate) enum FramesEnd {
    /// Less than a whole frame, from this place on.
    Rest { place: usize },
    /// A head that gives a length above the limit.
    TooLarge { length: u32 },
}

/// Appends the whole frames at the front of some octets.
pub(crate) fn append_whole_frames(
    alloc: Global,
    frames: &mut Frames,
    octets: &[u8],
) -> Result<FramesEnd, NoMemory>
    ensures { IfOk result (λ at. AppendsFrames at octets.now frames.old frames.new) }
{
    let mut place = 0;
    while octets.len() - place >= HEAD_OCTETS {
        let rest = &octets[place..];
        let head = read_head(rest);
        if head.length > LENGTH_LIMIT {
            return Ok(FramesEnd::TooLarge {
                length: head.length,
            });
        }
        let end = HEAD_OCTETS + head.length as usize;
        if rest.len() < end {
            return Ok(FramesEnd::Rest { place });
        }
        frames.push(make_frame(alloc, head, &rest[9..end])?)?;
        place += end;
    }
    Ok(FramesEnd::Rest { place })
}
