ghost use Rattle.std.specs.Prelude.{◌≡◌, length, IfOk};
ghost use Rattle.h2_framing.specs.Frames.{is_kept, frame_of};

use crate::Head;
use alt_base::{Bytes, Duplicate, ListOf, NoMemory};
use std::alloc::Global;

/// A frame: its payload is kept where it is an ALTSVC frame (kind 10, RFC 7838 4) or an ORIGIN frame (kind 12,
/// RFC 8336 2).
#[derive(Debug, PartialEq, Eq, Hash, Drop)]
pub enum Frame {
    /// A frame of kind 10 or 12.
    Kept { head: Head, payload: Bytes },
    /// A frame of another kind.
    Passed { head: Head },
}

/// Frames in the order of their last octets.
pub type Frames = ListOf<Frame>;

impl Duplicate for Frame {
    fn copy(&self, alloc: Global) -> Result<Self, NoMemory> {
        match self {
            Frame::Kept { head, payload } => {
                Ok(Frame::Kept {
                    head: *head,
                    payload: payload.copy(alloc)?,
                })
            }
            Frame::Passed { head } => Ok(Frame::Passed { head: *head }),
        }
    }
}

/// The payload of a frame of this kind is kept.
pub(crate) fn is_kept_kind(kind: u8) -> bool
    ensures { result ≡ is_kept kind }
{
    kind == 10 || kind == 12
}

/// The frame of a head and its payload.
pub(crate) fn make_frame(alloc: Global, head: Head, payload: &[u8]) -> Result<Frame, NoMemory>
    ensures { IfOk result (λ frame. frame ≡ frame_of head payload.now) }
{
    if is_kept_kind(head.kind) {
        Ok(Frame::Kept {
            head,
            payload: Bytes::from_vec(Vec::from_slice(alloc, payload)?),
        })
    } else {
        Ok(Frame::Passed { head })
    }
}
