ghost use Rattle.std.specs.Prelude.{◌≡◌, ◌≤◌, ◌<◌, ◌+◌, ◌-◌, ◌^◌, [], ℕ, List, length, IfOk, OnOk};
ghost use Rattle.h2_framing.specs.Frames.{head_of, IsUnfinished};
ghost use Rattle.h2_framing.specs.Streams.{rest_of};
ghost use Rattle.h2_framing.specs.Reading.{StandsFor, AnswersPiece, Keeps, held_count, buffer_of};
ghost use Rattle.h2_framing.specs.Steps.{FillsHead, TakesMore, ContinuesPayload, ContinuesFrame, FedFromHead};

use crate::continued::Continued;
use crate::frame::{is_kept_kind, make_frame};
use crate::head::{HEAD_OCTETS, LENGTH_LIMIT, read_head};
use crate::whole_frames::{FramesEnd, append_whole_frames};
use crate::{Fed, Frames, Head};
use alt_base::NoMemory;
use std::alloc::Global;

/// Reads the frames of a stream that comes in any pieces. Of an unfinished frame it holds the octets in a buffer, and
/// of one whose payload won't be kept the head alone and the number of the octets behind it.
#[derive(Debug, Drop)]
pub struct FrameReader {
    alloc: Global,
    buffer: Vec<u8>,
    skipped: u32,
}

impl FrameReader {
    /// A reader for the empty stream. It takes no memory.
    pub fn new(alloc: Global) -> FrameReader
        ensures { StandsFor result [] }
    {
        FrameReader {
            alloc,
            buffer: Vec::new(alloc),
            skipped: 0,
        }
    }

    /// How many octets of an unfinished frame were fed. It takes no memory.
    pub fn rest(&self) -> u32
        ensures { (x : List ℕ) → StandsFor self.now x → result ≡ length (rest_of x) }
    {
        self.held().saturating_add(self.skipped)
    }

    /// How many octets are in the buffer: all of an unfinished frame's, or its head's nine where its payload won't be
    /// kept. At most 16,392: so many has the largest frame without its last octet, of which 9 are held where it will be
    /// passed, and 16,383 only counted. It takes no memory.
    pub fn held(&self) -> u32
        ensures buffer { (x : List ℕ) → StandsFor self.now x → result ≡ length (buffer_of self.now) }
        ensures count { (x : List ℕ) → StandsFor self.now x → result ≡ held_count (rest_of x) }
        ensures at_most { result ≤ 16392 }
    {
        self.buffer.len().min(16_392) as u32
    }

    /// Takes the next piece of the stream. Going comes with the frames whose last octet lies in the piece. TooLarge
    /// comes exactly where a head in the stream so far gives a length above 16,384 (RFC 9113 4.2), as soon as the
    /// head's ninth octet is there, with the frames before it. After NoMemory the reader is gone.
    pub fn feed(self, piece: &[u8]) -> Result<Fed, NoMemory>
        ensures { (x : List ℕ) → StandsFor self x → AnswersPiece result x piece.now }
    {
        let mut reader = self;
        let mut frames = Frames::new(reader.alloc);
        if reader.buffer.is_empty() {
            return reader.feed_from_head(frames, piece);
        }
        match reader.continue_frame(&mut frames, piece)? {
            Continued::Unfinished => Ok(Fed::Going { reader, frames }),
            Continued::TooLarge { length } => Ok(Fed::TooLarge { frames, length }),
            Continued::Whole { count } => reader.feed_from_head(frames, &piece[count..]),
        }
    }

    // Takes a piece that begins with a frame's head.
    fn feed_from_head(self, frames: Frames, piece: &[u8]) -> Result<Fed, NoMemory>
        requires { self.buffer.items ≡ [] }
        ensures { IfOk result (λ fed. FedFromHead fed frames piece.now) }
    {
        let mut reader = self;
        let mut frames = frames;
        match append_whole_frames(reader.alloc, &mut frames, piece)? {
            FramesEnd::TooLarge { length } => {
                let before = frames;
                Ok(Fed::TooLarge {
                    frames: before,
                    length,
                })
            }
            FramesEnd::Rest { place } => {
                reader.begin_frame(&piece[place..])?;
                Ok(Fed::Going { reader, frames })
            }
        }
    }

    // Goes on with an unfinished frame.
    fn continue_frame(&mut self, frames: &mut Frames, piece: &[u8]) -> Result<Continued, NoMemory>
        ensures { IfOk result (λ continued. ContinuesFrame continued self.old self.new frames.old frames.new piece.now) }
    {
        let count = self.fill_head(piece)?;
        if self.buffer.len() < HEAD_OCTETS {
            return Ok(Continued::Unfinished);
        }
        let head = read_head(self.buffer.as_slice());
        if head.length > LENGTH_LIMIT {
            return Ok(Continued::TooLarge {
                length: head.length,
            });
        }
        match self.continue_payload(head, frames, &piece[count..])? {
            Some(more) => Ok(Continued::Whole {
                count: count + more,
            }),
            None => Ok(Continued::Unfinished),
        }
    }

    // Takes octets until the head is whole: how many.
    fn fill_head(&mut self, piece: &[u8]) -> Result<usize, NoMemory>
        ensures { IfOk result (λ count. FillsHead count self.old self.new piece.now) }
    {
        let held = self.buffer.len();
        if held >= HEAD_OCTETS {
            return Ok(0);
        }
        let count = (HEAD_OCTETS - held).min(piece.len());
        self.buffer.extend_from_slice(&piece[..count])?;
        Ok(count)
    }

    // Goes on with the payload behind a head: how many octets end it, where it ends.
    fn continue_payload(
        &mut self,
        head: Head,
        frames: &mut Frames,
        piece: &[u8],
    ) -> Result<Option<usize>, NoMemory>
        requires whole { 9 ≤ length self.old.buffer.items }
        requires head { head ≡ head_of self.old.buffer.items }
        requires within { head.length ≤ 16384 }
        ensures { IfOk result (λ end. ContinuesPayload end head self.old self.new frames.old frames.new piece.now) }
    {
        let need = self.lacking(head);
        if piece.len() < need {
            self.take_more(head.kind, piece)?;
            return Ok(None);
        }
        self.take_more(head.kind, &piece[..need])?;
        let frame = make_frame(self.alloc, head, &self.buffer.as_slice()[9..])?;
        frames.push(frame)?;
        self.buffer.clear();
        Ok(Some(need))
    }

    // How many octets an unfinished frame of this head lacks.
    fn lacking(&self, head: Head) -> usize
        requires { head.length ≤ 16384 }
        ensures lacks { result ≡ 9 + head.length - (length self.now.buffer.items + self.now.skipped) }
        ensures counted { self.now.skipped < 2 ^ 32 }
    {
        (HEAD_OCTETS + head.length as usize)
            .saturating_sub(self.buffer.len())
            .saturating_sub(self.skipped as usize)
    }

    // Holds more octets of a payload that is kept, and only counts those of another one.
    fn take_more(&mut self, kind: u8, octets: &[u8]) -> Result<(), NoMemory>
        requires { self.old.skipped + length octets.now < 2 ^ 32 }
        ensures takes { OnOk result (TakesMore kind self.old self.new octets.now) }
        ensures longer { OnOk result (length self.old.buffer.items ≤ length self.new.buffer.items) }
    {
        if is_kept_kind(kind) {
            self.buffer.extend_from_slice(octets)?;
        } else {
            self.skipped += octets.len() as u32;
        }
        Ok(())
    }

    // Holds the front of an unfinished frame.
    fn begin_frame(&mut self, rest: &[u8]) -> Result<(), NoMemory>
        requires empty { self.old.buffer.items ≡ [] }
        requires part { IsUnfinished rest.now }
        ensures { OnOk result (Keeps self.new.buffer.items self.new.skipped rest.now) }
    {
        if rest.len() < HEAD_OCTETS || is_kept_kind(rest[3]) {
            self.skipped = 0;
            self.buffer.extend_from_slice(rest)?;
        } else {
            self.skipped = (rest.len() - HEAD_OCTETS) as u32;
            self.buffer.extend_from_slice(&rest[..HEAD_OCTETS])?;
        }
        Ok(())
    }
}
