use crate::{Fed, Frame, FrameReader, Frames, Head, write_frame};
use alt_base::{Duplicate, NoMemory};
use std::alloc::Global;

// Five frames: an empty ORIGIN, an ALTSVC of three octets, one of two octets that is passed with the reserved bit set,
// an ORIGIN of one octet, and an empty one that is passed.
const STREAM: [u8; 51] = [
    0, 0, 0, 12, 0, 0, 0, 0, 0, //
    0, 0, 3, 10, 0, 0, 0, 0, 1, 7, 8, 9, //
    0, 0, 2, 0, 1, 128, 0, 0, 3, 5, 6, //
    0, 0, 1, 12, 2, 0, 0, 0, 0, 4, //
    0, 0, 0, 4, 1, 0, 0, 0, 0,
];

// Feeds a piece and appends its frames; None where it doesn't go on.
fn feed_on(
    alloc: Global,
    reader: FrameReader,
    frames: &mut Frames,
    piece: &[u8],
) -> Result<Option<FrameReader>, NoMemory> {
    let Fed::Going {
        reader: next,
        frames: more,
    } = reader.feed(piece)?
    else {
        return Ok(None);
    };
    for frame in more.as_slice() {
        frames.push(frame.copy(alloc)?)?;
    }
    Ok(Some(next))
}

// All frames of the stream, cut at two places.
fn cut_at(alloc: Global, first: usize, second: usize) -> Result<Option<Frames>, NoMemory> {
    let mut frames = Frames::new(alloc);
    let (front, behind) = STREAM.split_at(first.min(STREAM.len()));
    let (middle, end) = behind.split_at(second.min(behind.len()));
    let Some(reader) = feed_on(alloc, FrameReader::new(alloc), &mut frames, front)? else {
        return Ok(None);
    };
    let Some(reader) = feed_on(alloc, reader, &mut frames, middle)? else {
        return Ok(None);
    };
    let Some(reader) = feed_on(alloc, reader, &mut frames, end)? else {
        return Ok(None);
    };
    if reader.rest() == 0 && reader.held() == 0 {
        return Ok(Some(frames));
    }
    Ok(None)
}

#[test]
fn a_stream_cut_at_two_places(rt: HostRuntime) {
    let alloc = rt.alloc();
    let Ok(Some(whole)) = cut_at(alloc, 51, 0) else {
        panic!(rt; "the whole stream");
    };
    assert_eq!(rt; whole.len(), 5);
    for first in 0..51 {
        for second in 0..(51 - first) {
            let Ok(Some(frames)) = cut_at(alloc, first, second) else {
                panic!(rt; "cut at {first} and {second} behind it");
            };
            assert!(rt; frames == whole);
        }
    }
}

#[test]
fn a_stream_cut_after_every_octet(rt: HostRuntime) {
    let alloc = rt.alloc();
    let Ok(Some(whole)) = cut_at(alloc, 51, 0) else {
        panic!(rt; "the whole stream");
    };
    let mut frames = Frames::new(alloc);
    let mut reader = FrameReader::new(alloc);
    for octet in STREAM {
        match feed_on(alloc, reader, &mut frames, &[octet]) {
            Ok(Some(next)) => reader = next,
            _ => panic!(rt; "an octet"),
        }
    }
    assert!(rt; frames == whole);
    assert_eq!(rt; reader.rest(), 0);
}

#[test]
fn the_frames_of_the_stream(rt: HostRuntime) {
    let alloc = rt.alloc();
    let Ok(Some(frames)) = cut_at(alloc, 51, 0) else {
        panic!(rt; "the whole stream");
    };
    let Some(Frame::Kept { head, payload }) = frames.get(1) else {
        panic!(rt; "the second frame");
    };
    assert_eq!(rt; head.length, 3);
    assert_eq!(rt; head.kind, 10);
    assert_eq!(rt; head.stream, 1);
    assert!(rt; payload.as_slice() == [7, 8, 9].as_slice());
    let Some(Frame::Passed { head }) = frames.get(2) else {
        panic!(rt; "the third frame");
    };
    assert_eq!(rt; head.flags, 1);
    assert_eq!(rt; head.stream, 3);
}

#[test]
fn a_payload_that_is_passed_is_only_counted(rt: HostRuntime) {
    let Ok(Fed::Going { reader, frames }) = FrameReader::new(rt.alloc()).feed(&[
        0, 64, 0, 0, 0, 0, 0, 0, 1,
    ]) else {
        panic!(rt; "the head");
    };
    assert_eq!(rt; frames.len(), 0);
    let mut reader = reader;
    for _ in 0..16_383 {
        match reader.feed(&[0]) {
            Ok(
                Fed::Going {
                    reader: next,
                    frames: _,
                },
            ) => reader = next,
            _ => panic!(rt; "an octet"),
        }
    }
    assert_eq!(rt; reader.rest(), 16_392);
    assert_eq!(rt; reader.held(), 9);
    let Ok(Fed::Going { reader, frames }) = reader.feed(&[0]) else {
        panic!(rt; "the last octet");
    };
    assert_eq!(rt; frames.len(), 1);
    assert!(rt; matches!(frames.get(0), Some(Frame::Passed { head: _ })));
    assert_eq!(rt; reader.rest(), 0);
    assert_eq!(rt; reader.held(), 0);
}

#[test]
fn the_largest_frame_is_kept(rt: HostRuntime) {
    let Ok(Fed::Going { reader, frames: _ }) = FrameReader::new(rt.alloc()).feed(&[
        0, 64, 0, 12, 0, 0, 0, 0, 0,
    ]) else {
        panic!(rt; "the head");
    };
    let Ok(Fed::Going { reader, frames }) = reader.feed(&[65; 16_384]) else {
        panic!(rt; "the payload");
    };
    assert_eq!(rt; frames.len(), 1);
    let Some(Frame::Kept { head, payload }) = frames.get(0) else {
        panic!(rt; "the frame");
    };
    assert_eq!(rt; head.length, 16_384);
    assert_eq!(rt; payload.len(), 16_384);
    assert_eq!(rt; reader.held(), 0);
}

#[test]
fn a_longer_head_stops_at_its_ninth_octet(rt: HostRuntime) {
    let front = [0, 0, 0, 12, 0, 0, 0, 0, 0, 0, 64, 1, 0, 0, 0, 0, 0];
    let Ok(Fed::Going { reader, frames }) = FrameReader::new(rt.alloc()).feed(&front) else {
        panic!(rt; "eight octets of the head");
    };
    assert_eq!(rt; frames.len(), 1);
    assert_eq!(rt; reader.rest(), 8);
    let Ok(Fed::TooLarge { frames, length }) = reader.feed(&[1]) else {
        panic!(rt; "the ninth octet");
    };
    assert_eq!(rt; frames.len(), 0);
    assert_eq!(rt; length, 16_385);
}

#[test]
fn frames_before_a_longer_head(rt: HostRuntime) {
    let piece = [0, 0, 0, 12, 0, 0, 0, 0, 0, 0, 64, 1, 12, 0, 0, 0, 0, 0];
    let Ok(Fed::TooLarge { frames, length }) = FrameReader::new(rt.alloc()).feed(&piece) else {
        panic!(rt; "both heads");
    };
    assert_eq!(rt; frames.len(), 1);
    assert_eq!(rt; length, 16_385);
}

#[test]
fn an_empty_frame_is_nine_octets(rt: HostRuntime) {
    let head = Head {
        length: 0,
        kind: 12,
        flags: 0,
        stream: 0,
    };
    let octets = write_frame(rt.alloc(), &head, &[]).expect(&rt, "memory");
    assert!(rt; octets.as_slice() == [0, 0, 0, 12, 0, 0, 0, 0, 0].as_slice());
}
