use crate::{Brought, Readers};
use h2_framing::Frame;

// The two pieces of an ORIGIN frame of two octets; the front of a frame of three octets that is passed; an empty ORIGIN
// frame, and the head of one of 16,385 octets.
const FRONT: [u8; 5] = [0, 0, 2, 12, 0];

const END: [u8; 6] = [0, 0, 0, 0, 7, 8];

const PASSED: [u8; 10] = [0, 0, 3, 0, 0, 0, 0, 0, 1, 5];

const LONG: [u8; 18] = [0, 0, 0, 12, 0, 0, 0, 0, 0, 0, 64, 1, 12, 0, 0, 0, 0, 0];

#[test]
fn pieces_of_three_connections(rt: HostRuntime) {
    let mut readers = Readers::new(rt.alloc());
    for (conn, piece, count, length, held) in [
        (1_u64, FRONT.as_slice(), 0_usize, None, 5_u32),
        (2, PASSED.as_slice(), 0, None, 9),
        (1, END.as_slice(), 1, None, 0),
        (3, LONG.as_slice(), 1, Some(16_385_u32), 0),
        (2, [5, 5].as_slice(), 1, None, 0),
    ] {
        let Ok(Brought { frames, too_large }) = readers.feed(conn, piece) else {
            panic!(rt; "memory");
        };
        assert_eq!(rt; frames.len(), count);
        assert!(rt; too_large == length);
        assert_eq!(rt; readers.held(conn), held);
    }
}

#[test]
fn a_payload_in_two_pieces(rt: HostRuntime) {
    let mut readers = Readers::new(rt.alloc());
    let Ok(_) = readers.feed(1, &FRONT) else {
        panic!(rt; "the front");
    };
    let Ok(brought) = readers.feed(1, &END) else {
        panic!(rt; "the end");
    };
    let Some(Frame::Kept { head: _, payload }) = brought.frames.get(0) else {
        panic!(rt; "the frame");
    };
    assert!(rt; payload.as_slice() == [7, 8].as_slice());
}

#[test]
fn a_connection_that_is_forgotten(rt: HostRuntime) {
    let mut readers = Readers::new(rt.alloc());
    let Ok(_) = readers.feed(1, &FRONT) else {
        panic!(rt; "the front");
    };
    let Ok(_) = readers.feed(2, &PASSED) else {
        panic!(rt; "another");
    };
    readers.forget(1);
    assert_eq!(rt; readers.held(1), 0);
    assert_eq!(rt; readers.held(2), 9);
}
