use super::*;
use crate::tests::{Gave, bytes_of, calls, shown, words};
use alt_base::{Failed, MemorySink, MemorySource, Source};
use std::test::Fail;

/// A source that gives at most one octet a read.
#[derive(Drop)]
struct OneOctet<S> {
    inner: S,
}

impl<S: Source> Source for OneOctet<S> {
    ghost left = { λ s. S.left s.inner };

    ghost ended = { λ s. S.ended s.inner };

    ghost faults = { λ s. S.faults s.inner };

    fn read(&mut self, buf: &mut [u8]) -> Result<usize, Failed> {
        let most = buf.len().min(1);
        self.inner.read(&mut buf[..most])
    }
}

// What the octets of an input give that are read one at a time, where some reads fail.
fn one_by_one(alloc: Global, octets: &[u8], failing_reads: &[u32]) -> Result<Gave, Fail> {
    let mut source = OneOctet {
        inner: MemorySource::new(bytes_of(alloc, octets)?, calls(alloc, failing_reads)?),
    };
    let mut sink = MemorySink::new(alloc, 100_000, calls(alloc, &[])?)?;
    let status = run(
        alloc,
        &words(alloc, &[b"show", b"frames"])?,
        &mut source,
        &mut sink,
    );
    Ok(Gave {
        status: status.number(),
        written: Vec::from_slice(alloc, sink.bytes())?,
    })
}

// Octets, what is written for them, and the status.
const ROWS: [(&[u8], &[u8], u8); 18] = [
    (b"", b"", 0),
    (
        b"\x00\x00$\n\x00\x00\x00\x00\x00\x00\x11https://a.exampleh2=\":8443\"; ma=60\x00\x00*\x0c\x00\x00\x00\x00\x00\x00\x11https://a.example\x00\x15https://b.example:443\x00\x00\x06\x04\x00\x00\x00\x00\x00\x00\x00\x00\x00\x00\x00",
        b"altsvc 0 https://a.example h2=\":8443\"; ma=60\norigin 0 1 https://a.example\npassed 4 6 0\n",
        0,
    ),
    (
        b"\x00\x00\x07\n\x00\x00\x00\x00\x01\x00\x00clear\x00\x00\x00\x04\x00\x00\x00\x00\x00\x00\x00",
        b"altsvc 1 - clear\npassed 4 0 0\nrefused 2 at 27\n",
        1,
    ),
    // A flag above 8 is not looked at.
    (b"\x00\x00\x00\x0c\x10\x00\x00\x00\x00", b"origin 0 0\n", 0),
    (
        b"\x00\x00\x00\x0c\x04\x00\x00\x00\x00",
        b"ignored origin 0 2 0\n",
        0,
    ),
    (
        b"\x00\x00\x00\x0c\x00\x00\x00\x00\x03",
        b"ignored origin 3 1 0\n",
        0,
    ),
    (
        b"\x00\x00\x04\x0c\x00\x00\x00\x00\x00\x00\x01x\x00",
        b"ignored origin 0 3 3\n",
        0,
    ),
    (
        b"\x00\x00\x01\n\x00\x00\x00\x00\x00\x00",
        b"ignored altsvc 0 1 1\n",
        0,
    ),
    (
        b"\x00\x00\x03\n\x00\x00\x00\x00\x00\x00\x02x",
        b"ignored altsvc 0 2 0\n",
        0,
    ),
    (
        b"\x00\x00\x07\n\x00\x00\x00\x00\x00\x00\x00clear",
        b"ignored altsvc 0 3 0\n",
        0,
    ),
    (
        b"\x00\x00\x18\n\x00\x00\x00\x00\x01\x00\x11https://a.exampleclear",
        b"ignored altsvc 1 4 0\n",
        0,
    ),
    (
        b"\x00\x00\x1c\n\x00\x00\x00\x00\x00\x00\x15https://a.example:443clear",
        b"ignored altsvc 0 5 2\n",
        0,
    ),
    (
        b"\x00\x00\x15\n\x00\x00\x00\x00\x00\x00\x11https://a.exampleh2",
        b"ignored altsvc 0 6 21\n",
        0,
    ),
    // The reserved bit is not read.
    (
        b"\x00\x00\x03\x00\x01\xff\xff\xff\xffabc",
        b"passed 0 3 2147483647\n",
        0,
    ),
    // Refusal 1 comes with the ninth octet of the head.
    (b"\x00@\x01\x00\x00\x00\x00\x00\x00", b"refused 1 at 0\n", 1),
    (
        b"\x00\x00\x00\x04\x00\x00\x00\x00\x00\x00@\x01\x00\x00\x00\x00\x00\x00\x01",
        b"passed 4 0 0\nrefused 1 at 9\n",
        1,
    ),
    (b"\x00@\x01\x00\x00\x00\x00\x00", b"refused 2 at 8\n", 1),
    (b"\x00@\x00\x00\x00\x00\x00\x00\x00", b"refused 2 at 9\n", 1),
];

#[test]
fn frames(rt: HostRuntime) -> Result<(), Fail> {
    let alloc = rt.alloc();
    for (octets, written, status) in ROWS {
        let gave = shown(
            alloc,
            &[b"show", b"frames"],
            bytes_of(alloc, octets)?,
            &[],
            &[],
        )?;
        assert_eq!(rt; gave.written.as_slice(), written);
        assert_eq!(rt; gave.status, status);
        let again = one_by_one(alloc, octets, &[])?;
        assert_eq!(rt; again.written.as_slice(), written);
        assert_eq!(rt; again.status, status);
    }
    Ok(())
}

// A payload as long as it may be, over several pieces, behind and before other frames.
#[test]
fn a_long_payload(rt: HostRuntime) -> Result<(), Fail> {
    let alloc = rt.alloc();
    let mut octets = Vec::from_slice(
        alloc,
        b"\x00\x00\x00\x04\x00\x00\x00\x00\x00\x00\x40\x00\x00\x00\x00\x00\x00\x01",
    )?;
    for _ in 0..16_384 {
        octets.push(7)?;
    }
    octets.extend_from_slice(b"\x00\x00\x00\x0c\x00\x00\x00\x00\x00")?;
    let written: &[u8] = b"passed 4 0 0\npassed 0 16384 1\norigin 0 0\n";
    let gave = shown(
        alloc,
        &[b"show", b"frames"],
        bytes_of(alloc, octets.as_slice())?,
        &[],
        &[],
    )?;
    assert_eq!(rt; gave.written.as_slice(), written);
    assert_eq!(rt; gave.status, 0);
    // A fault in mid-stream leaves the lines of the frames that are whole.
    let cut = shown(
        alloc,
        &[b"show", b"frames"],
        bytes_of(alloc, octets.as_slice())?,
        &[3],
        &[],
    )?;
    assert_eq!(rt; cut.written.as_slice(), b"passed 4 0 0\n".as_slice());
    assert_eq!(rt; cut.status, 3);
    Ok(())
}

// A read that fails leaves the lines of the frames that are whole, and a head that is too large stops no octets behind it
// that weren't taken.
#[test]
fn frames_over_devices_that_fail(rt: HostRuntime) -> Result<(), Fail> {
    let alloc = rt.alloc();
    let octets: &[u8] =
        b"\x00\x00\x07\n\x00\x00\x00\x00\x01\x00\x00clear\x00\x00\x00\x04\x00\x00\x00\x00\x00\x00\x00";
    let first: &[u8] = b"altsvc 1 - clear\n";
    let both: &[u8] = b"altsvc 1 - clear\npassed 4 0 0\n";
    let rows: [(u32, &[u8]); 5] = [(1, b""), (16, b""), (17, first), (25, first), (26, both)];
    for (read, written) in rows {
        let gave = one_by_one(alloc, octets, &[read])?;
        assert_eq!(rt; gave.written.as_slice(), written);
        assert_eq!(rt; gave.status, 3);
    }
    let unwritten = shown(
        alloc,
        &[b"show", b"frames"],
        bytes_of(alloc, octets)?,
        &[],
        &[1],
    )?;
    assert_eq!(rt; unwritten.status, 4);
    assert_eq!(rt; unwritten.written.len(), 0);
    let above: &[u8] = b"\x00\x40\x01\x00\x00\x00\x00\x00\x00";
    let refused = one_by_one(alloc, above, &[10])?;
    assert_eq!(rt; refused.status, 1);
    let faulted = one_by_one(alloc, above, &[9])?;
    assert_eq!(rt; faulted.status, 3);
    assert_eq!(rt; faulted.written.len(), 0);
    Ok(())
}
