use super::*;
use alt_base::{Bytes, Calls, MemorySink, MemorySource, Text};
use std::process::Abort;
use std::test::Fail;

pub(crate) fn bytes_of(alloc: Global, bytes: &[u8]) -> Result<Bytes, Fail> {
    Ok(ListOf::from_vec(Vec::from_slice(alloc, bytes)?))
}

pub(crate) fn words(alloc: Global, all: &[&[u8]]) -> Result<Words, Fail> {
    let mut words: Words = ListOf::new(alloc);
    for word in all {
        let text: Text = bytes_of(alloc, *word)?;
        words.push(text)?;
    }
    Ok(words)
}

pub(crate) fn calls(alloc: Global, numbers: &[u32]) -> Result<Calls, Fail> {
    Ok(ListOf::from_vec(Vec::from_slice(alloc, numbers)?))
}

/// What a run gives: its status's number, and what it wrote.
#[derive(Drop)]
pub(crate) struct Gave {
    pub status: u8,
    pub written: Vec<u8>,
}

pub(crate) fn replayed(
    alloc: Global,
    input: Bytes,
    failing_reads: &[u32],
    failing_writes: &[u32],
) -> Result<Gave, Fail> {
    let mut source = MemorySource::new(input, calls(alloc, failing_reads)?);
    let mut sink = MemorySink::new(alloc, 100_000, calls(alloc, failing_writes)?)?;
    let status = run(alloc, &words(alloc, &[b"replay"])?, &mut source, &mut sink);
    Ok(Gave {
        status: status.number(),
        written: Vec::from_slice(alloc, sink.bytes())?,
    })
}

pub(crate) fn shown(
    alloc: Global,
    all: &[&[u8]],
    input: Bytes,
    failing_reads: &[u32],
    failing_writes: &[u32],
) -> Result<Gave, Fail> {
    let mut source = MemorySource::new(input, calls(alloc, failing_reads)?);
    let mut sink = MemorySink::new(alloc, 100_000, calls(alloc, failing_writes)?)?;
    let status = run(alloc, &words(alloc, all)?, &mut source, &mut sink);
    Ok(Gave {
        status: status.number(),
        written: Vec::from_slice(alloc, sink.bytes())?,
    })
}

/// An input, what is written for it, and the status.
pub(crate) type Row = (&'static [u8], &'static [u8], u8);

pub(crate) fn hold_replayed(rt: &impl Abort, alloc: Global, rows: &[Row]) -> Result<(), Fail> {
    for (input, written, status) in rows {
        let gave = replayed(alloc, bytes_of(alloc, *input)?, &[], &[])?;
        assert_eq!(rt; gave.written.as_slice(), *written);
        assert_eq!(rt; gave.status, *status);
    }
    Ok(())
}

// Values of Alt-Svc.
const VALUES: [Row; 6] = [
    (b"clear\n", b"clear\n", 0),
    (b"h2=\":443\"", b"h2 - 443 ma 86400 persist 0\n", 0),
    (b"h2=\":443\", clear", b"clear\n", 0),
    (b"", b"refused 1 at 0\n", 1),
    (b"h%32=\":443\"\n", b"refused 3 at 1\n", 1),
    // Only one newline is dropped.
    (b"clear\n\n", b"refused 8 at 5\n", 1),
];

#[test]
fn field_values(rt: HostRuntime) -> Result<(), Fail> {
    let alloc = rt.alloc();
    let show: [&[u8]; 2] = [b"show", b"altsvc"];
    for (input, written, status) in VALUES {
        let gave = shown(alloc, &show, bytes_of(alloc, input)?, &[], &[])?;
        assert_eq!(rt; gave.written.as_slice(), written);
        assert_eq!(rt; gave.status, status);
    }
    let unread = shown(alloc, &show, bytes_of(alloc, b"clear")?, &[1], &[])?;
    assert_eq!(rt; unread.status, 3);
    let unwritten = shown(alloc, &show, bytes_of(alloc, b"clear")?, &[], &[1])?;
    assert_eq!(rt; unwritten.status, 4);
    Ok(())
}

// Requests, and what is refused.
const HISTORIES: [Row; 11] = [
    (b"", b"", 0),
    (
        b"0 request 1 https://a.example\n",
        b"open 1 https://a.example direct h2,http/1.1 a.example 443\n",
        0,
    ),
    // The last line may lack its newline, and a skipped line counts.
    (
        b"# a note\n\n0 request 1 https://a.example\n0 jump",
        b"open 1 https://a.example direct h2,http/1.1 a.example 443\nrefused 4 line 2 at 2\n",
        1,
    ),
    (
        b"0 request 1 https://a.example\n0 request 1 https://b.example\n",
        b"open 1 https://a.example direct h2,http/1.1 a.example 443\nrefused 2 step 2 last 1\n",
        1,
    ),
    (
        b"0 request 1 https://a.example\n1 failed 1\n",
        b"open 1 https://a.example direct h2,http/1.1 a.example 443\nrefuse 1\n",
        0,
    ),
    (b"5 tick\n4 tick\n", b"refused 2 step 1 last 5\n", 1),
    (b"0 failed 9\n", b"refused 1 step 3\n", 1),
    (b"0 closed 9", b"refused 1 step 4\n", 1),
    (b"0 input 9 00", b"refused 1 step 4\n", 1),
    (b"0 input 1 0", b"refused 1 line 3 at 10\n", 1),
    (
        b"0 who https://a.example\n",
        b"who https://a.example none\n",
        0,
    ),
];

#[test]
fn histories(rt: HostRuntime) -> Result<(), Fail> {
    hold_replayed(&rt, rt.alloc(), &HISTORIES)
}

// Hosts in each form, and a connection that ends.
const CONNECTIONS: [Row; 5] = [
    // A request that waits on a connection is lost with it, and another one opens anew.
    (
        b"0 request 1 https://a.example\n1 opened 1 h2 192.0.2.1 443 a.example\n2 closed 1\n3 request 2 https://a.example\n",
        b"open 1 https://a.example direct h2,http/1.1 a.example 443\nsend 1 on 1 stream 1\nlost 1\nopen 2 https://a.example direct h2,http/1.1 a.example 443\n",
        0,
    ),
    // A wildcard stands for one label alone.
    (
        b"0 request 1 https://x.a.example\n0 opened 1 h2 192.0.2.1 443 *.example\n",
        b"open 1 https://x.a.example direct h2,http/1.1 x.a.example 443\nrefuse 1\n",
        0,
    ),
    // An address is covered by a name that is that address.
    (
        b"0 request 1 https://192.0.2.1\n0 opened 1 h2 192.0.2.1 443 192.0.2.1\n",
        b"open 1 https://192.0.2.1 direct h2,http/1.1 192.0.2.1 443\nsend 1 on 1 stream 1\n",
        0,
    ),
    (
        b"0 request 1 https://b\xc3\xbccher.example:0443\n",
        b"open 1 https://xn--bcher-kva.example direct h2,http/1.1 xn--bcher-kva.example 443\n",
        0,
    ),
    (
        b"0 request 1 HTTP://[2001:DB8::1]:8080\n",
        b"open 1 http://[2001:db8::1]:8080 direct http/1.1 [2001:db8::1] 8080\n",
        0,
    ),
];

#[test]
fn hosts_and_connections(rt: HostRuntime) -> Result<(), Fail> {
    hold_replayed(&rt, rt.alloc(), &CONNECTIONS)
}

#[test]
fn devices_that_fail(rt: HostRuntime) -> Result<(), Fail> {
    let alloc = rt.alloc();
    let input: &[u8] = b"0 request 1 https://a.example\n0 request 2 https://b.ex";
    let opened: &[u8] = b"open 1 https://a.example direct h2,http/1.1 a.example 443\n";

    let read = replayed(alloc, bytes_of(alloc, input)?, &[2], &[])?;
    assert_eq!(rt; read.status, 3);
    assert_eq!(rt; read.written.as_slice(), opened);

    let written = replayed(alloc, bytes_of(alloc, input)?, &[], &[1])?;
    assert_eq!(rt; written.status, 4);
    assert_eq!(rt; written.written.len(), 0);
    Ok(())
}

#[test]
fn lines_that_are_long(rt: HostRuntime) -> Result<(), Fail> {
    let alloc = rt.alloc();
    let mut longest = Vec::new(alloc);
    longest.extend_from_slice(b"0 tick\n#")?;
    for _ in 0..65_535 {
        longest.push(b'x')?;
    }
    let mut longer = Vec::from_slice(alloc, longest.as_slice())?;
    longer.push(b'x')?;
    let fits = replayed(alloc, ListOf::from_vec(longest), &[], &[])?;
    assert_eq!(rt; fits.status, 0);
    let past = replayed(alloc, ListOf::from_vec(longer), &[], &[])?;
    assert_eq!(rt; past.status, 6);
    assert_eq!(rt; past.written.len(), 0);
    Ok(())
}

#[test]
fn words_that_are_no_command(rt: HostRuntime) -> Result<(), Fail> {
    let alloc = rt.alloc();
    let mut source = MemorySource::new(bytes_of(alloc, b"0 tick\n")?, calls(alloc, &[1])?);
    let mut sink = MemorySink::new(alloc, 10, calls(alloc, &[])?)?;
    let none = words(alloc, &[])?;
    assert_eq!(rt; run(alloc, &none, &mut source, &mut sink), Status::Usage);
    let two = words(alloc, &[b"replay", b"replay"])?;
    assert_eq!(rt; run(alloc, &two, &mut source, &mut sink), Status::Usage);
    assert_eq!(rt; sink.bytes().len(), 0);
    Ok(())
}
