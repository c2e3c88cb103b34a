use crate::write;
use alt_base::{Refused, Text};
use std::alloc::{AllocError, Global};
use std::test::Fail;
use svcb_wire::{WireRefusal, parse};

/// The octets of a record, and the text that is written for it.
type Row = (&'static [u8], &'static [u8]);

// Some are vectors of RFC 9460 D.2; one has a parameter of each key.
const WRITTEN: &[Row] = &[
    (b"\x00\x01\x00", b"1 ."),
    (
        b"\x00\x00\x03foo\x07Example\x03com\x00",
        b"0 foo.example.com.",
    ),
    (b"\xff\xff\x04a b.\x00", b"65535 a\\032b\\.."),
    (
        b"\x00\x01\x00\x00\x01\x00\x0a\x01,\x01\\\x01\"\x03\x00=\xff",
        b"1 . alpn=\"\\\\,,\\\\\\\\,\\\",\\000=\\255\"",
    ),
    (
        b"\x00\x10\x03foo\x07example\x03org\x00\x00\x00\x00\x04\x00\x01\x00\x04\x00\x01\x00\x09\x02h2\x05h3-19\x00\x04\x00\x04\xc0\x00\x02\x01",
        b"16 foo.example.org. mandatory=alpn,ipv4hint alpn=\"h2,h3-19\" ipv4hint=192.0.2.1",
    ),
    (
        b"\x00\x01\x03foo\x07example\x03com\x00\x02\x9b\x00\x09hello\xd2qoo",
        b"1 foo.example.com. key667=\"hello\\210qoo\"",
    ),
    (
        b"\x00\x10\x03foo\x07example\x03org\x00\x00\x01\x00\x0c\x08f\\oo,bar\x02h2",
        b"16 foo.example.org. alpn=\"f\\\\\\\\oo\\\\,bar,h2\"",
    ),
    (b"\x00\x01\x00\x00\x7b\x00\x03a;b", b"1 . key123=\"a;b\""),
    (
        b"\x00\x01\x01a\x00\
        \x00\x00\x00\x0a\x00\x01\x00\x04\x00\x05\x00\x06\x00\x09\
        \x00\x01\x00\x06\x02h2\x02h3\
        \x00\x02\x00\x00\
        \x00\x03\x00\x02\x01\xbb\
        \x00\x04\x00\x08\xc0\x00\x02\x01\x00\xff\x00\x0a\
        \x00\x05\x00\x02\x00\xff\
        \x00\x06\x00\x10\x20\x01\x0d\xb8\x00\x00\x00\x00\x00\x00\x00\x00\x00\x00\x00\x01\
        \x00\x09\x00\x00",
        b"1 a. mandatory=alpn,ipv4hint,key5,ipv6hint,key9 alpn=\"h2,h3\" no-default-alpn port=443 \
        ipv4hint=192.0.2.1,0.255.0.10 key5=\"\\000\\255\" ipv6hint=2001:db8::1 key9",
    ),
    (
        b"\x00\x01\x00\x00\x06\x00\x30\
        \x20\x01\x0d\xb8\x00\x00\x00\x00\x00\x00\x00\x00\x00\x53\x00\x01\
        \x00\x00\x00\x00\x00\x00\x00\x00\x00\x00\xff\xff\xc6\x33\x64\x64\
        \x00\x00\x00\x00\x00\x00\x00\x00\x00\x00\x00\x00\x00\x00\x00\x00",
        b"1 . ipv6hint=2001:db8::53:1,::ffff:c633:6464,::",
    ),
];

// What is written for the record of some octets.
fn written(alloc: Global, octets: &[u8]) -> Result<Text, Refused<WireRefusal>> {
    let value = parse(alloc, octets)?;
    Ok(write(alloc, &value)?)
}

// A backslash and three digits for each byte from a first one to a last one.
fn append_numbers(
    text: &mut Vec<u8>,
    alloc: Global,
    first: u8,
    last: u8,
) -> Result<(), AllocError> {
    for byte in first..=last {
        text.extend_from_slice(format!(in alloc; "\\{byte:03}")?.as_bytes())?;
    }
    Ok(())
}

#[test]
fn records_that_are_written(rt: HostRuntime) -> Result<(), Fail> {
    for (octets, wanted) in WRITTEN {
        let text = written(rt.alloc(), *octets)?;
        assert_eq!(&rt; text.as_slice(), *wanted);
    }
    Ok(())
}

#[test]
fn each_byte_as_a_value(rt: HostRuntime) -> Result<(), Fail> {
    let mut octets = b"\x00\x01\x00\x00\x7b\x01\x00".to_vec(rt.alloc())?;
    for byte in 0..=255_u8 {
        octets.push(byte)?;
    }
    let mut wanted = b"1 . key123=\"".to_vec(rt.alloc())?;
    append_numbers(&mut wanted, rt.alloc(), 0, 31)?;
    wanted.extend_from_slice(b" !\\\"#$%&'()*+,-./0123456789:;<=>?@ABCDEFGHIJKLMNOPQRSTUVWXYZ")?;
    wanted.extend_from_slice(b"[\\\\]^_`abcdefghijklmnopqrstuvwxyz{|}~")?;
    append_numbers(&mut wanted, rt.alloc(), 127, 255)?;
    wanted.push(b'"')?;
    let text = written(rt.alloc(), &octets)?;
    assert_eq!(&rt; text.as_slice(), wanted.as_slice());
    Ok(())
}
