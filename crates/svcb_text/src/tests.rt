use crate::RecordTextRefusal::{
    BadKey, BadPriority, BadString, BadTarget, BadValue, Inconsistent, RepeatedKey, TooLong,
};
use crate::{RecordTextRefusal, parse};
use alt_base::{Bytes, Refused};
use std::alloc::{AllocError, Global};
use std::process::Abort;
use std::test::Fail;

/// A text, and the octets of the record that it spells.
type Spelled = (&'static [u8], &'static [u8]);

/// A text, and its refusal at a place.
type Row = (&'static [u8], u32, RecordTextRefusal);

const SPELLED: &[Spelled] = &[
    // RFC 9460 appendix D.1 and D.2.
    (
        b"0 foo.example.com.",
        b"\x00\x00\x03foo\x07example\x03com\x00",
    ),
    (b"1 .", b"\x00\x01\x00"),
    (
        b"16 foo.example.com. port=53",
        b"\x00\x10\x03foo\x07example\x03com\x00\x00\x03\x00\x02\x00\x35",
    ),
    (
        b"1 foo.example.com. key667=hello",
        b"\x00\x01\x03foo\x07example\x03com\x00\x02\x9b\x00\x05hello",
    ),
    (
        b"1 foo.example.com. key667=\"hello\\210qoo\"",
        b"\x00\x01\x03foo\x07example\x03com\x00\x02\x9b\x00\x09hello\xd2qoo",
    ),
    (
        b"1 foo.example.com. ipv6hint=\"2001:db8::1,2001:db8::53:1\"",
        b"\x00\x01\x03foo\x07example\x03com\x00\x00\x06\x00\x20\x20\x01\x0d\xb8\x00\x00\x00\x00\x00\x00\x00\x00\x00\x00\x00\x01\x20\x01\x0d\xb8\x00\x00\x00\x00\x00\x00\x00\x00\x00\x53\x00\x01",
    ),
    (
        b"1 example.com. ipv6hint=\"2001:db8:122:344::192.0.2.33\"",
        b"\x00\x01\x07example\x03com\x00\x00\x06\x00\x10\x20\x01\x0d\xb8\x01\x22\x03\x44\x00\x00\x00\x00\xc0\x00\x02\x21",
    ),
    (
        b"16 foo.example.org. alpn=h2,h3-19 mandatory=ipv4hint,alpn ipv4hint=192.0.2.1",
        b"\x00\x10\x03foo\x07example\x03org\x00\x00\x00\x00\x04\x00\x01\x00\x04\x00\x01\x00\x09\x02h2\x05h3-19\x00\x04\x00\x04\xc0\x00\x02\x01",
    ),
    (
        b"16 foo.example.org. alpn=\"f\\\\\\\\oo\\\\,bar,h2\"",
        b"\x00\x10\x03foo\x07example\x03org\x00\x00\x01\x00\x0c\x08f\\oo,bar\x02h2",
    ),
    (
        b"16 foo.example.org. alpn=f\\\\\\092oo\\092,bar,h2",
        b"\x00\x10\x03foo\x07example\x03org\x00\x00\x01\x00\x0c\x08f\\oo,bar\x02h2",
    ),
    // Blanks, and absent values.
    (b"\t 007 \t A ", b"\x00\x07\x01a\x00"),
    (
        b"65535 . key9 key8= key7=\"\" no-default-alpn alpn=h2\t",
        b"\xff\xff\x00\x00\x01\x00\x03\x02h2\x00\x02\x00\x00\x00\x07\x00\x00\x00\x08\x00\x00\x00\x09\x00\x00",
    ),
    // Strings up to a blank, and between quotes.
    (
        b"1 . key7=h2,h3 key8=!#'*:<[]~ key9=\\032",
        b"\x00\x01\x00\x00\x07\x00\x05h2,h3\x00\x08\x00\x09!#'*:<[]~\x00\x09\x00\x01 ",
    ),
    (
        b"1 . key7=\\\"\\;\\(\\)\\\\ key8=a\\000\\255b",
        b"\x00\x01\x00\x00\x07\x00\x05\";()\\\x00\x08\x00\x04a\x00\xffb",
    ),
    (
        b"1 . key7=\"h2\" key8=\"a b\tc\" key9=\";()\"\tkey10",
        b"\x00\x01\x00\x00\x07\x00\x02h2\x00\x08\x00\x05a b\tc\x00\x09\x00\x03;()\x00\x0a\x00\x00",
    ),
    (
        b"1 . key7=\"\\\"\\\\\\ \\\t\" key8=\"\\032x\"",
        b"\x00\x01\x00\x00\x07\x00\x04\"\\ \t\x00\x08\x00\x02 x",
    ),
    // Values by their keys.
    (
        b"0 . mandatory=port,key65535,alpn,ipv6hint,key5",
        b"\x00\x00\x00\x00\x00\x00\x0a\x00\x01\x00\x03\x00\x05\x00\x06\xff\xff",
    ),
    (
        b"1 . alpn=\"h3, \\\"\\255\\000,h3\"",
        b"\x00\x01\x00\x00\x01\x00\x0b\x02h3\x04 \"\xff\x00\x02h3",
    ),
    (b"1 . alpn=\\\\,", b"\x00\x01\x00\x00\x01\x00\x02\x01,"),
    (b"1 . port=00000", b"\x00\x01\x00\x00\x03\x00\x02\x00\x00"),
    (b"1 . port=00053", b"\x00\x01\x00\x00\x03\x00\x02\x00\x35"),
    (b"1 . port=65535", b"\x00\x01\x00\x00\x03\x00\x02\xff\xff"),
    (
        b"1 . ipv4hint=192.0.2.1,0.0.0.0,192.0.2.1",
        b"\x00\x01\x00\x00\x04\x00\x0c\xc0\x00\x02\x01\x00\x00\x00\x00\xc0\x00\x02\x01",
    ),
    (
        b"1 . ipv6hint=2001:DB8::1,::ffff:192.0.2.1",
        b"\x00\x01\x00\x00\x06\x00\x20\x20\x01\x0d\xb8\x00\x00\x00\x00\x00\x00\x00\x00\x00\x00\x00\x01\x00\x00\x00\x00\x00\x00\x00\x00\x00\x00\xff\xff\xc0\x00\x02\x01",
    ),
    (
        b"1 . key65535=\\255 key10 key5",
        b"\x00\x01\x00\x00\x05\x00\x00\x00\x0a\x00\x00\xff\xff\x00\x01\xff",
    ),
];

const REFUSED: &[Row] = &[
    // The front.
    (b"", 0, BadPriority),
    (b" \t", 2, BadPriority),
    (b" 65536 .", 1, BadPriority),
    (b"1x .", 0, BadPriority),
    (b"+1 .", 0, BadPriority),
    (b"1", 1, BadTarget),
    (b"1  ", 3, BadTarget),
    (b" 1 a..b", 5, BadTarget),
    (b"1 a\\9 port=x", 3, BadTarget),
    // Keys.
    (b"1 . =1", 4, BadKey),
    (b"1 . key", 4, BadKey),
    (b"1 . key0", 4, BadKey),
    (b"1 . key3=1", 4, BadKey),
    (b"1 . key6", 4, BadKey),
    (b"1 . key07", 4, BadKey),
    (b"1 . key00", 4, BadKey),
    (b"1 . key65536", 4, BadKey),
    (b"1 . key655350", 4, BadKey),
    (b"1 . key+7", 4, BadKey),
    (b"1 . key7x", 4, BadKey),
    (b"1 . KEY7", 4, BadKey),
    (b"1 . 7", 4, BadKey),
    (b"1 . ech", 4, BadKey),
    (b"1 . Port=1", 4, BadKey),
    (b"1 . alp", 4, BadKey),
    (b"1 . alpns", 4, BadKey),
    (b"1 . key7\"\"", 4, BadKey),
    (b"1 foo.example.com. key123=abc key123=def", 30, RepeatedKey),
    (b"1 . port=1 port=\"", 11, RepeatedKey),
    // Strings: a wrong byte, a backslash, the end of an open quote, a byte behind a closing one.
    (b"1 . key8=;", 9, BadString),
    (b"1 . key8=ab)", 11, BadString),
    (b"1 . key8=a\"b\"", 10, BadString),
    (b"1 . key8=a\x7f", 10, BadString),
    (b"1 . key8=\x80", 9, BadString),
    (b"1 . key8=\"a\x00\"", 11, BadString),
    (b"1 . key8=\"\x7f\"", 10, BadString),
    (b"1 . key8=\"\xff\"", 10, BadString),
    (b"1 . key8=ab\\", 11, BadString),
    (b"1 . key8=\\ ", 9, BadString),
    (b"1 . key8=\\\t", 9, BadString),
    (b"1 . key8=\\\x80", 9, BadString),
    (b"1 . key8=a\\25", 10, BadString),
    (b"1 . key8=a\\25x", 10, BadString),
    (b"1 . key8=\\256", 9, BadString),
    (b"1 . key8=\"\\256\"", 10, BadString),
    (b"1 . key8=\"\\25\"", 10, BadString),
    (b"1 . key8=\"a\\", 11, BadString),
    (b"1 . key8=\"\\\x7f\"", 10, BadString),
    (b"1 . key8=\"", 10, BadString),
    (b"1 . key8=\"ab", 12, BadString),
    (b"1 . key8=\"ab\\\"", 14, BadString),
    (b"1 . key8=\" key8", 15, BadString),
    (b"1 . key8=\"\"a", 11, BadString),
    (b"1 . key8=\"ab\"\"", 13, BadString),
    (b"1 . key8=\"ab\"\\032", 13, BadString),
];

const VALUES_REFUSED: &[Row] = &[
    // RFC 9460 appendix D.3.
    (b"1 foo.example.com. mandatory", 28, BadValue { key: 0 }),
    (
        b"1 foo.example.com. mandatory=mandatory",
        29,
        BadValue { key: 0 },
    ),
    (
        b"1 foo.example.com. mandatory=key123,key123 key123=abc",
        29,
        BadValue { key: 0 },
    ),
    (
        b"1 foo.example.com. no-default-alpn=abc",
        35,
        BadValue { key: 2 },
    ),
    (b"1 foo.example.com. mandatory=key123", 35, Inconsistent),
    (b"1 . no-default-alpn ", 20, Inconsistent),
    // By their keys; a backslash may stand only in ids and in other keys' values.
    (b"1 . mandatory=,", 14, BadValue { key: 0 }),
    (b"1 . mandatory=alpn,", 14, BadValue { key: 0 }),
    (b"1 . mandatory=,alpn", 14, BadValue { key: 0 }),
    (b"1 . mandatory=\"alpn, port\"", 14, BadValue { key: 0 }),
    (b"1 . mandatory=alpn,mandatory", 14, BadValue { key: 0 }),
    (b"1 . mandatory=alpn,port,alpn", 14, BadValue { key: 0 }),
    (b"1 . mandatory=alpn,key1", 14, BadValue { key: 0 }),
    (b"1 . mandatory=ipv4hin\\t", 14, BadValue { key: 0 }),
    (b"1 . alpn", 8, BadValue { key: 1 }),
    (b"1 . alpn=\"\"", 9, BadValue { key: 1 }),
    (b"1 . alpn=,", 9, BadValue { key: 1 }),
    (b"1 . alpn=h2,", 9, BadValue { key: 1 }),
    (b"1 . alpn=,h2", 9, BadValue { key: 1 }),
    (b"1 . alpn=h2,,h3", 9, BadValue { key: 1 }),
    (b"1 . alpn=h2\\\\", 9, BadValue { key: 1 }),
    (b"1 . alpn=h\\\\2", 9, BadValue { key: 1 }),
    (b"1 . port=", 9, BadValue { key: 3 }),
    (b"1 . port=65536", 9, BadValue { key: 3 }),
    (b"1 . port=000053", 9, BadValue { key: 3 }),
    (b"1 . port=+53", 9, BadValue { key: 3 }),
    (b"1 . port=-1", 9, BadValue { key: 3 }),
    (b"1 . port=\"5 3\"", 9, BadValue { key: 3 }),
    (b"1 . port=53,", 9, BadValue { key: 3 }),
    (b"1 . port=\\053", 9, BadValue { key: 3 }),
    (b"1 . ipv4hint=192.0.2.1,", 13, BadValue { key: 4 }),
    (b"1 . ipv4hint=,192.0.2.1", 13, BadValue { key: 4 }),
    (b"1 . ipv4hint=192.0.2", 13, BadValue { key: 4 }),
    (b"1 . ipv4hint=192.0.2.256", 13, BadValue { key: 4 }),
    (b"1 . ipv4hint=192.0.02.1", 13, BadValue { key: 4 }),
    (
        b"1 . ipv4hint=\"192.0.2.1, 192.0.2.2\"",
        13,
        BadValue { key: 4 },
    ),
    (b"1 . ipv4hint=::ffff:192.0.2.1", 13, BadValue { key: 4 }),
    (b"1 . ipv4hint=192.0.2\\.1", 13, BadValue { key: 4 }),
    (b"1 . ipv6hint= x", 13, BadValue { key: 6 }),
    (b"1 . ipv6hint=::1,", 13, BadValue { key: 6 }),
    (b"1 . ipv6hint=[::1]", 13, BadValue { key: 6 }),
    (b"1 . ipv6hint=fe80::1%25eth0", 13, BadValue { key: 6 }),
    (b"1 . ipv6hint=192.0.2.1", 13, BadValue { key: 6 }),
    (b"1 . ipv6hint=:\\:1", 13, BadValue { key: 6 }),
];

/// A text, what is repeated behind it and how often, and how many parameters the record has.
type LongSpelled = (&'static [u8], &'static [u8], u32, usize);

/// A text, what is repeated behind it and how often, and its refusal at a place.
type LongRow = (&'static [u8], &'static [u8], u32, u32, RecordTextRefusal);

const LONG: &[LongSpelled] = &[
    (b"1 .", b" ", 65_532, 0),
    // 4,095 addresses have 65,520 octets, and stand behind 7 others.
    (b"1 . ipv6hint=::", b",::", 4_094, 1),
    (b"1 . alpn=", b"x", 255, 1),
    (b"1 . alpn=", b"\\\\,", 255, 1),
];

const TOO_LONG: &[LongRow] = &[
    (b"x", b" ", 65_535, 65_535, TooLong),
    (b"1 . ipv6hint=::", b",::", 4_095, 12_300, TooLong),
    (
        b"1 . mandatory=port ipv6hint=::",
        b",::",
        4_095,
        12_315,
        Inconsistent,
    ),
    (b"1 . alpn=", b"x", 256, 9, BadValue { key: 1 }),
    (b"1 . alpn=", b"\\\\,", 256, 9, BadValue { key: 1 }),
];

fn octets_of(alloc: Global, text: &[u8]) -> Result<Bytes, Refused<RecordTextRefusal>> {
    let value = parse(alloc, text)?;
    Ok(svcb_wire::write(alloc, &value)?)
}

fn refuses(rt: &impl Abort, alloc: Global, text: &[u8], place: u32, reason: RecordTextRefusal) {
    let answer = parse(alloc, text);
    assert_eq!(rt; answer, Err(Refused::At { place, reason }));
}

fn count_of(alloc: Global, text: &[u8]) -> Result<usize, Refused<RecordTextRefusal>> {
    let value = parse(alloc, text)?;
    Ok(value.params.len())
}

// A text, and so many times another behind it.
fn repeated(alloc: Global, text: &[u8], more: &[u8], times: u32) -> Result<Vec<u8>, AllocError> {
    let mut bytes = text.to_vec(alloc)?;
    for _ in 0..times {
        bytes.extend_from_slice(more)?;
    }
    Ok(bytes)
}

#[test]
fn texts_that_are_read(rt: HostRuntime) -> Result<(), Fail> {
    for (text, octets) in SPELLED {
        let found = octets_of(rt.alloc(), *text)?;
        assert_eq!(&rt; found.as_slice(), *octets);
    }
    Ok(())
}

#[test]
fn texts_that_are_refused(rt: HostRuntime) {
    for (text, place, reason) in REFUSED {
        refuses(&rt, rt.alloc(), *text, *place, *reason);
    }
    for (text, place, reason) in VALUES_REFUSED {
        refuses(&rt, rt.alloc(), *text, *place, *reason);
    }
}

// As many octets, ids of as many bytes and as many parameters as there may be, and one more.
#[test]
fn long_texts(rt: HostRuntime) -> Result<(), Fail> {
    let alloc = rt.alloc();
    for (text, more, times, count) in LONG {
        let long = repeated(alloc, *text, *more, *times)?;
        assert_eq!(&rt; count_of(alloc, &long), Ok(*count));
    }
    for (text, more, times, place, reason) in TOO_LONG {
        let long = repeated(alloc, *text, *more, *times)?;
        refuses(&rt, alloc, &long, *place, *reason);
    }
    Ok(())
}

// From the last to the first.
#[test]
fn many_parameters(rt: HostRuntime) -> Result<(), Fail> {
    let alloc = rt.alloc();
    let mut text = b"1 .".to_vec(alloc)?;
    for key in (10_000..17_000_u32).rev() {
        text.extend_from_slice(format!(in alloc; " key{key}")?.as_bytes())?;
    }
    assert_eq!(&rt; count_of(alloc, &text), Ok(7_000));
    Ok(())
}
