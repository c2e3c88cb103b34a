use crate::{Param, WireRefusal, compatible, consistent, param_key, param_value, parse, write};
use alt_base::{Bytes, Duplicate, Refused};
use origin_values::Protos;
use std::alloc::Global;
use std::process::Abort;
use std::test::Fail;

// Priority 1, the target `a.` and a parameter of each key from 0 to 6.
const EACH_KEY: [u8; 67] = [
    0, 1, 1, 97, 0, //
    0, 0, 0, 4, 0, 1, 0, 4, //
    0, 1, 0, 6, 2, 104, 50, 2, 104, 51, //
    0, 2, 0, 0, //
    0, 3, 0, 2, 1, 187, //
    0, 4, 0, 4, 192, 0, 2, 1, //
    0, 5, 0, 2, 0, 255, //
    0, 6, 0, 16, 32, 1, 13, 184, 0, 0, 0, 0, 0, 0, 0, 0, 0, 0, 0, 1,
];

const ALL: Protos = Protos {
    h2: true,
    h3: true,
    http11: true,
};

const HTTP2: Protos = Protos {
    h2: true,
    h3: false,
    http11: false,
};

fn respelled(alloc: Global, octets: &[u8]) -> Result<Bytes, Refused<WireRefusal>> {
    let value = parse(alloc, octets)?;
    Ok(write(alloc, &value)?)
}

fn refuses(rt: &impl Abort, alloc: Global, octets: &[u8], place: u32, reason: WireRefusal) {
    let answer = parse(alloc, octets);
    assert_eq!(rt; answer, Err(Refused::At { place, reason }));
}

fn can_use(
    alloc: Global,
    octets: &[u8],
    supported: &Protos,
) -> Result<(bool, bool), Refused<WireRefusal>> {
    let value = parse(alloc, octets)?;
    Ok((consistent(&value), compatible(&value, supported)))
}

#[test]
fn a_record_with_each_key(rt: HostRuntime) -> Result<(), Fail> {
    let value = parse(rt.alloc(), &EACH_KEY)?;
    let twin = value.copy(rt.alloc())?;
    assert_eq!(rt; twin, value);
    assert_eq!(rt; value.priority, 1);
    assert_eq!(rt; value.params.len(), 7);
    let written = write(rt.alloc(), &twin)?;
    assert_eq!(rt; written.as_slice(), EACH_KEY.as_slice());
    assert!(rt; consistent(&value));
    assert!(rt; compatible(&value, &ALL));
    Ok(())
}

#[test]
fn a_record_of_three_parameters(rt: HostRuntime) -> Result<(), Fail> {
    let octets =
        b"\x00\x10\x03Foo\x07example\x03org\x00\x00\x00\x00\x04\x00\x01\x00\x04\x00\x01\x00\x09\x02h2\x05h3-19\x00\x04\x00\x04\xc0\x00\x02\x01";
    let value = parse(rt.alloc(), octets)?;
    let target = value.target.to_text(rt.alloc())?;
    assert_eq!(rt; value.priority, 16);
    assert_eq!(rt; target.as_slice(), b"foo.example.org.".as_slice());
    assert_eq!(rt; value.params.len(), 3);
    Ok(())
}

#[test]
fn a_key_and_a_value(rt: HostRuntime) -> Result<(), Fail> {
    let port = Param::Port(443);
    assert_eq!(rt; param_key(&port), 3);
    let octets = param_value(rt.alloc(), &port)?;
    assert_eq!(rt; octets.as_slice(), [1, 187].as_slice());
    Ok(())
}

#[test]
fn octets_that_are_refused(rt: HostRuntime) {
    let rows: [(&[u8], u32, WireRefusal); 8] = [
        (b"", 0, WireRefusal::Short),
        (b"\x00", 1, WireRefusal::Short),
        (b"\x00\x01", 2, WireRefusal::BadTarget),
        (b"\x00\x01\xc0\x00", 2, WireRefusal::BadTarget),
        (b"\x00\x01\x00\x00", 4, WireRefusal::Short),
        (b"\x00\x01\x00\x00\x02\x00", 6, WireRefusal::Short),
        (
            b"\x00\x01\x00\x00\x03\x00\x02\x01\xbb\x00\x03\x00\x02\x01\xbb",
            9,
            WireRefusal::KeyOrder,
        ),
        (
            b"\x00\x01\x00\x00\x03\x00\x03\x01\xbb",
            3,
            WireRefusal::ParamPast,
        ),
    ];
    for (octets, place, reason) in rows {
        refuses(&rt, rt.alloc(), octets, place, reason);
    }
}

#[test]
fn values_that_are_refused(rt: HostRuntime) {
    // The key, and a priority, the root and a parameter of it.
    let rows: [(u16, &[u8]); 9] = [
        (0, b"\x00\x01\x00\x00\x00\x00\x00"),
        (0, b"\x00\x01\x00\x00\x00\x00\x02\x00\x00"),
        (0, b"\x00\x01\x00\x00\x00\x00\x04\x00\x02\x00\x02"),
        (1, b"\x00\x01\x00\x00\x01\x00\x00"),
        (1, b"\x00\x01\x00\x00\x01\x00\x01\x00"),
        (2, b"\x00\x01\x00\x00\x02\x00\x01\x00"),
        (3, b"\x00\x01\x00\x00\x03\x00\x01\x00"),
        (4, b"\x00\x01\x00\x00\x04\x00\x00"),
        (6, b"\x00\x01\x00\x00\x06\x00\x04\x01\x02\x03\x04"),
    ];
    for (key, octets) in rows {
        refuses(&rt, rt.alloc(), octets, 7, WireRefusal::BadValue { key });
    }
}

#[test]
fn lengths(rt: HostRuntime) -> Result<(), Fail> {
    let mut octets = Vec::new(rt.alloc());
    octets.extend_from_slice(b"\x00\x00\x00\xff\xff\xff\xf8")?;
    octets.resize(65_535, 7)?;
    let written = respelled(rt.alloc(), &octets)?;
    assert_eq!(rt; written.as_slice(), octets.as_slice());
    octets.push(7)?;
    refuses(&rt, rt.alloc(), &octets, 65_535, WireRefusal::TooLong);
    Ok(())
}

#[test]
fn records_that_a_client_can_use(rt: HostRuntime) -> Result<(), Fail> {
    // The octets, the supported protocols, whether the record is consistent, and whether it is compatible.
    let rows: [(&[u8], Protos, bool, bool); 10] = [
        (b"\x00\x01\x00", HTTP2, true, true),
        (b"\x00\x01\x00\x00\x02\x00\x00", ALL, false, false),
        (b"\x00\x01\x00\x00\x00\x00\x02\x00\x04", ALL, false, true),
        (
            b"\x00\x01\x00\x00\x00\x00\x02\x00\x05\x00\x05\x00\x00",
            ALL,
            true,
            false,
        ),
        (
            b"\x00\x01\x00\x00\x00\x00\x04\x00\x01\x00\x03\x00\x01\x00\x03\x02h2\x00\x03\x00\x02\x01\xbb",
            HTTP2,
            true,
            true,
        ),
        (
            b"\x00\x01\x00\x00\x00\x00\x04\x00\x01\x00\x03\x00\x01\x00\x03\x02h2\x00\x05\x00\x00",
            HTTP2,
            false,
            true,
        ),
        (b"\x00\x01\x00\x00\x03\x00\x02\x00\x00", ALL, true, false),
        (
            b"\x00\x01\x00\x00\x01\x00\x03\x02h3\x00\x02\x00\x00",
            ALL,
            true,
            true,
        ),
        (
            b"\x00\x01\x00\x00\x01\x00\x03\x02h3\x00\x02\x00\x00",
            HTTP2,
            true,
            false,
        ),
        (
            b"\x00\x01\x00\x00\x01\x00\x03\x02h2\x00\x02\x00\x00",
            HTTP2,
            true,
            true,
        ),
    ];
    for (octets, supported, consistent, compatible) in rows {
        let found = can_use(rt.alloc(), octets, &supported)?;
        assert_eq!(rt; found, (consistent, compatible));
    }
    Ok(())
}
