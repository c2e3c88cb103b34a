use crate::*;
use alt_base::{Duplicate, NoMemory, Refused, Text};
use origin_values::{Addr, Host};
use std::alloc::Global;
use std::test::Fail;

// The names of a text, written again.
fn rewritten(alloc: Global, text: &str) -> Result<Text, Refused<CertRefusal>> {
    let bytes = text.as_bytes();
    let names = parse_names(alloc, &bytes[..bytes.len().min(1000)])?;
    Ok(write_names(alloc, &names)?)
}

// Whether the names of a text cover the host of a text, where both are read.
fn covered(alloc: Global, names: &str, host: &str) -> Result<Option<bool>, NoMemory> {
    let bytes = names.as_bytes();
    let names = match parse_names(alloc, &bytes[..bytes.len().min(1000)]) {
        Ok(names) => names,
        Err(Refused::NoMemory) => return Err(NoMemory),
        Err(_) => return Ok(None),
    };
    let twin = names.copy(alloc)?;
    match Host::parse(alloc, host.as_bytes()) {
        Ok(host) => Ok(Some(twin == names && covers(&names, &host))),
        Err(Refused::NoMemory) => Err(NoMemory),
        Err(_) => Ok(None),
    }
}

#[test]
fn names_that_are_read(rt: HostRuntime) -> Result<(), Fail> {
    let table = [
        ("-", "-"),
        ("-,-", "-,-"),
        ("*.-", "*.-"),
        ("A.Example", "a.example"),
        ("*.Example,192.0.2.1,B", "*.example,192.0.2.1,b"),
        ("2001:DB8:0:0::7,_x.test", "2001:db8::7,_x.test"),
    ];
    for (text, want) in table {
        match rewritten(rt.alloc(), text) {
            Ok(got) => assert_eq!(rt; got.as_slice(), want.as_bytes()),
            Err(_) => assert!(rt; false),
        }
    }
    Ok(())
}

#[test]
fn bad_names(rt: HostRuntime) {
    let table = [
        ("", 0),
        ("*", 0),
        ("*.", 0),
        (".example", 0),
        ("a,", 2),
        (",a", 0),
        ("a,,b", 2),
        ("a,*,b", 2),
        ("a.example,*.*.example", 10),
        ("a,x.*.example", 2),
        ("*.192.0.2.1", 0),
        ("a,[::1]", 2),
        ("a, b", 2),
        ("a,1.2.3.4.5,*", 2),
    ];
    for (text, want) in table {
        match rewritten(rt.alloc(), text) {
            Err(Refused::At { place, reason }) => {
                assert_eq!(rt; place, want);
                assert_eq!(rt; reason, CertRefusal::BadName);
            }
            _ => assert!(rt; false),
        }
    }
}

#[test]
fn hosts_that_names_cover(rt: HostRuntime) -> Result<(), Fail> {
    let table = [
        ("a.example", "A.example", true),
        ("a.example", "b.a.example", false),
        ("*.example", "x.example", true),
        ("*.example", "example", false),
        ("*.example", "x.a.example", false),
        ("*.a.example,b.example", "x.a.example", true),
        ("*.a.example,b.example", "b.example", true),
        ("*.example", "192.0.2.1", false),
        ("192.0.2.1", "192.0.2.1", true),
        ("192.0.2.1", "192.0.2.2", false),
        ("::1", "[0:0:0:0:0:0:0:1]", true),
        ("::ffff:192.0.2.1", "192.0.2.1", false),
        ("-", "a.example", false),
    ];
    for (names, host, want) in table {
        assert_eq!(rt; covered(rt.alloc(), names, host)?, Some(want));
    }
    assert_eq!(rt; covered(rt.alloc(), "*.example", ".example")?, None);
    Ok(())
}

const HOME: Addr = Addr::V4([192, 0, 2, 1]);

const AWAY: Addr = Addr::V6([32, 1, 13, 184, 0, 0, 0, 0, 0, 0, 0, 0, 0, 0, 0, 1]);

// What is left of six insertions, once a connection is removed.
fn without(alloc: Global, conn: u64) -> Result<AddressIndex, NoMemory> {
    let mut index = AddressIndex::new(alloc);
    for (addr, port, conn) in [
        (HOME, 443, 1),
        (HOME, 443, 2),
        (AWAY, 443, 2),
        (HOME, 443, 1),
        (HOME, 8443, 3),
        (AWAY, 443, 1),
    ] {
        index.insert(addr, port, conn)?;
    }
    index.remove(conn);
    Ok(index)
}

#[test]
fn connections_by_address(rt: HostRuntime) -> Result<(), Fail> {
    let table = [
        (1, HOME, 443, "2"),
        (1, HOME, 8443, "3"),
        (1, AWAY, 443, "2"),
        (2, HOME, 443, "11"),
        (2, AWAY, 443, "1"),
        (3, HOME, 443, "121"),
        (3, HOME, 8443, ""),
        (4, HOME, 8443, "3"),
        (4, AWAY, 443, "21"),
        (4, AWAY, 8443, ""),
    ];
    for (gone, addr, port, want) in table {
        let index = without(rt.alloc(), gone)?;
        let mut digits = Vec::new(rt.alloc());
        for conn in index.at(&addr, port) {
            digits.push(b'0' + (*conn % 10) as u8)?;
        }
        assert_eq!(rt; digits.as_slice(), want.as_bytes());
    }
    Ok(())
}
