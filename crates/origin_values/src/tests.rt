use crate::*;
use alt_base::{Duplicate, NoMemory, Refused, Text};
use std::alloc::Global;
use std::test::Fail;

// The text that the address of a text is written as, where it has one.
fn address(alloc: Global, text: &str) -> Result<Option<Text>, NoMemory> {
    match Addr::parse(text.as_bytes()) {
        Some(addr) => Ok(Some(addr.write(alloc)?)),
        None => Ok(None),
    }
}

// The text that the origin of a text is written as.
fn origin(alloc: Global, text: &str) -> Result<Text, Refused<OriginRefusal>> {
    let bytes = text.as_bytes();
    let read = Origin::parse(alloc, &bytes[..bytes.len().min(1000)])?;
    Ok(read.write(alloc)?)
}

#[test]
fn addresses_that_are_read(rt: HostRuntime) -> Result<(), Fail> {
    let table = [
        ("192.0.2.1", "192.0.2.1"),
        ("0.0.0.255", "0.0.0.255"),
        ("::", "::"),
        ("::1", "::1"),
        ("1::", "1::"),
        ("1:0:0:2::", "1:0:0:2::"),
        ("0:0:1::", "0:0:1::"),
        ("1:0:0:2:0:0:3:4", "1::2:0:0:3:4"),
        ("1:0:2:3:4:5:6:7", "1:0:2:3:4:5:6:7"),
        ("1:2:3:4:5:6:7::", "1:2:3:4:5:6:7:0"),
        ("::ffff:192.0.2.1", "::ffff:c000:201"),
        ("1:2:3:4:5:6:192.0.2.1", "1:2:3:4:5:6:c000:201"),
        ("2001:0DB8::00A", "2001:db8::a"),
    ];
    for (text, want) in table {
        let got = address(rt.alloc(), text)?;
        assert!(rt; got.is_some());
        if let Some(got) = got {
            assert_eq!(rt; got.as_slice(), want.as_bytes());
        }
    }
    Ok(())
}

#[test]
fn texts_that_are_no_address(rt: HostRuntime) {
    let table = [
        "",
        "1.2.3",
        "1.2.3.4.5",
        "01.2.3.4",
        "1.2.3.256",
        "1:2:3:4:5:6:7:8:9",
        "1:2:3:4:5:6:7",
        "1::2::3",
        ":::",
        "::12345",
        "1:2:3:4:5:6:7::8",
        "192.0.2.1::",
        "::g",
        "[::1]",
    ];
    for text in table {
        assert!(rt; Addr::parse(text.as_bytes()).is_none());
    }
}

#[test]
fn origins_that_are_read(rt: HostRuntime) -> Result<(), Fail> {
    let table = [
        ("https://a.example", "https://a.example"),
        ("HTTP://[2001:DB8::1]:8080", "http://[2001:db8::1]:8080"),
        ("hTTps://A_b.EXAMPLE:", "https://a_b.example"),
        ("https://192.0.2.1:443", "https://192.0.2.1"),
        ("http://a:443", "http://a:443"),
        ("http://a:00080", "http://a"),
        ("https://a:65535", "https://a:65535"),
        (
            "https://bücher.example:0443",
            "https://xn--bcher-kva.example",
        ),
        ("https://1。2。3。4", "https://1.2.3.4"),
    ];
    for (text, want) in table {
        let got = origin(rt.alloc(), text);
        assert!(rt; got.is_ok());
        if let Ok(got) = got {
            assert_eq!(rt; got.as_slice(), want.as_bytes());
        }
    }
    Ok(())
}

#[test]
fn origins_that_are_refused(rt: HostRuntime) {
    let table = [
        ("", 0, OriginRefusal::BadScheme),
        ("ftp://a", 0, OriginRefusal::BadScheme),
        ("https:/a", 0, OriginRefusal::BadScheme),
        ("https://", 8, OriginRefusal::BadHost),
        ("https://:443", 8, OriginRefusal::BadHost),
        ("https://[::1", 8, OriginRefusal::BadHost),
        ("https://01.2.3.4", 8, OriginRefusal::BadHost),
        ("http://a.1", 7, OriginRefusal::BadHost),
        ("http://a..b", 7, OriginRefusal::BadHost),
        ("http://ü_.example", 7, OriginRefusal::BadHost),
        ("http://a:0", 9, OriginRefusal::BadPort),
        ("http://a:65536", 9, OriginRefusal::BadPort),
        ("http://a:99999999999x", 9, OriginRefusal::BadPort),
        ("http://a/", 8, OriginRefusal::Trailing),
        ("http://a:80x", 11, OriginRefusal::Trailing),
        ("http://a:x", 9, OriginRefusal::Trailing),
        ("http://[::1]x", 12, OriginRefusal::Trailing),
    ];
    for (text, place, reason) in table {
        assert!(rt; origin(rt.alloc(), text).err() == Some(Refused::At { place, reason }));
    }
}

#[test]
fn lengths_of_names(rt: HostRuntime) -> Result<(), Fail> {
    let mut name = Vec::new(rt.alloc());
    for count in [63_usize, 63, 63, 61] {
        if !name.is_empty() {
            name.push(b'.')?;
        }
        for _ in 0..count {
            name.push(b'A')?;
        }
    }
    let read = Host::parse(rt.alloc(), &name);
    assert!(rt; read.is_ok());
    if let Ok(host) = read {
        let twin = host.copy(rt.alloc())?;
        assert!(rt; same_host(&host, &twin));
        assert_eq!(rt; host.write(rt.alloc())?.len(), 253);
    }
    name.push(b'A')?;
    assert!(rt; Host::parse(rt.alloc(), &name).is_err());
    name.truncate(63);
    assert!(rt; Host::parse(rt.alloc(), &name).is_ok());
    name.push(b'A')?;
    assert!(rt; Host::parse(rt.alloc(), &name).is_err());
    Ok(())
}

#[test]
fn ascii_texts_of_origins(rt: HostRuntime) -> Result<(), Fail> {
    let read = Origin::parse_ascii(rt.alloc(), b"https://[::1]:8443");
    assert!(rt; read.is_ok());
    if let Ok(origin) = read {
        assert_eq!(rt; origin.port, 8443);
        let twin = origin.copy(rt.alloc())?;
        assert!(rt; same_origin(&origin, &twin));
    }
    for text in [
        "https://A.example",
        "https://a:443",
        "https://a:080",
        "https://ü",
        "a",
    ] {
        let bytes = text.as_bytes();
        let read = Origin::parse_ascii(rt.alloc(), &bytes[..bytes.len().min(100)]);
        assert!(rt; read.err() == Some(AsciiFault::NotAscii));
    }
    Ok(())
}
