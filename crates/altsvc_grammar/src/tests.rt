ghost use Rattle.std.specs.Prelude.{◌<◌, ◌^◌, length};

use crate::{AltRefusal, UsedRefusal, parse, parse_alt_used, show_text, write, write_alt_used};
use alt_base::{Bytes, Duplicate, NoMemory, Refused};
use std::alloc::Global;

// What is shown of a value, or its refusal.
fn shown(alloc: Global, input: &[u8]) -> Result<Bytes, Refused<AltRefusal>> {
    let value = parse(alloc, input)?;
    Ok(show_text(alloc, &value)?)
}

fn shows(alloc: Global, input: &[u8], lines: &[u8]) -> bool {
    match shown(alloc, input) {
        Ok(text) => text.as_slice() == lines,
        Err(_) => false,
    }
}

fn refuses(alloc: Global, input: &[u8], place: u32, reason: AltRefusal) -> bool {
    match shown(alloc, input) {
        Ok(_) => false,
        Err(refused) => refused == Refused::At { place, reason },
    }
}

#[test]
fn values(rt: HostRuntime) {
    let alloc = rt.alloc();
    assert!(rt; shows(alloc, b"clear, h2=\":443\"", b"clear\n"));
    assert!(rt; shows(alloc, b"h2=\":443\" , clear", b"clear\n"));
    assert!(rt;
        shows(
            alloc,
            b"w%3Dx%3Ay#z=\":443\"",
            b"w%3Dx%3Ay#z - 443 ma 86400 persist 0\n"
        )
    );
    assert!(rt; shows(alloc, b"h2=\":443\",,", b"h2 - 443 ma 86400 persist 0\n"));
    assert!(rt;
        shows(
            alloc,
            b"h2=\":443\"; ma=99999999999",
            b"h2 - 443 ma 2147483648 persist 0\n"
        )
    );
    assert!(rt;
        shows(
            alloc,
            b"h2=\"[::1]:443\";x=\"a,\\\"\";MA=\"5\";ma=6;persist=1",
            b"h2 [::1] 443 ma 5 persist 1\n"
        )
    );
    assert!(rt;
        shows(
            alloc,
            b"h3=\"A.example:00080\";persist=01, h3=\"a.example:80\";ma=1",
            b"h3 a.example 80 ma 86400 persist 0\n"
        )
    );
    assert!(rt;
        shows(
            alloc,
            b"clear=\":443\"",
            b"clear - 443 ma 86400 persist 0\n"
        )
    );
}

#[test]
fn refusals(rt: HostRuntime) {
    let alloc = rt.alloc();
    assert!(rt; refuses(alloc, b"", 0, AltRefusal::Empty));
    assert!(rt; refuses(alloc, b" ,\t", 3, AltRefusal::Empty));
    assert!(rt; refuses(alloc, b",", 1, AltRefusal::Empty));
    assert!(rt; refuses(alloc, b", \"", 2, AltRefusal::BadToken));
    assert!(rt; refuses(alloc, b"h%32=\":443\"", 1, AltRefusal::BadPercent));
    assert!(rt; refuses(alloc, b"h%3d=\":443\"", 1, AltRefusal::BadPercent));
    assert!(rt; refuses(alloc, b"h%3=\":443\"", 1, AltRefusal::BadPercent));
    assert!(rt; refuses(alloc, b"h%32 =", 4, AltRefusal::NoEquals));
    assert!(rt; refuses(alloc, b"h2=443", 3, AltRefusal::BadQuoted));
    assert!(rt; refuses(alloc, b"h2=\":443", 8, AltRefusal::BadQuoted));
    assert!(rt; refuses(alloc, b"h2=\"a..b:1\"", 3, AltRefusal::BadAuthority));
    assert!(rt; refuses(alloc, b"h2=\":65536\"", 3, AltRefusal::BadAuthority));
    assert!(rt; refuses(alloc, b"h2=\":000001\"", 3, AltRefusal::BadAuthority));
    assert!(rt; refuses(alloc, b"h2=\":1\";", 8, AltRefusal::BadParameter));
    assert!(rt; refuses(alloc, b"h2=\":1\";ma", 10, AltRefusal::BadParameter));
    assert!(rt; refuses(alloc, b"h2=\":1\";ma=;", 11, AltRefusal::BadParameter));
    assert!(rt; refuses(alloc, b"h2=\":1\" x", 8, AltRefusal::Trailing));
    assert!(rt; refuses(alloc, b"clear;ma=1", 5, AltRefusal::Trailing));
}

// A value of a protocol of this many bytes.
fn of_protocol(alloc: Global, count: usize) -> Result<Vec<u8>, NoMemory> {
    let mut input = Vec::new(alloc);
    for _ in 0..count {
        input.push(b'a')?;
    }
    input.extend_from_slice(b"=\":1\"")?;
    Ok(input)
}

#[test]
fn long_protocols(rt: HostRuntime) {
    let alloc = rt.alloc();
    let Ok(longest) = of_protocol(alloc, 255) else {
        panic!(rt; "no memory");
    };
    assert!(rt; parse(alloc, longest.as_slice()).is_ok());
    let Ok(longer) = of_protocol(alloc, 256) else {
        panic!(rt; "no memory");
    };
    assert!(rt; refuses(alloc, longer.as_slice(), 0, AltRefusal::BadToken));
    let Ok(largest) = of_protocol(alloc, 16_380) else {
        panic!(rt; "no memory");
    };
    assert!(rt; refuses(alloc, largest.as_slice(), 16_384, AltRefusal::TooLong));
}

fn writes(alloc: Global, input: &[u8], text: &[u8]) -> Result<bool, Refused<AltRefusal>> {
    let value = parse(alloc, input)?;
    let twin = value.copy(alloc)?;
    let written = write(alloc, &twin)?;
    let back = parse(alloc, written.as_slice())?;
    Ok(written.as_slice() == text && back == value)
}

#[test]
fn written(rt: HostRuntime) {
    let alloc = rt.alloc();
    assert!(rt;
        writes(alloc, b"h2 = \":1\"", b"")
            == Err(Refused::At {
                place: 2,
                reason: AltRefusal::NoEquals
            })
    );
    assert!(rt; writes(alloc, b"clear , clear", b"clear") == Ok(true));
    assert!(rt;
        writes(
            alloc,
            b"%25=\":1\" ;persist=1;ma=07, ,h2=\"a:2\"",
            b"%25=\":1\"; ma=7; persist=1, h2=\"a:2\""
        ) == Ok(true)
    );
}

fn used(alloc: Global, input: &[u8], text: &[u8]) -> Result<bool, Refused<UsedRefusal>>
    requires { length input.now < 2 ^ 32 }
{
    let (host, port) = parse_alt_used(alloc, input)?;
    let written = write_alt_used(alloc, &host, port)?;
    Ok(written.as_slice() == text)
}

#[test]
fn used_values(rt: HostRuntime) {
    let alloc = rt.alloc();
    assert!(rt; used(alloc, b"a.example:8443", b"a.example:8443") == Ok(true));
    assert!(rt; used(alloc, b"a.example", b"a.example") == Ok(true));
    assert!(rt; used(alloc, b"[::1]:0443", b"[::1]") == Ok(true));
    assert!(rt;
        used(alloc, b"a.example:", b"")
            == Err(Refused::At {
                place: 10,
                reason: UsedRefusal::BadPort
            })
    );
    assert!(rt;
        used(alloc, b"a.example:80x", b"")
            == Err(Refused::At {
                place: 12,
                reason: UsedRefusal::Trailing
            })
    );
    assert!(rt;
        used(alloc, b"[::1", b"")
            == Err(Refused::At {
                place: 0,
                reason: UsedRefusal::BadHost
            })
    );
    assert!(rt;
        used(alloc, b"[::1]x", b"")
            == Err(Refused::At {
                place: 5,
                reason: UsedRefusal::Trailing
            })
    );
}
