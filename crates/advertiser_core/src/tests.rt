ghost use Rattle.std.specs.Prelude.{◌<◌, ◌^◌, ◌≡◌, length, IfSome};
ghost use Rattle.origin_values.specs.Valid.{IsOrigin};
ghost use Rattle.altsvc_grammar.specs.Valid.{AreListed};

use crate::*;
use alt_base::Bytes;
use altsvc_grammar::{AltSvc, Alts, parse, spelled_values_are_valid};
use h2_framing::write_frame;
use origin_values::Origin;
use std::alloc::Global;
use std::test::Fail;

// The origin that a text spells.
fn origin(alloc: Global, text: &[u8]) -> Option<Origin>
    requires { length text.now < 2 ^ 32 }
    ensures { IfSome result (λ origin. IsOrigin origin) }
{
    Origin::parse(alloc, text).ok()
}

// A server that serves https://hNNN.example for so many numbers from 100 on.
fn serving(alloc: Global, count: u32) -> Result<Advertiser, Fail>
    requires { count < 900 }
{
    let mut server = Advertiser::new(alloc);
    for n in 100..100 + count {
        let mut text = *b"https://h000.example";
        text[9] = b'0' + (n / 100) as u8;
        text[10] = b'0' + (n / 10 % 10) as u8;
        text[11] = b'0' + (n % 10) as u8;
        server.serve(origin(alloc, &text).ok_or("no origin")?)?;
    }
    Ok(server)
}

#[test]
fn long_announcements(rt: HostRuntime) -> Result<(), Fail> {
    let table = [
        (0, Ok(0)),
        (1, Ok(22)),
        (700, Ok(15_400)),
        (744, Ok(16_368)),
        (745, Err(ServerFault::OverFrame { length: 16_390 })),
    ];
    for (count, want) in table {
        let mut server = serving(rt.alloc(), count)?;
        let got = match server.announce() {
            Ok(number) => Ok(server.message(number).map_or(1, |made| made.0.length)),
            Err(fault) => Err(fault),
        };
        assert_eq!(rt; got, want);
    }
    Ok(())
}

// The origin of a host with a name of one letter.
fn short(alloc: Global, letter: u8) -> Option<Origin>
    ensures { IfSome result (λ origin. IsOrigin origin) }
{
    let mut text = *b"https://x.example";
    text[8] = letter;
    origin(alloc, &text)
}

// A server after acts: `+` and `-` before letters of origins that are served or unserved.
fn after(alloc: Global, acts: &[u8]) -> Result<Advertiser, Fail> {
    let mut server = Advertiser::new(alloc);
    let mut adds = true;
    for act in acts {
        match *act {
            b'+' => adds = true,
            b'-' => adds = false,
            letter if adds => server.serve(short(alloc, letter).ok_or("no origin")?)?,
            letter => server.unserve(&short(alloc, letter).ok_or("no origin")?)?,
        }
    }
    Ok(server)
}

// The whole octets of a message.
fn octets(alloc: Global, server: &Advertiser, number: u32) -> Result<Bytes, Fail> {
    let (head, payload) = server.message(number).ok_or("no message")?;
    if payload.len() != head.length as usize || head.length > 16_384 || head.stream != 0 {
        return Err("not whole")?;
    }
    Ok(write_frame(alloc, head, payload)?)
}

#[test]
fn announced_in_order(rt: HostRuntime) -> Result<(), Fail> {
    let table = [
        ("", "\0\0\0\x0c\0\0\0\0\0"),
        ("+a", "\0\0\x13\x0c\0\0\0\0\0\0\x11https://a.example"),
        (
            "+aba",
            "\0\0\x26\x0c\0\0\0\0\0\0\x11https://a.example\0\x11https://b.example",
        ),
        (
            "+ab-a+a",
            "\0\0\x26\x0c\0\0\0\0\0\0\x11https://b.example\0\x11https://a.example",
        ),
        (
            "+abc-b",
            "\0\0\x26\x0c\0\0\0\0\0\0\x11https://a.example\0\x11https://c.example",
        ),
        ("+a-a", "\0\0\0\x0c\0\0\0\0\0"),
    ];
    for (acts, want) in table {
        let mut server = after(rt.alloc(), acts.as_bytes())?;
        assert_eq!(rt; server.announce(), Ok(1));
        let got = octets(rt.alloc(), &server, 1)?;
        assert!(rt; got.as_slice() == want.as_bytes(), "after {acts}");
    }
    Ok(())
}

// The one alternative h2=":8443".
fn alternatives(alloc: Global) -> Option<Alts>
    ensures { IfSome result (λ alts. AreListed alts) }
{
    spelled_values_are_valid();
    match parse(alloc, b"h2=\":8443\"") {
        Ok(AltSvc::List(alts)) => Some(alts),
        _ => None,
    }
}

#[test]
fn offered_and_withdrawn(rt: HostRuntime) -> Result<(), Fail> {
    let alloc = rt.alloc();
    let mut server = after(alloc, b"+a")?;
    let a = short(alloc, b'a').ok_or("no origin")?;
    let b = short(alloc, b'b').ok_or("no origin")?;
    let alts = alternatives(alloc).ok_or("no alternatives")?;
    assert_eq!(rt; server.offer(&b, &alts), Err(ServerFault::NotServed));
    assert_eq!(rt; server.withdraw(&b), Err(ServerFault::NotServed));
    assert_eq!(rt; server.unserve(&b), Err(NotServed));
    assert_eq!(rt; server.offer(&a, &alts), Ok(1));
    assert_eq!(rt; server.withdraw(&a), Ok(2));
    assert_eq!(rt; server.ask(&a), Answer::Serve);
    assert_eq!(rt; server.ask(&b), Answer::Misdirected);
    let table = [
        (
            1,
            "\0\0\x1d\x0a\0\0\0\0\0\0\x11https://a.exampleh2=\":8443\"",
        ),
        (2, "\0\0\x18\x0a\0\0\0\0\0\0\x11https://a.exampleclear"),
    ];
    for (number, want) in table {
        let got = octets(alloc, &server, number)?;
        assert!(rt; got.as_slice() == want.as_bytes());
    }
    assert!(rt; server.message(0).is_none() && server.message(3).is_none());
    server.unserve(&a)?;
    assert_eq!(rt; server.ask(&a), Answer::Misdirected);
    assert!(rt; server.message(2).is_some());
    Ok(())
}
