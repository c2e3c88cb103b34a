use crate::*;
use alt_base::{Duplicate, ListOf, NoMemory, Refused};
use altsvc_grammar::{Alt, AltKey, AltSvc, Alts};
use origin_values::{Host, Origin, Scheme};
use std::alloc::Global;
use std::test::Fail;

// Whether a payload says an origin and how many alternatives, none for `clear`; or the place and the reason of its
// refusal.
fn counted(
    alloc: Global,
    stream: u32,
    payload: &[u8],
) -> Result<Result<(bool, usize), (u32, AltFrameRefusal)>, NoMemory> {
    match parse(alloc, stream, payload) {
        Ok(frame) => {
            let count = match &frame.value {
                AltSvc::Clear => 0,
                AltSvc::List(alts) => alts.len(),
            };
            Ok(Ok((frame.origin.is_some(), count)))
        }
        Err(Refused::At { place, reason }) => Ok(Err((place, reason))),
        Err(Refused::NoMemory) => Err(NoMemory),
    }
}

#[test]
fn payloads_with_counts(rt: HostRuntime) -> Result<(), Fail> {
    let table = [
        (0, "\0\x11https://a.exampleclear", true, 0),
        (0, "\0\x10http://a.exampleh2=\":1\"", true, 1),
        (1, "\0\0clear", false, 0),
        (0x7FFF_FFFF, "\0\0h2=\":1\", h3=\":2\"", false, 2),
    ];
    for (stream, payload, origin, count) in table {
        let got = counted(rt.alloc(), stream, payload.as_bytes())?;
        assert_eq!(rt; got, Ok((origin, count)));
    }
    Ok(())
}

#[test]
fn frames_that_are_ignored(rt: HostRuntime) -> Result<(), Fail> {
    let table = [
        (0, "", 0, AltFrameRefusal::Short),
        (1, "\0", 1, AltFrameRefusal::Short),
        (0, "\0\x01", 0, AltFrameRefusal::OriginPast),
        (1, "\x01\x02abc", 0, AltFrameRefusal::OriginPast),
        (0, "\0\0", 0, AltFrameRefusal::EmptyOnZero),
        (0, "\0\0clear", 0, AltFrameRefusal::EmptyOnZero),
        (
            1,
            "\0\x11https://a.exampleclear",
            0,
            AltFrameRefusal::OriginOnStream,
        ),
        (3, "\0\x01a", 0, AltFrameRefusal::OriginOnStream),
        (0, "\0\x01aclear", 2, AltFrameRefusal::BadOrigin),
        (0, "\0\x11https://A.example", 2, AltFrameRefusal::BadOrigin),
        (
            0,
            "\0\x15https://a.example:443clear",
            2,
            AltFrameRefusal::BadOrigin,
        ),
        (1, "\0\0", 2, AltFrameRefusal::BadField),
        (1, "\0\0h2", 4, AltFrameRefusal::BadField),
        (0, "\0\x11https://a.example", 19, AltFrameRefusal::BadField),
        (
            0,
            "\0\x11https://a.exampleclear x",
            25,
            AltFrameRefusal::BadField,
        ),
    ];
    for (stream, payload, place, reason) in table {
        let got = counted(rt.alloc(), stream, payload.as_bytes())?;
        assert_eq!(rt; got, Err((place, reason)));
    }
    Ok(())
}

#[test]
fn a_field_too_long(rt: HostRuntime) -> Result<(), Fail> {
    let mut octets = vec![in rt.alloc(); 0_u8; 2]?;
    octets.extend_from_slice(vec![in rt.alloc(); b','; 16_385]?.as_slice())?;
    let got = counted(rt.alloc(), 1, octets.as_slice())?;
    assert_eq!(rt; got, Err((16_386, AltFrameRefusal::BadField)));
    Ok(())
}

#[test]
fn written_and_read_back(rt: HostRuntime) -> Result<(), Fail> {
    let alloc = rt.alloc();
    let mut alts = Alts::new(alloc);
    alts.push(Alt {
        key: AltKey {
            proto: ListOf::from_vec(b"h2".to_vec(alloc)?),
            host: None,
            port: 8443,
        },
        ma: 60,
        persist: true,
    })?;
    let frame = AltFrame {
        origin: Some(Origin {
            scheme: Scheme::Https,
            host: Host::V4([192, 0, 2, 1]),
            port: 443,
        }),
        value: AltSvc::List(alts),
    };
    let octets = write(alloc, &frame)?;
    let text = "\0\x11https://192.0.2.1h2=\":8443\"; ma=60; persist=1";
    assert!(rt; octets.as_slice() == text.as_bytes());
    match parse(alloc, 0, octets.as_slice()) {
        Ok(read) => assert!(rt; read.copy(alloc)? == frame),
        Err(_) => assert!(rt; false),
    }
    Ok(())
}
