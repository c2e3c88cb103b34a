use crate::*;
use alt_base::{Duplicate, ListOf, NoMemory, Refused};
use origin_values::{Host, Origin, Scheme};
use std::alloc::Global;
use std::test::Fail;

// The https origin of a host.
fn origin(alloc: Global, host: &str) -> Result<Origin, NoMemory> {
    let name = host.as_bytes().to_vec(alloc)?;
    Ok(Origin {
        scheme: Scheme::Https,
        host: Host::Name(ListOf::from_vec(name)),
        port: 443,
    })
}

// What a payload lists, counted; or the place and the reason of its refusal.
fn counted(
    alloc: Global,
    stream: u32,
    flags: u8,
    payload: &str,
) -> Result<Result<(usize, u32), (u32, OriginFrameRefusal)>, NoMemory> {
    let octets = payload.as_bytes();
    match parse(alloc, stream, flags, &octets[..octets.len().min(1000)]) {
        Ok(listed) => Ok(Ok((listed.origins.len(), listed.skipped))),
        Err(Refused::At { place, reason }) => Ok(Err((place, reason))),
        Err(Refused::NoMemory) => Err(NoMemory),
    }
}

#[test]
fn payloads_with_counts(rt: HostRuntime) -> Result<(), Fail> {
    let table = [
        (0, "", 0, 0),
        (0x10, "", 0, 0),
        (0xF0, "\0\0", 0, 1),
        (0, "\0\x11https://a.example", 1, 0),
        (
            0,
            "\0\x10http://a.example\0\0\0\x01a\0\x10http://b.example",
            2,
            2,
        ),
        (0, "\0\x11https://A.example", 0, 1),
        (0, "\0\x15https://a.example:443", 0, 1),
        (0, "\0\x16https://a.example:0444", 0, 1),
        (0, "\0\x15https://a.example:444", 1, 0),
        (0, "\0\x12https://a.example/", 0, 1),
    ];
    for (flags, payload, origins, skipped) in table {
        let got = counted(rt.alloc(), 0, flags, payload)?;
        assert_eq!(rt; got, Ok((origins, skipped)));
    }
    Ok(())
}

#[test]
fn frames_that_are_ignored(rt: HostRuntime) -> Result<(), Fail> {
    let table = [
        (1, 0, "", 0, OriginFrameRefusal::NotStreamZero),
        (3, 8, "\0", 0, OriginFrameRefusal::NotStreamZero),
        (0, 1, "\0", 0, OriginFrameRefusal::Flags),
        (0, 2, "", 0, OriginFrameRefusal::Flags),
        (0, 4, "", 0, OriginFrameRefusal::Flags),
        (0, 0x18, "", 0, OriginFrameRefusal::Flags),
        (0, 0, "\0", 0, OriginFrameRefusal::EntryPast),
        (0, 0x20, "\0\x01", 0, OriginFrameRefusal::EntryPast),
        (0, 0, "\x01\x02a", 0, OriginFrameRefusal::EntryPast),
        (
            0,
            0,
            "\0\x11https://a.example\0",
            19,
            OriginFrameRefusal::EntryPast,
        ),
        (0, 0, "\0\0\0\0\0\x03ab", 4, OriginFrameRefusal::EntryPast),
    ];
    for (stream, flags, payload, place, reason) in table {
        let got = counted(rt.alloc(), stream, flags, payload)?;
        assert_eq!(rt; got, Err((place, reason)));
    }
    Ok(())
}

#[test]
fn empty_entries(rt: HostRuntime) -> Result<(), Fail> {
    let octets = vec![in rt.alloc(); 0_u8; 16_384]?;
    match parse(rt.alloc(), 0, 0, octets.as_slice()) {
        Ok(listed) => {
            assert_eq!(rt; listed.origins.len(), 0);
            assert_eq!(rt; listed.skipped, 8192);
        }
        Err(_) => assert!(rt; false),
    }
    Ok(())
}

// A payload of 19 octets for each short name and 20 for each long one.
fn many(alloc: Global, short: u32, long: u32) -> Result<Origins, NoMemory> {
    let mut origins = Origins::new(alloc);
    let a = origin(alloc, "a.example")?;
    let aa = origin(alloc, "aa.example")?;
    for _ in 0..short {
        origins.push(a.copy(alloc)?)?;
    }
    for _ in 0..long {
        origins.push(aa.copy(alloc)?)?;
    }
    Ok(origins)
}

#[test]
fn the_longest_payload(rt: HostRuntime) -> Result<(), Fail> {
    let origins = many(rt.alloc(), 856, 6)?;
    match write(rt.alloc(), &origins) {
        Ok(octets) => {
            assert_eq!(rt; octets.len(), 16_384);
            match parse(
                rt.alloc(),
                0,
                0,
                &octets.as_slice()[..octets.len().min(20_000)],
            ) {
                Ok(listed) => {
                    let twin = listed.copy(rt.alloc())?;
                    assert!(rt; twin.origins == origins);
                    assert_eq!(rt; twin.skipped, 0);
                }
                Err(_) => assert!(rt; false),
            }
        }
        Err(_) => assert!(rt; false),
    }
    let over = write(rt.alloc(), &many(rt.alloc(), 855, 7)?);
    assert!(rt; over == Err(OverFault::OverFrame { length: 16_385 }));
    Ok(())
}
