ghost use Rattle.std.specs.Prelude.{◌<◌, ◌^◌, ◌≤◌, length};

use crate::{Name, NameRefusal};
use alt_base::{Duplicate, Refused, Text};
use std::alloc::Global;
use std::process::Abort;
use std::test::Fail;

// What is written for the name of a text.
fn respelled(alloc: Global, text: &[u8]) -> Result<Text, Refused<NameRefusal>>
    requires { length text.now < 2 ^ 32 }
{
    let name = Name::from_text(alloc, text)?;
    Ok(name.to_text(alloc)?)
}

// What is written for the name at a place of some octets, and the place after it.
fn read_at(alloc: Global, octets: &[u8], place: u32) -> Result<(Text, u32), Refused<NameRefusal>>
    requires within { place ≤ length octets.now }
    requires small { length octets.now < 2 ^ 32 }
{
    let (name, end) = Name::from_wire(alloc, octets, place)?;
    Ok((name.to_text(alloc)?, end))
}

fn spells(rt: &impl Abort, alloc: Global, text: &[u8], written: &[u8]) -> Result<(), Fail>
    requires { length text.now < 2 ^ 32 }
{
    let respelling = respelled(alloc, text)?;
    assert_eq!(rt; respelling.as_slice(), written);
    Ok(())
}

fn refuses(rt: &impl Abort, alloc: Global, text: &[u8], place: u32, reason: NameRefusal)
    requires { length text.now < 2 ^ 32 }
{
    let answer = Name::from_text(alloc, text);
    assert_eq!(rt; answer, Err(Refused::At { place, reason }));
}

fn refuses_octets(rt: &impl Abort, alloc: Global, octets: &[u8], place: u32, reason: NameRefusal)
    requires { length octets.now < 2 ^ 32 }
{
    let answer = Name::from_wire(alloc, octets, 0);
    assert_eq!(rt; answer, Err(Refused::At { place, reason }));
}

#[test]
fn texts_that_spell(rt: HostRuntime) -> Result<(), Fail> {
    spells(&rt, rt.alloc(), b".", b".")?;
    spells(&rt, rt.alloc(), b"a", b"a.")?;
    spells(&rt, rt.alloc(), b"WWW.Example.org.", b"www.example.org.")?;
    spells(&rt, rt.alloc(), b"\\032", b"\\032.")?;
    spells(&rt, rt.alloc(), b"a\\.b", b"a\\.b.")?;
    spells(&rt, rt.alloc(), b"\\\"", b"\\\".")?;
    spells(&rt, rt.alloc(), b"\\065\\B\\-", b"ab-.")?;
    spells(&rt, rt.alloc(), b"\\000\\255", b"\\000\\255.")?;
    spells(
        &rt,
        rt.alloc(),
        b"\\\"\\$\\(\\)\\.\\;\\@\\\\",
        b"\\\"\\$\\(\\)\\.\\;\\@\\\\.",
    )?;
    spells(&rt, rt.alloc(), b"\"$();@", b"\\\"\\$\\(\\)\\;\\@.")
}

#[test]
fn texts_that_are_refused(rt: HostRuntime) {
    refuses(&rt, rt.alloc(), b"", 0, NameRefusal::EmptyLabel);
    refuses(&rt, rt.alloc(), b"..", 0, NameRefusal::EmptyLabel);
    refuses(&rt, rt.alloc(), b"a..", 2, NameRefusal::EmptyLabel);
    refuses(&rt, rt.alloc(), b".a", 0, NameRefusal::EmptyLabel);
    refuses(&rt, rt.alloc(), b"\\25", 0, NameRefusal::BadEscape);
    refuses(&rt, rt.alloc(), b"a\\256", 1, NameRefusal::BadEscape);
    refuses(&rt, rt.alloc(), b"a\\", 1, NameRefusal::BadEscape);
    refuses(&rt, rt.alloc(), b"a.\\ ", 2, NameRefusal::BadEscape);
    refuses(&rt, rt.alloc(), b"a b", 1, NameRefusal::BadByte);
    refuses(&rt, rt.alloc(), b"a\x7f", 1, NameRefusal::BadByte);
}

#[test]
fn lengths_in_text(rt: HostRuntime) {
    assert!(rt; Name::from_text(rt.alloc(), &[b'a'; 63]).is_ok());
    refuses(&rt, rt.alloc(), &[b'a'; 64], 0, NameRefusal::LabelTooLong);
    let mut text = [b'a'; 254];
    text[63] = b'.';
    text[127] = b'.';
    text[191] = b'.';
    assert!(rt; Name::from_text(rt.alloc(), &text[..253]).is_ok());
    refuses(&rt, rt.alloc(), &text, 192, NameRefusal::NameTooLong);
}

#[test]
fn octets_that_spell(rt: HostRuntime) -> Result<(), Fail> {
    let (root, after_root) = read_at(rt.alloc(), b"\x00", 0)?;
    assert_eq!(rt; root.as_slice(), b".".as_slice());
    assert_eq!(rt; after_root, 1);
    let (name, after_name) = read_at(rt.alloc(), b"\xff\x01A\x02b.\x00\x07", 1)?;
    assert_eq!(rt; name.as_slice(), b"a.b\\..".as_slice());
    assert_eq!(rt; after_name, 7);
    Ok(())
}

#[test]
fn octets_that_are_refused(rt: HostRuntime) {
    refuses_octets(&rt, rt.alloc(), b"", 0, NameRefusal::Short);
    refuses_octets(&rt, rt.alloc(), b"\x03ab", 3, NameRefusal::Short);
    refuses_octets(&rt, rt.alloc(), b"\x03abc", 4, NameRefusal::Short);
    refuses_octets(&rt, rt.alloc(), b"\x01a\x40", 2, NameRefusal::LabelTooLong);
    refuses_octets(&rt, rt.alloc(), b"\x01a\xbf", 2, NameRefusal::LabelTooLong);
    refuses_octets(
        &rt,
        rt.alloc(),
        b"\x01a\xc0\x00",
        2,
        NameRefusal::Compressed,
    );
}

#[test]
fn lengths_in_octets(rt: HostRuntime) -> Result<(), Fail> {
    let mut octets = [b'a'; 256];
    octets[0] = 63;
    octets[64] = 63;
    octets[128] = 63;
    octets[192] = 62;
    octets[255] = 0;
    refuses_octets(&rt, rt.alloc(), &octets, 192, NameRefusal::NameTooLong);
    octets[192] = 61;
    octets[254] = 0;
    let (name, end) = Name::from_wire(rt.alloc(), &octets, 0)?;
    assert_eq!(rt; end, 255);
    let written = name.to_wire(rt.alloc())?;
    assert_eq!(rt; written.as_slice(), &octets[..255]);
    Ok(())
}

#[test]
fn equal_names(rt: HostRuntime) -> Result<(), Fail> {
    let name = Name::from_text(rt.alloc(), b"A.example")?;
    let other = Name::from_text(rt.alloc(), b"b.example.")?;
    let twin = name.copy(rt.alloc())?;
    assert!(rt; twin == name);
    assert!(rt; other != name);
    assert_eq!(rt; other.labels().len(), 2);
    assert!(rt; Name::spelled_by(rt.alloc(), b"a.EXAMPLE.")? == Some(twin));
    assert!(rt; Name::spelled_by(rt.alloc(), b"a..example")?.is_none());
    assert!(rt; Name::spelled_by(rt.alloc(), &[b'a'; 2000])?.is_none());
    Ok(())
}
