use crate::{TextRefusal, delta_seconds, ows, quoted, token};
use alt_base::At;
use std::test::Fail;

fn refused(place: u32, reason: TextRefusal) -> Result<u32, At<TextRefusal>> {
    Err(At { place, reason })
}

#[test]
fn tokens(rt: HostRuntime) -> Result<(), Fail> {
    assert_eq!(rt; token(b"h2=\":443\"", 0), Ok(2));
    assert_eq!(rt; token(b"x; ma~!", 3), Ok(7));
    assert_eq!(rt; token(b"=", 0), refused(0, TextRefusal::Empty));
    assert_eq!(rt; token(b"ab", 2), refused(2, TextRefusal::Empty));
    Ok(())
}

#[test]
fn quoted_strings(rt: HostRuntime) -> Result<(), Fail> {
    assert_eq!(rt; quoted(b"\"a\\\"b\\\\\";", 0), Ok(8));
    assert_eq!(rt; quoted(b"=\"\"", 1), Ok(3));
    assert_eq!(rt; quoted(b"a", 0), refused(0, TextRefusal::Empty));
    assert_eq!(rt; quoted(b"\"a\nb\"", 0), refused(2, TextRefusal::BadByte));
    assert_eq!(rt; quoted(b"\"a\\\nb\"", 0), refused(3, TextRefusal::BadByte));
    assert_eq!(rt; quoted(b"\"ab", 0), refused(3, TextRefusal::Unclosed));
    assert_eq!(rt; quoted(b"\"ab\\", 0), refused(4, TextRefusal::Unclosed));
    Ok(())
}

#[test]
fn blanks(rt: HostRuntime) -> Result<(), Fail> {
    assert_eq!(rt; ows(b"a \t b", 1), 4);
    assert_eq!(rt; ows(b"a\n", 1), 1);
    Ok(())
}

#[test]
fn seconds(rt: HostRuntime) -> Result<(), Fail> {
    assert_eq!(rt; delta_seconds(b"0086400"), Some(86_400));
    assert_eq!(rt; delta_seconds(b"2147483647"), Some(2_147_483_647));
    assert_eq!(rt; delta_seconds(b"2147483649"), Some(2_147_483_648));
    assert_eq!(rt;
        delta_seconds(b"99999999999999999999999"),
        Some(2_147_483_648)
    );
    assert_eq!(rt; delta_seconds(b""), None);
    assert_eq!(rt; delta_seconds(b"1 "), None);
    assert_eq!(rt; delta_seconds(b"-1"), None);
    Ok(())
}
