use crate::tests::{Row, bytes_of, shown};
use std::alloc::Global;
use std::process::Abort;
use std::test::Fail;

fn hold(rt: &impl Abort, alloc: Global, words: &[&[u8]], rows: &[Row]) -> Result<(), Fail> {
    for (input, written, status) in rows {
        let gave = shown(alloc, words, bytes_of(alloc, *input)?, &[], &[])?;
        assert_eq!(rt; gave.written.as_slice(), *written);
        assert_eq!(rt; gave.status, *status);
    }
    Ok(())
}

const WIRE: &[u8] =
    b"001003666f6f076578616d706c65036f7267000000000400010004000100090268320568332d313900040004c0000201\n";

#[test]
fn records_as_json(rt: HostRuntime) -> Result<(), Fail> {
    hold(
        &rt,
        rt.alloc(),
        &[b"show", b"https", b"--json"],
        &[
            (
                b"000100000100030268320003000220fb\n",
                b"{\"params\":[{\"hex\":\"026832\",\"key\":1},{\"hex\":\"20fb\",\"key\":3}],\"priority\":1,\"target\":\".\"}\n",
                0,
            ),
            (
                b"00000161076578616d706c6500",
                b"{\"params\":[],\"priority\":0,\"target\":\"a.example.\"}\n",
                0,
            ),
            (b"", b"refused 1 at 0\n", 1),
            (b"0", b"refused hex\n", 1),
            (b"0001000003000201bb0003000201bb", b"refused 3 at 9\n", 1),
        ],
    )
}

#[test]
fn records_as_text(rt: HostRuntime) -> Result<(), Fail> {
    hold(
        &rt,
        rt.alloc(),
        &[b"show", b"https"],
        &[
            (
                WIRE,
                b"16 foo.example.org. mandatory=alpn,ipv4hint alpn=\"h2,h3-19\" ipv4hint=192.0.2.1\n",
                0,
            ),
            (b"000100007B0003613b62", b"1 . key123=\"a;b\"\n", 0),
            (b"0001", b"refused 2 at 2\n", 1),
            (b"0g", b"refused hex\n", 1),
        ],
    )
}

#[test]
fn texts_as_octets(rt: HostRuntime) -> Result<(), Fail> {
    hold(
        &rt,
        rt.alloc(),
        &[b"write", b"https"],
        &[
            (
                b"16 foo.example.org. alpn=h2,h3-19 mandatory=ipv4hint,alpn ipv4hint=192.0.2.1\n",
                WIRE,
                0,
            ),
            (b"1 . key123=\"a;b\"", b"000100007b0003613b62\n", 0),
            (
                b"1 foo.example.com. key123=abc key123=def",
                b"refused 4 at 30\n",
                1,
            ),
            (
                b"1 foo.example.com. mandatory=mandatory",
                b"refused 6 at 29\n",
                1,
            ),
            (b"", b"refused 1 at 0\n", 1),
            (b"1 . mandatory=port", b"refused 7 at 18\n", 1),
            (b"0 . mandatory=port", b"000000000000020003\n", 0),
            // Only one newline is dropped; behind a dot alone nothing may stand.
            (b"1 .\n\n", b"refused 2 at 2\n", 1),
        ],
    )
}
