ghost use Rattle.std.specs.Prelude.{IfOk};
ghost use Rattle.event_lines.specs.HaveLines.{HasText};

use crate::LineRefusal::{BadField, BadMoment, ExtraField, UnknownKind};
use crate::*;
use alt_base::{Bytes, Duplicate, ListOf, Moment, Refused};
use dns_names::Name;
use route_events::{AnswerBody, Fact};
use std::alloc::Global;
use std::process::Abort;
use std::test::Fail;
use svcb_wire::V4s;

/// A line, and the line that its event is written as.
type Written = (&'static [u8], &'static [u8]);

/// A line, and its refusal at a place.
type Row = (&'static [u8], u32, LineRefusal);

const WRITTEN: &[Written] = &[
    (b"", b""),
    (b"# 0 jump", b""),
    (b"0 tick", b"0 tick"),
    (
        b"4294967295 failed 18446744073709551615",
        b"4294967295 failed 18446744073709551615",
    ),
    (b"10 closed 0", b"10 closed 0"),
    (b"10 network", b"10 network"),
    (
        b"1 request 4294967295 HTTP://[2001:DB8::1]:8080",
        b"1 request 4294967295 http://[2001:db8::1]:8080",
    ),
    (
        b"0 request 1 https://b\xc3\xbccher.example:0443",
        b"0 request 1 https://xn--bcher-kva.example",
    ),
    (
        b"0 opened 1 h2 192.0.2.1 443 *.A.example,b,::1",
        b"0 opened 1 h2 192.0.2.1 443 *.a.example,b,::1",
    ),
    (
        b"0 opened 1 h3 2001:DB8::1 1 -",
        b"0 opened 1 h3 2001:db8::1 1 -",
    ),
    (
        b"0 opened 1 http/1.1 ::1 65535 a",
        b"0 opened 1 http/1.1 ::1 65535 a",
    ),
    (
        b"0 opened 1 other ::1 80 192.0.2.1",
        b"0 opened 1 other ::1 80 192.0.2.1",
    ),
    (
        b"3 input 18446744073709551615 00",
        b"3 input 18446744073709551615 00",
    ),
    (b"3 input 0 0009fFA0dB", b"3 input 0 0009ffa0db"),
    (b"9 who HTTPS://A.example:0443", b"9 who https://a.example"),
    (b"0 answer a.example a 600", b"0 answer a.example. a 600"),
    (
        b"0 answer A.Example. a 0 192.0.2.1 198.51.100.7",
        b"0 answer a.example. a 0 192.0.2.1 198.51.100.7",
    ),
    (
        b"0 answer . aaaa 2147483647 2001:DB8::1 ::ffff:192.0.2.1",
        b"0 answer . aaaa 2147483647 2001:db8::1 ::ffff:c000:201",
    ),
    (
        b"7 answer a\\046b.example https 300 0001 00fF",
        b"7 answer a\\.b.example. https 300 0001 00ff",
    ),
    (b"8 stats", b"8 stats"),
    // The server's acts.
    (
        b"0 serve HTTPS://A.example:0443",
        b"0 serve https://a.example",
    ),
    (
        b"1 unserve http://[2001:DB8::1]:80",
        b"1 unserve http://[2001:db8::1]",
    ),
    (
        b"2 offer https://a.example h2=\":443\"",
        b"2 offer https://a.example h2=\":443\"",
    ),
    (
        b"2 offer HTTPS://a.example  h3=\":1\" ;MA=\"60\",,h2=\"B.example:8443\"; x=y; persist=1 ",
        b"2 offer https://a.example h3=\":1\"; ma=60, h2=\"b.example:8443\"; persist=1",
    ),
    (
        b"2 offer https://a.example h2=\":1\", h2=\":1\"; ma=5",
        b"2 offer https://a.example h2=\":1\"",
    ),
    (
        b"2 offer https://a.example clear=\":443\"",
        b"2 offer https://a.example clear=\":443\"",
    ),
    (
        b"3 withdraw https://a.example:8443",
        b"3 withdraw https://a.example:8443",
    ),
    (b"4 announce", b"4 announce"),
    (
        b"5 deliver 4294967295 18446744073709551615",
        b"5 deliver 4294967295 18446744073709551615",
    ),
    (b"6 ask 4294967295", b"6 ask 4294967295"),
    // Responses.
    (b"7 response 3 200", b"7 response 3 200"),
    (
        b"7 response 3 599\tdate: Tue, 1 Dec\tvia:",
        b"7 response 3 599",
    ),
    (
        b"0 response 1 204\tAGE:  12 \tAlt-Svc: h3=\":443\"; ma=60",
        b"0 response 1 204\tage: 12\talt-svc: h3=\":443\"; ma=60",
    ),
    (
        b"0 response 1 200\tage: 5\tAge: 7",
        b"0 response 1 200\tage: 5",
    ),
    (b"0 response 1 200\tage: x\tage: 7", b"0 response 1 200"),
    (b"0 response 1 200\tage:\tage: 7", b"0 response 1 200"),
    (
        b"0 response 1 200\taGe:99999999999999999999",
        b"0 response 1 200\tage: 2147483648",
    ),
    (
        b"0 response 1 200\talt-svc: a\tage: 1\tALT-SVC: b\tx: c\talt-svc:clear",
        b"0 response 1 200\tage: 1\talt-svc: a, b, clear",
    ),
    (
        b"0 response 1 200\talt-svc:   ",
        b"0 response 1 200\talt-svc: ",
    ),
    (
        b"0 response 1 200\talt-svc:\talt-svc: ",
        b"0 response 1 200\talt-svc: , ",
    ),
    (
        b"0 response 1 200\talt-svc: \x80\xff",
        b"0 response 1 200\talt-svc: \x80\xff",
    ),
];

const REFUSED: &[Row] = &[
    (b" tick", 0, BadMoment),
    (b"tick", 0, BadMoment),
    (b"01 tick", 0, BadMoment),
    (b"+1 tick", 0, BadMoment),
    (b"4294967296 tick", 0, BadMoment),
    (b"0\ttick", 0, BadMoment),
    (b"5", 1, UnknownKind),
    (b"5 ", 2, UnknownKind),
    (b"0  tick", 2, UnknownKind),
    (b"0 jump", 2, UnknownKind),
    (b"10 Tick", 3, UnknownKind),
    (b"0 failed", 8, BadField),
    (b"0 failed ", 9, BadField),
    (b"0 failed  1", 9, BadField),
    (b"0 failed 01", 9, BadField),
    (b"0 closed 18446744073709551616", 9, BadField),
    (b"0 request 4294967296 https://a", 10, BadField),
    (b"0 request 1", 11, BadField),
    (b"0 request 1 ftp://a.example", 12, BadField),
    (b"0 opened 1 h1 ::1 443 -", 11, BadField),
    (b"0 opened 1 h2 [::1] 443 -", 14, BadField),
    (b"0 opened 1 h2 ::1 0 -", 18, BadField),
    (b"0 opened 1 h2 ::1 65536 -", 18, BadField),
    (b"0 opened 1 h2 ::1 443 ", 22, BadField),
    (b"0 opened 1 h2 192.0.2.1 443 a..b", 28, BadField),
    (b"0 tick ", 7, ExtraField),
    (b"0 tick now", 7, ExtraField),
    (b"0 failed 1  ", 11, ExtraField),
    (b"0 network ", 10, ExtraField),
    (b"0 network now", 10, ExtraField),
    (b"0 input", 7, BadField),
    (b"0 input x 00", 8, BadField),
    (b"0 input 1", 9, BadField),
    (b"0 input 1 ", 10, BadField),
    (b"0 input 1  00", 10, BadField),
    (b"0 input 1 0", 10, BadField),
    (b"0 input 1 00010", 10, BadField),
    (b"0 input 1 000g", 10, BadField),
    (b"0 input 1 00 ", 13, ExtraField),
    (b"0 input 1 00 01", 13, ExtraField),
    (b"0 who", 5, BadField),
    (b"0 who a.example", 6, BadField),
    (b"0 who https://a.example ", 24, ExtraField),
    (b"0 answer", 8, BadField),
    (b"0 answer ", 9, BadField),
    (b"0 answer a..b a 1", 9, BadField),
    (b"0 answer a", 10, BadField),
    (b"0 answer a A 1", 11, BadField),
    (b"0 answer a mx 1", 11, BadField),
    (b"0 answer a a", 12, BadField),
    (b"0 answer a a 01", 13, BadField),
    (b"0 answer a a 2147483648", 13, BadField),
    (b"0 answer a a 1 ", 15, BadField),
    (b"0 answer a a 1 ::1", 15, BadField),
    (b"0 answer a a 1 192.0.2.1 192.0.2.256", 25, BadField),
    (b"0 answer a a 1 192.0.2.1 ", 25, BadField),
    (b"0 answer a aaaa 1 192.0.2.1", 18, BadField),
    (b"0 answer a https 1 0", 19, BadField),
    (b"0 answer a https 1  00", 19, BadField),
    (b"0 answer a https 1 00 ", 22, BadField),
    (b"0 stats ", 8, ExtraField),
    (b"0 stats now", 8, ExtraField),
    (b"0 request 1 https://\xff.example", 12, BadField),
    // The server's acts.
    (b"0 Serve https://a.example", 2, UnknownKind),
    (b"0 server https://a.example", 2, UnknownKind),
    (b"0 serve", 7, BadField),
    (b"0 serve ", 8, BadField),
    (b"0 serve a.example", 8, BadField),
    (b"0 serve https://a.example ", 26, ExtraField),
    (b"0 unserve https://a.example:0", 10, BadField),
    (b"0 unserve https://a.example now", 28, ExtraField),
    (b"0 offer", 7, BadField),
    (b"0 offer ftp://a.example h2=\":443\"", 8, BadField),
    (b"0 offer https://a.example", 25, BadField),
    (b"0 offer https://a.example ", 26, BadField),
    (b"0 offer https://a.example  ", 26, BadField),
    (b"0 offer https://a.example clear", 26, BadField),
    (
        b"0 offer https://a.example h2=\":443\", clear",
        26,
        BadField,
    ),
    (b"0 offer https://a.example h2=\":0\"", 26, BadField),
    (b"0 offer https://a.example h2=\":443\" now", 26, BadField),
    (b"0 withdraw", 10, BadField),
    (b"0 withdraw https://a.example ", 29, ExtraField),
    (b"0 announce ", 11, ExtraField),
    (b"0 announce now", 11, ExtraField),
    (b"0 deliver", 9, BadField),
    (b"0 deliver 4294967296 1", 10, BadField),
    (b"0 deliver 1", 11, BadField),
    (b"0 deliver 1 18446744073709551616", 12, BadField),
    (b"0 deliver 1 2 ", 14, ExtraField),
    (b"0 ask", 5, BadField),
    (b"0 ask 01", 6, BadField),
    (b"0 ask 4294967296", 6, BadField),
    (b"0 ask 1 2", 8, ExtraField),
    // Responses.
    (b"0 Response 1 200", 2, UnknownKind),
    (b"0 response", 10, BadField),
    (b"0 response ", 11, BadField),
    (b"0 response x 200", 11, BadField),
    (b"0 response 1\t200", 11, BadField),
    (b"0 response 1", 12, BadField),
    (b"0 response 1 ", 13, BadField),
    (b"0 response 1 99", 13, BadField),
    (b"0 response 1 199", 13, BadField),
    (b"0 response 1 600", 13, BadField),
    (b"0 response 1 0200", 13, BadField),
    (b"0 response 1 20x", 13, BadField),
    (b"0 response 1 200 ", 17, ExtraField),
    (b"0 response 1 200 \tage: 1", 17, ExtraField),
    (b"0 response 1 200\t", 17, BadField),
    (b"0 response 1 200\tage: 1\t", 24, BadField),
    (b"0 response 1 200\t\tage: 1", 17, BadField),
    (b"0 response 1 200\tage", 17, BadField),
    (b"0 response 1 200\t: 1", 17, BadField),
    (b"0 response 1 200\t age: 1", 17, BadField),
    (b"0 response 1 200\tage : 1", 17, BadField),
    (b"0 response 1 200\tx: a\x01b", 17, BadField),
    (b"0 response 1 200\tok: 1\tx: \x7f\ty", 23, BadField),
];

// The moment and the event of a line.
fn read(alloc: Global, line: &[u8]) -> Result<(Moment, Event), Refused<LineRefusal>>
    ensures { IfOk result (λ read. HasText read.1) }
{
    read_line(alloc, &line[..line.len().min(1000)])
}

// The line that the event of a line, copied, is written as.
fn written(alloc: Global, line: &[u8]) -> Result<Bytes, Refused<LineRefusal>> {
    let (moment, event) = read(alloc, line)?;
    Ok(write_event(alloc, moment, &event.copy(alloc)?)?)
}

fn refuses(rt: &impl Abort, alloc: Global, line: &[u8], place: u32, reason: LineRefusal) {
    let got = read(alloc, line);
    assert!(rt; got.err() == Some(Refused::At { place, reason }));
}

#[test]
fn lines_that_are_read(rt: HostRuntime) -> Result<(), Fail> {
    for (line, want) in WRITTEN {
        let got = written(rt.alloc(), *line)?;
        assert_eq!(rt; got.as_slice(), *want);
    }
    Ok(())
}

#[test]
fn events_that_are_read(rt: HostRuntime) -> Result<(), Fail> {
    let bytes = ListOf::from_vec(Vec::from_slice(rt.alloc(), b"\x0a\xf0")?);
    let event = Event::Client(Fact::Input { conn: 7, bytes });
    let got = read(rt.alloc(), b"5 input 7 0aF0");
    assert!(rt; got.ok() == Some((Moment(5), event)));
    let mut addresses: V4s = ListOf::new(rt.alloc());
    addresses.push([192, 0, 2, 1])?;
    addresses.push([192, 0, 2, 2])?;
    let event = Event::Client(Fact::Answer {
        name: Name::from_text(rt.alloc(), b"a.example")?,
        ttl: 60,
        body: AnswerBody::V4(addresses),
    });
    let got = read(rt.alloc(), b"5 answer a.example. a 60 192.0.2.1 192.0.2.2");
    assert!(rt; got.ok() == Some((Moment(5), event)));
    let event = Event::Server(ServerAct::Deliver {
        message: 7,
        conn: 8,
    });
    let got = read(rt.alloc(), b"5 deliver 7 8");
    assert!(rt; got.ok() == Some((Moment(5), event)));
    Ok(())
}

#[test]
fn lines_that_are_refused(rt: HostRuntime) {
    for (line, place, reason) in REFUSED {
        refuses(&rt, rt.alloc(), *line, *place, *reason);
    }
}

// A response may have 64 fields, and a 65th is refused.
#[test]
fn the_65th_field_is_refused(rt: HostRuntime) -> Result<(), Fail> {
    let mut line = Vec::from_slice(rt.alloc(), b"0 response 1 200")?;
    for _ in 0..64 {
        line.extend_from_slice(b"\ta:")?;
    }
    assert!(rt; read(rt.alloc(), line.as_slice()).is_ok());
    line.extend_from_slice(b"\tb:")?;
    refuses(&rt, rt.alloc(), line.as_slice(), 209, BadField);
    Ok(())
}
