use crate::memory_answers::MemoryAnswers;
use crate::{Endpoints, endpoints};
use alt_base::{Bytes, Duplicate, ListOf, Moment};
use dns_names::Name;
use origin_values::{Origin, Protos};
use std::alloc::Global;
use std::process::Abort;
use std::test::Fail;
use svcb_wire::{Svcb, parse};

const H2: Protos = Protos {
    h2: true,
    h3: false,
    http11: true,
};

const ALL: Protos = Protos {
    h2: true,
    h3: true,
    http11: true,
};

/// The text of a name, and a record of it: its priority, its target's text, and its parameters on the wire.
type Given = (&'static [u8], u16, &'static [u8], &'static [u8]);

const A: &[u8] = b"a.example";

const B: &[u8] = b"b.example";

const C: &[u8] = b"c.example";

const ROOT: &[u8] = b".";

const NOTHING: &[u8] = b"";

const PORT_0: &[u8] = b"\x00\x03\x00\x02\x00\x00";

const PORT_8443: &[u8] = b"\x00\x03\x00\x02\x20\xfb";

const ONLY_H3: &[u8] = b"\x00\x01\x00\x03\x02h3\x00\x02\x00\x00";

const H3_AND_H2: &[u8] = b"\x00\x01\x00\x06\x02h3\x02h2";

const KEY_5_MANDATORY: &[u8] = b"\x00\x00\x00\x02\x00\x05\x00\x05\x00\x00";

const PORT_MANDATORY: &[u8] = b"\x00\x00\x00\x02\x00\x03";

fn name(alloc: Global, text: &[u8]) -> Result<Name, Fail> {
    let end = text.len().min(400);
    Ok(Name::from_text(alloc, &text[..end])?)
}

fn record_of(alloc: Global, priority: u16, target: &[u8], params: &[u8]) -> Result<Svcb, Fail> {
    let target = name(alloc, target)?.to_wire(alloc)?;
    let mut octets = Vec::new(alloc);
    octets.extend_from_slice(&priority.to_be_bytes())?;
    octets.extend_from_slice(target.as_slice())?;
    octets.extend_from_slice(params)?;
    Ok(parse(alloc, &octets)?)
}

fn answers_of(alloc: Global, all: &[Given]) -> Result<MemoryAnswers, Fail> {
    let mut answers = MemoryAnswers::new(alloc);
    for (asked, priority, target, params) in all {
        let one = record_of(alloc, *priority, *target, *params)?;
        answers.add(name(alloc, *asked)?, 300, one)?;
    }
    Ok(answers)
}

// Each endpoint's target, port and protocols: `2` for h2, `3` for h3, `1` for http/1.1.
fn shown(alloc: Global, all: &Endpoints) -> Result<Bytes, Fail> {
    let mut text = Vec::new(alloc);
    for one in all.as_slice() {
        text.extend_from_slice(one.target.to_text(alloc)?.as_slice())?;
        text.extend_from_slice(format!(in alloc; " {} ", one.port)?.as_bytes())?;
        for (has, sign) in [
            (one.protos.h2, b'2'),
            (one.protos.h3, b'3'),
            (one.protos.http11, b'1'),
        ] {
            if has {
                text.push(sign)?;
            }
        }
        text.push(b';')?;
    }
    Ok(ListOf::from_vec(text))
}

fn found(
    alloc: Global,
    answers: &MemoryAnswers,
    origin: &str,
    supported: &Protos,
    now: u32,
) -> Result<Bytes, Fail> {
    let end = origin.len().min(400);
    let origin = Origin::parse(alloc, &origin.as_bytes()[..end])?;
    let all = endpoints(alloc, answers, &origin, supported, Moment(now))?;
    shown(alloc, &all)
}

fn finds(
    rt: &impl Abort,
    alloc: Global,
    origin: &str,
    supported: &Protos,
    all: &[Given],
    expected: &[u8],
) -> Result<(), Fail> {
    let answers = answers_of(alloc, all)?;
    let text = found(alloc, &answers, origin, supported, 0)?;
    assert_eq!(rt; text.as_slice(), expected);
    Ok(())
}

#[test]
fn aliases(rt: HostRuntime) -> Result<(), Fail> {
    let alloc = rt.alloc();
    let a = "https://a.example";
    finds(&rt, alloc, a, &H2, &[], b"")?;
    let alias = (A, 0, B, NOTHING);
    finds(&rt, alloc, a, &H2, &[alias], b"b.example. 443 21;")?;
    let at_8443 = (B, 1, ROOT, PORT_8443);
    let both = b"b.example. 8443 1;b.example. 443 21;";
    finds(&rt, alloc, a, &H2, &[alias, at_8443], both)?;
    // Back to a name of the walk, to itself, and to the root.
    finds(&rt, alloc, a, &H2, &[alias, (B, 0, A, NOTHING)], b"")?;
    finds(&rt, alloc, a, &H2, &[(A, 0, A, NOTHING)], b"")?;
    finds(&rt, alloc, a, &H2, &[(A, 0, ROOT, NOTHING)], b"")?;
    // Nothing beside an alias counts, and the first of several decides.
    let beside = [(A, 1, C, NOTHING), (A, 0, B, PORT_8443), (A, 0, C, NOTHING)];
    finds(&rt, alloc, a, &H2, &beside, b"b.example. 443 21;")?;
    let behind_a_port = (b"_8443._https.a.example".as_slice(), 0, B, NOTHING);
    let at_port = "https://a.example:8443";
    finds(
        &rt,
        alloc,
        at_port,
        &H2,
        &[behind_a_port],
        b"b.example. 8443 21;",
    )
}

#[test]
fn records_in_order(rt: HostRuntime) -> Result<(), Fail> {
    let alloc = rt.alloc();
    let all = [
        (A, 2, C, NOTHING),
        (A, 1, B, H3_AND_H2),
        (A, 3, A, NOTHING),
        (A, 1, ROOT, NOTHING),
        (A, 2, B, NOTHING),
    ];
    let expected =
        b"b.example. 443 231;a.example. 443 1;c.example. 443 1;b.example. 443 1;a.example. 443 1;";
    finds(&rt, alloc, "https://a.example", &ALL, &all, expected)
}

#[test]
fn records_left_out(rt: HostRuntime) -> Result<(), Fail> {
    let alloc = rt.alloc();
    let a = "https://a.example";
    // An incompatible and an inconsistent record among good ones.
    let all = [
        (A, 1, A, KEY_5_MANDATORY),
        (A, 2, B, NOTHING),
        (A, 3, A, PORT_MANDATORY),
        (A, 4, C, NOTHING),
    ];
    finds(
        &rt,
        alloc,
        a,
        &ALL,
        &all,
        b"b.example. 443 1;c.example. 443 1;",
    )?;
    let only_h3 = [(A, 1, ROOT, ONLY_H3)];
    finds(&rt, alloc, a, &ALL, &only_h3, b"a.example. 443 3;")?;
    finds(&rt, alloc, a, &H2, &only_h3, b"")?;
    finds(&rt, alloc, a, &H2, &[(A, 1, ROOT, PORT_0)], b"")?;
    let plain = [(A, 1, ROOT, NOTHING)];
    finds(&rt, alloc, a, &H2, &plain, b"a.example. 443 1;")?;
    finds(&rt, alloc, "https://a.example:8443", &H2, &plain, b"")?;
    finds(&rt, alloc, "http://a.example", &H2, &plain, b"")?;
    let address = [(b"192.0.2.1".as_slice(), 1, ROOT, NOTHING)];
    finds(&rt, alloc, "https://192.0.2.1", &H2, &address, b"")
}

// So many aliases, from `n0.example` on, each to the next.
fn chain(alloc: Global, count: u8) -> Result<MemoryAnswers, Fail> {
    let mut answers = MemoryAnswers::new(alloc);
    for place in 0..count.min(20) {
        let next = format!(in alloc; "n{}.example", place + 1)?;
        let one = record_of(alloc, 0, next.as_bytes(), NOTHING)?;
        let asked = format!(in alloc; "n{}.example", place)?;
        answers.add(name(alloc, asked.as_bytes())?, 300, one)?;
    }
    Ok(answers)
}

#[test]
fn eight_aliases_and_nine(rt: HostRuntime) -> Result<(), Fail> {
    let alloc = rt.alloc();
    let rows: [(u8, &[u8]); 3] = [
        (1, b"n1.example. 443 21;"),
        (8, b"n8.example. 443 21;"),
        (9, b""),
    ];
    for (count, expected) in rows {
        let answers = chain(alloc, count)?;
        let text = found(alloc, &answers, "https://n0.example", &H2, 0)?;
        assert_eq!(rt; text.as_slice(), expected);
    }
    Ok(())
}

#[test]
fn answers_end(rt: HostRuntime) -> Result<(), Fail> {
    let alloc = rt.alloc();
    let answers = answers_of(alloc, &[(A, 1, ROOT, NOTHING)])?;
    let rows: [(u32, &[u8]); 3] = [
        (0, b"a.example. 443 1;"),
        (299, b"a.example. 443 1;"),
        (300, b""),
    ];
    for (now, expected) in rows {
        let text = found(alloc, &answers, "https://a.example", &H2, now)?;
        assert_eq!(rt; text.as_slice(), expected);
    }
    Ok(())
}

// A host of 253 bytes is a name, but no name holds it behind a port.
#[test]
fn a_name_too_long(rt: HostRuntime) -> Result<(), Fail> {
    let alloc = rt.alloc();
    let mut host = Vec::new(alloc);
    for size in [63, 127, 191] {
        host.resize(size, b'x')?;
        host.push(b'.')?;
    }
    host.resize(253, b'x')?;
    let mut answers = MemoryAnswers::new(alloc);
    let one = record_of(alloc, 1, B, NOTHING)?;
    answers.add(name(alloc, &host)?, 300, one)?;
    let text = String::from_utf8(host).map_err(|_| "no text")?;
    let short = format!(in alloc; "https://{text}")?;
    let long = format!(in alloc; "https://{text}:8443")?;
    let there = found(alloc, &answers, short.as_str(), &H2, 0)?;
    assert_eq!(rt; there.as_slice(), b"b.example. 443 1;".as_slice());
    let nothing = found(alloc, &answers, long.as_str(), &H2, 0)?;
    assert_eq!(rt; nothing.as_slice(), b"".as_slice());
    Ok(())
}

#[test]
fn an_endpoint_is_copied(rt: HostRuntime) -> Result<(), Fail> {
    let alloc = rt.alloc();
    let answers = answers_of(alloc, &[(A, 0, B, NOTHING)])?;
    let origin = Origin::parse(alloc, b"https://a.example")?;
    let all = endpoints(alloc, &answers, &origin, &H2, Moment(0))?;
    let twins = all.copy(alloc)?;
    assert_eq!(rt; twins, all);
    Ok(())
}
