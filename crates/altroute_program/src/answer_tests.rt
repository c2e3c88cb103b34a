use crate::tests::{Row, hold_replayed};
use std::test::Fail;

// Aliases in the HTTPS records of origins (RFC 9460 2.4.2, 3).
const ALIASES: [Row; 6] = [
    // One is followed, and its name is an endpoint.
    (
        b"0 answer a.example https 300 00000162076578616d706c6500\n1 request 1 https://a.example\n",
        b"open 1 https://a.example rec h2,http/1.1 b.example. 443\n",
        0,
    ),
    // The record there gives a port.
    (
        b"0 answer a.example https 300 00000162076578616d706c6500\n0 answer b.example https 300 000100000100030268320003000220fb\n1 request 1 https://a.example\n",
        b"open 1 https://a.example rec h2,http/1.1 b.example. 8443\n",
        0,
    ),
    // Aliases in a circle, and one to its own name, lead nowhere.
    (
        b"0 answer a.example https 300 00000162076578616d706c6500\n0 answer b.example https 300 00000161076578616d706c6500\n1 request 1 https://a.example\n",
        b"open 1 https://a.example direct h2,http/1.1 a.example 443\n",
        0,
    ),
    (
        b"0 answer a.example https 300 00000161076578616d706c6500\n1 request 1 https://a.example\n",
        b"open 1 https://a.example direct h2,http/1.1 a.example 443\n",
        0,
    ),
    // Eight are followed, and a ninth isn't.
    (
        b"0 answer n0.example https 300 0000026e31076578616d706c6500\n0 answer n1.example https 300 0000026e32076578616d706c6500\n0 answer n2.example https 300 0000026e33076578616d706c6500\n0 answer n3.example https 300 0000026e34076578616d706c6500\n0 answer n4.example https 300 0000026e35076578616d706c6500\n0 answer n5.example https 300 0000026e36076578616d706c6500\n0 answer n6.example https 300 0000026e37076578616d706c6500\n0 answer n7.example https 300 0000026e38076578616d706c6500\n1 request 1 https://n0.example\n",
        b"open 1 https://n0.example rec h2,http/1.1 n8.example. 443\n",
        0,
    ),
    (
        b"0 answer n0.example https 300 0000026e31076578616d706c6500\n0 answer n1.example https 300 0000026e32076578616d706c6500\n0 answer n2.example https 300 0000026e33076578616d706c6500\n0 answer n3.example https 300 0000026e34076578616d706c6500\n0 answer n4.example https 300 0000026e35076578616d706c6500\n0 answer n5.example https 300 0000026e36076578616d706c6500\n0 answer n6.example https 300 0000026e37076578616d706c6500\n0 answer n7.example https 300 0000026e38076578616d706c6500\n0 answer n8.example https 300 0000026e39076578616d706c6500\n1 request 1 https://n0.example\n",
        b"open 1 https://n0.example direct h2,http/1.1 n0.example 443\n",
        0,
    ),
];

#[test]
fn aliases_of_records(rt: HostRuntime) -> Result<(), Fail> {
    hold_replayed(&rt, rt.alloc(), &ALIASES)
}

// Records that are malformed (RFC 9460 2.2), and lines that are no answer.
const MALFORMED: [Row; 5] = [
    // One that is cut off.
    (
        b"0 answer a.example https 300 0001\n1 request 1 https://a.example\n",
        b"malformed a.example. 1 2 2\nopen 1 https://a.example direct h2,http/1.1 a.example 443\n",
        0,
    ),
    // The second of two: the first doesn't count either.
    (
        b"0 answer a.example https 300 00010000010003026832 0001\n1 request 1 https://a.example\n",
        b"malformed a.example. 2 2 2\nopen 1 https://a.example direct h2,http/1.1 a.example 443\n",
        0,
    ),
    // A space behind the last item, or behind the TTL, begins another one.
    (
        b"0 answer a.example a 60 \n",
        b"refused 1 line 3 at 24\n",
        1,
    ),
    (
        b"0 answer a.example a 60 192.0.2.1 \n",
        b"refused 1 line 3 at 34\n",
        1,
    ),
    // An address of the other kind.
    (
        b"0 answer a.example aaaa 60 192.0.2.1\n",
        b"refused 1 line 3 at 27\n",
        1,
    ),
];

#[test]
fn records_that_are_malformed(rt: HostRuntime) -> Result<(), Fail> {
    hold_replayed(&rt, rt.alloc(), &MALFORMED)
}

// Connections that another origin may share, since its host has their address (RFC 9113 9.1.1).
const SHARED: [Row; 2] = [
    // As long as the answer is in force, at the port of the connection, and where its certificate covers the host.
    (
        b"0 request 1 https://a.example\n0 opened 1 h2 192.0.2.1 443 *.example\n1 answer b.example a 60 192.0.2.1\n2 request 2 https://b.example\n2 who https://b.example:8443\n2 who https://x.b.example\n60 who https://b.example\n61 who https://b.example\n",
        b"open 1 https://a.example direct h2,http/1.1 a.example 443\nsend 1 on 1 stream 1\nsend 2 on 1 stream 3\nwho https://b.example:8443 none\nwho https://x.b.example none\nwho https://b.example 1\nwho https://b.example none\n",
        0,
    ),
    (
        b"0 request 1 https://a.example\n0 opened 1 h2 2001:db8::1 443 *.example\n1 answer b.example aaaa 60 2001:db8::1\n2 request 2 https://b.example\n2 who https://b.example:8443\n2 who https://x.b.example\n60 who https://b.example\n61 who https://b.example\n",
        b"open 1 https://a.example direct h2,http/1.1 a.example 443\nsend 1 on 1 stream 1\nsend 2 on 1 stream 3\nwho https://b.example:8443 none\nwho https://x.b.example none\nwho https://b.example 1\nwho https://b.example none\n",
        0,
    ),
];

#[test]
fn connections_that_are_shared(rt: HostRuntime) -> Result<(), Fail> {
    hold_replayed(&rt, rt.alloc(), &SHARED)
}

// How much of each there is.
const COUNTED: [Row; 2] = [
    // Alternatives that outlast a change of the network.
    (
        b"0 request 1 https://a.example\n1 opened 1 h2 192.0.2.1 443 a.example\n2 response 1 200\talt-svc: h2=\":8443\", h2=\":9443\"; persist=1\n3 network\n4 stats\n",
        b"open 1 https://a.example direct h2,http/1.1 a.example 443\nsend 1 on 1 stream 1\nalternatives https://a.example h2=\":8443\", h2=\":9443\"; persist=1\nstats alternatives 1 answers 0 broken 0 connections 1 waiting 0\n",
        0,
    ),
    // Answers of each name and kind, the empty ones too, while they are in force.
    (
        b"0 answer a.example a 60 192.0.2.1\n0 answer a.example aaaa 60\n0 answer b.example https 60 0001\n1 request 1 https://c.example\n2 stats\n60 stats\n",
        b"malformed b.example. 1 2 2\nopen 1 https://c.example direct h2,http/1.1 c.example 443\nstats alternatives 0 answers 3 broken 0 connections 0 waiting 1\nstats alternatives 0 answers 0 broken 0 connections 0 waiting 1\n",
        0,
    ),
];

#[test]
fn counts(rt: HostRuntime) -> Result<(), Fail> {
    hold_replayed(&rt, rt.alloc(), &COUNTED)
}
