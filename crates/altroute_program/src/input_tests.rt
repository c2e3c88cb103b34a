use crate::tests::{Row, hold_replayed};
use std::test::Fail;

// Alternatives that ALTSVC frames bring (RFC 7838 4).
const ADVERTISED: [Row; 5] = [
    // For an origin for which the connection is authoritative, on stream 0.
    (
        b"0 request 1 https://a.example\n1 opened 1 h2 192.0.2.1 443 a.example\n2 input 1 00001d0a0000000000001168747470733a2f2f612e6578616d706c6568323d223a3834343322\n",
        b"open 1 https://a.example direct h2,http/1.1 a.example 443\nsend 1 on 1 stream 1\nalternatives https://a.example h2=\":8443\"\n",
        0,
    ),
    // For another one.
    (
        b"0 request 1 https://a.example\n1 opened 1 h2 192.0.2.1 443 a.example\n2 input 1 00001d0a0000000000001168747470733a2f2f622e6578616d706c6568323d223a3834343322\n",
        b"open 1 https://a.example direct h2,http/1.1 a.example 443\nsend 1 on 1 stream 1\nignored 1 altsvc 7 0\n",
        0,
    ),
    // On the stream of a request, for its origin, until the response comes.
    (
        b"0 request 1 https://a.example\n1 opened 1 h2 192.0.2.1 443 a.example\n2 input 1 0000070a00000000010000636c656172\n",
        b"open 1 https://a.example direct h2,http/1.1 a.example 443\nsend 1 on 1 stream 1\nalternatives https://a.example clear\n",
        0,
    ),
    (
        b"0 request 1 https://a.example\n1 opened 1 h2 192.0.2.1 443 a.example\n2 response 1 200\n2 input 1 0000070a00000000010000636c656172\n",
        b"open 1 https://a.example direct h2,http/1.1 a.example 443\nsend 1 on 1 stream 1\nignored 1 altsvc 8 0\n",
        0,
    ),
    // An origin stands on stream 0 alone.
    (
        b"0 request 1 https://a.example\n1 opened 1 h2 192.0.2.1 443 a.example\n2 input 1 0000180a0000000001001168747470733a2f2f612e6578616d706c65636c656172\n",
        b"open 1 https://a.example direct h2,http/1.1 a.example 443\nsend 1 on 1 stream 1\nignored 1 altsvc 4 0\n",
        0,
    ),
];

#[test]
fn alternatives_by_frames(rt: HostRuntime) -> Result<(), Fail> {
    hold_replayed(&rt, rt.alloc(), &ADVERTISED)
}

// Origin sets that ORIGIN frames make (RFC 8336).
const LISTED: [Row; 5] = [
    // A connection by an alternative serves its initial origin alone, at the port of the alternative.
    (
        b"0 request 1 https://a.example\n1 opened 1 h2 192.0.2.1 443 a.example\n2 response 1 200\talt-svc: h2=\":8443\"\n3 request 2 https://a.example\n4 opened 2 h2 192.0.2.1 8443 a.example\n5 request 3 https://a.example\n6 input 2 0000000c0000000000\n7 who https://a.example\n8 who https://a.example:8443\n9 request 4 https://a.example\n",
        b"open 1 https://a.example direct h2,http/1.1 a.example 443\nsend 1 on 1 stream 1\nalternatives https://a.example h2=\":8443\"\nsend 2 on 1 stream 3\nopen 2 https://a.example alt h2 a.example 8443\nsend 3 on 2 stream 1 alt-used a.example:8443\norigins 2 0 0\nwho https://a.example 1\nwho https://a.example:8443 2\nsend 4 on 1 stream 5\n",
        0,
    ),
    // Two connections hold an origin, and the first one carries it.
    (
        b"0 request 1 https://a.example\n0 opened 1 h2 192.0.2.1 443 *.example\n1 request 2 https://b.example\n1 opened 2 h2 192.0.2.2 443 *.example\n2 input 1 0000000c0000000000\n2 input 2 0000130c0000000000001168747470733a2f2f612e6578616d706c65\n3 request 3 https://a.example\n3 who https://a.example\n",
        b"open 1 https://a.example direct h2,http/1.1 a.example 443\nsend 1 on 1 stream 1\nopen 2 https://b.example direct h2,http/1.1 b.example 443\nsend 2 on 2 stream 1\norigins 1 0 0\norigins 2 1 0\nsend 3 on 1 stream 3\nwho https://a.example 1 2\n",
        0,
    ),
    // A payload that ends within an entry.
    (
        b"0 request 1 https://a.example\n1 opened 1 h2 192.0.2.1 443 a.example\n2 input 1 0000010c000000000000\n",
        b"open 1 https://a.example direct h2,http/1.1 a.example 443\nsend 1 on 1 stream 1\nignored 1 origin 3 0\n",
        0,
    ),
    // A frame in two pieces, whose flag is one of four that a client doesn't know; another flag is passed over.
    (
        b"0 request 1 https://a.example\n1 opened 1 h2 192.0.2.1 443 a.example\n2 input 1 0000000c\n2 input 1 0400000000\n3 input 1 0000000c1000000000\n4 who https://a.example\n",
        b"open 1 https://a.example direct h2,http/1.1 a.example 443\nsend 1 on 1 stream 1\nignored 1 origin 2 0\norigins 1 0 0\nwho https://a.example 1\n",
        0,
    ),
    // The same, octet by octet.
    (
        b"0 request 1 https://a.example\n1 opened 1 h2 192.0.2.1 443 a.example\n2 input 1 00\n2 input 1 00\n2 input 1 00\n2 input 1 0c\n2 input 1 04\n2 input 1 00\n2 input 1 00\n2 input 1 00\n2 input 1 00\n3 input 1 0000000c1000000000\n4 who https://a.example\n",
        b"open 1 https://a.example direct h2,http/1.1 a.example 443\nsend 1 on 1 stream 1\nignored 1 origin 2 0\norigins 1 0 0\nwho https://a.example 1\n",
        0,
    ),
];

#[test]
fn origin_sets_by_frames(rt: HostRuntime) -> Result<(), Fail> {
    hold_replayed(&rt, rt.alloc(), &LISTED)
}

// Heads of frames, and a connection on which no frames come.
const HEADS: [Row; 4] = [
    // The largest length is waited for.
    (
        b"0 request 1 https://a.example\n1 opened 1 h2 192.0.2.1 443 a.example\n2 input 1 004000000000000001\n3 who https://a.example\n",
        b"open 1 https://a.example direct h2,http/1.1 a.example 443\nsend 1 on 1 stream 1\nwho https://a.example 1\n",
        0,
    ),
    // One octet more closes the connection (RFC 9113 4.2).
    (
        b"0 request 1 https://a.example\n1 opened 1 h2 192.0.2.1 443 a.example\n2 input 1 004001000000000001\n3 who https://a.example\n",
        b"open 1 https://a.example direct h2,http/1.1 a.example 443\nsend 1 on 1 stream 1\nclose 1 frame 16385\nlost 1\nwho https://a.example none\n",
        0,
    ),
    (
        b"0 request 1 https://a.example\n1 opened 1 h2 192.0.2.1 443 a.example\n2 input 1 ffffff0c0000000000\n",
        b"open 1 https://a.example direct h2,http/1.1 a.example 443\nsend 1 on 1 stream 1\nclose 1 frame 16777215\nlost 1\n",
        0,
    ),
    // Nothing comes in frames on a connection of HTTP/1.1.
    (
        b"0 request 1 https://a.example\n0 opened 1 http/1.1 192.0.2.1 443 a.example\n1 request 2 https://a.example\n2 failed 2\n3 response 1 200\n4 input 1 00\n",
        b"open 1 https://a.example direct h2,http/1.1 a.example 443\nsend 1 on 1\nopen 2 https://a.example direct h2,http/1.1 a.example 443\nsend 2 on 1\nrefused 6 step 6\n",
        1,
    ),
];

#[test]
fn heads_of_frames(rt: HostRuntime) -> Result<(), Fail> {
    hold_replayed(&rt, rt.alloc(), &HEADS)
}
