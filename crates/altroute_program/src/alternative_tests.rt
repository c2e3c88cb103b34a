use crate::tests::{Row, hold_replayed};
use std::test::Fail;

// Alternatives that are taken, and how long they live.
const TAKEN: [Row; 5] = [
    // A change of the network leaves what says that it stays.
    (
        b"0 request 1 https://a.example\n1 opened 1 h2 192.0.2.1 443 a.example\n2 response 1 200\talt-svc: h2=\":8443\", h2=\":9443\"; persist=1\n3 network\n4 request 2 https://a.example\n",
        b"open 1 https://a.example direct h2,http/1.1 a.example 443\nsend 1 on 1 stream 1\nalternatives https://a.example h2=\":8443\", h2=\":9443\"; persist=1\nsend 2 on 1 stream 3\nopen 2 https://a.example alt h2 a.example 9443\n",
        0,
    ),
    // Two alternatives, of which one has a protocol that is supported.
    (
        b"0 request 1 https://a.example\n1 opened 1 h2 192.0.2.1 443 a.example\n2 request 2 https://a.example\n3 response 1 200\talt-svc: h3=\":443\"; ma=2592000,h3-29=\":443\"; ma=2592000\n4 request 3 https://a.example\n5 opened 2 h3 192.0.2.1 443 a.example\n6 request 4 https://a.example\n",
        b"open 1 https://a.example direct h2,http/1.1 a.example 443\nsend 1 on 1 stream 1\nsend 2 on 1 stream 3\nalternatives https://a.example h3=\":443\"; ma=2592000, h3-29=\":443\"; ma=2592000\nsend 3 on 1 stream 5\nopen 2 https://a.example alt h3 a.example 443\nsend 4 on 2 alt-used a.example\n",
        0,
    ),
    // An alternative for no time at all.
    (
        b"0 request 1 https://a.example\n1 opened 1 h2 192.0.2.1 443 a.example\n2 response 1 200\talt-svc: h2=\"b.example:443\"; ma=0\n2 request 2 https://a.example\n",
        b"open 1 https://a.example direct h2,http/1.1 a.example 443\nsend 1 on 1 stream 1\nalternatives https://a.example h2=\"b.example:443\"; ma=0\nsend 2 on 1 stream 3\n",
        0,
    ),
    // An age counts as seconds that have passed: live at 59, and used at 60 where it was opened.
    (
        b"0 request 1 https://a.example\n1 opened 1 h2 192.0.2.1 443 a.example\n10 response 1 200\tage: 10\talt-svc: h2=\":8443\"; ma=60\n59 request 2 https://a.example\n59 opened 2 h2 192.0.2.1 8443 a.example\n60 request 3 https://a.example\n",
        b"open 1 https://a.example direct h2,http/1.1 a.example 443\nsend 1 on 1 stream 1\nalternatives https://a.example h2=\":8443\"; ma=60\nsend 2 on 1 stream 3\nopen 2 https://a.example alt h2 a.example 8443\nsend 3 on 2 stream 1 alt-used a.example:8443\n",
        0,
    ),
    // At 60 it is live no more.
    (
        b"0 request 1 https://a.example\n1 opened 1 h2 192.0.2.1 443 a.example\n10 response 1 200\tage: 10\talt-svc: h2=\":8443\"; ma=60\n60 request 3 https://a.example\n",
        b"open 1 https://a.example direct h2,http/1.1 a.example 443\nsend 1 on 1 stream 1\nalternatives https://a.example h2=\":8443\"; ma=60\nsend 3 on 1 stream 3\n",
        0,
    ),
];

#[test]
fn alternatives_that_are_taken(rt: HostRuntime) -> Result<(), Fail> {
    hold_replayed(&rt, rt.alloc(), &TAKEN)
}

// Alternatives that are barred or never taken, and responses without any.
const BARRED: [Row; 5] = [
    // A failure bars it for 300 seconds.
    (
        b"0 request 1 https://a.example\n1 opened 1 h2 192.0.2.1 443 a.example\n2 response 1 200\talt-svc: h2=\":8443\"\n3 request 2 https://a.example\n4 failed 2\n303 request 3 https://a.example\n304 request 4 https://a.example\n",
        b"open 1 https://a.example direct h2,http/1.1 a.example 443\nsend 1 on 1 stream 1\nalternatives https://a.example h2=\":8443\"\nsend 2 on 1 stream 3\nopen 2 https://a.example alt h2 a.example 8443\nsend 3 on 1 stream 5\nsend 4 on 1 stream 7\nopen 3 https://a.example alt h2 a.example 8443\n",
        0,
    ),
    // Nothing is answered that is not outstanding.
    (b"0 response 9 200\n", b"refused 1 step 5\n", 1),
    // A response ends the request that kept a connection busy.
    (
        b"0 request 1 https://a.example\n0 opened 1 http/1.1 192.0.2.1 443 a.example\n1 request 2 https://a.example\n2 failed 2\n3 response 1 200\n",
        b"open 1 https://a.example direct h2,http/1.1 a.example 443\nsend 1 on 1\nopen 2 https://a.example direct h2,http/1.1 a.example 443\nsend 2 on 1\n",
        0,
    ),
    // What is no value is not taken, and a second field goes on with the first.
    (
        b"0 request 1 https://a.example\n1 opened 1 h2 192.0.2.1 443 a.example\n2 response 1 200\talt-svc: h2=\n3 request 2 https://a.example\n4 response 2 200\tAlt-Svc: h2=\":1\"\tALT-SVC: clear\n",
        b"open 1 https://a.example direct h2,http/1.1 a.example 443\nsend 1 on 1 stream 1\nfield 1 5 3\nsend 2 on 1 stream 3\nalternatives https://a.example clear\n",
        0,
    ),
    // Nothing is taken for an origin of http.
    (
        b"0 request 1 http://a.example\n1 opened 1 http/1.1 192.0.2.1 80 -\n2 response 1 200\talt-svc: clear\n3 request 2 http://a.example\n",
        b"open 1 http://a.example direct http/1.1 a.example 80\nsend 1 on 1\nfield 1 12 0\nsend 2 on 1\n",
        0,
    ),
];

#[test]
fn alternatives_that_are_barred(rt: HostRuntime) -> Result<(), Fail> {
    hold_replayed(&rt, rt.alloc(), &BARRED)
}
