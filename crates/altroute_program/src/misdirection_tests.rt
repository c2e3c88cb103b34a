use crate::tests::{Row, hold_replayed};
use std::test::Fail;

// Requests that a server turns away by status 421 (RFC 9110 15.5.20).
const TURNED_AWAY: [Row; 5] = [
    // By an alternative: that is live no more, its value is not taken, and the request goes where it may, before a newer
    // one.
    (
        b"0 request 1 https://a.example\n1 opened 1 h2 192.0.2.1 443 a.example\n2 response 1 200\talt-svc: h2=\":8443\"\n3 request 2 https://a.example\n4 opened 2 h2 192.0.2.1 8443 a.example\n5 request 3 https://a.example\n6 response 3 421\talt-svc: h2=\":9443\"\n7 request 4 https://a.example\n",
        b"open 1 https://a.example direct h2,http/1.1 a.example 443\nsend 1 on 1 stream 1\nalternatives https://a.example h2=\":8443\"\nsend 2 on 1 stream 3\nopen 2 https://a.example alt h2 a.example 8443\nsend 3 on 2 stream 1 alt-used a.example:8443\nretry 3\nfield 3 11 0\nsend 3 on 1 stream 5\nsend 4 on 1 stream 7\n",
        0,
    ),
    // A new value is taken as ever, and the same alternative is opened again.
    (
        b"0 request 1 https://a.example\n1 opened 1 h2 192.0.2.1 443 a.example\n2 response 1 200\talt-svc: h2=\":8443\"\n3 request 2 https://a.example\n4 opened 2 h2 192.0.2.1 8443 a.example\n5 request 3 https://a.example\n6 response 3 421\n7 response 2 200\talt-svc: h2=\":8443\"\n8 closed 2\n9 request 4 https://a.example\n",
        b"open 1 https://a.example direct h2,http/1.1 a.example 443\nsend 1 on 1 stream 1\nalternatives https://a.example h2=\":8443\"\nsend 2 on 1 stream 3\nopen 2 https://a.example alt h2 a.example 8443\nsend 3 on 2 stream 1 alt-used a.example:8443\nretry 3\nsend 3 on 1 stream 5\nalternatives https://a.example h2=\":8443\"\nsend 4 on 1 stream 7\nopen 3 https://a.example alt h2 a.example 8443\n",
        0,
    ),
    // Where no other way is left it is refused, and the next request opens a connection of its own.
    (
        b"0 request 1 https://a.example\n1 opened 1 h2 192.0.2.1 443 a.example\n2 response 1 421\n3 request 2 https://a.example\n",
        b"open 1 https://a.example direct h2,http/1.1 a.example 443\nsend 1 on 1 stream 1\nretry 1\nrefuse 1\nopen 2 https://a.example direct h2,http/1.1 a.example 443\n",
        0,
    ),
    // It keeps its place before a newer request that waits, and the connection carries neither.
    (
        b"0 request 1 https://a.example\n0 opened 1 http/1.1 192.0.2.1 443 a.example\n1 request 2 https://a.example\n2 failed 2\n3 response 1 421\n",
        b"open 1 https://a.example direct h2,http/1.1 a.example 443\nsend 1 on 1\nopen 2 https://a.example direct h2,http/1.1 a.example 443\nretry 1\nrefuse 1\nrefuse 2\n",
        0,
    ),
    // For an origin of http, whose route was not tried since the request arrived.
    (
        b"0 request 1 http://a.example\n1 opened 1 http/1.1 192.0.2.1 80 -\n2 response 1 200\n3 request 2 http://a.example\n4 response 2 421\talt-svc: clear\n",
        b"open 1 http://a.example direct http/1.1 a.example 80\nsend 1 on 1\nsend 2 on 1\nretry 2\nfield 2 11 0\nopen 2 http://a.example direct http/1.1 a.example 80\n",
        0,
    ),
];

#[test]
fn requests_that_are_turned_away(rt: HostRuntime) -> Result<(), Fail> {
    hold_replayed(&rt, rt.alloc(), &TURNED_AWAY)
}
