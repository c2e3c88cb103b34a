use crate::tests::{Row, hold_replayed};
use std::test::Fail;

// A client and a server in one history.
const BOTH: [Row; 6] = [
    // Announced, offered and delivered twice, asked while it is served and when it isn't.
    (
        b"0 request 1 https://a.example\n0 opened 1 h2 192.0.2.1 443 *.example\n1 serve https://a.example\n1 announce\n1 deliver 1 1\n2 offer https://a.example h2=\":8443\"\n2 deliver 2 1\n2 deliver 2 1\n3 ask 1\n4 unserve https://a.example\n4 request 2 https://a.example\n5 ask 2\n6 failed 2\n",
        b"open 1 https://a.example direct h2,http/1.1 a.example 443\nsend 1 on 1 stream 1\nmessage 1\norigins 1 1 0\nmessage 2\nalternatives https://a.example h2=\":8443\"\nalternatives https://a.example h2=\":8443\"\nanswered 1 serve\nsend 2 on 1 stream 3\nopen 2 https://a.example alt h2 a.example 8443\nanswered 2 misdirect\nretry 2\nopen 3 https://a.example direct h2,http/1.1 a.example 443\n",
        0,
    ),
    // Nothing is served.
    (b"0 announce\n", b"message 1\n", 0),
    // An offer for an origin that isn't served, and a message that was never made.
    (
        b"0 offer https://a.example h2=\":1\"\n",
        b"refused 1 server 1\n",
        1,
    ),
    (b"0 deliver 1 1\n", b"refused 1 server 2\n", 1),
    // The server is asked before the client: the moment goes back, and the origin isn't served.
    (
        b"1 tick\n0 withdraw https://a.example\n",
        b"refused 2 server 1\n",
        1,
    ),
    // A request that isn't outstanding is refused by the step.
    (
        b"0 serve https://a.example\n0 withdraw https://a.example\n1 ask 1\n",
        b"message 1\nrefused 3 step 5\n",
        1,
    ),
];

#[test]
fn both_ends(rt: HostRuntime) -> Result<(), Fail> {
    hold_replayed(&rt, rt.alloc(), &BOTH)
}
