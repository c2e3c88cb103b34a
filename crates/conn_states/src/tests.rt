ghost use Rattle.std.specs.Prelude.{◌≡◌, [], IfOk};

use crate::*;
use alt_base::{ListOf, NoMemory};
use coalescing::CertName;
use origin_values::{Addr, Host, Origin, Proto, Scheme};
use route_events::Route;
use std::alloc::Global;
use std::test::Fail;

/// The address of the connection is one of the origin's, and it isn't.
const NEAR: Reach = Reach { address: true };

const FAR: Reach = Reach { address: false };

// The https origin of a name at port 443.
fn https(alloc: Global, name: &[u8]) -> Result<Origin, NoMemory> {
    Ok(Origin {
        scheme: Scheme::Https,
        host: Host::Name(ListOf::from_vec(name.to_vec(alloc)?)),
        port: 443,
    })
}

// A connection that was opened for `https://a.example`, whose certificate names it and `b.example`.
fn opened(alloc: Global, proto: Proto) -> Result<Conn<Plain>, NoMemory>
    ensures new { IfOk result (λ conn. conn.outstanding ≡ []) }
{
    let mut names = ListOf::new(alloc);
    names.push(CertName::Exact(ListOf::from_vec(b"a.example".to_vec(alloc)?)))?;
    names.push(CertName::Exact(ListOf::from_vec(b"b.example".to_vec(alloc)?)))?;
    let made = Made {
        origin: https(alloc, b"a.example")?,
        route: Route::Direct,
        proto,
        addr: Addr::V4([192, 0, 2, 1]),
        port: 443,
        names,
        bound: true,
    };
    Ok(Conn::begin(alloc, 1, made))
}

// A list of one origin.
fn one(alloc: Global, name: &[u8]) -> Result<Origins, NoMemory> {
    let mut listed = Origins::new(alloc);
    listed.push(https(alloc, name)?)?;
    Ok(listed)
}

// How many origins are held where the connection's own origin was listed 1,000 times, and with another one beside it.
fn held(alloc: Global) -> Result<[u64; 2], NoMemory> {
    let own = one(alloc, b"a.example")?;
    let mut conn = opened(alloc, Proto::H2)?.gate(&own)?;
    for _ in 0..1000 {
        conn.add(&own)?;
    }
    let alone = conn.held();
    for _ in 0..1000 {
        conn.add(&one(alloc, b"b.example")?)?;
    }
    Ok([alone, conn.held()])
}

#[test]
fn listed_again_is_held_once(rt: HostRuntime) {
    assert_eq!(rt; held(rt.alloc()), Ok([1, 2]));
}

// What a connection may carry: its own origin, and another one from its address and from elsewhere.
fn may<S: View>(conn: &Conn<S>, own: &Origin, other: &Origin) -> [bool; 3] {
    [
        conn.authorises(own, FAR),
        conn.authorises(other, NEAR),
        conn.authorises(other, FAR),
    ]
}

// The same when it has begun, after a 421 for its own origin, after a frame that lists that, after a frame that lists the
// other, after a 421 for the other, and without its basis.
fn may_by_call(alloc: Global) -> Result<[[bool; 3]; 6], NoMemory> {
    let own = https(alloc, b"a.example")?;
    let other = https(alloc, b"b.example")?;
    let mut conn = opened(alloc, Proto::H2)?;
    let begun = may(&conn, &own, &other);
    conn.misdirect(&own)?;
    let misdirected = may(&conn, &own, &other);
    let mut gated = conn.gate(&one(alloc, b"a.example")?)?;
    let listed = may(&gated, &own, &other);
    gated.add(&one(alloc, b"b.example")?)?;
    let added = may(&gated, &own, &other);
    gated.misdirect(&other)?;
    let sent_back = may(&gated, &own, &other);
    gated.unbind();
    let unbound = may(&gated, &own, &other);
    Ok([begun, misdirected, listed, added, sent_back, unbound])
}

#[test]
fn authority_follows_the_calls(rt: HostRuntime) {
    let expected = [
        [true, true, false],
        [false, true, false],
        [true, false, false],
        [true, true, true],
        [true, false, false],
        [true, false, false],
    ];
    assert_eq!(rt; may_by_call(rt.alloc()), Ok(expected));
}

#[test]
fn sends_need_authority(rt: HostRuntime) -> Result<(), Fail> {
    let own = https(rt.alloc(), b"a.example")?;
    let other = https(rt.alloc(), b"b.example")?;
    let mut conn = opened(rt.alloc(), Proto::H2)?;
    assert!(rt; !conn.busy());
    assert_eq!(rt; conn.sends(), 0);
    assert!(rt; !send_where_authoritative(&mut conn, &other, FAR, 7)?);
    assert!(rt; send_where_authoritative(&mut conn, &own, FAR, 7)?);
    assert_eq!(rt; (conn.number(), conn.sends()), (1, 1));
    assert!(rt; conn.answered(7));
    assert!(rt; !conn.answered(7));
    conn.unbind();
    assert!(rt; !conn.bound());
    assert!(rt; conn.made().bound);
    Ok(())
}

// The connection's number, the request and the stream of the next send, where the connection isn't busy and has room.
fn next_send(conn: &Conn<Plain>, own: &Origin) -> Option<(u64, u32, Option<u32>)> {
    if conn.busy() || conn.sends() == 16777215 {
        return None;
    }
    let sent = conn.permit(own, FAR)?.spend(8);
    Some((sent.conn(), sent.request(), sent.stream()))
}

// The first send and the second, with the first outstanding; whether the connection is busy then; the first request that
// its end loses.
type Sends = ([Option<(u64, u32, Option<u32>)>; 2], bool, Option<u32>);

fn sends(alloc: Global, proto: Proto) -> Result<Sends, NoMemory> {
    let own = https(alloc, b"a.example")?;
    let mut conn = opened(alloc, proto)?;
    let first = next_send(&conn, &own);
    if !conn.busy() && conn.sends() == 0 {
        let _done = send_where_authoritative(&mut conn, &own, FAR, 7)?;
    }
    let second = next_send(&conn, &own);
    let busy = conn.busy();
    Ok(([first, second], busy, conn.close().lost().get(0).copied()))
}

#[test]
fn sends_by_protocol(rt: HostRuntime) {
    let h2 = [Some((1, 8, Some(1))), Some((1, 8, Some(3)))];
    let http11 = [Some((1, 8, None)), None];
    assert_eq!(rt; sends(rt.alloc(), Proto::H2), Ok((h2, false, Some(7))));
    assert_eq!(rt;
        sends(rt.alloc(), Proto::Http11),
        Ok((http11, true, Some(7)))
    );
}
