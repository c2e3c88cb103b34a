ghost use Rattle.std.specs.Prelude.{◌≡◌, ◌+◌, ◌<◌, ◌≤◌, ◌^◌, length, IfOk};
ghost use Rattle.answer_store.specs.Contents.{newest_moment};
ghost use Rattle.request_dispatch.specs.ConnectionTable.{most_sends};

use crate::{Attempts, Connections, Requests, StepState, Tables, settle};
use alt_base::{Bytes, Duplicate, ListOf, Moment, NoMemory};
use answer_store::AnswerStore;
use coalescing::CertName;
use dns_names::Name;
use network_cache::Cache;
use origin_values::{Addr, Host, Origin, Proto, Scheme};
use route_choice::Broken;
use route_events::{Action, Connection, Route};
use std::alloc::Global;
use std::test::Fail;

fn bytes(alloc: Global, text: &str) -> Result<Bytes, NoMemory> {
    Ok(ListOf::from_vec(Vec::from_slice(alloc, text.as_bytes())?))
}

fn site(alloc: Global, scheme: Scheme, name: &str, port: u16) -> Result<Origin, NoMemory> {
    Ok(Origin {
        scheme,
        host: Host::Name(bytes(alloc, name)?),
        port,
    })
}

fn origin(alloc: Global) -> Result<Origin, NoMemory> {
    site(alloc, Scheme::Http, "a.example", 80)
}

fn connection(alloc: Global, number: u64) -> Result<Connection, NoMemory> {
    Ok(Connection {
        number,
        origin: origin(alloc)?,
        route: Route::Direct,
        proto: Proto::Http11,
        addr: Addr::V4([192, 0, 2, 1]),
        port: 80,
        names: ListOf::new(alloc),
    })
}

// A connection for `a.example` whose certificate names `b.example` too.
fn secure_connection(alloc: Global) -> Result<Connection, NoMemory> {
    let mut names = ListOf::new(alloc);
    for name in ["a.example", "b.example"] {
        names.push(CertName::Exact(bytes(alloc, name)?))?;
    }
    Ok(Connection {
        number: 1,
        origin: site(alloc, Scheme::Https, "a.example", 443)?,
        route: Route::Direct,
        proto: Proto::H2,
        addr: Addr::V4([192, 0, 2, 1]),
        port: 443,
        names,
    })
}

// The address of that connection as an answer for `b.example`, for ten seconds from the moment 0 on.
fn answers(alloc: Global) -> Result<AnswerStore, Fail>
    ensures { IfOk result (λ store. newest_moment store ≡ 0) }
{
    let mut addresses = ListOf::new(alloc);
    addresses.push([192, 0, 2, 1])?;
    let name = Name::from_text(alloc, b"b.example")?;
    let mut store = AnswerStore::new(alloc);
    store.put_v4(Moment(0), name, 10, addresses)?;
    Ok(store)
}

fn numbers(alloc: Global, requests: Requests) -> Result<Vec<u32>, NoMemory> {
    let mut requests = requests;
    let mut numbers = Vec::new(alloc);
    for waiting in requests.take_waiting(alloc).as_slice() {
        numbers.push(waiting.request.number)?;
    }
    Ok(numbers)
}

// One waiting request of an origin, and one open connection.
fn state(alloc: Global, made: Connection, origin: Origin) -> Result<StepState, NoMemory>
    ensures opened { IfOk result (λ s. s.tables.attempts.opened + length s.tables.requests.waiting < 2 ^ 63) }
    ensures sends { IfOk result (λ s. most_sends s.tables.connections + length s.tables.requests.waiting ≤ 16777215) }
{
    let mut connections = Connections::new(alloc);
    connections.open(alloc, made, true)?;
    let mut requests = Requests::new(alloc);
    requests.arrive(alloc, 1, origin)?;
    Ok(StepState {
        tables: Tables {
            attempts: Attempts::new(alloc),
            requests,
            connections,
        },
        actions: ListOf::new(alloc),
    })
}

#[test]
fn tables_grow(rt: HostRuntime) -> Result<(), Fail> {
    let alloc = rt.alloc();
    let origin = origin(alloc)?;
    let mut attempts = Attempts::new(alloc);
    attempts.start(alloc, &origin, &Route::Direct)?;
    assert!(rt; attempts.is_awaited(&origin, &Route::Direct));
    let mut requests = Requests::new(alloc);
    for number in 1..4 {
        requests.arrive(alloc, number, origin.copy(alloc)?)?;
    }
    for waiting in requests.take_waiting(alloc).into_vec() {
        requests.push_sent(waiting, 1, None)?;
    }
    requests.note_end(alloc, &origin, &Route::Direct)?;
    for number in [2, 3, 1] {
        requests.send_back(alloc, number)?;
    }
    for waiting in requests.take_waiting(alloc).into_vec() {
        assert_eq!(rt; waiting.tried.len(), 1);
        requests.push_waiting(waiting)?;
    }
    assert_eq!(rt; numbers(alloc, requests)?.as_slice(), [1, 2, 3].as_slice());
    Ok(())
}

#[test]
fn a_request_is_sent(rt: HostRuntime) -> Result<(), Fail> {
    let alloc = rt.alloc();
    let mut state = state(alloc, connection(alloc, 1)?, origin(alloc)?)?;
    let cache = Cache::new(alloc);
    let broken = Broken::new(alloc);
    let answers = AnswerStore::new(alloc);
    settle(alloc, &cache, &broken, &answers, Moment(0), &mut state)?;
    let sent = Action::SendOn {
        request: 1,
        conn: 1,
        stream: None,
        alt_used: None,
    };
    assert_eq!(rt; state.actions.as_slice(), [sent].as_slice());
    Ok(())
}

fn is_sent(state: &StepState) -> bool {
    match state.actions.get(0) {
        Some(Action::SendOn { .. }) => true,
        _ => false,
    }
}

// A connection for another origin carries a request as long as an answer lists its address.
#[test]
fn a_connection_is_shared(rt: HostRuntime) -> Result<(), Fail> {
    let alloc = rt.alloc();
    let answers = answers(alloc)?;
    let (cache, broken) = (Cache::new(alloc), Broken::new(alloc));
    for (now, shared) in [(9u32, true), (10, false)] {
        let other = site(alloc, Scheme::Https, "b.example", 443)?;
        let mut state = state(alloc, secure_connection(alloc)?, other)?;
        settle(alloc, &cache, &broken, &answers, Moment(now), &mut state)?;
        assert_eq!(rt; is_sent(&state), shared);
    }
    Ok(())
}
