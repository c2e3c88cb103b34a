ghost use Rattle.std.specs.Prelude.{◌≡◌, ◌≤◌, ◌<◌, ◌^◌, IfOk, Some, find, not};
ghost use Rattle.std.specs.Option.{option_copied};
ghost use Rattle.std.specs.List.{list_any};
ghost use Rattle.answer_store.specs.Contents.{newest_moment as newest_answer};
ghost use Rattle.network_cache.specs.Contents.{newest_moment};
ghost use Rattle.route_choice.specs.Contents.{kept_failures, newest_moment as newest_failure};
ghost use Rattle.route_choice.specs.Usable.{is_listed, is_open_to};
ghost use Rattle.route_events.specs.Authority.{rests_on};
ghost use Rattle.route_events.specs.Backoff.{is_barred_by};
ghost use Rattle.route_events.specs.Routes.{by_alternatives, supported};
ghost use Rattle.route_events.specs.Dispatch.{stream_after, host_or, alternative_used, alt_used};
ghost use Rattle.conn_states.specs.Said.{said};
ghost use Rattle.request_dispatch.specs.Looks.{live_at, look_by};
ghost use Rattle.request_dispatch.specs.Asked.{asked_by};
ghost use Rattle.request_dispatch.specs.Choices.{is_in_use, unless_in_use, may_await, without_route, by_routes, otherwise, choice};
ghost use Rattle.request_dispatch.specs.Carriers.{best_connection};

use crate::authority::rests_on;
use crate::open_connection::OpenConnection;
use crate::origin_addresses::OriginAddresses;
use crate::tables::Tables;
use crate::waiting::Waiting;
use alias_chain::endpoints;
use alt_base::{Duplicate, ListOf, Moment, NoMemory};
use answer_store::AnswerStore;
use network_cache::Cache;
use origin_values::{Host, Origin, Proto, Protos};
use route_choice::{Broken, alternative_routes, first_usable, routes};
use route_events::{Route, Routes, same_route};
use std::alloc::Global;

/// What is done for a waiting request.
#[derive(Debug, Drop)]
pub enum Choice {
    /// It waits on.
    Wait,
    /// An attempt by this route starts, and the request waits on.
    Open(Route),
    /// It is sent on a connection, on a stream where that is one of HTTP/2, maybe by an alternative that the server is
    /// told (RFC 7838 5). An attempt may start beside.
    Send {
        conn: u64,
        stream: Option<u32>,
        alt_used: Option<(Host, u16)>,
        beside: Option<Route>,
    },
    /// It is refused.
    Refuse,
}

fn is_in_use(tables: &Tables, origin: &Origin, route: &Route) -> bool
    ensures { result ≡ is_in_use tables.now origin.now route.now }
{
    tables.connections.is_open_by(origin, route) || tables.attempts.is_awaited(origin, route)
}

// The stream of the send after so many.
fn stream_after(proto: Proto, sends: u32) -> Option<u32>
    requires { sends < 2 ^ 31 }
    ensures { result ≡ stream_after proto sends }
{
    match proto {
        Proto::H2 => Some(2 * sends + 1),
        _ => None,
    }
}

fn host_or(alloc: Global, host: &Option<Host>, own: &Host) -> Result<Host, NoMemory>
    ensures { IfOk result (λ h. h ≡ host_or host.now own.now) }
{
    match host {
        None => own.copy(alloc),
        Some(host) => host.copy(alloc),
    }
}

fn alternative_used(
    alloc: Global,
    route: &Route,
    origin: &Origin,
) -> Result<Option<(Host, u16)>, NoMemory>
    ensures { IfOk result (λ used. used ≡ alternative_used route.now origin.now) }
{
    match route {
        Route::Direct => Ok(None),
        Route::Alt(key) => Ok(Some((host_or(alloc, &key.host, &origin.host)?, key.port))),
        Route::Rec(_) => Ok(None),
    }
}

// What a send on the connection tells the server of its alternative.
fn alt_used(
    alloc: Global,
    connection: &OpenConnection,
    origin: &Origin,
) -> Result<Option<(Host, u16)>, NoMemory>
    ensures { IfOk result (λ used. used ≡ alt_used (rests_on (said connection.now) origin.now) connection.now.made.route origin.now) }
{
    if rests_on(connection, origin) {
        return alternative_used(alloc, &connection.made().route, origin);
    }
    Ok(None)
}

// The first of an origin's routes that isn't broken.
fn first_unbroken<'a>(
    alloc: Global,
    routes: &'a Routes,
    broken: &Broken,
    origin: &Origin,
    now: Moment,
) -> Option<&'a Route>
    requires { newest_failure broken.now ≤ now.0 }
    ensures { option_copied result ≡ find (λ r. not (is_barred_by (kept_failures broken.now origin.now r) r now.0)) routes.now }
{
    let none = ListOf::new(alloc);
    match first_usable(routes, &none, broken, origin, now) {
        Some(place) => routes.get(place),
        None => None,
    }
}

// The route that is opened beside a send: the first alternative that isn't broken, where it isn't in use.
fn beside(
    alloc: Global,
    cache: &Cache,
    broken: &Broken,
    now: Moment,
    tables: &Tables,
    origin: &Origin,
) -> Result<Option<Route>, NoMemory>
    requires alternatives { newest_moment cache.now ≤ now.0 }
    requires failures { newest_failure broken.now ≤ now.0 }
    ensures { IfOk result (λ route. route ≡ unless_in_use tables.now origin.now (find (λ r. not (is_barred_by (kept_failures broken.now origin.now r) r now.0)) (by_alternatives (live_at cache.now now.0 origin.now)))) }
{
    let live = cache.live(alloc, now, origin)?;
    let routes = alternative_routes(alloc, &live)?;
    let first = first_unbroken(alloc, &routes, broken, origin, now);
    unless_in_use(alloc, tables, origin, first)
}

fn unless_in_use(
    alloc: Global,
    tables: &Tables,
    origin: &Origin,
    route: Option<&Route>,
) -> Result<Option<Route>, NoMemory>
    ensures { IfOk result (λ unused. unused ≡ unless_in_use tables.now origin.now (option_copied route.entry)) }
{
    match route {
        None => Ok(None),
        Some(route) => copy_unused(alloc, tables, origin, route),
    }
}

fn copy_unused(
    alloc: Global,
    tables: &Tables,
    origin: &Origin,
    route: &Route,
) -> Result<Option<Route>, NoMemory>
    ensures { IfOk result (λ unused. unused ≡ unless_in_use tables.now origin.now (Some route.now)) }
{
    if is_in_use(tables, origin, route) {
        return Ok(None);
    }
    Ok(Some(route.copy(alloc)?))
}

fn is_listed(routes: &[Route], route: &Route) -> bool
    ensures { result ≡ is_listed routes.now route.now }
{
    routes.iter().any(|listed| same_route(listed, route))
}

// Whether a request may take a route for which an attempt is pending.
fn may_await(
    broken: &Broken,
    now: Moment,
    tables: &Tables,
    waiting: &Waiting,
    route: &Route,
) -> bool
    requires { newest_failure broken.now ≤ now.0 }
    ensures { result ≡ may_await broken.now now.0 tables.now waiting.now route.now }
{
    !broken.is_broken(now, &waiting.request.origin, route)
        && !is_listed(waiting.tried.as_slice(), route)
        && tables.attempts.is_awaited(&waiting.request.origin, route)
}

fn may_await_any(
    broken: &Broken,
    now: Moment,
    tables: &Tables,
    waiting: &Waiting,
    routes: &[Route],
) -> bool
    requires { newest_failure broken.now ≤ now.0 }
    ensures { result ≡ list_any (may_await broken.now now.0 tables.now waiting.now) routes.now }
{
    routes
        .iter()
        .any(|route| may_await(broken, now, tables, waiting, route))
}

// What is done where no usable route is left.
fn without_route(tables: &Tables, addresses: &OriginAddresses<'_>) -> Choice
    ensures { result ≡ without_route (asked_by addresses.now).is_address tables.now (asked_by addresses.now).origin }
{
    if tables.connections.has_carrier(addresses) {
        return Choice::Wait;
    }
    Choice::Refuse
}

// The protocols that are supported.
fn supported() -> Protos
    ensures { result ≡ supported }
{
    Protos {
        h2: true,
        h3: true,
        http11: true,
    }
}

// What is done for a request that no connection may carry now.
fn otherwise(
    alloc: Global,
    cache: &Cache,
    broken: &Broken,
    answers: &AnswerStore,
    now: Moment,
    addresses: &OriginAddresses<'_>,
    tables: &Tables,
    waiting: &Waiting,
) -> Result<Choice, NoMemory>
    requires alternatives { newest_moment cache.now ≤ now.0 }
    requires failures { newest_failure broken.now ≤ now.0 }
    requires answers { newest_answer answers.now ≤ now.0 }
    requires asked { (asked_by addresses.now).origin ≡ waiting.now.request.origin }
    ensures { IfOk result (λ chosen. chosen ≡ otherwise (look_by cache.now broken.now answers.now now.0 (asked_by addresses.now).is_address) tables.now waiting.now) }
{
    let origin = &waiting.request.origin;
    let live = cache.live(alloc, now, origin)?;
    let protos = supported();
    let found = endpoints(alloc, answers, origin, &protos, now)?;
    let routes = routes(alloc, origin, &live, &found)?;
    by_routes(alloc, broken, now, addresses, tables, waiting, &routes)
}

// The same, where these are the routes of the request's origin.
fn by_routes(
    alloc: Global,
    broken: &Broken,
    now: Moment,
    addresses: &OriginAddresses<'_>,
    tables: &Tables,
    waiting: &Waiting,
    routes: &Routes,
) -> Result<Choice, NoMemory>
    requires failures { newest_failure broken.now ≤ now.0 }
    requires asked { (asked_by addresses.now).origin ≡ waiting.now.request.origin }
    ensures { IfOk result (λ chosen. chosen ≡ by_routes (asked_by addresses.now).is_address broken.now now.0 tables.now waiting.now routes.now) }
{
    if may_await_any(broken, now, tables, waiting, routes.as_slice()) {
        return Ok(Choice::Wait);
    }
    match first_route(routes, waiting, broken, now) {
        None => Ok(without_route(tables, addresses)),
        Some(route) => Ok(Choice::Open(route.copy(alloc)?)),
    }
}

// The first usable route.
fn first_route<'a>(
    routes: &'a Routes,
    waiting: &Waiting,
    broken: &Broken,
    now: Moment,
) -> Option<&'a Route>
    requires { newest_failure broken.now ≤ now.0 }
    ensures { option_copied result ≡ find (is_open_to broken.now waiting.now.request.origin now.0 waiting.now.tried) routes.now }
{
    match first_usable(routes, &waiting.tried, broken, &waiting.request.origin, now) {
        Some(place) => routes.get(place),
        None => None,
    }
}

// The best connection for a waiting request.
fn best_for<'a>(
    alloc: Global,
    addresses: &OriginAddresses<'_>,
    tables: &'a Tables,
    waiting: &Waiting,
) -> Result<Option<&'a OpenConnection>, NoMemory>
    requires { (asked_by addresses.now).origin ≡ waiting.now.request.origin }
    ensures { IfOk result (λ found. option_copied found ≡ best_connection (asked_by addresses.now).is_address waiting.now.request.origin tables.now.connections) }
{
    tables.connections.best(alloc, addresses)
}

/// What is done for a waiting request at a moment, by what the tables hold: it is sent on the best connection that may
/// carry it; else it waits for a pending attempt by a route that it may take, or one starts by the first such route; else
/// it waits for a busy connection, or is refused. The addresses are those of the request's origin. The moment may not be
/// below those that the tables were given. NoMemory comes only where memory isn't found.
pub fn choose(
    alloc: Global,
    cache: &Cache,
    broken: &Broken,
    answers: &AnswerStore,
    now: Moment,
    addresses: &OriginAddresses<'_>,
    tables: &Tables,
    waiting: &Waiting,
) -> Result<Choice, NoMemory>
    requires alternatives { newest_moment cache.now ≤ now.0 }
    requires failures { newest_failure broken.now ≤ now.0 }
    requires answers { newest_answer answers.now ≤ now.0 }
    requires asked { (asked_by addresses.now).origin ≡ waiting.now.request.origin }
    ensures { IfOk result (λ chosen. chosen ≡ choice (look_by cache.now broken.now answers.now now.0 (asked_by addresses.now).is_address) tables.now waiting.now) }
{
    let origin = &waiting.request.origin;
    match best_for(alloc, addresses, tables, waiting)? {
        None => otherwise(
            alloc, cache, broken, answers, now, addresses, tables, waiting,
        ),
        Some(connection) => Ok(Choice::Send {
            conn: connection.number(),
            stream: stream_after(connection.made().proto, connection.sends()),
            alt_used: alt_used(alloc, connection, origin)?,
            beside: beside(alloc, cache, broken, now, tables, origin)?,
        }),
    }
}
