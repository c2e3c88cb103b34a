ghost use Rattle.std.specs.Prelude.{◌≡◌, ◌≤◌, ◌++◌, IfOk};
ghost use Rattle.alias_chain.specs.Held.{body_at};
ghost use Rattle.alias_chain.specs.Endpoints.{AreEndpoints, own_endpoint, records_of};
ghost use Rattle.alias_chain.specs.Following.{endpoints_by, of_records, itself, from_query, at_end};

use crate::query::query_name;
use crate::ranked::of_records;
use crate::walk::{Walk, follow};
use crate::{Answers, Endpoint, Endpoints};
use alt_base::{ListOf, Moment, NoMemory};
use dns_names::Name;
use origin_values::{Origin, Protos};
use std::alloc::Global;

/// The endpoints of an origin by its HTTPS records (RFC 9460 2.4 and 3), the preferred ones first; none for an http origin,
/// for an address host, and where the name to be asked for is too long for DNS. NoMemory comes only where memory isn't
/// found.
///
/// From the name asked for, the first alias of each name is followed, at most eight of them. An alias to the root or to a
/// name of this walk, or a ninth one, gives no endpoint at all. Each record of the last name that is consistent and
/// compatible gives one endpoint, in ascending priority, and in delivered order within one; behind them stands the last
/// name itself, with the origin's port, HTTP/2 and HTTP/1.1, where an alias was followed.
pub fn endpoints<A: Answers>(
    alloc: Global,
    answers: &A,
    origin: &Origin,
    supported: &Protos,
    now: Moment,
) -> Result<Endpoints, NoMemory>
    requires { A.newest answers.now ≤ now.0 }
    ensures by_walk { IfOk result (AreEndpoints (λ name. body_at now.0 (A.held answers.now name)) supported.now origin.now) }
    ensures followed { IfOk result (λ all. all ≡ endpoints_by (λ name. body_at now.0 (A.held answers.now name)) supported.now origin.now) }
{
    let query = query_name(alloc, origin)?;
    let all = from_query(alloc, answers, query, origin.port, supported, now)?;
    Ok(all)
}

// What the walk from a name gives, if there is a name to be asked for.
fn from_query<A: Answers>(
    alloc: Global,
    answers: &A,
    query: Option<Name>,
    port: u16,
    supported: &Protos,
    now: Moment,
) -> Result<Endpoints, NoMemory>
    requires { A.newest answers.now ≤ now.0 }
    ensures { IfOk result (λ all. all ≡ from_query (λ name. body_at now.0 (A.held answers.now name)) supported.now port query) }
{
    let Some(query) = query else {
        return Ok(ListOf::new(alloc));
    };
    match follow(alloc, answers, query, now)? {
        Some(walk) => at_end(alloc, answers, walk, port, supported, now),
        None => Ok(ListOf::new(alloc)),
    }
}

// What the last name of a walk gives.
fn at_end<A: Answers>(
    alloc: Global,
    answers: &A,
    walk: Walk,
    port: u16,
    supported: &Protos,
    now: Moment,
) -> Result<Endpoints, NoMemory>
    requires { A.newest answers.now ≤ now.0 }
    ensures { IfOk result (λ all. all ≡ of_records supported.now port walk.end (records_of (body_at now.0 (A.held answers.now walk.end))) ++ itself port walk.before walk.end) }
{
    let mut all = at_name(alloc, answers, &walk.end, port, supported, now)?;
    if !walk.before.as_slice().is_empty() {
        all.push(own_endpoint(walk.end, port))?;
    }
    Ok(all)
}

// What the records of a name give.
fn at_name<A: Answers>(
    alloc: Global,
    answers: &A,
    name: &Name,
    port: u16,
    supported: &Protos,
    now: Moment,
) -> Result<Endpoints, NoMemory>
    requires { A.newest answers.now ≤ now.0 }
    ensures { IfOk result (λ all. all ≡ of_records supported.now port name.now (records_of (body_at now.0 (A.held answers.now name.now)))) }
{
    match answers.https(name, now) {
        Some(set) => of_records(alloc, set.as_slice(), name, port, supported),
        None => Ok(ListOf::new(alloc)),
    }
}

// The last name of a walk itself, by the protocols of the scheme.
fn own_endpoint(target: Name, port: u16) -> Endpoint
    ensures { result ≡ own_endpoint port target }
{
    Endpoint {
        target,
        port,
        protos: Protos {
            h2: true,
            h3: false,
            http11: true,
        },
    }
}
