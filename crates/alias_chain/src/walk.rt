ghost use Rattle.std.specs.Prelude.{◌≡◌, ◌≤◌, ◌||◌, [], IfOk, option_map};
ghost use Rattle.std.specs.List.{find};
ghost use Rattle.svcb_wire.specs.declared.svcb.Svcb.{Svcb};
ghost use Rattle.alias_chain.specs.Held.{body_at};
ghost use Rattle.alias_chain.specs.Walk.{is_alias, alias_of};
ghost use Rattle.alias_chain.specs.Following.{is_root, is_among, follow};

use crate::Answers;
use alt_base::{Duplicate, ListOf, Moment, NoMemory};
use dns_names::Name;
use std::alloc::Global;
use svcb_wire::Svcb;

/// A finished walk: the names of the aliases that were followed, and the name at which they end.
#[derive(Drop)]
pub(crate) struct Walk {
    pub before: ListOf<Name>,
    pub end: Name,
}

fn first_alias(alloc: Global, records: &[Svcb]) -> Result<Option<Name>, NoMemory>
    ensures { IfOk result (λ target. target ≡ option_map (λ (r : Svcb). r.target) (find is_alias records.now)) }
{
    for record_ in records {
        if record_.priority == 0 {
            return Ok(Some(record_.target.copy(alloc)?));
        }
    }
    Ok(None)
}

// Where the alias of a name leads, if the name has one.
fn alias_at<A: Answers>(
    alloc: Global,
    answers: &A,
    name: &Name,
    now: Moment,
) -> Result<Option<Name>, NoMemory>
    requires { A.newest answers.now ≤ now.0 }
    ensures { IfOk result (λ target. target ≡ alias_of (body_at now.0 (A.held answers.now name.now))) }
{
    match answers.https(name, now) {
        Some(set) => first_alias(alloc, set.as_slice()),
        None => Ok(None),
    }
}

fn is_root(name: &Name) -> bool
    ensures { result ≡ is_root name.now }
{
    name.labels().is_empty()
}

fn is_among(name: &Name, names: &[Name]) -> bool
    ensures { result ≡ is_among name.now names.now }
{
    names.iter().any(|other| name == other)
}

// Whether no walk that has these names goes on to a name.
fn is_barred(name: &Name, names: &[Name]) -> bool
    ensures { result ≡ (is_root name.now || is_among name.now names.now) }
{
    is_root(name) || is_among(name, names)
}

/// The walk from a name, if there is one: an alias to the root, to a name of the walk or behind eight others ends it.
pub(crate) fn follow<A: Answers>(
    alloc: Global,
    answers: &A,
    query: Name,
    now: Moment,
) -> Result<Option<Walk>, NoMemory>
    requires { A.newest answers.now ≤ now.0 }
    ensures { IfOk result (λ found. option_map (λ walk. (walk.before, walk.end)) found ≡ follow (λ name. body_at now.0 (A.held answers.now name)) 9 [] query) }
{
    let mut before = ListOf::new(alloc);
    let mut name = query;
    for _ in 0..9_u8 {
        let Some(target) = alias_at(alloc, answers, &name, now)? else {
            return Ok(Some(Walk { before, end: name }));
        };
        before.push(name)?;
        if is_barred(&target, before.as_slice()) {
            return Ok(None);
        }
        name = target;
    }
    Ok(None)
}
