ghost use Rattle.std.specs.Prelude.{◌≡◌, ◌&&◌, ◌++◌, ◌∷◌, [], map, filter, if◌then◌else◌, IfOk, OnOk};
ghost use Rattle.svcb_wire.specs.Usable.{is_consistent, is_compatible};
ghost use Rattle.alias_chain.specs.Endpoints.{can_use, target_of, port_of, endpoint_of};
ghost use Rattle.alias_chain.specs.Following.{ascending, of_records};
ghost use Rattle.alias_chain.specs.Ranks.{ranked_of};

use crate::{Endpoint, Endpoints};
use alt_base::{Duplicate, ListOf, NoMemory};
use dns_names::Name;
use origin_values::Protos;
use std::alloc::Global;
use svcb_wire::{Param, Svcb, compatible, consistent, protocols};

/// An endpoint, with the priority of its record.
#[derive(Debug, Drop)]
pub(crate) struct Ranked {
    pub priority: u16,
    pub endpoint: Endpoint,
}

fn can_use(record_: &Svcb, supported: &Protos) -> bool
    ensures { result ≡ can_use supported.now record_.now }
{
    let whole = consistent(record_);
    let known = compatible(record_, supported);
    whole && known
}

fn port_of(params: &[Param], port: u16) -> u16
    ensures { result ≡ port_of port params.now }
{
    for param in params {
        if let Param::Port(own) = param {
            return *own;
        }
    }
    port
}

fn target_of(alloc: Global, record_: &Svcb, name: &Name) -> Result<Name, NoMemory>
    ensures { IfOk result (λ target. target ≡ target_of name.now record_.now.target) }
{
    if record_.target.labels().is_empty() {
        name.copy(alloc)
    } else {
        record_.target.copy(alloc)
    }
}

fn endpoint_of(
    alloc: Global,
    record_: &Svcb,
    name: &Name,
    port: u16,
    supported: &Protos,
) -> Result<Endpoint, NoMemory>
    ensures { IfOk result (λ endpoint. endpoint ≡ endpoint_of supported.now port name.now record_.now) }
{
    let params = record_.params.as_slice();
    Ok(Endpoint {
        target: target_of(alloc, record_, name)?,
        port: port_of(params, port),
        protos: protocols(params, supported),
    })
}

// Appends the endpoint of a record that can be used.
fn push_usable(
    alloc: Global,
    all: &mut Vec<Ranked>,
    record_: &Svcb,
    name: &Name,
    port: u16,
    supported: &Protos,
) -> Result<(), NoMemory>
    ensures { OnOk result (all.new.items ≡ all.old.items ++ (if can_use supported.now record_.now then ranked_of supported.now port name.now record_.now ∷ [] else [])) }
{
    if can_use(record_, supported) {
        let endpoint = endpoint_of(alloc, record_, name, port, supported)?;
        all.push(Ranked {
            priority: record_.priority,
            endpoint,
        })?;
    }
    Ok(())
}

// The endpoints of the records of a name that can be used, as they were delivered.
fn usable(
    alloc: Global,
    records: &[Svcb],
    name: &Name,
    port: u16,
    supported: &Protos,
) -> Result<Vec<Ranked>, NoMemory>
    ensures { IfOk result (λ all. all.items ≡ map (ranked_of supported.now port name.now) (filter (can_use supported.now) records.now)) }
{
    let mut all = Vec::new(alloc);
    for record_ in records {
        push_usable(alloc, &mut all, record_, name, port, supported)?;
    }
    Ok(all)
}

fn sort(all: &mut Vec<Ranked>) -> Result<(), NoMemory>
    ensures { OnOk result (all.new.items ≡ ascending (λ r. r.priority) all.old.items) }
{
    all.sort_by_key(|ranked| ranked.priority)?;
    Ok(())
}

// The endpoints in ascending priority, those of one priority in the order that they had.
fn in_order(alloc: Global, all: Vec<Ranked>) -> Result<Endpoints, NoMemory>
    ensures { IfOk result (λ endpoints. endpoints ≡ map (λ r. r.endpoint) (ascending (λ r. r.priority) all.items)) }
{
    let mut all = all;
    sort(&mut all)?;
    let mut endpoints = ListOf::new(alloc);
    for ranked in all {
        endpoints.push(ranked.endpoint)?;
    }
    Ok(endpoints)
}

/// The endpoints of the records of a name that can be used, in ascending priority, and in delivered order within one.
pub(crate) fn of_records(
    alloc: Global,
    records: &[Svcb],
    name: &Name,
    port: u16,
    supported: &Protos,
) -> Result<Endpoints, NoMemory>
    ensures { IfOk result (λ endpoints. endpoints ≡ of_records supported.now port name.now records.now) }
{
    let all = usable(alloc, records, name, port, supported)?;
    let endpoints = in_order(alloc, all)?;
    Ok(endpoints)
}
