ghost use Rattle.std.specs.Prelude.{◌≡◌, ◌≤◌, false, IfOk};
ghost use Rattle.std.specs.Option.{option_map_or};
ghost use Rattle.route_events.specs.Addresses.{name_of};
ghost use Rattle.answer_store.specs.Contents.{newest_moment};
ghost use Rattle.request_dispatch.specs.Looks.{lists_in_force};

use alt_base::{Moment, NoMemory};
use answer_store::AnswerStore;
use conn_states::is_at;
use dns_names::Name;
use origin_values::{Addr, Host, Origin};
use std::alloc::Global;

/// What is asked of an origin at a moment: which addresses are its own, by the answers then in force. It is begun once for
/// all connections that are asked. To a contract it is the origin, and which addresses are an origin's.
#[derive(Drop)]
pub struct OriginAddresses<'a> {
    answers: &'a AnswerStore,
    moment: Moment,
    origin: Origin,
    name: Option<Name>,
    ghost not_before: { newest_moment answers.now ≤ moment.0 },
    ghost named: { name ≡ name_of origin.host },
}

impl<'a> OriginAddresses<'a> {
    ghost use Rattle.request_dispatch.specs.Asked.{asked_of, asked_by};

    /// What is asked of an origin at a moment, which may not be below the newest that the answers were given. NoMemory comes
    /// only where memory isn't found.
    pub fn begin(
        alloc: Global,
        answers: &'a AnswerStore,
        now: Moment,
        origin: Origin,
    ) -> Result<OriginAddresses<'a>, NoMemory>
        requires { newest_moment answers.now ≤ now.0 }
        ensures { IfOk result (λ known. asked_by known ≡ asked_of answers.now now.0 origin) }
    {
        let name = name_of(alloc, &origin.host)?;
        Ok(OriginAddresses {
            answers,
            moment: now,
            origin,
            name,
        })
    }

    /// The origin. It takes no memory.
    pub fn origin(&self) -> &Origin
        ensures { result.now ≡ (asked_by self.now).origin }
    {
        &self.origin
    }

    /// Whether an address is one of the origin's: it is the origin's host, or an answer in force for the host lists it (RFC
    /// 9113 9.1.1). It takes no memory.
    pub fn has(&self, addr: &Addr) -> bool
        ensures { result ≡ (asked_by self.now).is_address (asked_by self.now).origin addr.now }
    {
        is_at(addr, &self.origin.host) || resolves_to(self.answers, self.moment, &self.name, addr)
    }
}

// The name whose addresses are a host's; None for a host that is an address, and for a text that spells no name.
fn name_of(alloc: Global, host: &Host) -> Result<Option<Name>, NoMemory>
    ensures { IfOk result (λ name. name ≡ name_of host.now) }
{
    match host {
        Host::Name(text) => Name::spelled_by(alloc, text.as_slice()),
        Host::V4(_) => Ok(None),
        Host::V6(_) => Ok(None),
    }
}

// Whether an answer in force for a name, if there is one, lists an address.
fn resolves_to(answers: &AnswerStore, now: Moment, name: &Option<Name>, addr: &Addr) -> bool
    requires { newest_moment answers.now ≤ now.0 }
    ensures { result ≡ option_map_or (lists_in_force answers.now now.0 addr.now) name.now false }
{
    match name {
        None => false,
        Some(name) => lists_in_force(answers, now, name, addr),
    }
}

fn lists_in_force(answers: &AnswerStore, now: Moment, name: &Name, addr: &Addr) -> bool
    requires { newest_moment answers.now ≤ now.0 }
    ensures { result ≡ lists_in_force answers.now now.0 addr.now name.now }
{
    answers.has_address(now, name, addr)
}
