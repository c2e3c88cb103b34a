ghost use Rattle.std.specs.Prelude.{◌≡◌, [], Option, IfOk, IfErr};
ghost use Rattle.std.specs.Option.{option_copied};
ghost use Rattle.event_lines.specs.Valid.{IsServerAct};
ghost use Rattle.event_lines.specs.declared.event.Event.TheVariants.{Client, Server};
ghost use Rattle.route_events.specs.Journal.{Journal};
ghost use Rattle.router_core.specs.Fitting.{IsFit};
ghost use Rattle.router_core.specs.StandsFor.{StandsFor as ClientStandsFor};
ghost use Rattle.both_ends.specs.ServerActs.{asked_origin};

use crate::consult::consult;
use crate::{EndFault, EndRefusal, Output, ServerOutput};
use advertiser_core::Advertiser;
use alt_base::Moment;
use event_lines::ServerAct;
use origin_values::Origin;
use route_events::{Actions, Fact};
use router_core::{Router, StepFault};
use std::alloc::Global;

/// A client, and a server whose messages reach it.
#[derive(Drop)]
pub struct BothEnds {
    alloc: Global,
    router: Router,
    advertiser: Advertiser,
}

// The origin of the request that is to be answered, where it is outstanding.
fn asked_origin<'a>(router: &'a Router, act: &ServerAct) -> Option<&'a Origin>
    ensures { (journal : Journal) → ClientStandsFor router.now journal → option_copied result ≡ asked_origin journal act.now }
{
    match act {
        ServerAct::Ask { request } => router.origin_of(*request),
        _ => None,
    }
}

impl BothEnds {
    ghost use Rattle.both_ends.specs.Histories.{History};
    ghost use Rattle.both_ends.specs.StandsFor.{StandsFor, Takes, Refuses};

    /// Both ends before anything happened. It takes no memory.
    pub fn new(alloc: Global) -> BothEnds
        ensures { StandsFor result [] }
    {
        BothEnds {
            alloc,
            router: Router::new(alloc),
            advertiser: Advertiser::new(alloc),
        }
    }

    /// A fact happens at a moment: the client takes it, and the server isn't asked. For each history that both ends stand
    /// for, the actions are those of the client's step, and the new ends stand for the history with the fact.
    ///
    /// Refused exactly where the step is; want of memory apart.
    pub fn take_fact(self, now: Moment, fact: Fact) -> Result<(BothEnds, Output), EndFault>
        requires { IsFit fact }
        ensures taken { IfOk result (λ r. (history : History) → StandsFor self history → Takes r.0 r.1 history now.0 (Client fact)) }
        ensures refused { IfErr result (λ fault. Refuses self now.0 (Client fact) fault) }
    {
        let BothEnds {
            alloc,
            router,
            advertiser,
        } = self;
        match router.step(now, fact) {
            Ok((router, actions)) => Ok((
                BothEnds {
                    alloc,
                    router,
                    advertiser,
                },
                Output {
                    server: ServerOutput::Nothing,
                    actions,
                },
            )),
            Err(StepFault::NoMemory) => Err(EndFault::NoMemory),
            Err(StepFault::Refused { router: _, refusal }) => {
                Err(EndFault::Refused(EndRefusal::Step(refusal)))
            }
        }
    }

    /// The server is told something, or does something, at a moment: it is asked first, and then the client makes the step of
    /// what reaches it, which is a tick where nothing does. For each history that both ends stand for, what the server gives
    /// and the actions are the history's, and the new ends stand for the history with the act.
    ///
    /// Refused by the server: `NotServed` where an origin is unserved, offered or withdrawn that isn't served,
    /// `NoSuchMessage` where no message has the number of a delivery, `Full` where 16,777,215 messages are kept, and
    /// `OverFrame` where a message's payload would have more than 16,384 octets, in this order; else by the client's step.
    pub fn take_act(self, now: Moment, act: ServerAct) -> Result<(BothEnds, Output), EndFault>
        requires { IsServerAct act }
        ensures taken { IfOk result (λ r. (history : History) → StandsFor self history → Takes r.0 r.1 history now.0 (Server act)) }
        ensures refused { IfErr result (λ fault. Refuses self now.0 (Server act) fault) }
    {
        let BothEnds {
            alloc,
            router,
            mut advertiser,
        } = self;
        let asked = asked_origin(&router, &act);
        let (fact, server) = match consult(alloc, &mut advertiser, asked, &act) {
            Ok(told) => told,
            Err(fault) => return Err(fault),
        };
        match router.step(now, fact) {
            Ok((router, actions)) => Ok((
                BothEnds {
                    alloc,
                    router,
                    advertiser,
                },
                Output { server, actions },
            )),
            Err(StepFault::NoMemory) => Err(EndFault::NoMemory),
            Err(StepFault::Refused { router: _, refusal }) => {
                Err(EndFault::Refused(EndRefusal::Step(refusal)))
            }
        }
    }
}
