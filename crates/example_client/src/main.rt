//! A client that drives the router over a small network in memory, and prints the history: the line of each event, and
//! behind it, set in, those of the actions that the router answers.
//!
//! `running` has the loop that every client has, `Client` does what the actions ask for, and `scene` says which servers
//! there are and what is asked of them. The servers are those of `advertiser_core`.
#![tactic(auto)]

ghost use Rattle.std.specs.Prelude.{OnOk};
ghost use Rattle.example_client.specs.Transcript.{IsPrinted};

mod arrival;
mod asked;
mod client;
mod duties;
mod fault;
mod greeting;
mod network;
mod queue;
mod record;
mod running;
mod scene;
mod server;
mod site;
mod socket;
mod telling;
mod texts;

use alt_base::{Sink, StdSink};
use client::Client;
use fault::Fault;
use queue::Queue;
use running::run;
use std::alloc::Global;
use std::process::ExitCode;

// Plays the scene to its end.
fn play<K: Sink>(alloc: Global, sink: &mut K) -> Result<(), Fault>
    ensures { OnOk result (IsPrinted (K.written sink.old) (K.written sink.new)) }
{
    let network = scene::network(alloc)?;
    let mut queue = Queue::new(alloc);
    scene::fill(alloc, &mut queue)?;
    let mut client = Client::new(alloc, network, queue);
    run(alloc, &mut client, sink)
}

fn main(rt: HostRuntime) -> ExitCode {
    let mut sink = StdSink::new(rt.stdout());
    match play(rt.alloc(), &mut sink) {
        Ok(()) => ExitCode::from(0),
        Err(fault) => ExitCode::from(fault.status()),
    }
}
