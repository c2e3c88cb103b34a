//! Runs the command that the words of the command line are: `replay` here, the others in `altroute_show`.
#![tactic(auto)]

ghost use Rattle.std.specs.Prelude.{◌≡◌, IfOk, map, string_bytes};

mod answers;
mod command;
mod laws;
mod replay;
mod run;
mod state;
mod texts;
mod turns;

use alt_base::{ListOf, StdSink, StdSource, Words};
pub use altroute_show::{Status, WholeCommand};
pub use command::{Command, command_of};
pub use laws::{lines_are_bytes, stop_stays, text_grows};
pub use run::run;
use std::alloc::{AllocError, Global};
use std::env;
use std::process::ExitCode;

// The words of the command line.
fn words_of(alloc: Global, args: &[String]) -> Result<Words, AllocError>
    ensures { IfOk result (λ words. words ≡ map string_bytes args.now) }
{
    let mut words = Vec::new(alloc);
    for arg in args {
        words.push(ListOf::from_vec(Vec::from_slice(alloc, arg.as_bytes())?))?;
    }
    Ok(ListOf::from_vec(words))
}

fn main(rt: HostRuntime) -> ExitCode {
    let alloc = rt.alloc();
    let Ok(args) = env::args(&rt) else {
        return ExitCode::from(2);
    };
    let Ok(all) = args.skip(1).collect::<Vec<String>>(alloc) else {
        return ExitCode::from(5);
    };
    let Ok(words) = words_of(alloc, all.as_slice()) else {
        return ExitCode::from(5);
    };
    let mut source = StdSource::new(rt.stdin());
    let mut sink = StdSink::new(rt.stdout());
    ExitCode::from(run(alloc, &words, &mut source, &mut sink).number())
}

#[cfg(test)]
mod alternative_tests;
#[cfg(test)]
mod answer_tests;
#[cfg(test)]
mod both_ends_tests;
#[cfg(test)]
mod frame_tests;
#[cfg(test)]
mod input_tests;
#[cfg(test)]
mod lent_table_tests;
#[cfg(test)]
mod misdirection_tests;
#[cfg(test)]
mod record_tests;
#[cfg(test)]
mod tests;
