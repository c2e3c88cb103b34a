ghost use Rattle.std.specs.Prelude.{◌≡◌, None, List, ℕ, false};

use crate::{Failed, Source};
use std::io::Read;
use std::rt::Stdin;

/// Standard input. It tells no bytes; its count of faults rises at each failed read.
#[derive(Drop)]
pub struct StdSource {
    input: Stdin,
    ended: bool,
    faults: u64,
}

impl StdSource {
    ghost use Rattle.alt_base.specs.StandardDevices.{input_ended, input_faults};

    /// No read has answered its end yet, and none has failed.
    pub fn new(input: Stdin) -> StdSource
        ensures ended { input_ended result ≡ false }
        ensures faults { input_faults result ≡ 0 }
    {
        StdSource {
            input,
            ended: false,
            faults: 0,
        }
    }
}

impl Source for StdSource {
    ghost left = { λ s. None };

    ghost ended = { λ s. s.ended };

    ghost faults = { λ s. s.faults };

    fn read(&mut self, buf: &mut [u8]) -> Result<usize, Failed> {
        match self.input.read(buf) {
            Ok(count) => {
                if count == 0 && !buf.is_empty() {
                    self.ended = true;
                }
                Ok(count)
            }
            Err(_) => {
                self.faults = self.faults.saturating_add(1);
                Err(Failed)
            }
        }
    }
}
