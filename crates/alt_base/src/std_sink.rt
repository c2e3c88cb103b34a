ghost use Rattle.std.specs.Prelude.{◌≡◌, None, List, ℕ};

use crate::{Failed, Sink};
use std::io::Write;
use std::rt::Stdout;

/// Standard output. It tells no bytes; its count of faults rises at each failed write, and where nothing is taken of
/// a piece that isn't empty.
#[derive(Drop)]
pub struct StdSink {
    output: Stdout,
    faults: u64,
}

impl StdSink {
    ghost use Rattle.alt_base.specs.StandardDevices.{output_faults};

    /// No write has failed yet.
    pub fn new(output: Stdout) -> StdSink
        ensures faults { output_faults result ≡ 0 }
    {
        StdSink { output, faults: 0 }
    }
}

impl Sink for StdSink {
    ghost written = { λ s. None };

    ghost faults = { λ s. s.faults };

    fn write(&mut self, piece: &[u8]) -> Result<usize, Failed> {
        match self.output.write(piece) {
            Ok(count) => {
                if count == 0 && !piece.is_empty() {
                    self.faults = self.faults.saturating_add(1);
                    return Err(Failed);
                }
                Ok(count)
            }
            Err(_) => {
                self.faults = self.faults.saturating_add(1);
                Err(Failed)
            }
        }
    }
}
