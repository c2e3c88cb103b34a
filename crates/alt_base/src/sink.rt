ghost use Rattle.std.specs.Prelude.{◌≤◌, ◌<◌, ◌++◌, length, take, List, ℕ, Option, IfOk, OnOk, OnErr, ◌≡◌};
ghost use Rattle.alt_base.specs.Faults.{HasCause};
ghost use Rattle.alt_base.specs.Devices.{Grew};

use crate::Failed;

/// A place for bytes outside.
pub trait Sink {
    /// The bytes written, where the sink tells them.
    ghost written: { Self → Option (List ℕ) };

    /// How often it has failed. The count stands still at its greatest value, 2^64 - 1.
    ghost faults: { Self → ℕ };

    /// Appends the first bytes of a piece, at least one where there is one, and answers their number. A failed write
    /// appends nothing, and raises the count of faults.
    fn write(&mut self, piece: &[u8]) -> Result<usize, Failed>
        ensures within { IfOk result (λ n. n ≤ length piece.now) }
        ensures some { IfOk result (λ n. 0 < length piece.now → 0 < n) }
        ensures bytes { IfOk result (λ n. Grew (written self.old) (written self.new) (take n piece.now)) }
        ensures failed { OnErr result (written self.new ≡ written self.old) }
        ensures cause { HasCause (faults self.old) (faults self.new) result };
}

/// Appends all the bytes, or a front of them where the sink fails.
pub fn write_all<K: Sink>(sink: &mut K, bytes: &[u8]) -> Result<(), Failed>
    ensures ok { OnOk result (Grew (K.written sink.old) (K.written sink.new) bytes.now) }
    ensures failed { OnErr result ((n : ℕ) × (n ≤ length bytes.now)
        × Grew (K.written sink.old) (K.written sink.new) (take n bytes.now)) }
    ensures cause { HasCause (K.faults sink.old) (K.faults sink.new) result }
{
    let mut rest = bytes;
    while !rest.is_empty() {
        let count = sink.write(rest)?;
        rest = &rest[count..];
    }
    Ok(())
}
