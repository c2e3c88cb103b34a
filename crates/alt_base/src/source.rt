ghost use Rattle.std.specs.Prelude.{◌≤◌, ◌<◌, length, take, List, ℕ, Option, IfOk, OnErr, ◌≡◌, Bool, ◌||◌};
ghost use Rattle.alt_base.specs.Faults.{HasCause};
ghost use Rattle.alt_base.specs.Devices.{Took, IsAtEnd, answers_end};

use crate::Failed;

/// Bytes from outside.
pub trait Source {
    /// The bytes left, where the source tells them.
    ghost left: { Self → Option (List ℕ) };

    /// Whether a read has answered its end.
    ghost ended: { Self → Bool };

    /// How often it has failed. The count stands still at its greatest value, 2^64 - 1.
    ghost faults: { Self → ℕ };

    /// Moves the first bytes left to the front of `buf`, and answers their number. 0 for a buffer that isn't empty is
    /// the end, and comes only where no byte is left. A failed read moves no byte, and raises the count of faults.
    fn read(&mut self, buf: &mut [u8]) -> Result<usize, Failed>
        ensures within { IfOk result (λ n. n ≤ length buf.new) }
        ensures bytes { IfOk result (λ n. Took (left self.old) (left self.new) (take n buf.new)) }
        ensures end { IfOk result (λ n. n ≡ 0 → 0 < length buf.new → IsAtEnd (left self.old)) }
        ensures ended { ended self.new ≡ (ended self.old || answers_end result (length buf.old)) }
        ensures failed { OnErr result (left self.new ≡ left self.old) }
        ensures cause { HasCause (faults self.old) (faults self.new) result };
}
