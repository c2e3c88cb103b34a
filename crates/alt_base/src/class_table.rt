ghost use Rattle.std.specs.Prelude.{◌≡◌};
ghost use Rattle.alt_base.specs.Classes.{in_ranges};

use std::marker::Model;

/// A class of bytes: the ranges that hold its bytes, each from its first to its last byte. To a contract it is the
/// list of its ranges.
#[derive(Debug, Drop)]
pub struct ClassTable<const N: usize> {
    ranges: [(u8, u8); N],
}

impl<const N: usize> Model for ClassTable<N> {
    ghost use Rattle.std.specs.Prelude.{List, ℕ};

    ghost Value = { List (ℕ × ℕ) };

    ghost view = { λ table. table.ranges };
}

impl<const N: usize> ClassTable<N> {
    /// The class of the bytes that these ranges hold. It takes no memory.
    #[inline]
    pub fn new(ranges: [(u8, u8); N]) -> ClassTable<N>
        ensures { result ≡ ranges.entry }
    {
        ClassTable { ranges }
    }

    /// Whether a range of the table holds the byte. It takes no memory.
    #[inline]
    pub fn has(&self, byte: u8) -> bool
        ensures { result ≡ in_ranges self.now byte }
    {
        self.ranges
            .iter()
            .any(|range| range.0 <= byte && byte <= range.1)
    }
}
