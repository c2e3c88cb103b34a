ghost use Rattle.std.specs.Prelude.{◌≡◌, IfOk};

use crate::NoMemory;
use std::alloc::Global;

/// A value that can be made again, by taking memory.
pub trait Duplicate: Drop {
    /// A value equal to its source.
    fn copy(&self, alloc: Global) -> Result<Self, NoMemory>
        ensures { IfOk result (λ twin. twin ≡ self.now) };
}

impl Duplicate for u8 {
    fn copy(&self, alloc: Global) -> Result<Self, NoMemory> {
        Ok(*self)
    }
}

impl Duplicate for u16 {
    fn copy(&self, alloc: Global) -> Result<Self, NoMemory> {
        Ok(*self)
    }
}

impl Duplicate for u32 {
    fn copy(&self, alloc: Global) -> Result<Self, NoMemory> {
        Ok(*self)
    }
}

impl Duplicate for u64 {
    fn copy(&self, alloc: Global) -> Result<Self, NoMemory> {
        Ok(*self)
    }
}

impl Duplicate for [u8; 4] {
    fn copy(&self, alloc: Global) -> Result<Self, NoMemory> {
        Ok(*self)
    }
}

impl Duplicate for [u8; 16] {
    fn copy(&self, alloc: Global) -> Result<Self, NoMemory> {
        Ok(*self)
    }
}

impl<A: Duplicate, B: Duplicate> Duplicate for (A, B) {
    fn copy(&self, alloc: Global) -> Result<Self, NoMemory> {
        let first = self.0.copy(alloc)?;
        let second = self.1.copy(alloc)?;
        Ok((first, second))
    }
}
