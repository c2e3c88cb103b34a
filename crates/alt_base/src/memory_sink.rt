ghost use Rattle.std.specs.Prelude.{◌≡◌, ◌≤◌, ◌<◌, ◌+◌, ◌-◌, ◌^◌, ◌||◌, ◌&&◌, [], ◌++◌, length, take, IfOk, OnOk, OnErr, List, ℕ, Some, is_err, min, nat_lt, nat_le, vec_capacity};
ghost use Rattle.alt_base.specs.Devices.{listed_calls, is_listed};

use crate::memory_source::fails_now;
use crate::{Calls, Failed, NoMemory, Sink};
use std::alloc::Global;

/// A sink into memory of a fixed room, of which the listed writes fail. Its memory is taken when it is made, so a
/// write takes none.
#[derive(Drop)]
pub struct MemorySink {
    bytes: Vec<u8>,
    room: u32,
    fail: Calls,
    made: u64,
    full: u64,
    ghost fits: { length bytes.items ≤ room },
    ghost taken: { room ≤ vec_capacity bytes },
    ghost unfilled: { length bytes.items < room → full ≡ 0 },
}

impl MemorySink {
    ghost use Rattle.alt_base.specs.MemorySink.{sink_bytes, sink_room, sink_fail, sink_made, sink_faults};

    /// An empty sink of this room, whose writes of the listed numbers, from 1, fail.
    pub fn new(alloc: Global, room: u32, fail: Calls) -> Result<MemorySink, NoMemory>
        ensures bytes { IfOk result (λ sink. sink_bytes sink ≡ []) }
        ensures room { IfOk result (λ sink. sink_room sink ≡ room) }
        ensures fail { IfOk result (λ sink. sink_fail sink ≡ fail) }
        ensures made { IfOk result (λ sink. sink_made sink ≡ 0) }
        ensures faults { IfOk result (λ sink. sink_faults sink ≡ 0) }
    {
        Ok(MemorySink {
            bytes: Vec::with_capacity(alloc, room as usize)?,
            room,
            fail,
            made: 0,
            full: 0,
        })
    }

    /// The bytes written.
    pub fn bytes(&self) -> &[u8]
        ensures { result.now ≡ sink_bytes self.now }
    {
        self.bytes.as_slice()
    }
}

impl Sink for MemorySink {
    ghost use Rattle.alt_base.specs.MemorySink.{sink_bytes, sink_room, sink_fail, sink_made, sink_faults};
    ghost use Rattle.alt_base.specs.Faults.{HasCause};
    ghost use Rattle.alt_base.specs.Devices.{Grew};

    ghost written = { λ s. Some s.bytes.items };

    ghost faults = { λ s. min (listed_calls s.fail s.made + s.full) (2 ^ 64 - 1) };

    /// Fails exactly where the number of the call is listed, or where the piece isn't empty and the room is full; else
    /// it appends as much of the piece as there is room for. The number of the calls stands still at 2^64 - 1.
    fn write(&mut self, piece: &[u8]) -> Result<usize, Failed>
        ensures within { IfOk result (λ n. n ≤ length piece.now) }
        ensures some { IfOk result (λ n. 0 < length piece.now → 0 < n) }
        ensures bytes { IfOk result (λ n. Grew (Some (sink_bytes self.old)) (Some (sink_bytes self.new)) (take n piece.now)) }
        ensures failed { OnErr result (Some (sink_bytes self.new) ≡ Some (sink_bytes self.old)) }
        ensures cause { HasCause (sink_faults self.old) (sink_faults self.new) result }

        ensures listed { sink_made self.old < 2 ^ 64 - 1 → is_err result ≡
            (is_listed (sink_fail self.old) (sink_made self.old + 1) || (nat_lt 0 (length piece.now) && nat_le (sink_room self.old) (length (sink_bytes self.old)))) }
        ensures count { IfOk result (λ n. n ≡ min (length piece.now) (sink_room self.old - length (sink_bytes self.old))) }
        ensures made { sink_made self.new ≡ min (sink_made self.old + 1) (2 ^ 64 - 1) }
        ensures same { (sink_room self.new ≡ sink_room self.old) × (sink_fail self.new ≡ sink_fail self.old) }
        ensures faults { length (sink_bytes self.new) < sink_room self.new → sink_faults self.new ≡ min (listed_calls (sink_fail self.new) (sink_made self.new)) (2 ^ 64 - 1) }
    {
        if fails_now(&mut self.made, &self.fail) {
            return Err(Failed);
        }
        if piece.is_empty() {
            return Ok(0);
        }
        let used = self.bytes.len();
        if used >= self.room as usize {
            self.full = self.full.saturating_add(1);
            return Err(Failed);
        }
        let count = piece.len().min(self.room as usize - used);
        match self.bytes.extend_from_slice(&piece[..count]) {
            Ok(()) => Ok(count),
            Err(_) => unreachable!(),
        }
    }
}
