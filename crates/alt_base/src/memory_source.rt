ghost use Rattle.std.specs.Prelude.{◌≡◌, ◌≤◌, ◌<◌, ◌+◌, ◌-◌, ◌^◌, [], ◌++◌, length, take, drop, IfOk, OnOk, OnErr, List, ℕ, Some, IsTrue, is_err, ◌||◌, ◌↔◌, min, true, false, if◌then◌else◌};
ghost use Rattle.alt_base.specs.Devices.{listed_calls, is_listed};

use crate::{Bytes, Calls, Failed, Source};

/// A source over bytes in memory, of which the listed reads fail.
#[derive(Drop)]
pub struct MemorySource {
    bytes: Bytes,
    at: usize,
    ended: bool,
    fail: Calls,
    made: u64,
    ghost within: { at ≤ length bytes },
}

impl MemorySource {
    ghost use Rattle.alt_base.specs.MemorySource.{source_left, source_fail, source_made, has_ended};

    /// A source of these bytes, whose reads of the listed numbers, from 1, fail. It takes no memory.
    pub fn new(bytes: Bytes, fail: Calls) -> MemorySource
        ensures left { source_left result ≡ bytes }
        ensures fail { source_fail result ≡ fail }
        ensures made { source_made result ≡ 0 }
        ensures ended { has_ended result ≡ false }
    {
        MemorySource {
            bytes,
            at: 0,
            ended: false,
            fail,
            made: 0,
        }
    }
}

// Whether a call is listed.
pub(crate) fn lists(fail: &Calls, call: u64) -> bool
    ensures { result ≡ is_listed fail.now call }
{
    fail.as_slice()
        .iter()
        .any(|listed| u64::from(*listed) == call)
}

// Counts a call, and says whether it is listed.
pub(crate) fn fails_now(made: &mut u64, fail: &Calls) -> bool
    ensures count { listed_calls fail.now made.new ≡ listed_calls fail.now made.old + (if result then 1 else 0) }
    ensures made { made.new ≡ min (made.old + 1) (2 ^ 64 - 1) }
    ensures listed { made.old < 2 ^ 64 - 1 → result ≡ is_listed fail.now (made.old + 1) }
{
    if *made == u64::MAX {
        return false;
    }
    *made += 1;
    lists(fail, *made)
}

// Copies the front of the bytes left to the front of a buffer, as much as both hold.
fn move_front(rest: &[u8], buf: &mut [u8]) -> usize
    ensures count { result ≡ min (length rest.now) (length buf.old) }
    ensures moved { take result buf.new ≡ take result rest.now }
{
    let count = rest.len().min(buf.len());
    buf[..count].copy_from_slice(&rest[..count]);
    count
}

impl Source for MemorySource {
    ghost use Rattle.alt_base.specs.MemorySource.{source_left, source_fail, source_made, has_ended, source_faults};
    ghost use Rattle.alt_base.specs.Faults.{HasCause};
    ghost use Rattle.alt_base.specs.Devices.{Took, IsAtEnd, answers_end};

    ghost left = { λ s. Some (drop s.at s.bytes) };

    ghost ended = { λ s. s.ended };

    ghost faults = { λ s. listed_calls s.fail s.made };

    /// Fails exactly where the number of the call is listed; else it gives as many of the bytes left as the buffer
    /// holds. The number of the calls stands still at 2^64 - 1.
    fn read(&mut self, buf: &mut [u8]) -> Result<usize, Failed>
        ensures within { IfOk result (λ n. n ≤ length buf.new) }
        ensures bytes { IfOk result (λ n. Took (Some (source_left self.old)) (Some (source_left self.new)) (take n buf.new)) }
        ensures end { IfOk result (λ n. n ≡ 0 → 0 < length buf.new → IsAtEnd (Some (source_left self.old))) }
        ensures ended { has_ended self.new ≡ (has_ended self.old || answers_end result (length buf.old)) }
        ensures failed { OnErr result (Some (source_left self.new) ≡ Some (source_left self.old)) }
        ensures cause { HasCause (source_faults self.old) (source_faults self.new) result }

        ensures listed { source_made self.old < 2 ^ 64 - 1 → is_err result ≡ is_listed (source_fail self.old) (source_made self.old + 1) }
        ensures count { IfOk result (λ n. n ≡ min (length (source_left self.old)) (length buf.old)) }
        ensures made { source_made self.new ≡ min (source_made self.old + 1) (2 ^ 64 - 1) }
        ensures fail { source_fail self.new ≡ source_fail self.old }
    {
        if fails_now(&mut self.made, &self.fail) {
            return Err(Failed);
        }
        let count = move_front(&self.bytes.as_slice()[self.at..], buf);
        self.at += count;
        self.ended = self.ended || (count == 0 && !buf.is_empty());
        Ok(count)
    }
}
