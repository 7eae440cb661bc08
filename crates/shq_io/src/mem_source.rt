// A source in memory, which fails at given calls.
ghost use Rattle.std.specs.Prelude.{◌≡◌, ◌<◌, ◌≤◌, ◌↔◌, ℕ, List, length, take, min, Some, IfOk, IsErr, IsTrue};
ghost use Rattle.std.specs.Io.{ReadsAtMost};
ghost use Rattle.std.specs.Io.KnownBytes.{ReadConsumes};
ghost use Rattle.shq_io.specs.Causes.{HasCause};
ghost use Rattle.shq_io.specs.Memory.{fresh_source, read_fails, read_count, after_read};

use crate::calls::fails_at;
use crate::{Source, SourceFailed};
use shq_base::NoMemory;
use std::alloc::Global;
use std::marker::Model;

/// Bytes in memory, given at most `step` at a call. The listed calls, counted from 1, fail.
#[derive(Drop)]
pub struct MemSource {
    bytes: Vec<u8>,
    place: usize,
    step: u32,
    failing: Vec<u32>,
    calls: u64,
    faults: u64,
}

impl Model for MemSource {
    ghost use Rattle.std.specs.Prelude.{◌≤◌, drop, length};
    ghost use Rattle.shq_io.specs.Memory.{SourceState};

    ghost Value = { SourceState };

    ghost view = { λ s. record {
      unread = drop s.place s.bytes.items;
      step = s.step;
      failing = s.failing.items;
      calls = s.calls;
      faults = s.faults;
    } };

    ghost invariant = { λ s. (s.place ≤ length s.bytes.items) × (1 ≤ s.step) };
}

/// Copies the first bytes, as many as there are, fit and the step allows, and answers how many these are.
pub(crate) fn give(rest: &[u8], buf: &mut [u8], step: usize) -> usize
    requires { 1 ≤ step }
    ensures count { result ≡ min (min (length rest.now) (length buf.old)) step }
    ensures given { take result buf.new ≡ take result rest.now }
{
    let count = rest.len().min(buf.len()).min(step);
    buf[..count].copy_from_slice(&rest[..count]);
    count
}

impl MemSource {
    /// A source of these bytes. `step` is at least 1, and `failing` lists the calls that fail, counted from 1.
    ///
    /// # Errors
    ///
    /// `NoMemory` where the allocator refuses a copy of either list.
    pub fn new(
        alloc: Global,
        bytes: &[u8],
        step: u32,
        failing: &[u32],
    ) -> Result<MemSource, NoMemory>
        requires { 1 ≤ step }
        ensures { IfOk result (λ s. s ≡ fresh_source bytes.now step failing.now) }
    {
        Ok(MemSource {
            bytes: bytes.to_vec(alloc)?,
            place: 0,
            step,
            failing: failing.to_vec(alloc)?,
            calls: 0,
            faults: 0,
        })
    }
}

impl Source for MemSource {
    ghost left = { λ s. Some s.unread };

    ghost faults = { λ s. s.faults };

    fn read(&mut self, buf: &mut [u8]) -> Result<usize, SourceFailed>
        ensures bound { ReadsAtMost result buf.new }
        ensures bytes { ReadConsumes (Some self.old.unread) (Some self.new.unread) result buf.new }
        ensures cause { HasCause self.old.faults self.new.faults result }

        // Exactly the listed calls fail, and the others give as much as there is, fits and the step allows.
        ensures fails { IsErr result ↔ IsTrue (read_fails self.old) }
        ensures count { IfOk result (λ n. n ≡ read_count self.old (length buf.old)) }
        ensures after { self.new ≡ after_read self.old (length buf.old) }
    {
        self.calls = self.calls.saturating_add(1);
        if fails_at(&self.failing, self.calls) {
            self.faults = self.faults.saturating_add(1);
            return Err(SourceFailed);
        }
        let count = give(&self.bytes[self.place..], buf, self.step as usize);
        self.place += count;
        Ok(count)
    }
}
