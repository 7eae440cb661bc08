// A sink in memory, which fails at given calls.
ghost use Rattle.std.specs.Prelude.{◌≡◌, ◌<◌, ◌≤◌, ◌↔◌, ℕ, List, length, [], Some, IfOk, IsErr, IsTrue};
ghost use Rattle.std.specs.Io.{WritesAtMost};
ghost use Rattle.std.specs.Io.KnownBytes.{WriteAppends};
ghost use Rattle.shq_io.specs.Causes.{HasCause};
ghost use Rattle.shq_io.specs.Memory.{fresh_sink, write_fails, write_count, after_write};

use crate::calls::fails_at;
use crate::{Sink, SinkFailed};
use shq_base::NoMemory;
use std::alloc::Global;
use std::marker::Model;

/// Room for bytes in memory, which takes at most `step` of them at a call. The listed calls, counted from 1, fail, and
/// so does a call with a piece that is not empty where all the room is taken.
#[derive(Drop)]
pub struct MemSink {
    bytes: Vec<u8>,
    room: u32,
    step: u32,
    failing: Vec<u32>,
    calls: u64,
    faults: u64,
}

impl Model for MemSink {
    ghost use Rattle.std.specs.Prelude.{◌≤◌, length, vec_capacity};
    ghost use Rattle.shq_io.specs.Memory.{SinkState};

    ghost Value = { SinkState };

    ghost view = { λ s. record {
      kept = s.bytes.items;
      room = s.room;
      step = s.step;
      failing = s.failing.items;
      calls = s.calls;
      faults = s.faults;
    } };

    ghost invariant = { λ s. (s.room ≤ vec_capacity s.bytes) × (1 ≤ s.step) };
}

impl MemSink {
    /// A sink with room for so many bytes. It takes the memory for them now, and `write` takes none. `step` is at
    /// least 1, and `failing` lists the calls that fail, counted from 1.
    ///
    /// # Errors
    ///
    /// `NoMemory` where the allocator refuses the room or the list.
    pub fn new(alloc: Global, room: u32, step: u32, failing: &[u32]) -> Result<MemSink, NoMemory>
        requires { 1 ≤ step }
        ensures { IfOk result (λ s. s ≡ fresh_sink room step failing.now) }
    {
        Ok(MemSink {
            bytes: Vec::with_capacity(alloc, room as usize)?,
            room,
            step,
            failing: failing.to_vec(alloc)?,
            calls: 0,
            faults: 0,
        })
    }

    /// The bytes that were taken, in order.
    pub fn taken(&self) -> &[u8]
        ensures { result.now ≡ self.now.kept }
    {
        &self.bytes
    }
}

impl Sink for MemSink {
    ghost taken = { λ s. Some s.kept };

    ghost faults = { λ s. s.faults };

    fn write(&mut self, piece: &[u8]) -> Result<usize, SinkFailed>
        ensures bound { WritesAtMost result piece.now }
        ensures bytes { WriteAppends (Some self.old.kept) (Some self.new.kept) result piece.now }
        ensures progress { IfOk result (λ n. 0 < length piece.now → 0 < n) }
        ensures cause { HasCause self.old.faults self.new.faults result }

        // Exactly the listed calls and those without room fail, and the others take as much as is offered, fits and the
        // step allows.
        ensures fails { IsErr result ↔ IsTrue (write_fails self.old piece.now) }
        ensures count { IfOk result (λ n. n ≡ write_count self.old piece.now) }
        ensures after { self.new ≡ after_write self.old piece.now }
    {
        self.calls = self.calls.saturating_add(1);
        let free = (self.room as usize).saturating_sub(self.bytes.len());
        if fails_at(&self.failing, self.calls) || (free == 0 && !piece.is_empty()) {
            self.faults = self.faults.saturating_add(1);
            return Err(SinkFailed);
        }
        let count = piece.len().min(free).min(self.step as usize);
        match self.bytes.extend_from_slice(&piece[..count]) {
            Ok(()) => Ok(count),
            Err(_) => unreachable!(),
        }
    }
}
