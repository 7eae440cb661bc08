// A sink in memory that never fails.
ghost use Rattle.std.specs.Prelude.{◌≡◌, ◌<◌, ◌≤◌, length, take, nat_le, is_some, None, Ok, IfOk, IfSome};
ghost use Rattle.std.specs.Io.{WritesAtMost};
ghost use Rattle.std.specs.Io.KnownBytes.{WriteAppends};
ghost use Rattle.shq_io.specs.Causes.{HasCause};
ghost use Rattle.shq_io.specs.Memory.{roomy_sink, tells, after_taking};

use crate::{Sink, SinkFailed};
use shq_base::NoMemory;
use std::alloc::Global;
use std::marker::Model;

/// A sink that takes every piece whole, and keeps the first bytes alone, as many as it has room for. No call fails or
/// takes memory.
///
/// A [`Sink`] that once tells its bytes tells them for good, and this one lets bytes go where they are more than its
/// room: so by the trait it tells none, and its own clauses say which it keeps.
#[derive(Drop)]
pub struct SureSink {
    bytes: Vec<u8>,
    room: u32,
    count: u64,
}

impl Model for SureSink {
    ghost use Rattle.std.specs.Prelude.{◌≡◌, ◌≤◌, min, length, vec_capacity};
    ghost use Rattle.shq_io.specs.Memory.{SureState};

    ghost Value = { SureState };

    ghost view = { λ s. record { kept = s.bytes.items; room = s.room; count = s.count } };

    ghost invariant = { λ s. (s.room ≤ vec_capacity s.bytes) × (length s.bytes.items ≡ min s.count s.room) };
}

impl SureSink {
    /// A sink with room for so many bytes. It takes the memory for them now.
    ///
    /// # Errors
    ///
    /// `NoMemory` where the allocator refuses the room.
    pub fn with_room(alloc: Global, room: u32) -> Result<SureSink, NoMemory>
        ensures { IfOk result (λ s. s ≡ roomy_sink room) }
    {
        Ok(SureSink {
            bytes: Vec::with_capacity(alloc, room as usize)?,
            room,
            count: 0,
        })
    }

    /// The first of the bytes that were taken, as many as there is room for.
    pub fn kept(&self) -> &[u8]
        ensures { result.now ≡ self.now.kept }
    {
        &self.bytes
    }

    /// How many bytes were taken. The count stands still at the greatest u64.
    pub fn count(&self) -> u64
        ensures { result ≡ self.now.count }
    {
        self.count
    }

    /// All the bytes that were taken, in order; `None` where they are more than there is room for.
    pub fn taken(&self) -> Option<&[u8]>
        ensures told { is_some result ≡ tells self.now }
        ensures bytes { IfSome result (λ all. all.now ≡ self.now.kept) }
        ensures whole { IfSome result (λ all. length all.now ≡ self.now.count) }
    {
        if self.count <= u64::from(self.room) {
            Some(&self.bytes)
        } else {
            None
        }
    }
}

impl Sink for SureSink {
    ghost taken = { λ s. None };

    ghost faults = { λ s. 0 };

    #[tactic(auto, using(crate::proofs::Prefixes::room_kept))]
    fn write(&mut self, piece: &[u8]) -> Result<usize, SinkFailed>
        ensures bound { WritesAtMost result piece.now }
        ensures bytes { WriteAppends None None result piece.now }
        ensures progress { IfOk result (λ n. 0 < length piece.now → 0 < n) }
        ensures cause { HasCause 0 0 result }

        // No call fails, and each takes the whole piece and keeps what there is room for.
        ensures sure { result ≡ Ok (length piece.now) }
        ensures after { self.new ≡ after_taking self.old piece.now }
    {
        let free = (self.room as usize).saturating_sub(self.bytes.len());
        let fitting = piece.len().min(free);
        match self.bytes.extend_from_slice(&piece[..fitting]) {
            Ok(()) => {}
            Err(_) => unreachable!(),
        }
        self.count = self.count.saturating_add(piece.len() as u64);
        Ok(piece.len())
    }
}
