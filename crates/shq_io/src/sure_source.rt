// A source in memory that never fails.
ghost use Rattle.std.specs.Prelude.{◌≡◌, ◌≤◌, List, ℕ, length, take, drop, min, Some, Ok, IfOk};
ghost use Rattle.std.specs.Io.{ReadsAtMost};
ghost use Rattle.std.specs.Io.KnownBytes.{ReadConsumes};
ghost use Rattle.shq_io.specs.Causes.{HasCause};

use crate::mem_source::give;
use crate::{Source, SourceFailed};
use shq_base::NoMemory;
use std::alloc::Global;
use std::marker::Model;

/// Bytes in memory, of which each call gives as many as there are and fit. No call fails.
#[derive(Drop)]
pub struct SureSource {
    bytes: Vec<u8>,
    place: usize,
}

impl Model for SureSource {
    ghost use Rattle.std.specs.Prelude.{◌≤◌, List, ℕ, drop, length};

    ghost Value = { List ℕ };

    ghost view = { λ s. drop s.place s.bytes.items };

    ghost invariant = { λ s. s.place ≤ length s.bytes.items };
}

impl SureSource {
    /// A source of these bytes.
    ///
    /// # Errors
    ///
    /// `NoMemory` where the allocator refuses a copy of them.
    pub fn new(alloc: Global, bytes: &[u8]) -> Result<SureSource, NoMemory>
        ensures { IfOk result (λ s. s ≡ bytes.now) }
    {
        Ok(SureSource {
            bytes: bytes.to_vec(alloc)?,
            place: 0,
        })
    }
}

impl Source for SureSource {
    ghost left = { λ s. Some s };

    ghost faults = { λ s. 0 };

    fn read(&mut self, buf: &mut [u8]) -> Result<usize, SourceFailed>
        ensures bound { ReadsAtMost result buf.new }
        ensures bytes { ReadConsumes (Some self.old) (Some self.new) result buf.new }
        ensures cause { HasCause 0 0 result }

        // No call fails, and each gives as much as there is and fits.
        ensures sure { result ≡ Ok (min (length self.old) (length buf.old)) }
        ensures after { self.new ≡ drop (min (length self.old) (length buf.old)) self.old }
    {
        let room = buf.len();
        let count = give(&self.bytes[self.place..], buf, room.max(1));
        self.place += count;
        Ok(count)
    }
}
