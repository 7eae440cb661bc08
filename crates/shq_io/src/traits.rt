// A source of bytes and a sink for bytes.
ghost use Rattle.std.specs.Prelude.{◌≡◌, ◌<◌, ◌≤◌, ℕ, List, length, Option, IfOk};
ghost use Rattle.std.specs.Io.{ReadsAtMost, WritesAtMost};
ghost use Rattle.std.specs.Io.KnownBytes.{ReadConsumes, WriteAppends};
ghost use Rattle.shq_io.specs.Causes.{HasCause};

use thiserror::Error;

/// A source failed at a call. It gave no bytes at it.
#[derive(Clone, Copy, Debug, PartialEq, Eq, Error)]
#[error("the source failed")]
pub struct SourceFailed;

/// A sink failed at a call. Where it tells its bytes, it took none at the call.
#[derive(Clone, Copy, Debug, PartialEq, Eq, Error)]
#[error("the sink failed")]
pub struct SinkFailed;

/// Gives bytes in order, and counts the calls that failed.
pub trait Source {
    /// The bytes that are left, where the source tells them.
    ghost left: { Self → Option (List ℕ) };

    /// How many calls have failed. The count never falls, and stands still at the greatest u64.
    ghost faults: { Self → ℕ };

    /// Puts the first of the bytes that are left at the start of the buffer, and answers how many they are.
    /// `Ok(0)` on a buffer that is not empty is the end of the input.
    ///
    /// # Errors
    ///
    /// `SourceFailed` only where `faults` rose in the call, or stands at the greatest u64.
    fn read(&mut self, buf: &mut [u8]) -> Result<usize, SourceFailed>
        ensures bound { ReadsAtMost result buf.new }
        ensures bytes { ReadConsumes (left self.old) (left self.new) result buf.new }
        ensures cause { HasCause (faults self.old) (faults self.new) result };
}

/// Takes bytes in order, and counts the calls that failed.
pub trait Sink {
    /// The bytes that were taken, where the sink tells them.
    ghost taken: { Self → Option (List ℕ) };

    /// How many calls have failed. The count never falls, and stands still at the greatest u64.
    ghost faults: { Self → ℕ };

    /// Takes the first bytes of the piece, at least one where it is not empty, and answers how many it took.
    ///
    /// # Errors
    ///
    /// `SinkFailed` only where `faults` rose in the call, or stands at the greatest u64.
    fn write(&mut self, piece: &[u8]) -> Result<usize, SinkFailed>
        ensures bound { WritesAtMost result piece.now }
        ensures bytes { WriteAppends (taken self.old) (taken self.new) result piece.now }
        ensures progress { IfOk result (λ n. 0 < length piece.now → 0 < n) }
        ensures cause { HasCause (faults self.old) (faults self.new) result };
}
