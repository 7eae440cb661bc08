// Reading to the end, and writing a whole text.
ghost use Rattle.std.specs.Prelude.{◌≡◌, ◌<◌, ◌≤◌, ◌+◌, ℕ, length, IfOk, IfSome, OnOk, OnErr, Err};
ghost use Rattle.std.specs.Io.KnownBytes.{Consumes, Appends, IsAtEnd};
ghost use Rattle.shq_io.specs.Causes.{HasCause, Rose, TakesOut, TakesOutAtMost, TakesPrefix};

use crate::{Sink, SinkFailed, Source, SourceFailed};
use std::alloc::{AllocError, Global};
use thiserror::Error;

/// Why not all was read.
#[derive(Clone, Copy, Debug, PartialEq, Eq, Error)]
pub enum ReadEnd {
    /// A call of the source failed.
    #[error("the source failed")]
    Fault,
    /// The source gave more bytes than the limit.
    #[error("the source has more bytes than the limit")]
    TooLong,
    /// Out of memory.
    #[error("out of memory")]
    NoMemory,
}

impl From<SourceFailed> for ReadEnd {
    ghost use Rattle.std.specs.Prelude.{◌≡◌};
    ghost use Rattle.shq_io.specs.declared.whole.ReadEnd.TheVariants as end;

    ghost from_gives = { λ _ e. e ≡ end.Fault };

    fn from(_: SourceFailed) -> Self {
        ReadEnd::Fault
    }
}

impl From<AllocError> for ReadEnd {
    ghost use Rattle.std.specs.Prelude.{◌≡◌};
    ghost use Rattle.shq_io.specs.declared.whole.ReadEnd.TheVariants as end;

    ghost from_gives = { λ _ e. e ≡ end.NoMemory };

    fn from(_: AllocError) -> Self {
        ReadEnd::NoMemory
    }
}

/// A call of the sink failed before the whole text was taken.
#[derive(Clone, Copy, Debug, PartialEq, Eq, Error)]
#[error("the sink failed")]
pub struct WriteFailed;

impl From<SinkFailed> for WriteFailed {
    fn from(_: SinkFailed) -> Self {
        WriteFailed
    }
}

/// How many bytes a read offers room for, at most.
const CHUNK: usize = 4096;

/// Reads to the end a source of at most `limit` bytes, and answers all of them.
///
/// Each read offers room for 4,096 bytes, or for as many as are missing to `limit + 1` where these are fewer.
///
/// # Errors
///
/// `Fault` where a call of the source failed: its count of faults then rose, or stands at the greatest u64. `TooLong`
/// exactly where `limit + 1` bytes were given; no more are taken then. `NoMemory` where there is no room for what was
/// given. After each of them at most `limit + 1` bytes were taken out of the source.
pub fn read_all<S: Source>(alloc: Global, source: &mut S, limit: u32) -> Result<Vec<u8>, ReadEnd>
    ensures whole { IfOk result (λ bytes. Consumes (S.left source.old) (S.left source.new) bytes.items) }
    ensures ended { OnOk result (IsAtEnd (S.left source.new)) }
    ensures bounded { IfOk result (λ bytes. length bytes.items ≤ limit) }

    // Where the source tells its bytes, at most `limit` of them are read to the end, and only more are too long.
    ensures fits { OnOk result (IfSome (S.left source.old) (λ bytes. length bytes ≤ limit)) }
    ensures longer { result ≡ Err ReadEnd.TooLong → IfSome (S.left source.old) (λ bytes. limit < length bytes) }

    ensures too_long { result ≡ Err ReadEnd.TooLong → TakesOut (limit + 1) (S.left source.old) (S.left source.new) }
    ensures fault { result ≡ Err ReadEnd.Fault → Rose (S.faults source.old) (S.faults source.new) }
    ensures err { OnErr result (TakesOutAtMost (limit + 1) (S.left source.old) (S.left source.new)) }
    ensures later { S.faults source.old ≤ S.faults source.new }
{
    let end = limit as usize + 1;
    let mut chunk = [0u8; CHUNK];
    let mut bytes = Vec::new(alloc);
    while bytes.len() < end {
        let room = CHUNK.min(end - bytes.len());
        let count = source.read(&mut chunk[..room])?;
        if count == 0 {
            return Ok(bytes);
        }
        bytes.extend_from_slice(&chunk[..count])?;
    }
    Err(ReadEnd::TooLong)
}

/// Writes the whole text. Each write offers all that is left of it, and no memory is taken.
///
/// # Errors
///
/// `WriteFailed` where a call of the sink failed: its count of faults then rose, or stands at the greatest u64. The
/// sink took a prefix of the text, if any of it.
pub fn write_whole<K: Sink>(sink: &mut K, text: &[u8]) -> Result<(), WriteFailed>
    ensures whole { OnOk result (Appends (K.taken sink.old) (K.taken sink.new) text.now) }
    ensures prefix { OnErr result (TakesPrefix text.now (K.taken sink.old) (K.taken sink.new)) }
    ensures cause { HasCause (K.faults sink.old) (K.faults sink.new) result }
{
    let mut done = 0;
    while done < text.len() {
        done += sink.write(&text[done..])?;
    }
    Ok(())
}
