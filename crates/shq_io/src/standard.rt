// The edge to the streams of std: a source over a reader, and a sink over a writer.
ghost use Rattle.std.specs.Prelude.{◌≡◌, ◌<◌, ◌≤◌, length, None, IfOk};
ghost use Rattle.std.specs.Io.{ReadsAtMost, WritesAtMost};
ghost use Rattle.std.specs.Io.KnownBytes.{ReadConsumes, WriteAppends};
ghost use Rattle.shq_io.specs.Causes.{HasCause, faults_after};

use crate::{Sink, SinkFailed, Source, SourceFailed};
use std::io::{Read, Write};

/// A source over a reader of std. It tells the bytes that are left where the reader does; a file or a terminal tells
/// none.
#[derive(Drop)]
pub struct StdSource<R> {
    inner: R,
    faults: u64,
}

impl<R: Read> StdSource<R> {
    ghost use Rattle.shq_io.specs.Standard.{reader, source_faults};

    /// A source over this reader, without a fault so far.
    pub fn new(inner: R) -> StdSource<R>
        ensures reader { reader result ≡ inner }
        ensures no_fault { source_faults result ≡ 0 }
    {
        StdSource { inner, faults: 0 }
    }
}

impl<R: Read> Source for StdSource<R> {
    ghost use Rattle.shq_io.specs.Standard.{reader, source_faults};

    ghost left = { λ s. R.remaining s.inner };

    ghost faults = { λ s. s.faults };

    fn read(&mut self, buf: &mut [u8]) -> Result<usize, SourceFailed>
        ensures bound { ReadsAtMost result buf.new }
        ensures bytes { ReadConsumes (R.remaining (reader self.old)) (R.remaining (reader self.new)) result buf.new }
        ensures cause { HasCause (source_faults self.old) (source_faults self.new) result }

        // The count rises by one at a failure, and stands still otherwise.
        ensures counted { source_faults self.new ≡ faults_after result (source_faults self.old) }
    {
        match self.inner.read(buf) {
            Ok(count) => Ok(count),
            Err(_) => {
                self.faults = self.faults.saturating_add(1);
                Err(SourceFailed)
            }
        }
    }
}

/// A sink over a writer of std. It flushes after each write, and counts a write of no bytes of a piece that is not
/// empty as a fault. It tells no bytes, since the writer may have taken some where its flush then fails.
#[derive(Drop)]
pub struct StdSink<W> {
    inner: W,
    faults: u64,
}

impl<W: Write> StdSink<W> {
    ghost use Rattle.shq_io.specs.Standard.{writer, sink_faults};

    /// A sink over this writer, without a fault so far.
    pub fn new(inner: W) -> StdSink<W>
        ensures writer { writer result ≡ inner }
        ensures no_fault { sink_faults result ≡ 0 }
    {
        StdSink { inner, faults: 0 }
    }
}

impl<W: Write> Sink for StdSink<W> {
    ghost use Rattle.shq_io.specs.Standard.{writer, sink_faults, HasGrown};

    ghost taken = { λ s. None };

    ghost faults = { λ s. s.faults };

    fn write(&mut self, piece: &[u8]) -> Result<usize, SinkFailed>
        ensures bound { WritesAtMost result piece.now }
        ensures bytes { WriteAppends None None result piece.now }
        ensures progress { IfOk result (λ n. 0 < length piece.now → 0 < n) }
        ensures cause { HasCause (sink_faults self.old) (sink_faults self.new) result }

        // The count rises by one at a failure, and stands still otherwise.
        ensures counted { sink_faults self.new ≡ faults_after result (sink_faults self.old) }

        // Where the writer tells its bytes, they have grown by what was taken.
        ensures written { HasGrown (W.contents (writer self.old)) (W.contents (writer self.new)) result piece.now }
    {
        match self.inner.write(piece) {
            Ok(count) if count > 0 || piece.is_empty() => {
                if self.inner.flush().is_ok() {
                    return Ok(count);
                }
            }
            _ => {}
        }
        self.faults = self.faults.saturating_add(1);
        Err(SinkFailed)
    }
}
