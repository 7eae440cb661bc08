// Whole inputs and outputs in pieces, and faults in mid-stream.

use crate::checks::check;
use shq_io::{
    MemSink, MemSource, ReadEnd, StdSink, StdSource, SureSink, SureSource, WriteFailed, read_all,
    write_whole,
};
use shq_terms::NoMemory;
use std::alloc::Global;
use std::io;
use std::io::{ErrorKind, Read, Write};
use std::process::Abort;
use std::test::Fail;

// A stream that moves one byte at a call, and fails at its third call.
#[derive(Drop)]
struct Failing {
    calls: u8,
}

impl Failing {
    fn turn(&mut self) -> io::Result<()> {
        self.calls = self.calls.saturating_add(1);
        if self.calls == 3 {
            return Err(io::Error::from(ErrorKind::ConnectionReset));
        }
        Ok(())
    }
}

impl Read for Failing {
    fn read(&mut self, buf: &mut [u8]) -> io::Result<usize> {
        self.turn()?;
        match buf {
            [first, ..] => {
                *first = b'x';
                Ok(1)
            }
            [] => Ok(0),
        }
    }
}

impl Write for Failing {
    fn write(&mut self, piece: &[u8]) -> io::Result<usize> {
        self.turn()?;
        Ok(piece.len().min(1))
    }

    fn flush(&mut self) -> io::Result<()> {
        Ok(())
    }
}

// A writer that takes all, and whose flush fails.
#[derive(Drop)]
struct Unflushed;

impl Write for Unflushed {
    fn write(&mut self, piece: &[u8]) -> io::Result<usize> {
        Ok(piece.len())
    }

    fn flush(&mut self) -> io::Result<()> {
        Err(io::Error::from(ErrorKind::BrokenPipe))
    }
}

// Whether so many bytes were read, and which, or why not.
fn is_read_so(
    read: &Result<Vec<u8>, ReadEnd>,
    bytes: &[u8],
    wanted: Result<usize, ReadEnd>,
) -> bool {
    match read {
        Ok(read) => wanted == Ok(read.len()) && read.as_slice() == bytes,
        Err(end) => wanted == Err(*end),
    }
}

/// The step, the call that fails, the limit, and what is answered.
type Case = (u32, u32, u32, Result<usize, ReadEnd>);

// Whether bytes in memory are read so.
fn is_case(alloc: Global, bytes: &[u8], case: &Case) -> Result<bool, NoMemory> {
    let (step, failing, limit, wanted) = case;
    let mut source = MemSource::new(alloc, bytes, (*step).max(1), &[*failing])?;
    let read = read_all(alloc, &mut source, *limit);
    Ok(is_read_so(&read, bytes, *wanted))
}

/// Of three bytes.
const SHORT: &[Case] = &[
    (1, 9, 3, Ok(3)),
    (9, 9, 9, Ok(3)),
    (1, 9, 2, Err(ReadEnd::TooLong)),
    (1, 2, 9, Err(ReadEnd::Fault)),
    (1, 1, 0, Err(ReadEnd::Fault)),
];

/// Of none.
const NONE: &[Case] = &[(1, 9, 0, Ok(0))];

/// Of 5,000 bytes in one step. A read offers room for 4,096 bytes, so that they come in two reads, and the third is
/// told the end.
const LONG: &[Case] = &[
    (9999, 3, 5000, Err(ReadEnd::Fault)),
    (9999, 4, 5000, Ok(5000)),
    (9999, 3, 4999, Err(ReadEnd::TooLong)),
    (9999, 2, 4095, Err(ReadEnd::TooLong)),
];

fn are_cases(alloc: Global, bytes: &[u8], cases: &[Case]) -> Result<bool, NoMemory> {
    let mut are_so = true;
    for case in cases {
        are_so &= is_case(alloc, bytes, case)?;
    }
    Ok(are_so)
}

fn is_read_by<R: Read + Drop>(
    alloc: Global,
    reader: R,
    limit: u32,
    bytes: &[u8],
    wanted: Result<usize, ReadEnd>,
) -> bool {
    let read = read_all(alloc, &mut StdSource::new(reader), limit);
    is_read_so(&read, bytes, wanted)
}

// Readers of std, of which one fails.
fn are_read(alloc: Global, long: &[u8]) -> bool {
    is_read_by(alloc, long, 5000, long, Ok(5000))
        && is_read_by(alloc, long, 4999, long, Err(ReadEnd::TooLong))
        && is_read_by(alloc, Failing { calls: 0 }, 9, long, Err(ReadEnd::Fault))
}

fn test_reads(rt: &impl Abort, alloc: Global, long: &[u8]) -> Result<(), NoMemory> {
    check(rt, are_cases(alloc, b"abc", SHORT)?, "three bytes");
    check(rt, are_cases(alloc, b"", NONE)?, "no byte");
    check(rt, are_cases(alloc, long, LONG)?, "many bytes");
    check(rt, are_read(alloc, long), "readers");
    Ok(())
}

fn test_inputs(rt: &impl Abort, alloc: Global) -> Result<(), NoMemory> {
    let long = vec![in alloc; 7u8; 5000]?;
    test_reads(rt, alloc, &long)
}

#[test]
fn reads_whole_inputs(rt: HostRuntime) -> Result<(), Fail> {
    test_inputs(&rt, rt.alloc())?;
    Ok(())
}

/// The room, the step, the call that fails, what is answered and what was taken.
type Written = (u32, u32, u32, Result<(), WriteFailed>, &'static [u8]);

const WRITTEN: &[Written] = &[
    (5, 2, 9, Ok(()), b"hello"),
    (9, 9, 2, Ok(()), b"hello"),
    (9, 2, 2, Err(WriteFailed), b"he"),
    (3, 2, 9, Err(WriteFailed), b"hel"),
    (0, 1, 9, Err(WriteFailed), b""),
];

fn is_written_so(alloc: Global, text: &[u8], case: &Written) -> Result<bool, NoMemory> {
    let (room, step, failing, wanted, taken) = case;
    let mut sink = MemSink::new(alloc, *room, (*step).max(1), &[*failing])?;
    Ok(write_whole(&mut sink, text) == *wanted && sink.taken() == *taken)
}

fn are_written_so(alloc: Global, text: &[u8], cases: &[Written]) -> Result<bool, NoMemory> {
    let mut are_so = true;
    for case in cases {
        are_so &= is_written_so(alloc, text, case)?;
    }
    Ok(are_so)
}

fn write<W: Write + Drop>(inner: W, text: &[u8]) -> bool {
    write_whole(&mut StdSink::new(inner), text) == Ok(())
}

fn is_text(written: &[u8], wanted: &[u8]) -> bool {
    written == wanted
}

// Writers of std: one with room, one without, and two that fail. A sink flushes after each write, so that a flush
// that fails is told at once.
fn are_written(written: &mut Vec<u8>, full: &mut [u8], text: &[u8]) -> bool {
    let is_whole = write(&mut *written, text) && written.as_slice() == text;
    let is_cut = !write(&mut *full, text) && is_text(full, b"hel");
    is_whole && is_cut && !write(Unflushed, text) && !write(Failing { calls: 0 }, text)
}

fn is_all_written(alloc: Global, text: &[u8]) -> bool {
    let mut written = Vec::new(alloc);
    are_written(&mut written, &mut [0; 3], text)
}

fn test_writes(rt: &impl Abort, alloc: Global, text: &[u8]) -> Result<(), NoMemory> {
    check(rt, are_written_so(alloc, text, WRITTEN)?, "memory");
    check(rt, is_all_written(alloc, text), "writers");
    Ok(())
}

#[test]
fn writes_whole_outputs(rt: HostRuntime) -> Result<(), Fail> {
    test_writes(&rt, rt.alloc(), b"hello")?;
    Ok(())
}

/// It has 74 bytes.
const ONTOLOGY: &[u8] = b"Prefix(:=<http://e.org/>)
Ontology(
SubClassOf(:A :B)
SubClassOf(:B :C)
)
";

fn is_read_surely(alloc: Global, bytes: &[u8]) -> Result<bool, NoMemory> {
    let mut source = SureSource::new(alloc, bytes)?;
    let read = read_all(alloc, &mut source, 1000);
    Ok(is_read_so(&read, bytes, Ok(bytes.len())))
}

/// The room, and how many bytes are kept of the ontology, of 74, and of it with 5 bytes more behind it.
type Kept = (u32, usize, usize);

const KEPT: &[Kept] = &[(0, 0, 0), (73, 73, 73), (74, 74, 74), (79, 74, 79)];

// Whether the sink has taken so many bytes, keeps the first of them, and tells them where it keeps all.
fn is_kept_so(sink: &SureSink, taken: usize, kept: usize, text: &[u8]) -> bool {
    let is_told = match sink.taken() {
        Some(all) => kept == taken && all == sink.kept(),
        None => kept < taken,
    };
    let is_counted = sink.count() == taken as u64 && sink.kept().len() == kept;
    is_told && is_counted && is_begun_so(sink.kept(), text)
}

// Whether one of the two begins with the other.
fn is_begun_so(one: &[u8], other: &[u8]) -> bool {
    one.starts_with(other) || other.starts_with(one)
}

fn is_taken_surely(alloc: Global, text: &[u8], case: &Kept) -> Result<bool, NoMemory> {
    let mut sink = SureSink::with_room(alloc, case.0)?;
    Ok(are_taken(&mut sink, text, case))
}

fn are_taken(sink: &mut SureSink, text: &[u8], (_, once, twice): &Kept) -> bool {
    write_whole(sink, text) == Ok(())
        && is_kept_so(sink, 74, *once, text)
        && write_whole(sink, b"hello") == Ok(())
        && is_kept_so(sink, 79, *twice, text)
}

fn are_taken_surely(alloc: Global, text: &[u8], cases: &[Kept]) -> Result<bool, NoMemory> {
    let mut are_so = true;
    for case in cases {
        are_so &= is_taken_surely(alloc, text, case)?;
    }
    Ok(are_so)
}

fn test_sure(rt: &impl Abort, alloc: Global, text: &[u8]) -> Result<(), NoMemory> {
    check(rt, is_read_surely(alloc, text)?, "source");
    check(rt, are_taken_surely(alloc, text, KEPT)?, "sink");
    Ok(())
}

#[test]
fn moves_bytes_surely(rt: HostRuntime) -> Result<(), Fail> {
    test_sure(&rt, rt.alloc(), ONTOLOGY)?;
    Ok(())
}
