// Runs over sources and sinks in memory.
ghost use Rattle.std.specs.Prelude.{◌≡◌, ◌≤◌, length};
ghost use Rattle.std.specs.List.{prefix_len};
ghost use Rattle.job_runs.specs.Texts.{is_in_line, first_line};

use crate::{NoMemory, Status};
use ontology_jobs::{RunLog, run};
use shq_io::{MemSink, MemSource, Sink, Source, SureSink, SureSource};
use std::alloc::Global;

/// What came of a run.
#[derive(Drop)]
pub struct Answer {
    /// How it ended.
    pub status: Status,
    /// What was written.
    pub written: Vec<u8>,
    /// How many entries its log has, which are tests for all jobs but those that pinpoint.
    pub entries: usize,
    /// How many steps its tests took.
    pub spent: u64,
}

// How a run ended, and what its log says.
#[derive(Clone, Copy)]
struct Ended {
    status: Status,
    entries: usize,
    spent: u64,
}

impl Answer {
    /// What was written.
    pub fn text(&self) -> &[u8]
        ensures { result.now ≡ self.now.written.items }
    {
        &self.written
    }

    /// The first line of what was written, without its end: the verdict of a question. What was written is its
    /// certificate.
    pub fn verdict(&self) -> &[u8]
        ensures { result.now ≡ first_line self.now.written.items }
    {
        let text = self.text();
        text.split_at(line_len(text)).0
    }
}

fn is_in_line(byte: u8) -> bool
    ensures { result ≡ is_in_line byte }
{
    byte != b'\n'
}

// How many bytes the first line has, without its end.
fn line_len(text: &[u8]) -> usize
    ensures value { result ≡ prefix_len is_in_line text.now }
    ensures within { result ≤ length text.now }
{
    text.iter().take_while(|byte| is_in_line(**byte)).count()
}

/// Which call fails, counted from 1.
#[derive(Clone, Copy, Debug, PartialEq, Eq)]
pub enum Failing {
    /// None.
    Nothing,
    /// One that reads.
    Read(u32),
    /// One that writes.
    Write(u32),
}

impl Failing {
    // The call that fails to read; 0 for none.
    fn read(self) -> u32 {
        match self {
            Failing::Read(call) => call,
            Failing::Nothing | Failing::Write(_) => 0,
        }
    }

    // The call that fails to write; 0 for none.
    fn write(self) -> u32 {
        match self {
            Failing::Write(call) => call,
            Failing::Nothing | Failing::Read(_) => 0,
        }
    }
}

// The most bytes of an answer.
const ROOM: u32 = 1 << 16;

/// Runs the words on an input, over a source and a sink of which no call fails.
///
/// # Errors
///
/// Out of memory before the run or after it, or an answer of more than 65,536 bytes.
pub fn run_on(alloc: Global, words: &[&str], input: &[u8]) -> Result<Answer, NoMemory> {
    let words = owned(alloc, words)?;
    run_surely(alloc, &words, input)
}

fn run_surely(alloc: Global, words: &[String], input: &[u8]) -> Result<Answer, NoMemory> {
    let mut source = SureSource::new(alloc, input)?;
    answer_surely(alloc, words, &mut source)
}

fn answer_surely(
    alloc: Global,
    words: &[String],
    source: &mut SureSource,
) -> Result<Answer, NoMemory> {
    let mut sink = SureSink::with_room(alloc, ROOM)?;
    let ended = run_between(alloc, words, source, &mut sink);
    match sink.taken() {
        Some(text) => make_answer(alloc, ended, text),
        None => Err(NoMemory),
    }
}

/// Runs the words on an input, of which a call reads at most 8 bytes, and a call writes at most 4.
///
/// # Errors
///
/// Out of memory before the run or after it.
pub fn run_through(
    alloc: Global,
    words: &[&str],
    input: &[u8],
    failing: Failing,
) -> Result<Answer, NoMemory> {
    let words = owned(alloc, words)?;
    run_in_steps(alloc, &words, input, failing)
}

fn run_in_steps(
    alloc: Global,
    words: &[String],
    input: &[u8],
    failing: Failing,
) -> Result<Answer, NoMemory> {
    let mut source = MemSource::new(alloc, input, 8, &[failing.read()])?;
    answer_in_steps(alloc, words, &mut source, failing)
}

fn answer_in_steps(
    alloc: Global,
    words: &[String],
    source: &mut MemSource,
    failing: Failing,
) -> Result<Answer, NoMemory> {
    let mut sink = MemSink::new(alloc, ROOM, 4, &[failing.write()])?;
    let ended = run_between(alloc, words, source, &mut sink);
    make_answer(alloc, ended, sink.taken())
}

// The words as the program keeps them.
fn owned(alloc: Global, words: &[&str]) -> Result<Vec<String>, NoMemory> {
    let mut own = Vec::new(alloc);
    for word in words {
        own.push(String::from_str(alloc, word)?)?;
    }
    Ok(own)
}

// How a run ends, and what its log says then.
fn run_between<S: Source, K: Sink>(
    alloc: Global,
    words: &[String],
    source: &mut S,
    sink: &mut K,
) -> Ended {
    let mut log = RunLog::new(alloc);
    let status = run(alloc, words, source, sink, &mut log);
    Ended {
        status,
        entries: log.entries().len(),
        spent: log.spent(),
    }
}

fn make_answer(alloc: Global, ended: Ended, text: &[u8]) -> Result<Answer, NoMemory> {
    Ok(Answer {
        status: ended.status,
        written: text.to_vec(alloc)?,
        entries: ended.entries,
        spent: ended.spent,
    })
}
