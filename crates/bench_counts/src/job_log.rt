// What an answer costs, in counts.

use crate::out_of_memory;
use crate::printing::print_number;
use ontology_jobs::{RunLog, run};
use shq_io::{MemSink, Source};
use std::alloc::Global;
use std::io;

/// The most bytes of an answer.
const MOST: u32 = 1 << 26;

/// How many bytes of an answer are taken at once.
const AT_ONCE: u32 = 1 << 16;

/// Does the job that the words ask for, and prints in place of its answer what it asked.
pub(crate) fn count_job<S: Source>(
    rt: &impl Print,
    alloc: Global,
    words: &[String],
    source: &mut S,
) -> io::Result<()> {
    let mut sink = MemSink::new(alloc, MOST, AT_ONCE, &[]).map_err(|_| out_of_memory())?;
    let mut log = RunLog::new(alloc);
    run(alloc, words, source, &mut sink, &mut log);
    print_counts(rt, log.entries().len(), log.spent())
}

fn print_counts(rt: &impl Print, entries: usize, spent: u64) -> io::Result<()> {
    print_number(rt, entries as u64, " entries, ")?;
    print_number(rt, spent, " of the budget\n")
}
