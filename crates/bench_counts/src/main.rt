//! Says in counts what a search does, and what a job asks.
//!
//! Given `search`, an axiom and a number, it reads a document from standard input, and prints what the search whether
//! the axiom, a `SubClassOf` or a `ClassAssertion`, follows does within so many steps, without the reader and the
//! checks around it, and how long it takes. Given `log` and the words of a job, it does the job on standard input, as
//! the program does, and prints in place of the answer how many entries the log has, tests and nodes of a hitting-set
//! tree, and what they took of the budget. For any other words it prints these. It promises nothing, and is outside of
//! every theorem.
#![tactic(auto)]

mod job_log;
mod measuring;
mod printing;

use job_log::count_job;
use measuring::report;
use printing::print_text;
use shq_io::{Source, StdSource};
use std::alloc::Global;
use std::rt::Clock;
use std::{env, io};

fn out_of_memory() -> io::Error {
    io::Error::from(io::ErrorKind::OutOfMemory)
}

/// Searches whether the axiom follows from the document, within the steps that the word says.
fn search<S: Source>(
    rt: &(impl Print + Clock),
    alloc: Global,
    axiom: &str,
    steps: &str,
    source: &mut S,
) -> io::Result<()> {
    match steps.parse::<u32>() {
        Ok(steps) => report(rt, alloc, axiom, u64::from(steps), source),
        Err(_) => tell_words(rt),
    }
}

fn tell_words(rt: &impl Print) -> io::Result<()> {
    print_text(
        rt,
        "what is counted: search AXIOM STEPS; log and the words of a job\n",
    )
}

/// Does what the words ask for, of which the first is the program's name.
fn act<S: Source>(
    rt: &(impl Print + Clock),
    alloc: Global,
    words: &[String],
    source: &mut S,
) -> io::Result<()> {
    match words {
        [_, word, axiom, steps] if word.as_str() == "search" => {
            search(rt, alloc, axiom.as_str(), steps.as_str(), source)
        }
        [_, word, job @ ..] if word.as_str() == "log" => count_job(rt, alloc, job, source),
        _ => tell_words(rt),
    }
}

fn main(rt: HostRuntime) -> io::Result<()> {
    let words: Vec<String> = env::args(&rt)?
        .collect(rt.alloc())
        .map_err(|_| out_of_memory())?;
    let mut source = StdSource::new(rt.stdin());
    act(&rt, rt.alloc(), &words, &mut source)
}
