//! The program: its words ask for a job, standard input is the document, and standard output the answer. The exit
//! status says how the job ended.
#![tactic(auto)]

mod exit;
mod program;
mod words;

use program::program;
use shq_io::{StdSink, StdSource};
use std::env;
use std::process::ExitCode;
use words::words_of;

fn main(rt: HostRuntime) -> ExitCode {
    let alloc = rt.alloc();
    let words = words_of(alloc, env::args(&rt));
    let mut source = StdSource::new(rt.stdin());
    let mut sink = StdSink::new(rt.stdout());
    program(alloc, words, &mut source, &mut sink)
}
