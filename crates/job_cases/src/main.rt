//! Cases for the reasoner: documents, what is asked of them, and what comes of it. The file `stdin` has the cases as
//! text, and the file `stdout` one line for each; the end of `docs/DEFINITIONS.md` says how these lines were found. A
//! new case is some lines there, and costs no proof.
//!
//! A line of `stdin` is a key, and behind one blank what belongs to it. Empty lines, and lines that begin with `#`, say
//! nothing. A block begins with its name:
//!
//! | key | what it says |
//! |---|---|
//! | `case NAME` | here a case begins, which is run |
//! | `document NAME` | here a block begins that is not run, a document or what else cases share |
//! | `like NAME` | right after the name: the document, the certificate and the words are those of an earlier block |
//! | `axioms TEXT` | a line of axioms, which stand between a prefix and `Ontology(` on two lines, and `)` |
//! | `text TEXT` | a line of a document that is given whole |
//! | `lines N TEXT` | N lines of the same kind; `@` in the text stands for a line's number, from 1 on, `%` for the next
//! |
//! | `more N TEXT` | the last line goes on with N times this text, which may begin with a blank |
//! | `blanks N` | blanks stand behind the document, up to N bytes |
//! | `empty` | the document is given whole, and has no line so far |
//! | `certificate TEXT` | a line of the certificate, audit or script, which stands behind the document |
//! | `change N TEXT` | line N of the certificate is this one |
//! | `insert N TEXT` | before line N of the certificate stands this one |
//! | `drop N` | the certificate lacks line N |
//! | `keep N` | the certificate has its first N lines alone |
//! | `returns` | before each line feed of the certificate stands a carriage return |
//! | `unended` | the last line of the certificate has no line feed |
//! | `ask JOB TEXT` | the words, in place of those that were taken over: a job and one text, a job alone, or none |
//! | `word WORD` | one word more, which may be empty |
//! | `budget N` | the words `budget` and N |
//! | `each KIND M N` | the case is run for each number from M to N, and each run is printed, with the number behind the
//! name |
//! | `find KINDS` | print which kinds of lines, by their first words, the answer has, and which it lacks |
//! | `count KIND` | print how many lines of a kind it has |
//! | `first KIND` | print its first line of a kind |
//! | `steps` | print how many steps it took |
//! | `tests` | print how many tests it took, where it is no job that lists reasons or repairs |
//!
//! The kinds of `each` are `budget` (the words `budget` and the number stand behind the others), `cut` (of the input
//! there are so many bytes alone), `keep` (of the certificate so many lines), `drop` (it lacks the line of this
//! number), `spoil` (that line has a word more), `read` and `write` (a read gives at most 8 bytes, a write takes at
//! most 4, and the one of this number fails).
//!
//! Of each case its name is printed, how the run ended, and the answer, with ` | ` between its lines. Of `sat` and
//! `entails` the first line is printed, and what `check` says of the whole answer as a certificate; of `evidence` the
//! first line, and what `audit` says of the whole answer. Then comes what else the case asks for.
//!
//! A file is malformed that has a line of no such form, a name twice, a case that asks nothing, or no case at all: then
//! no case is run, and the program fails with the number of the line.
#![tactic(auto)]

mod answers;
mod blocks;
mod certificates;
mod documents;
mod faults;
mod files;
mod keys;
mod numbers;
mod shows;
mod turns;

use answers::report;
use blocks::Block;
use faults::Fault;
use files::read_cases;
use shq_io::{StdSource, read_all};
use std::alloc::Global;
use turns::{Numbers, Turn};

// The most bytes of a file of cases.
const MOST: u32 = 1 << 24;

fn main(rt: HostRuntime) -> Result<(), Fault> {
    let mut source = StdSource::new(rt.stdin());
    let bytes = read_all(rt.alloc(), &mut source, MOST)?;
    run_cases(&rt, rt.alloc(), &bytes)
}

fn run_cases(rt: &impl Print, alloc: Global, bytes: &[u8]) -> Result<(), Fault> {
    let text = str::from_utf8(bytes)?;
    let mut blocks = Vec::new(alloc);
    run_text(rt, alloc, &mut blocks, text)
}

fn run_text<'a>(
    rt: &impl Print,
    alloc: Global,
    blocks: &mut Vec<Block<'a>>,
    text: &'a str,
) -> Result<(), Fault> {
    read_cases(alloc, blocks, text)?;
    print_cases(rt, alloc, blocks)
}

fn print_cases(rt: &impl Print, alloc: Global, blocks: &[Block<'_>]) -> Result<(), Fault> {
    for block in blocks {
        if block.is_case {
            print_case(rt, alloc, block)?;
        }
    }
    Ok(())
}

fn print_case(rt: &impl Print, alloc: Global, block: &Block<'_>) -> Result<(), Fault> {
    match block.turns {
        Some(turns) => print_turns(rt, alloc, block, turns),
        None => print_turn(rt, alloc, block, Turn::PLAIN),
    }
}

fn print_turns(
    rt: &impl Print,
    alloc: Global,
    block: &Block<'_>,
    turns: Numbers,
) -> Result<(), Fault> {
    for number in turns.first..=turns.last {
        print_turn(rt, alloc, block, turns.turn(number))?;
    }
    Ok(())
}

fn print_turn(rt: &impl Print, alloc: Global, block: &Block<'_>, turn: Turn) -> Result<(), Fault> {
    let line = report(alloc, block, turn)?;
    println!(rt; "{line}")?;
    Ok(())
}
