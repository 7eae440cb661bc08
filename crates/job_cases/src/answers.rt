// The lines that are printed of a case.

use crate::blocks::Block;
use crate::numbers::{decimal, put_decimal};
use crate::shows::{put_shows, put_whole, text_of};
use crate::turns::Turn;
use job_runs::{Answer, Failing, NoMemory, Status, audited, checked, run_on, run_through};
use std::alloc::Global;

/// The line that is printed of a run of a case, without its end.
///
/// # Errors
///
/// Out of memory.
pub(crate) fn report(alloc: Global, block: &Block<'_>, turn: Turn) -> Result<String, NoMemory> {
    let document = block.document.text(alloc)?;
    report_on(alloc, block, turn, document.as_str())
}

fn report_on(
    alloc: Global,
    block: &Block<'_>,
    turn: Turn,
    document: &str,
) -> Result<String, NoMemory> {
    let answer = answer_to(alloc, block, turn, document)?;
    report_of(alloc, block, turn, document, &answer)
}

// What is answered on the document with the certificate behind it.
fn answer_to(
    alloc: Global,
    block: &Block<'_>,
    turn: Turn,
    document: &str,
) -> Result<Answer, NoMemory> {
    let mut input = String::from_str(alloc, document)?;
    answer_with(alloc, block, turn, &mut input)
}

// The same, where the certificate is put behind the document.
fn answer_with(
    alloc: Global,
    block: &Block<'_>,
    turn: Turn,
    input: &mut String,
) -> Result<Answer, NoMemory> {
    block.certificate.put(input, turn)?;
    run_turn(alloc, &block.words, turn, input.as_bytes())
}

// What is answered on the input, or on its first bytes.
fn run_turn(alloc: Global, words: &[&str], turn: Turn, input: &[u8]) -> Result<Answer, NoMemory> {
    let input = &input[..turn.bytes.min(input.len())];
    match turn.budget {
        Some(budget) => run_within(alloc, words, budget, input),
        None => run_failing(alloc, words, turn.failing, input),
    }
}

fn run_within(
    alloc: Global,
    words: &[&str],
    budget: u32,
    input: &[u8],
) -> Result<Answer, NoMemory> {
    let number = decimal(alloc, u64::from(budget))?;
    run_with(alloc, words, number.as_str(), input)
}

fn run_with(alloc: Global, words: &[&str], budget: &str, input: &[u8]) -> Result<Answer, NoMemory> {
    let mut all = Vec::new(alloc);
    run_all(alloc, &mut all, words, budget, input)
}

// Runs these words, and those of a budget behind them.
fn run_all<'a>(
    alloc: Global,
    all: &mut Vec<&'a str>,
    words: &[&'a str],
    budget: &'a str,
    input: &[u8],
) -> Result<Answer, NoMemory> {
    all.extend_from_slice(words)?;
    all.push("budget")?;
    all.push(budget)?;
    run_on(alloc, all, input)
}

fn run_failing(
    alloc: Global,
    words: &[&str],
    failing: Failing,
    input: &[u8],
) -> Result<Answer, NoMemory> {
    match failing {
        Failing::Nothing => run_on(alloc, words, input),
        Failing::Read(_) | Failing::Write(_) => run_through(alloc, words, input, failing),
    }
}

fn report_of(
    alloc: Global,
    block: &Block<'_>,
    turn: Turn,
    document: &str,
    answer: &Answer,
) -> Result<String, NoMemory> {
    let mut line = String::from_str(alloc, block.name)?;
    put_report(alloc, &mut line, block, turn, document, answer)?;
    Ok(line)
}

// Puts all behind the name.
fn put_report(
    alloc: Global,
    line: &mut String,
    block: &Block<'_>,
    turn: Turn,
    document: &str,
    answer: &Answer,
) -> Result<(), NoMemory> {
    put_turn(alloc, line, turn.number)?;
    put_status(alloc, line, answer.status)?;
    match question_in(block, answer) {
        Some(words) => put_evidence(alloc, line, words, document, answer)?,
        None => put_whole(alloc, line, answer.text())?,
    }
    put_shows(alloc, line, &block.shows, answer)
}

fn put_status(alloc: Global, line: &mut String, status: Status) -> Result<(), NoMemory> {
    let text = format!(in alloc; ": {status:?}; ")?;
    line.push_str(text.as_str())?;
    Ok(())
}

// Puts the number of a run, if it has one.
fn put_turn(alloc: Global, line: &mut String, number: Option<u32>) -> Result<(), NoMemory> {
    match number {
        Some(number) => {
            line.push_str(" ")?;
            put_decimal(alloc, line, u64::from(number))
        }
        None => Ok(()),
    }
}

// The words of a question that was answered with a certificate or an audit.
fn question_in<'a>(block: &Block<'a>, answer: &Answer) -> Option<(&'a str, &'a str)> {
    match block.words.as_slice() {
        [job, asked, ..] if has_certificate(job, answer) => Some((*job, *asked)),
        _ => None,
    }
}

fn has_certificate(job: &str, answer: &Answer) -> bool {
    answer.status == Status::Done && (job == "sat" || job == "entails" || job == "evidence")
}

// The verdict, and what `check` says of its certificate; or what `audit` says of an audit.
fn put_evidence(
    alloc: Global,
    line: &mut String,
    (job, asked): (&str, &str),
    document: &str,
    answer: &Answer,
) -> Result<(), NoMemory> {
    line.push_str(text_of(answer.verdict()))?;
    line.push_str("; ")?;
    let said = verified(alloc, (job, asked), document, answer.text())?;
    put_whole(alloc, line, said.text())
}

// What is said of a certificate or an audit that this job printed.
fn verified(
    alloc: Global,
    (job, asked): (&str, &str),
    document: &str,
    printed: &[u8],
) -> Result<Answer, NoMemory> {
    if job == "evidence" {
        audited(alloc, asked, document, printed)
    } else {
        checked(alloc, [job, asked], document, printed)
    }
}
