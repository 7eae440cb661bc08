// The words of the command line.
ghost use Rattle.std.specs.Prelude.{◌≡◌, ◌∷◌, [], option_map};
ghost use Rattle.ontology_jobs.specs.Words.{request_of, command_request, texts_of, budget_in, plain_number};
ghost use Rattle.ontology_jobs.specs.Words.{workload_number, alone_request, text_request, searching_request};
ghost use Rattle.ontology_jobs.specs.Words.{pinpointing_request, workload_request, budgeted_request, budgeted_alone};
ghost use Rattle.ontology_jobs.specs.Words.{longest_request, longer_request};

use crate::workload_number::WorkloadNumber;
use certificate_lines::number;
use job_inputs::WrittenQuestion;
use pinpointing_jobs::Wanted;

/// What the words ask for.
#[derive(Clone, Copy)]
pub enum Command<'a> {
    /// A job on the input.
    OnInput(Job<'a>),
    /// `workload N`: the pinpointing job on the ontology of this number, by at most so many steps and nodes. Nothing is
    /// read.
    Workload(WorkloadNumber, u32),
}

/// A job on an input. The last number is how many steps, and nodes of a hitting-set tree, it may take.
#[derive(Clone, Copy)]
pub enum Job<'a> {
    /// `check AXIOM`: verify the certificate for this axiom that follows the document.
    Check(&'a str),
    /// `audit AXIOM`: verify the audit of this axiom that follows the document.
    Audit(&'a str),
    /// `sat CLASS` or `entails AXIOM`: decide the question.
    Decide(WrittenQuestion<'a>, u32),
    /// `classify`: which class is part of which.
    Classify(u32),
    /// `realize`: the most specific classes of each individual.
    Realize(u32),
    /// `instances CLASS`: the individuals that are in the class expression.
    Instances(&'a str, u32),
    /// `why CLASS`: the individuals that are in the class expression, each with all smallest sets of axioms from which
    /// that follows.
    Why(&'a str, u32),
    /// `session`: answer the lines of the script that follows the document, which ask, add and remove.
    Session(u32),
    /// `explain AXIOM` or `repair AXIOM`: all smallest sets of axioms from which the axiom follows, or whose removal
    /// ends that.
    Pinpoint(Wanted, &'a str, u32),
    /// `evidence AXIOM`: both kinds of sets as an audit, each with what shows it.
    Evidence(&'a str, u32),
}

// How many steps a job may take where the words do not say it.
const DEFAULT_BUDGET: u32 = 1_000_000;

/// None exactly where the words ask for no job.
pub fn read_words(words: &[String]) -> Option<Command<'_>>
    ensures { option_map command_request result ≡ request_of (texts_of words.now) }
{
    match words {
        [job] => read_alone(job.as_str(), DEFAULT_BUDGET),
        [job, text] => read_job(job.as_str(), text.as_str()),
        _ => read_longer(words),
    }
}

// A job with a budget.
fn read_longer(words: &[String]) -> Option<Command<'_>>
    ensures { option_map command_request result ≡ longer_request (texts_of words.now) }
{
    match words {
        [job, word, budget] => {
            read_budgeted_alone(job.as_str(), word.as_str(), budget.as_bytes())
        }
        _ => read_longest(words),
    }
}

// A job with one text and a budget.
#[tactic(auto, using(crate::proofs::Counted::few, crate::proofs::Counted::many))]
fn read_longest(words: &[String]) -> Option<Command<'_>>
    ensures { option_map command_request result ≡ longest_request (texts_of words.now) }
{
    match words {
        [job, text, word, budget] => read_budgeted(
            job.as_str(),
            text.as_str(),
            word.as_str(),
            budget.as_bytes(),
        ),
        _ => None,
    }
}

// A job with no text.
fn read_alone<'a>(job: &str, budget: u32) -> Option<Command<'a>>
    ensures { option_map command_request result ≡ alone_request job.now budget }
{
    if job == "classify" {
        Some(Command::OnInput(Job::Classify(budget)))
    } else if job == "realize" {
        Some(Command::OnInput(Job::Realize(budget)))
    } else if job == "session" {
        Some(Command::OnInput(Job::Session(budget)))
    } else {
        None
    }
}

// A job with one text.
fn read_job<'a>(job: &str, text: &'a str) -> Option<Command<'a>>
    ensures { option_map command_request result ≡ text_request job.now text.now }
{
    if job == "check" {
        Some(Command::OnInput(Job::Check(text)))
    } else if job == "audit" {
        Some(Command::OnInput(Job::Audit(text)))
    } else {
        read_searching(job, text, DEFAULT_BUDGET)
    }
}

// A job with one text that searches.
fn read_searching<'a>(job: &str, text: &'a str, budget: u32) -> Option<Command<'a>>
    ensures { option_map command_request result ≡ searching_request job.now text.now budget }
{
    if job == "sat" {
        Some(Command::OnInput(Job::Decide(WrittenQuestion::HasElement(text), budget)))
    } else if job == "entails" {
        Some(Command::OnInput(Job::Decide(WrittenQuestion::Follows(text), budget)))
    } else if job == "instances" {
        Some(Command::OnInput(Job::Instances(text, budget)))
    } else {
        read_pinpointing(job, text, budget)
    }
}

fn read_pinpointing<'a>(job: &str, text: &'a str, budget: u32) -> Option<Command<'a>>
    ensures { option_map command_request result ≡ pinpointing_request job.now text.now budget }
{
    if job == "explain" {
        Some(Command::OnInput(Job::Pinpoint(Wanted::Justifications, text, budget)))
    } else if job == "repair" {
        Some(Command::OnInput(Job::Pinpoint(Wanted::Repairs, text, budget)))
    } else if job == "evidence" {
        Some(Command::OnInput(Job::Evidence(text, budget)))
    } else if job == "why" {
        Some(Command::OnInput(Job::Why(text, budget)))
    } else {
        read_workload(job, text.as_bytes(), budget)
    }
}

fn read_workload<'a>(job: &str, text: &[u8], budget: u32) -> Option<Command<'a>>
    ensures { option_map command_request result ≡ workload_request job.now text.now budget }
{
    if job != "workload" {
        return None;
    }
    match read_number(text) {
        Some(number) => Some(Command::Workload(number, budget)),
        None => None,
    }
}

fn read_number(word: &[u8]) -> Option<WorkloadNumber>
    ensures { option_map plain_number result ≡ workload_number word.now }
{
    match number(word) {
        Some(number) => WorkloadNumber::new(number),
        None => None,
    }
}

// A job with one text, a word that should be `budget`, and the budget.
fn read_budgeted<'a>(job: &str, text: &'a str, word: &str, budget: &[u8]) -> Option<Command<'a>>
    ensures { option_map command_request result ≡ budgeted_request job.now text.now word.now budget.now }
{
    if word != "budget" {
        return None;
    }
    match read_budget(budget) {
        Some(budget) => read_searching(job, text, budget),
        None => None,
    }
}

// The same for a job with no text.
fn read_budgeted_alone<'a>(job: &str, word: &str, budget: &[u8]) -> Option<Command<'a>>
    ensures { option_map command_request result ≡ budgeted_alone job.now word.now budget.now }
{
    if word != "budget" {
        return None;
    }
    match read_budget(budget) {
        Some(budget) => read_alone(job, budget),
        None => None,
    }
}

fn read_budget(word: &[u8]) -> Option<u32>
    ensures { result ≡ budget_in word.now }
{
    match number(word) {
        Some(0) => None,
        Some(budget) => Some(budget),
        None => None,
    }
}
