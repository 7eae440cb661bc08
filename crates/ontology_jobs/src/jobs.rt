// The top call.
ghost use Rattle.std.specs.Prelude.{◌≡◌, ◌≢◌, ◌≤◌, false, [], Some, None, length};
ghost use Rattle.shq_io.specs.Causes.{Rose};
ghost use Rattle.ontology_jobs.specs.Words.{request_of, kept_job, texts_of};
ghost use Rattle.job_inputs.specs.Answer.{IsAnswer, is_fault, text_bytes};
ghost use Rattle.ontology_jobs.specs.Laws.{HasSpentAll, HasSpentNoTest, AsksForNothing};
ghost use Rattle.ontology_jobs.specs.Complete.{IsComplete};
ghost use Rattle.ontology_jobs.specs.Answers.{AnswersRead, AnswersAll};
ghost use Rattle.ontology_jobs.specs.Answers.{AnsweredAll, SaysBadWords, IsBadWords, end_answer, ReadsNothing};
ghost use Rattle.ontology_jobs.specs.Answers.{Leaves};

use crate::words::{Command, Job, read_words};
use audit_jobs::{Decide, FindEvidence, verify, verify_audit};
use classification_jobs::Classify;
use edit_session::{RunLog, answer_script};
use individual_jobs::{Instances, Realize, Why};
use job_inputs::{Status, Text, answer_to};
use pinpointing_jobs::{Pinpoint, run_workload};
use shq_io::{ReadEnd, Sink, Source, WriteFailed, read_all, write_whole};
use std::alloc::Global;

// The most bytes of an input.
const MAX_BYTES: u32 = 1 << 24;

/// Does the job that the words ask for, and writes its answer and nothing else.
///
/// `words` are those after the program's name; `source` gives the document, with what follows it; the log is empty, and
/// gets the tests of a job that searches. The words of no job are answered without a read and without memory.
pub fn run<S: Source, K: Sink>(
    alloc: Global,
    words: &[String],
    source: &mut S,
    sink: &mut K,
    log: &mut RunLog,
) -> Status
    requires { log.old ≡ [] }

    // The answer that belongs to the words and to the bytes that are read, with the log of how it was found. The bytes
    // are all that the source held, where it tells them, and of these is told what is left.
    ensures answer { AnsweredAll (S.left source.old) (K.taken sink.old) (K.taken sink.new) (texts_of words.now) result
        log.new }
    ensures leaves { Leaves (texts_of words.now) (S.left source.old) (S.left source.new) result }

    // Where it is undecided, the whole budget was spent on what the log says.
    ensures undecided { result ≡ Status.Undecided → HasSpentAll (request_of (texts_of words.now)) log.new }

    // Where it is out of memory, no test of a job that decides, classifies, realizes, lists instances, finds evidence
    // or counts the sets of a workload ended with the budget spent: that is told as undecided.
    ensures unspent { result ≡ Status.NoMemory → HasSpentNoTest (request_of (texts_of words.now)) log.new }

    // A run whose document and question are read, and which has something of its budget left, is done, but for faults
    // and out of memory.
    ensures complete { IsComplete (request_of (texts_of words.now)) (S.left source.old) result log.new }

    ensures read_fault { result ≡ Status.ReadFault → Rose (S.faults source.old) (S.faults source.new) }
    ensures write_fault { result ≡ Status.WriteFault → Rose (K.faults sink.old) (K.faults sink.new) }

    // The words of no job, and no others, are bad words; and where nothing is to be read, nothing is.
    ensures no_others { result ≡ Status.BadWords → AsksForNothing (texts_of words.now) log.new }
    ensures bad_words { request_of (texts_of words.now) ≡ None
        → SaysBadWords (K.taken sink.old) (K.taken sink.new) result }
    ensures unread { ReadsNothing (request_of (texts_of words.now)) → source.new ≡ source.old }
{
    let (status, text) = reply_to(alloc, words, source, log);
    match write_whole(sink, text.bytes()) {
        Ok(()) => status,
        Err(WriteFailed) => Status::WriteFault,
    }
}

// What is written, and the status that goes with it: a job is done on the input, which is read for it.
fn reply_to<S: Source>(
    alloc: Global,
    words: &[String],
    source: &mut S,
    log: &mut RunLog,
) -> (Status, Text)
    requires { log.old ≡ [] }
    ensures answers { AnswersAll (S.left source.old) (texts_of words.now) (text_bytes result.1) result.0 log.new }
    ensures leaves { Leaves (texts_of words.now) (S.left source.old) (S.left source.new) result.0 }
    ensures fault { result.0 ≡ Status.ReadFault → Rose (S.faults source.old) (S.faults source.new) }
    ensures no_write_fault { result.0 ≢ Status.WriteFault }
    ensures bad_words { request_of (texts_of words.now) ≡ None → IsBadWords (text_bytes result.1) result.0 log.new }
    ensures unread { ReadsNothing (request_of (texts_of words.now)) → source.new ≡ source.old }
{
    let command = match read_words(words) {
        Some(command) => command,
        None => return (Status::BadWords, Text::Fixed("bad words\n")),
    };
    let job = match command {
        Command::OnInput(job) => job,
        Command::Workload(number, budget) => return run_workload(alloc, number.get(), budget, log),
    };
    match read_all(alloc, source, MAX_BYTES) {
        Ok(input) => do_on(alloc, job, &input, log),
        Err(end) => end_reply(end),
    }
}

// Does the job on an input.
fn do_on(alloc: Global, job: Job<'_>, input: &[u8], log: &mut RunLog) -> (Status, Text)
    requires small { length input.now ≤ 4294967293 }
    requires unlogged { log.old ≡ [] }
    ensures answers { AnswersRead (kept_job job.entry) input.now (text_bytes result.1) result.0 log.new }
    ensures no_fault { is_fault result.0 ≡ false }
{
    match job {
        Job::Check(query) => verify(alloc, query, input),
        Job::Audit(query) => verify_audit(alloc, query, input),
        Job::Decide(question, budget) => answer_to(alloc, &Decide { question, budget }, input, log),
        Job::Classify(budget) => answer_to(alloc, &Classify { budget }, input, log),
        Job::Realize(budget) => answer_to(alloc, &Realize { budget }, input, log),
        Job::Instances(class, budget) => answer_to(alloc, &Instances { class, budget }, input, log),
        Job::Why(class, budget) => answer_to(alloc, &Why { class, budget }, input, log),
        Job::Session(budget) => answer_script(alloc, budget, input, log),
        Job::Pinpoint(wanted, statement, budget) => {
            let job = Pinpoint {
                wanted,
                statement,
                budget,
            };
            answer_to(alloc, &job, input, log)
        }
        Job::Evidence(statement, budget) => {
            answer_to(alloc, &FindEvidence { statement, budget }, input, log)
        }
    }
}

// What is answered where the input is not read to its end.
fn end_reply(end: ReadEnd) -> (Status, Text)
    ensures { IsAnswer (end_answer end) (text_bytes result.1) result.0 }
{
    match end {
        ReadEnd::TooLong => (Status::Limit, Text::Fixed("limit text\n")),
        ReadEnd::Fault => (Status::ReadFault, Text::Fixed("read fault\n")),
        ReadEnd::NoMemory => (Status::NoMemory, Text::Fixed("no memory\n")),
    }
}
