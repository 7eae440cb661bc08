// The program between a source and a sink.
ghost use Rattle.std.specs.Prelude.{◌≡◌, IfOk, OnErr};
ghost use Rattle.std.specs.Process.{exit_status};
ghost use Rattle.shq_io.specs.Causes.{Rose};
ghost use Rattle.ontology_jobs.specs.Words.{texts_of, request_of};
ghost use Rattle.ontology_jobs.specs.Answers.{ReadsNothing};
ghost use Rattle.ontology_jobs.specs.Status.TheVariants.{NoMemory, ReadFault, WriteFault};
ghost use Rattle.ontology_cli.specs.Exit.{exit_number, EndsBy};

use crate::exit::exit_code;
use ontology_jobs::{RunLog, Status, run};
use shq_io::{Sink, Source};
use std::alloc::{AllocError, Global};
use std::process::ExitCode;

/// Does what the words ask for, and answers how the program ends: with the number of the run's status. It is that of a
/// fault only where the count of faults rose, and words that ask for no read make none. Where there was no memory for
/// the words, nothing is read or written, and the program ends as a run that is out of memory.
pub(crate) fn program<S: Source, K: Sink>(
    alloc: Global,
    words: Result<Vec<String>, AllocError>,
    source: &mut S,
    sink: &mut K,
) -> ExitCode
    ensures ends { IfOk words
        (λ w. EndsBy (S.left source.old) (S.left source.new) (K.taken sink.old) (K.taken sink.new) (texts_of w.items)
        (exit_status result)) }
    ensures read_fault { exit_status result ≡ exit_number ReadFault → Rose (S.faults source.old) (S.faults source.new) }
    ensures write_fault { exit_status result ≡ exit_number WriteFault → Rose (K.faults sink.old) (K.faults sink.new) }
    ensures idle { IfOk words (λ w. ReadsNothing (request_of (texts_of w.items)) → source.new ≡ source.old) }
    ensures no_words { OnErr words (exit_status result ≡ exit_number NoMemory) }
    ensures unread { OnErr words (source.new ≡ source.old) }
    ensures unwritten { OnErr words (sink.new ≡ sink.old) }
{
    match words {
        Ok(words) => end_of(alloc, &words, source, sink),
        Err(AllocError) => exit_code(Status::NoMemory),
    }
}

// How the program ends that runs the words, with a log of its own.
fn end_of<S: Source, K: Sink>(
    alloc: Global,
    words: &[String],
    source: &mut S,
    sink: &mut K,
) -> ExitCode
    ensures ends { EndsBy (S.left source.old) (S.left source.new) (K.taken sink.old) (K.taken sink.new)
        (texts_of words.now) (exit_status result) }
    ensures read_fault { exit_status result ≡ exit_number ReadFault → Rose (S.faults source.old) (S.faults source.new) }
    ensures write_fault { exit_status result ≡ exit_number WriteFault → Rose (K.faults sink.old) (K.faults sink.new) }
    ensures idle { ReadsNothing (request_of (texts_of words.now)) → source.new ≡ source.old }
{
    let mut log = RunLog::new(alloc);
    let status = run(alloc, words, source, sink, &mut log);
    exit_code(status)
}
