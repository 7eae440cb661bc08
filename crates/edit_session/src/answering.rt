// From a document with a script behind it to the answers.
ghost use Rattle.std.specs.Prelude.{◌≡◌, ◌≤◌, false, [], IfOk, IfErr, OnErr, length};
ghost use Rattle.certificate_lines.specs.Lines.{lines};
ghost use Rattle.job_inputs.specs.Limits.{IsOntologyInLimit};
ghost use Rattle.job_inputs.specs.Answer.{text_bytes, is_fault};
ghost use Rattle.edit_session.specs.Sessions.{begun};
ghost use Rattle.edit_session.specs.SessionLog.{IsSessionLog};
ghost use Rattle.edit_session.specs.Lines.{MayGoOn};
ghost use Rattle.edit_session.specs.Answers.{OnScript, LogsSoFar, AnswersSession};
ghost use Rattle.edit_session.specs.Answering.{end_status, AnswersLines, IsUnanswered};

use crate::{NoMemory, Said, Session, run_script};
use certificate_lines::lines;
use job_inputs::{Status, Text, Unread, document, unread_reply};
use ofn_reader::Context;
use shq_oracle::RunLog;
use shq_terms::Ontology;
use std::alloc::Global;

/// Answers the script that follows a document: how the run ends, and the answers, one line for each line of the script.
/// The log gets what was tested.
///
/// The script begins behind the last bracket of the document that the bytes begin with, and its lines are those of
/// [`Session::line`]; lines of whitespace alone are passed over. `budget` is the number of steps that all tests
/// together may make. Where it does not suffice for a query, the last line is `undecided`, and the run ends
/// `Undecided`. A document that is refused is answered by its refusal alone.
pub fn answer_script(alloc: Global, budget: u32, bytes: &[u8], log: &mut RunLog) -> (Status, Text)
    requires small { length bytes.now ≤ 4294967293 }
    requires unlogged { log.old ≡ [] }
    ensures answer { AnswersSession budget bytes.now (text_bytes result.1) result.0 log.new }
    ensures no_fault { is_fault result.0 ≡ false }
{
    match answered(alloc, budget, bytes, log) {
        Ok(answer) => answer,
        Err(unread) => unread_reply(alloc, unread),
    }
}

// The answers, unless the document is refused.
fn answered(
    alloc: Global,
    budget: u32,
    bytes: &[u8],
    log: &mut RunLog,
) -> Result<(Status, Text), Unread>
    requires small { length bytes.now ≤ 4294967293 }
    requires unlogged { log.old ≡ [] }
    ensures answer { IfOk result (λ a. OnScript (AnswersLines budget log.new a.0 (text_bytes a.1)) bytes.now) }
    ensures unread { IfErr result (IsUnanswered budget bytes.now log.new) }
{
    let (ontology, context, end) = document(alloc, bytes)?;
    let script = bytes.split_at(end).1;
    let answer = answered_on(alloc, ontology, context, script, budget, log)?;
    Ok(answer)
}

// The answers of a new session on a document to the lines of a text.
fn answered_on(
    alloc: Global,
    ontology: Ontology,
    context: Context,
    script: &[u8],
    budget: u32,
    log: &mut RunLog,
) -> Result<(Status, Text), NoMemory>
    requires in_limit { IsOntologyInLimit ontology }
    requires unlogged { log.old ≡ [] }
    ensures answer { IfOk result
        (λ a. AnswersLines budget log.new a.0 (text_bytes a.1) (begun ontology context) (lines script.now)) }
    ensures begun { OnErr result (LogsSoFar budget log.new (begun ontology context) (lines script.now)) }
{
    let mut session = Session::new(alloc, ontology, context)?;
    let outcome = answers_of(alloc, &mut session, script, budget, log);
    drop(session);
    outcome
}

// The answers of a session to the lines of a text.
fn answers_of(
    alloc: Global,
    session: &mut Session,
    script: &[u8],
    budget: u32,
    log: &mut RunLog,
) -> Result<(Status, Text), NoMemory>
    requires may_go_on { MayGoOn session.old budget log.old }
    requires honest { IsSessionLog session.old.state.ontology budget log.old }
    requires unlogged { log.old ≡ [] }
    ensures answer { IfOk result
        (λ a. AnswersLines budget log.new a.0 (text_bytes a.1) session.old.state (lines script.now)) }
    ensures begun { OnErr result (LogsSoFar budget log.new session.old.state (lines script.now)) }
{
    let lines = lines(alloc, script)?;
    let mut out = Vec::new(alloc);
    let said = run_script(session, &lines, budget, log, &mut out)?;
    Ok((end_status(said), Text::Bytes(out)))
}

// How a run ends whose script ended so.
fn end_status(said: Said) -> Status
    ensures { result ≡ end_status said }
{
    match said {
        Said::Answered => Status::Done,
        Said::Spent => Status::Undecided,
    }
}
