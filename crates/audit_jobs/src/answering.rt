// From the question and the bytes of a document to the audit.
ghost use Rattle.std.specs.Prelude.{◌≡◌, true, [], IfOk, OnOk, OnErr, IsTrue};
ghost use Rattle.job_inputs.specs.Answer.{text_bytes};
ghost use Rattle.audit_check.specs.Written.{audit_text, audit_is_listed, IsKeptAudit};
ghost use Rattle.audit_jobs.specs.Witnessed.{IsWitnessed};
ghost use Rattle.audit_jobs.specs.Answers.{IsAuditText, IsWritten};

use crate::listing::audit_of;
use crate::searching::{Searched, search};
use audit_check::Audit;
use job_inputs::{Input, Job, Status, Text, Unread, WrittenQuestion, read_question_input};
use run_log::RunLog;
use shq_terms::{NoMemory, Ontology, Query};
use std::alloc::Global;

/// The job `evidence`: the audit of a statement on a document. It has all justifications, each with a refutation over
/// just these axioms, and all repairs, each with a model of the other axioms in which the statement does not hold.
///
/// `statement` is the text of a `SubClassOf` or a `ClassAssertion`, and `budget` the number of steps and nodes that the
/// search may take. Where it does not suffice, the text is `undecided`, and the run ends `Undecided`.
#[derive(Clone, Copy)]
pub struct FindEvidence<'a> {
    pub statement: &'a str,
    pub budget: u32,
}

impl<'a> Job for FindEvidence<'a> {
    ghost use Rattle.std.specs.Prelude.{◌≡◌, []};
    ghost use Rattle.audit_check.specs.Limits.{IsInLimit};
    ghost use Rattle.job_inputs.specs.Inputs.{IsInputOf, IsNoInputOf};
    ghost use Rattle.job_inputs.specs.Questions.{follows};
    ghost use Rattle.audit_jobs.specs.Witnessed.{HasAsked};
    ghost use Rattle.audit_jobs.specs.Answers.{IsEvidenceAnswer, AnswersEvidence};
    ghost use Rattle.audit_jobs.specs.EvidenceTold.{evidence_told};

    type Input = Input;

    type Log = RunLog;

    ghost is_input = { λ job bytes i. IsInputOf (follows job.statement.now) bytes i };

    ghost is_unread = { λ job bytes u. IsNoInputOf (follows job.statement.now) bytes u };

    ghost can_answer = { λ job i. IsInLimit i.ontology i.query };

    ghost is_unlogged = { λ log. log ≡ [] };

    ghost answers = { λ job i log s out. IsEvidenceAnswer i.ontology i.query job.budget log s out };

    ghost begins = { λ job i log. HasAsked i.ontology i.query job.budget log };

    ghost tells = { λ job bytes out s log. AnswersEvidence job.statement.now job.budget bytes out s log };

    ghost told = { λ job bytes out s log h. evidence_told job.statement.now job.budget bytes out log s h };

    fn read(&self, alloc: Global, bytes: &[u8]) -> Result<Input, Unread> {
        read_question_input(alloc, WrittenQuestion::Follows(self.statement), bytes)
    }

    fn answer(
        &self,
        alloc: Global,
        input: &Input,
        log: &mut RunLog,
    ) -> Result<(Status, Text), NoMemory> {
        let mut searched = search(alloc, &input.ontology, &input.query, self.budget, log)?;
        let outcome = answer_of(alloc, &input.ontology, &input.query, &mut searched);
        drop(searched);
        outcome
    }
}

// The text of what was found, and how the run ends. That the budget was spent is told without memory.
fn answer_of(
    alloc: Global,
    ontology: &Ontology,
    query: &Query,
    searched: &mut Searched,
) -> Result<(Status, Text), NoMemory>
    requires { IsWitnessed ontology.now query.now searched.old.found searched.old.evidence.refutations.items
        searched.old.evidence.models.items }
    ensures written { IfOk result
        (λ a. IsWritten ontology.now query.now searched.old.found.finished a.0 (text_bytes a.1)) }
    ensures refused { OnErr result (searched.old.found.finished ≡ true) }
{
    if !searched.found.finished {
        return Ok((Status::Undecided, Text::Fixed("undecided\n")));
    }
    let text = text_of(alloc, ontology, query, searched)?;
    Ok((Status::Done, text))
}

// The text of the audit of a search that was finished.
fn text_of(
    alloc: Global,
    ontology: &Ontology,
    query: &Query,
    searched: &mut Searched,
) -> Result<Text, NoMemory>
    requires finished { searched.old.found.finished ≡ true }
    requires witnessed { IsWitnessed ontology.now query.now searched.old.found searched.old.evidence.refutations.items
        searched.old.evidence.models.items }
    ensures { IfOk result (λ text. IsAuditText ontology.now query.now (text_bytes text)) }
{
    let _query = query;
    let audit = audit_of(alloc, &searched.found, &mut searched.evidence)?;
    let text = written(alloc, ontology, &audit);
    drop(audit);
    text
}

// The text of an audit.
fn written(alloc: Global, ontology: &Ontology, audit: &Audit) -> Result<Text, NoMemory>
    requires { IsTrue (audit_is_listed ontology.now audit.now) }
    ensures text { IfOk result (λ text. text_bytes text ≡ audit_text ontology.now audit.now) }
    ensures kept { OnOk result (IsKeptAudit ontology.now audit.now) }
{
    let mut out = Vec::new(alloc);
    audit.text(alloc, &mut out, ontology)?;
    Ok(Text::Bytes(out))
}
