// The decision on a query, and its text.
ghost use Rattle.std.specs.Prelude.{◌≡◌, ◌≤◌, [], ◌++◌, IfOk, OnOk, OnErr, IsTrue};
ghost use Rattle.job_inputs.specs.Limits.{IsInLimit};
ghost use Rattle.finite_model.specs.ReadBack.{IsKept};
ghost use Rattle.finite_model.specs.Written.{model_text, uses_listed_names};
ghost use Rattle.refutation_tree.specs.Written.{refutation_text, names_are_listed};
ghost use Rattle.job_inputs.specs.Answer.{line, text_bytes};
ghost use Rattle.job_inputs.specs.Questions.{question_text};
ghost use Rattle.decision_jobs.specs.Decisions.{entailed_line, not_entailed_line, decision_text, decision_status};
ghost use Rattle.decision_jobs.specs.Decisions.{IsLogged};
ghost use Rattle.decision_jobs.specs.Deciding.{IsDecision, CanBeWritten, HasVerdict, IsKeptModel};

use axiom_sets::AxiomSet;
use finite_model::Interp;
use job_inputs::{Status, Text, WrittenQuestion};
use refutation_tree::Refutation;
use shq_oracle::{Answer, Oracle, RunLog};
use shq_terms::{NoMemory, Ontology, Query};
use std::alloc::Global;
use std::mem;

/// Whether the query follows from all axioms, within a budget of steps, and why.
///
/// # Errors
///
/// Out of memory. The log is empty then.
pub(crate) fn decide(
    alloc: Global,
    ontology: &Ontology,
    query: &Query,
    budget: u32,
    log: &mut RunLog,
) -> Result<Answer, NoMemory>
    requires in_limit { IsInLimit ontology.now query.now }
    requires unlogged { log.old ≡ [] }
    ensures decision { IfOk result (IsDecision ontology.now query.now) }
    ensures logged { IfOk result (λ d. IsLogged ontology.now query.now budget d log.new) }
    ensures unlogged { OnErr result (log.new ≡ []) }
{
    let all = AxiomSet::full(alloc, ontology.axiom_count())?;
    let begun = mem::replace(log, RunLog::new(alloc));
    let mut oracle = Oracle::new(alloc, ontology, budget, begun);
    let outcome = oracle.decide(&all, query);
    *log = oracle.into_log();
    outcome
}

/// How a run ends that decides so.
pub(crate) fn status_of(decision: &Answer) -> Status
    ensures { result ≡ decision_status decision.now }
{
    match decision {
        Answer::Entailed(_) | Answer::NotEntailed(_) => Status::Done,
        Answer::Undecided => Status::Undecided,
    }
}

/// The text of a decision.
///
/// # Errors
///
/// Out of memory. The query was decided then: that the budget was spent is told without memory.
pub(crate) fn text_of(
    alloc: Global,
    question: WrittenQuestion<'_>,
    ontology: &Ontology,
    decision: &Answer,
) -> Result<Text, NoMemory>
    requires { CanBeWritten ontology.now decision.now }
    ensures text { IfOk result
        (λ text. text_bytes text ≡ decision_text ontology.now (question_text question.entry) decision.now) }
    ensures kept { OnOk result (IsKeptModel ontology.now decision.now) }
    ensures refused { OnErr result (HasVerdict decision.now) }
{
    match decision {
        Answer::Entailed(refutation) => {
            yes_text(alloc, entailed_line(question), ontology, refutation)
        }
        Answer::NotEntailed(model) => no_text(alloc, not_entailed_line(question), ontology, model),
        Answer::Undecided => Ok(Text::Fixed("undecided\n")),
    }
}

// A line, and the refutation.
fn yes_text(
    alloc: Global,
    verdict: &str,
    ontology: &Ontology,
    refutation: &Refutation,
) -> Result<Text, NoMemory>
    requires { IsTrue (names_are_listed ontology.now refutation.now) }
    ensures { IfOk result
        (λ text. text_bytes text ≡ line verdict.now ++ refutation_text ontology.now refutation.now) }
{
    let mut out = Vec::new(alloc);
    push_line(&mut out, verdict)?;
    refutation.text(alloc, &mut out, ontology)?;
    Ok(Text::Bytes(out))
}

// A line, and the model.
fn no_text(
    alloc: Global,
    verdict: &str,
    ontology: &Ontology,
    model: &Interp,
) -> Result<Text, NoMemory>
    requires { IsTrue (uses_listed_names ontology.now model.now) }
    ensures text { IfOk result (λ text. text_bytes text ≡ line verdict.now ++ model_text ontology.now model.now) }
    ensures kept { OnOk result (IsKept ontology.now model.now) }
{
    let mut out = Vec::new(alloc);
    push_line(&mut out, verdict)?;
    model.text(alloc, &mut out, ontology)?;
    Ok(Text::Bytes(out))
}

// Appends a line.
fn push_line(out: &mut Vec<u8>, text: &str) -> Result<(), NoMemory>
    ensures { OnOk result (out.new.items ≡ out.old.items ++ line text.now) }
{
    out.extend_from_slice(text.as_bytes())?;
    out.push(b'\n')?;
    Ok(())
}

fn entailed_line(question: WrittenQuestion<'_>) -> &'static str
    ensures { result.now ≡ entailed_line (question_text question.entry) }
{
    match question {
        WrittenQuestion::HasElement(_) => "unsatisfiable",
        WrittenQuestion::Follows(_) => "entailed",
    }
}

fn not_entailed_line(question: WrittenQuestion<'_>) -> &'static str
    ensures { result.now ≡ not_entailed_line (question_text question.entry) }
{
    match question {
        WrittenQuestion::HasElement(_) => "satisfiable",
        WrittenQuestion::Follows(_) => "not entailed",
    }
}
