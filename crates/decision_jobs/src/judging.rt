// The verdict on a certificate.
ghost use Rattle.std.specs.Prelude.{◌≡◌, ◌≤◌, IfOk, length};
ghost use Rattle.shq_oracle.specs.Limits.{IsInLimit};
ghost use Rattle.refutation_tree.specs.ReadBack.{IsWritable};
ghost use Rattle.finite_model.specs.ModelLists.{meaning};
ghost use Rattle.decision_jobs.specs.Checking.{CanBeJudged, IsVerdict, IsOfModel, IsOfRefutation, first_unmet};
ghost use Rattle.decision_jobs.specs.Checking.{line_of_place, verdict_of};

use crate::certificate::Certificate;
use crate::checking::Input;
use axiom_sets::AxiomSet;
use finite_model::Interp;
use job_inputs::Verdict;
use refutation_tree::Refutation;
use shq_oracle::check;
use shq_terms::{NoMemory, Ontology, Query};
use std::alloc::Global;

/// Judges the certificate.
///
/// # Errors
///
/// Out of memory.
pub(crate) fn judge(alloc: Global, input: &Input) -> Result<Verdict, NoMemory>
    requires { CanBeJudged input.now }
    ensures { IfOk result (IsVerdict input.now) }
{
    match &input.certificate {
        Certificate::Model(model) => Ok(judge_model(model, &input.ontology, &input.asked)),
        Certificate::Refutation(refutation) => {
            judge_refutation(alloc, refutation, &input.ontology, &input.asked)
        }
    }
}

fn judge_model(model: &Interp, ontology: &Ontology, asked: &Query) -> Verdict
    ensures { IsOfModel ontology.now asked.now model.now result }
{
    if let Some(number) = first_unmet(model, ontology) {
        return Verdict::Axiom(number);
    }
    let _elements = model.size();
    match model.refutes(asked) {
        Some(_) => Verdict::NotEntailed,
        None => Verdict::Query,
    }
}

/// The number of the first axiom that the model does not meet.
fn first_unmet(model: &Interp, ontology: &Ontology) -> Option<u32>
    ensures { result ≡ first_unmet (meaning model.now) 1 ontology.now.axioms }
{
    for index in 0..ontology.axiom_count() {
        if !model.meets(&ontology.axiom(index + 1).axiom) {
            return Some(index + 1);
        }
    }
    None
}

// A refutation that was read names axioms of the document, and so its place is that of a line.
fn judge_refutation(
    alloc: Global,
    refutation: &Refutation,
    ontology: &Ontology,
    asked: &Query,
) -> Result<Verdict, NoMemory>
    requires within { IsInLimit ontology.now asked.now }
    requires writable { IsWritable ontology.now refutation.now }
    requires lines { length refutation.now.lines ≤ 4294967293 }
    ensures { IfOk result (IsOfRefutation ontology.now asked.now refutation.now) }
{
    let all = AxiomSet::full(alloc, ontology.axiom_count())?;
    let verdict = check(alloc, ontology, &all, asked, refutation)?;
    Ok(verdict_of(refutation, verdict))
}

// The verdict on a certificate that is a refutation, from the checker's.
fn verdict_of(refutation: &Refutation, verdict: shq_oracle::Verdict) -> Verdict
    ensures { result ≡ verdict_of refutation.now verdict }
{
    match verdict {
        shq_oracle::Verdict::Accepted => Verdict::Entailed,
        shq_oracle::Verdict::Rejected(place) => { Verdict::Line(line_of_place(refutation, place)) }
    }
}

// The number of the line of the certificate on which the rule line of this place stands.
fn line_of_place(refutation: &Refutation, place: u32) -> u64
    ensures { result ≡ line_of_place refutation.now place }
{
    3 + u64::from(refutation.shape_count()) + u64::from(place)
}
