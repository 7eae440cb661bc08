// Whether what an audit lists is shown.
ghost use Rattle.std.specs.Prelude.{◌≡◌, ◌<◌, ◌≤◌, ◌↔◌, IsTrue, IfOk, MatchOption, length};
ghost use Rattle.std.specs.List.{All};
ghost use Rattle.refutation_check.specs.Checkable.{IsCheckable};
ghost use Rattle.finite_model.specs.ModelLists.{meaning};
ghost use Rattle.audit_file.specs.AuditLists.{justified_sets};
ghost use Rattle.audit_file.specs.Fitting.{IsOfAxioms};
ghost use Rattle.audit_check.specs.Sound.{IsShown, meets_rest, IsCounterModel};
ghost use Rattle.audit_check.specs.Verdicts.{JustificationHolds, RepairHolds, JustificationsHold, RepairsHold};
ghost use Rattle.audit_check.specs.Verdicts.{FailsFirst};

use crate::listed::contains_another;
use audit_file::{Justification, Repair};
use axiom_sets::AxiomSet;
use finite_model::Interp;
use refutation_check::{Verdict, check};
use shq_terms::{NoMemory, Ontology, Query};
use std::alloc::Global;

/// The first place at which a justification contains another one, or its refutation is not valid.
pub(crate) fn first_failing_justification(
    alloc: Global,
    ontology: &Ontology,
    query: &Query,
    list: &[Justification],
    sets: &[AxiomSet],
) -> Result<Option<usize>, NoMemory>
    requires sets { sets.now ≡ justified_sets list.now }
    requires of_axioms { All (λ j. IsOfAxioms ontology.now j.set) list.now }
    requires checkable { IsCheckable ontology.now query.now }
    requires lines { All (λ j. length j.refutation.lines ≤ 4294967293) list.now }
    ensures { IfOk result (λ p. MatchOption p
        (JustificationsHold ontology.now query.now list.now (length list.now))
        (FailsFirst (JustificationHolds ontology.now query.now list.now) (length list.now))) }
{
    for place in 0..list.len() {
        let holds = justification_holds(alloc, ontology, query, list, sets, place)?;
        if !holds {
            return Ok(Some(place));
        }
    }
    Ok(None)
}

fn justification_holds(
    alloc: Global,
    ontology: &Ontology,
    query: &Query,
    list: &[Justification],
    sets: &[AxiomSet],
    place: usize,
) -> Result<bool, NoMemory>
    requires place { place < length list.now }
    requires sets { sets.now ≡ justified_sets list.now }
    requires of_axioms { All (λ j. IsOfAxioms ontology.now j.set) list.now }
    requires checkable { IsCheckable ontology.now query.now }
    requires lines { All (λ j. length j.refutation.lines ≤ 4294967293) list.now }
    ensures { IfOk result (λ b. IsTrue b ↔ JustificationHolds ontology.now query.now list.now place) }
{
    if contains_another(sets, place) {
        return Ok(false);
    }
    is_shown(alloc, ontology, query, &list[place])
}

/// Whether the refutation is valid over the set.
#[tactic(auto, using(crate::proofs::Judged::accepted_shown, crate::proofs::Judged::rejected_not_shown))]
fn is_shown(
    alloc: Global,
    ontology: &Ontology,
    query: &Query,
    justification: &Justification,
) -> Result<bool, NoMemory>
    requires of_axioms { IsOfAxioms ontology.now justification.now.set }
    requires checkable { IsCheckable ontology.now query.now }
    requires lines { length justification.now.refutation.lines ≤ 4294967293 }
    ensures { IfOk result (λ b. IsTrue b ↔ IsShown ontology.now query.now justification.now) }
{
    let Justification { set, refutation } = justification;
    match check(alloc, ontology, set, query, refutation)? {
        Verdict::Accepted => Ok(true),
        Verdict::Rejected(_) => Ok(false),
    }
}

/// The first place at which a repair's model misses an axiom outside of it, or does not refute the query.
pub(crate) fn first_failing_repair(
    ontology: &Ontology,
    query: &Query,
    list: &[Repair],
) -> Option<usize>
    requires { All (λ r. IsOfAxioms ontology.now r.set) list.now }
    ensures { MatchOption result
        (RepairsHold ontology.now.axioms query.now list.now (length list.now))
        (FailsFirst (RepairHolds ontology.now.axioms query.now list.now) (length list.now)) }
{
    for place in 0..list.len() {
        if !repair_holds(ontology, query, list, place) {
            return Some(place);
        }
    }
    None
}

#[tactic(auto, using(crate::proofs::Places::repair_holds_if))]
fn repair_holds(ontology: &Ontology, query: &Query, list: &[Repair], place: usize) -> bool
    requires place { place < length list.now }
    requires of_axioms { All (λ r. IsOfAxioms ontology.now r.set) list.now }
    ensures { IsTrue result ↔ RepairHolds ontology.now.axioms query.now list.now place }
{
    is_counter_model(ontology, query, &list[place])
}

/// Whether the model meets the axioms outside of the set, and refutes the query.
fn is_counter_model(ontology: &Ontology, query: &Query, repair: &Repair) -> bool
    requires { IsOfAxioms ontology.now repair.now.set }
    ensures { IsTrue result ↔ IsCounterModel ontology.now.axioms query.now repair.now }
{
    let Repair { set, model } = repair;
    prove!(model.size() >= 1);
    meets_rest(model, set, ontology) && model.refutes(query).is_some()
}

fn meets_rest(model: &Interp, set: &AxiomSet, ontology: &Ontology) -> bool
    requires { IsOfAxioms ontology.now set.now }
    ensures { result ≡ meets_rest (meaning model.now) 1 set.now.members ontology.now.axioms }
{
    for index in 0..ontology.axiom_count() {
        if !set.has(index + 1) && !model.meets(&ontology.axiom(index + 1).axiom) {
            return false;
        }
    }
    true
}
