// The verdict on an audit.
ghost use Rattle.std.specs.Prelude.{◌≡◌, ◌≤◌, ◌↔◌, IsTrue, IfOk, length};
ghost use Rattle.std.specs.List.{All};
ghost use Rattle.refutation_check.specs.Checkable.{IsCheckable};
ghost use Rattle.axiom_sets.specs.Sets.{IsWithin};
ghost use Rattle.audit_check.specs.Transversals.{AreTransversals};
ghost use Rattle.audit_file.specs.AuditLists.{justified_sets, repaired_sets, IsOrdered};
ghost use Rattle.audit_file.specs.Fitting.{AreOfAxioms};
ghost use Rattle.audit_check.specs.Sound.{ListsAll};
ghost use Rattle.audit_check.specs.Verdicts.{JustificationsHold, IsVerdict};
ghost use Rattle.audit_check.specs.declared.verdict.AuditVerdict.TheVariants as verdict;

use crate::listed::are_transversals;
use crate::lists::{justified_sets, repaired_sets};
use crate::shown::{first_failing_justification, first_failing_repair};
use audit_file::Audit;
use axiom_sets::AxiomSet;
use certificate_lines::clamped_line;
use shq_terms::{NoMemory, Ontology, Query};
use std::alloc::Global;

/// What is said of an audit. A place above 4,294,967,295 is told as 4,294,967,295.
#[derive(Clone, Copy, Debug, PartialEq, Eq)]
pub enum AuditVerdict {
    /// It is sound, and so its lists are exactly all justifications and all repairs.
    Accepted,
    /// The first justification, from 1, that contains another one, or whose refutation is not valid over its set.
    Justification(u32),
    /// The first repair, from 1, whose model misses an axiom outside of it, or does not refute the query.
    Repair(u32),
    /// The repairs are not the smallest sets that meet each justification.
    Transversal,
}

/// Whether an audit is sound for an ontology and a query, else at which place it fails first. Justifications come
/// before repairs, and both before the question whether the two lists fit each other.
///
/// # Errors
///
/// Out of memory.
#[tactic(auto, using(crate::proofs::Accepted::ordered_both))]
pub fn verify(
    alloc: Global,
    ontology: &Ontology,
    query: &Query,
    audit: &Audit,
) -> Result<AuditVerdict, NoMemory>
    requires of_axioms { AreOfAxioms ontology.now audit.now }
    requires checkable { IsCheckable ontology.now query.now }
    requires lines { All (λ j. length j.refutation.lines ≤ 4294967293) audit.now.justifications }
    ensures verdict { IfOk result (IsVerdict ontology.now query.now audit.now) }
    ensures all { IfOk result (λ v. v ≡ verdict.Accepted → ListsAll ontology.now query.now audit.now) }
    ensures ordered { IsOrdered audit.now.justifications audit.now.repairs }
{
    let _repairs = audit.repairs();
    let sets = justified_sets(alloc, audit.justifications())?;
    match first_failing_justification(alloc, ontology, query, audit.justifications(), &sets)? {
        Some(place) => Ok(AuditVerdict::Justification(clamped_line(place + 1))),
        None => verify_repairs(alloc, ontology, query, audit, &sets),
    }
}

// The verdict on an audit each of whose justifications holds.
#[tactic(auto, using(crate::proofs::Accepted::sound_from, crate::proofs::Complete::lists_all))]
fn verify_repairs(
    alloc: Global,
    ontology: &Ontology,
    query: &Query,
    audit: &Audit,
    sets: &[AxiomSet],
) -> Result<AuditVerdict, NoMemory>
    requires of_axioms { AreOfAxioms ontology.now audit.now }
    requires sets { sets.now ≡ justified_sets audit.now.justifications }
    requires within { All (λ s. IsWithin s.limit s.members) sets.now }
    requires hold { JustificationsHold ontology.now query.now audit.now.justifications
        (length audit.now.justifications) }
    ensures verdict { IfOk result (IsVerdict ontology.now query.now audit.now) }
    ensures all { IfOk result (λ v. v ≡ verdict.Accepted → ListsAll ontology.now query.now audit.now) }
{
    if let Some(place) = first_failing_repair(ontology, query, audit.repairs()) {
        return Ok(AuditVerdict::Repair(clamped_line(place + 1)));
    }
    let fits = do_lists_fit(alloc, sets, ontology.axiom_count(), audit)?;
    if fits {
        Ok(AuditVerdict::Accepted)
    } else {
        Ok(AuditVerdict::Transversal)
    }
}

// Whether the repairs are the smallest sets that meet each of the sets.
fn do_lists_fit(
    alloc: Global,
    sets: &[AxiomSet],
    limit: u32,
    audit: &Audit,
) -> Result<bool, NoMemory>
    requires { All (λ s. s.limit ≡ limit) sets.now }
    ensures { IfOk result (λ b. IsTrue b ↔ AreTransversals limit sets.now (repaired_sets audit.now.repairs)) }
{
    let repairs = repaired_sets(alloc, audit.repairs())?;
    are_transversals(alloc, sets, limit, &repairs)
}
