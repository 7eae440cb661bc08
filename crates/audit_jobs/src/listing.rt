// The audit of what a search found.
ghost use Rattle.std.specs.Prelude.{◌≡◌, [], true, IfOk, OnOk};
ghost use Rattle.std.specs.Result.{result_map_both};
ghost use Rattle.pinpointing_specs.specs.Order.{IsAscending};
ghost use Rattle.audit_check.specs.AuditLists.{last_justified, last_repaired, follows, with_repair};
ghost use Rattle.audit_jobs.specs.Kept.{HasRefutation, HasModel};
ghost use Rattle.audit_jobs.specs.Listed.{CanBeListed, IsAuditOf, HaveRefutations, HaveModels, outside};
ghost use Rattle.audit_jobs.specs.Listed.{PutsJustification, PutsRepair, ListsJustifications, ListsRepairs};

use crate::evidence::{CounterModel, Evidence};
use crate::taking::{take_model, take_refutation};
use audit_check::Audit;
use axiom_sets::AxiomSet;
use pinpointing_jobs::{Found, repairs};
use refutation_tree::Refutation;
use set_questions::rest_of;
use shq_terms::NoMemory;
use std::alloc::Global;

/// The audit that lists the justifications that a search found, and the repairs among its leaves, each with its
/// evidence, which is taken out of what was kept.
///
/// # Errors
///
/// Out of memory.
pub(crate) fn audit_of(
    alloc: Global,
    found: &Found,
    evidence: &mut Evidence,
) -> Result<Audit, NoMemory>
    requires { CanBeListed found.now evidence.old }
    ensures { IfOk result (IsAuditOf found.now evidence.old) }
{
    let repairs = repairs(alloc, found)?;
    audit_with(alloc, &found.justifications, &repairs, evidence)
}

// The audit of these lists.
fn audit_with(
    alloc: Global,
    justifications: &[AxiomSet],
    repairs: &[AxiomSet],
    evidence: &mut Evidence,
) -> Result<Audit, NoMemory>
    requires justified { IsAscending justifications.now }
    requires repaired { IsAscending repairs.now }
    requires refuted { HaveRefutations evidence.old.refutations.items justifications.now }
    requires modelled { HaveModels evidence.old.models.items repairs.now }
    ensures justifications { IfOk result
        (λ a. ListsJustifications justifications.now evidence.old.refutations.items a.justifications) }
    ensures repairs { IfOk result (λ a. ListsRepairs repairs.now evidence.old.models.items a.repairs) }
{
    let mut audit = Audit::new(alloc);
    let end = fill(alloc, &mut audit, justifications, repairs, evidence);
    audit_if(audit, end)
}

fn audit_if(audit: Audit, end: Result<(), NoMemory>) -> Result<Audit, NoMemory>
    ensures { result ≡ result_map_both (λ u. audit) (λ e. e) end }
{
    match end {
        Ok(()) => Ok(audit),
        Err(refused) => {
            drop(audit);
            Err(refused)
        }
    }
}

// Lists them in an audit that is empty.
fn fill(
    alloc: Global,
    audit: &mut Audit,
    justifications: &[AxiomSet],
    repairs: &[AxiomSet],
    evidence: &mut Evidence,
) -> Result<(), NoMemory>
    requires no_justifications { audit.old.justifications ≡ [] }
    requires no_repairs { audit.old.repairs ≡ [] }
    requires justified { IsAscending justifications.now }
    requires repaired { IsAscending repairs.now }
    requires refuted { HaveRefutations evidence.old.refutations.items justifications.now }
    requires modelled { HaveModels evidence.old.models.items repairs.now }
    ensures justifications { OnOk result
        (ListsJustifications justifications.now evidence.old.refutations.items audit.new.justifications) }
    ensures repairs { OnOk result (ListsRepairs repairs.now evidence.old.models.items audit.new.repairs) }
{
    put_justifications(audit, justifications, &mut evidence.refutations)?;
    put_repairs(alloc, audit, repairs, &mut evidence.models)
}

// ---- justifications

fn put_justifications(
    audit: &mut Audit,
    sets: &[AxiomSet],
    refutations: &mut Vec<Refutation>,
) -> Result<(), NoMemory>
    requires none { audit.old.justifications ≡ [] }
    requires order { IsAscending sets.now }
    requires refuted { HaveRefutations refutations.old.items sets.now }
    ensures listed { OnOk result (ListsJustifications sets.now refutations.old.items audit.new.justifications) }
    ensures repairs { OnOk result (audit.new.repairs ≡ audit.old.repairs) }
{
    for place in 0..sets.len() {
        put_justification(audit, &sets[place], refutations)?;
    }
    Ok(())
}

fn put_justification(
    audit: &mut Audit,
    set: &AxiomSet,
    refutations: &mut Vec<Refutation>,
) -> Result<(), NoMemory>
    requires after { follows (last_justified audit.old) set.now ≡ true }
    requires refuted { HasRefutation refutations.old.items set.now }
    ensures { OnOk result (PutsJustification set.now audit.old audit.new refutations.old.items refutations.new.items) }
{
    let set = set.try_clone()?;
    let refutation = take_refutation(refutations, &set);
    audit.put_justification(set, refutation)
}

// ---- repairs

fn put_repairs(
    alloc: Global,
    audit: &mut Audit,
    sets: &[AxiomSet],
    models: &mut Vec<CounterModel>,
) -> Result<(), NoMemory>
    requires none { audit.old.repairs ≡ [] }
    requires order { IsAscending sets.now }
    requires modelled { HaveModels models.old.items sets.now }
    ensures listed { OnOk result (ListsRepairs sets.now models.old.items audit.new.repairs) }
    ensures justifications { OnOk result (audit.new.justifications ≡ audit.old.justifications) }
{
    for place in 0..sets.len() {
        put_repair(alloc, audit, &sets[place], models)?;
    }
    Ok(())
}

fn put_repair(
    alloc: Global,
    audit: &mut Audit,
    set: &AxiomSet,
    models: &mut Vec<CounterModel>,
) -> Result<(), NoMemory>
    requires after { follows (last_repaired audit.old) set.now ≡ true }
    requires modelled { HasModel models.old.items (outside set.now) }
    ensures { OnOk result (PutsRepair set.now audit.old audit.new models.old.items models.new.items) }
{
    let rest = rest_of(alloc, set)?;
    let set = set.try_clone()?;
    let kept = take_model(models, &rest);
    put_model(audit, set, kept)
}

// Puts the set last with the model.
fn put_model(audit: &mut Audit, set: AxiomSet, kept: CounterModel) -> Result<(), NoMemory>
    requires { follows (last_repaired audit.old) set ≡ true }
    ensures { OnOk result (audit.new ≡ with_repair set kept.model audit.old) }
{
    let CounterModel { set: _, model } = kept;
    audit.put_repair(set, model)
}
