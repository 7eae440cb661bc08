// The sets of an audit's lists, by themselves.
ghost use Rattle.std.specs.Prelude.{◌≡◌, ◌++◌, ◌∷◌, [], IfOk, OnOk};
ghost use Rattle.std.specs.List.{All};
ghost use Rattle.axiom_sets.specs.Sets.{IsWithin};
ghost use Rattle.audit_file.specs.AuditLists.{justified_sets, repaired_sets};

use audit_file::{Justification, Repair};
use axiom_sets::AxiomSet;
use shq_terms::NoMemory;
use std::alloc::Global;

pub(crate) fn justified_sets(
    alloc: Global,
    justifications: &[Justification],
) -> Result<Vec<AxiomSet>, NoMemory>
    ensures sets { IfOk result (λ v. v.items ≡ justified_sets justifications.now) }
    ensures within { IfOk result (λ v. All (λ s. IsWithin s.limit s.members) v.items) }
{
    let mut sets = Vec::new(alloc);
    for justification in justifications {
        push_set(&mut sets, &justification.set)?;
    }
    Ok(sets)
}

pub(crate) fn repaired_sets(alloc: Global, repairs: &[Repair]) -> Result<Vec<AxiomSet>, NoMemory>
    ensures { IfOk result (λ v. v.items ≡ repaired_sets repairs.now) }
{
    let mut sets = Vec::new(alloc);
    for repair in repairs {
        push_set(&mut sets, &repair.set)?;
    }
    Ok(sets)
}

fn push_set(sets: &mut Vec<AxiomSet>, set: &AxiomSet) -> Result<(), NoMemory>
    ensures pushed { OnOk result (sets.new.items ≡ sets.old.items ++ set.now ∷ []) }
    ensures within { IsWithin set.now.limit set.now.members }
{
    let _limit = set.limit();
    sets.push(set.try_clone()?)?;
    Ok(())
}
