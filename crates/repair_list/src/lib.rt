//! Repairs: the smallest sets whose removal leaves no yes-set.
//!
//! A hitting-set tree ends in leaves whose rests are no yes-sets, but not every leaf is a smallest one (the remark of
//! Russell Greiner, Barbara Smith and Ralph Wilkerson on Reiter's algorithm, Artificial Intelligence 41, 1989). A leaf
//! is one exactly where each of its members is the only one that it shares with some listed yes-set; that is told from
//! the two lists, without an ask.
#![tactic(auto)]

ghost use Rattle.std.specs.Prelude.{◌≡◌, ◌≤◌, ◌↔◌, ◌++◌, IfOk, OnOk, IsTrue};
ghost use Rattle.std.specs.List.{All};
ghost use Rattle.pinpointing_specs.specs.Smallest.{IsHitAlone};
ghost use Rattle.pinpointing_specs.specs.Order.{IsAscending};
ghost use Rattle.hitting_set_tree.specs.InOrder.{HaveOneLimit};
ghost use Rattle.repair_list.specs.Alone.{AreRepairs, FinishedRepairsAreAll, IsRepairAdded, NeedsAlone, HasAlone};
ghost use Rattle.repair_list.specs.Alone.{HitsBeside};

use axiom_sets::AxiomSet;
pub use hitting_set_tree::{Found, enumerate};
use hitting_set_tree::{Entail, put_in_order};
use lane_sieve::NoMemory;
use std::alloc::Global;

/// The leaves in which each member is hit alone, in the order of sets, each once. Where the lists were finished, these
/// are exactly the smallest sets whose removal leaves no yes-set, by [`finished_repairs_are_all`].
///
/// # Errors
/// Out of memory.
pub fn repairs(alloc: Global, found: &Found) -> Result<Vec<AxiomSet>, NoMemory>
    requires { HaveOneLimit (found.now.justifications.items ++ found.now.leaves.items) }
    ensures order { IfOk result (λ v. IsAscending v.items) }
    ensures repairs { IfOk result (λ v. AreRepairs found.now.justifications.items found.now.leaves.items v.items) }
{
    let mut list = Vec::new(alloc);
    for place in 0..found.leaves.len() {
        add_repair(&mut list, &found.justifications, &found.leaves[place])?;
    }
    Ok(list)
}

/// The repairs of finished lists of an object are exactly the smallest sets whose removal leaves no yes-set.
pub fn finished_repairs_are_all<E: Entail>(_entail: &E)
    ensures { FinishedRepairsAreAll (E.meaning _entail.now) }
{}

/// Puts a leaf into the ascending list if each of its members is hit alone.
fn add_repair(
    list: &mut Vec<AxiomSet>,
    justifications: &[AxiomSet],
    leaf: &AxiomSet,
) -> Result<(), NoMemory>
    requires limits { All (λ s. s.limit ≡ leaf.now.limit) justifications.now }
    requires list_limits { All (λ s. s.limit ≡ leaf.now.limit) list.old.items }
    requires order { IsAscending list.old.items }
    ensures order { OnOk result (IsAscending list.new.items) }
    ensures added { OnOk result (IsRepairAdded justifications.now list.old.items leaf.now list.new.items) }
{
    let alone = is_hit_alone(justifications, leaf)?;
    if !alone {
        return Ok(());
    }
    put_in_order(list, leaf.try_clone()?)?;
    Ok(())
}

/// Whether each member of the set is hit alone by some listed set.
fn is_hit_alone(justifications: &[AxiomSet], set: &AxiomSet) -> Result<bool, NoMemory>
    requires { All (λ s. s.limit ≡ set.now.limit) justifications.now }
    ensures { IfOk result (λ b. IsTrue b ↔ IsHitAlone justifications.now set.now) }
{
    let limit = set.limit();
    for place in 0..limit {
        let fits = is_missing_or_alone(justifications, set, place + 1)?;
        if !fits {
            return Ok(false);
        }
    }
    Ok(true)
}

/// Whether the number is no member of the set, or is the only one that some listed set shares with it.
fn is_missing_or_alone(
    justifications: &[AxiomSet],
    set: &AxiomSet,
    number: u32,
) -> Result<bool, NoMemory>
    requires limits { All (λ s. s.limit ≡ set.now.limit) justifications.now }
    requires low { 1 ≤ number }
    requires high { number ≤ set.now.limit }
    ensures { IfOk result (λ b. IsTrue b ↔ NeedsAlone justifications.now set.now number) }
{
    if !set.has(number) {
        return Ok(true);
    }
    let mut others = set.try_clone()?;
    others.take(number);
    Ok(is_hit_beside(justifications, &others, number))
}

/// Whether some listed set has the number, and none of the others.
fn is_hit_beside(justifications: &[AxiomSet], others: &AxiomSet, number: u32) -> bool
    requires limits { All (λ s. s.limit ≡ others.now.limit) justifications.now }
    requires low { 1 ≤ number }
    requires high { number ≤ others.now.limit }
    ensures { IsTrue result ↔ HitsBeside justifications.now others.now.members number }
{
    for place in 0..justifications.len() {
        if has_alone(&justifications[place], others, number) {
            return true;
        }
    }
    false
}

/// Whether the set has the number, and none of the others.
fn has_alone(just: &AxiomSet, others: &AxiomSet, number: u32) -> bool
    requires limit { just.now.limit ≡ others.now.limit }
    requires low { 1 ≤ number }
    requires high { number ≤ others.now.limit }
    ensures { IsTrue result ↔ HasAlone just.now others.now.members number }
{
    if !just.has(number) {
        return false;
    }
    !just.meets(others)
}
