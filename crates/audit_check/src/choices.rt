// The numbers by which a node of the search may grow.

ghost use Rattle.std.specs.Prelude.{◌≡◌, ◌≤◌, IfOk, OnOk};
ghost use Rattle.std.specs.List.{All, Contains};
ghost use Rattle.axiom_sets.specs.Sets.{IsWithin};
ghost use Rattle.pinpointing_specs.specs.Smallest.{AreApart};
ghost use Rattle.audit_check.specs.Territory.{AreCandidates, AreChoices, AreShared, LeavesFree, KeepsShared};
ghost use Rattle.audit_check.specs.Territory.{KeepsCommon};

use axiom_sets::AxiomSet;
use shq_terms::NoMemory;
use std::alloc::Global;

/// The numbers up to the limit, without the barred ones, with which each member is still hit alone.
pub(crate) fn candidates_at(
    alloc: Global,
    sets: &[AxiomSet],
    hit: &AxiomSet,
    barred: &AxiomSet,
) -> Result<AxiomSet, NoMemory>
    requires limits { All (λ s. s.limit ≡ hit.now.limit) sets.now }
    requires barred_limit { barred.now.limit ≡ hit.now.limit }
    ensures limit { IfOk result (λ s. s.limit ≡ hit.now.limit) }
    ensures members { IfOk result (λ s. AreCandidates sets.now hit.now barred.now s.members) }
    ensures within { IsWithin hit.now.limit hit.now.members }
{
    let mut candidates = AxiomSet::full(alloc, hit.limit())?;
    candidates.take_all(barred);
    for number in hit.numbers() {
        drop_blocked(&mut candidates, sets, hit, number)?;
    }
    Ok(candidates)
}

/// The candidates of a set that is not met: the members by which the hit set may grow to meet it.
pub(crate) fn choices(
    sets: &[AxiomSet],
    unmet: &AxiomSet,
    hit: &AxiomSet,
    barred: &AxiomSet,
    candidates: &AxiomSet,
) -> Result<AxiomSet, NoMemory>
    requires listed { Contains sets.now unmet.now }
    requires unmet_limit { unmet.now.limit ≡ hit.now.limit }
    requires candidate_limit { candidates.now.limit ≡ hit.now.limit }
    requires apart { AreApart unmet.now.members hit.now.members }
    requires candidates { AreCandidates sets.now hit.now barred.now candidates.now.members }
    ensures limit { IfOk result (λ s. s.limit ≡ hit.now.limit) }
    ensures members { IfOk result (λ s. AreChoices sets.now unmet.now hit.now barred.now s.members) }
{
    let _limit = unmet.limit();
    let mut fitting = unmet.try_clone()?;
    keep_common(&mut fitting, candidates)?;
    Ok(fitting)
}

/// Takes the numbers out that are in each set which has this member of the hit set alone.
fn drop_blocked(
    fitting: &mut AxiomSet,
    sets: &[AxiomSet],
    hit: &AxiomSet,
    number: u32,
) -> Result<(), NoMemory>
    requires limits { All (λ s. s.limit ≡ hit.now.limit) sets.now }
    requires fitting_limit { fitting.old.limit ≡ hit.now.limit }
    requires low { 1 ≤ number }
    requires high { number ≤ hit.now.limit }
    ensures limit { fitting.new.limit ≡ fitting.old.limit }
    ensures members { OnOk result (LeavesFree sets.now hit.now number fitting.old.members fitting.new.members) }
{
    let mut others = hit.try_clone()?;
    others.take(number);
    let blocked = shared_by(sets, fitting, &others, number)?;
    fitting.take_all(&blocked);
    Ok(())
}

/// The numbers that are in each set which has the number and none of the others.
fn shared_by(
    sets: &[AxiomSet],
    fitting: &AxiomSet,
    others: &AxiomSet,
    number: u32,
) -> Result<AxiomSet, NoMemory>
    requires limits { All (λ s. s.limit ≡ others.now.limit) sets.now }
    requires fitting_limit { fitting.now.limit ≡ others.now.limit }
    requires low { 1 ≤ number }
    requires high { number ≤ others.now.limit }
    ensures limit { IfOk result (λ s. s.limit ≡ fitting.now.limit) }
    ensures members { IfOk result (λ s. AreShared sets.now others.now.members number fitting.now.members s.members) }
{
    let mut blocked = fitting.try_clone()?;
    for place in 0..sets.len() {
        keep_shared(&mut blocked, &sets[place], others, number)?;
    }
    Ok(blocked)
}

/// Keeps the numbers of the set alone, where it has the number and none of the others.
fn keep_shared(
    blocked: &mut AxiomSet,
    set: &AxiomSet,
    others: &AxiomSet,
    number: u32,
) -> Result<(), NoMemory>
    requires limit { set.now.limit ≡ others.now.limit }
    requires blocked_limit { blocked.old.limit ≡ others.now.limit }
    requires low { 1 ≤ number }
    requires high { number ≤ others.now.limit }
    ensures limit { blocked.new.limit ≡ blocked.old.limit }
    ensures members { OnOk result
        (KeepsShared set.now others.now.members number blocked.old.members blocked.new.members) }
{
    if set.has(number) && !set.meets(others) {
        keep_common(blocked, set)?;
    }
    Ok(())
}

/// Keeps the numbers that are in the other set too.
pub(crate) fn keep_common(one: &mut AxiomSet, other: &AxiomSet) -> Result<(), NoMemory>
    requires { other.now.limit ≡ one.old.limit }
    ensures limit { one.new.limit ≡ one.old.limit }
    ensures members { OnOk result (KeepsCommon other.now.members one.old.members one.new.members) }
{
    let mut lost = one.try_clone()?;
    lost.take_all(other);
    one.take_all(&lost);
    Ok(())
}
