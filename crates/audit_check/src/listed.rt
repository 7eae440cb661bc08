// Two looks at lists of sets that were handed over.

ghost use Rattle.std.specs.Prelude.{◌≡◌, ◌<◌, ◌↔◌, IfOk, IsTrue, length, slice_index_or};
ghost use Rattle.std.specs.List.{All};
ghost use Rattle.lane_sieve.specs.Sets.{IsPart};
ghost use Rattle.pinpointing_specs.specs.Order.{IsAscending};
ghost use Rattle.audit_check.specs.Transversals.{AreTransversals};
ghost use Rattle.audit_check.specs.Listed.{ContainsAnother, ContainsAt};

use crate::search::put_transversals;
use axiom_sets::AxiomSet;
use shq_terms::NoMemory;
use std::alloc::Global;

/// Whether a list, in the order of sets, has exactly the smallest sets that meet each of the sets. The search ends as
/// soon as it has found more sets than are listed; until then it may go through branches in which there is none.
///
/// # Errors
/// Out of memory.
pub fn are_transversals(
    alloc: Global,
    sets: &[AxiomSet],
    limit: u32,
    list: &[AxiomSet],
) -> Result<bool, NoMemory>
    requires limits { All (λ s. s.limit ≡ limit) sets.now }
    requires order { IsAscending list.now }
    ensures { IfOk result (λ b. IsTrue b ↔ AreTransversals limit sets.now list.now) }
{
    let hit = AxiomSet::empty(alloc, limit)?;
    let barred = AxiomSet::empty(alloc, limit)?;
    let mut found = Vec::new(alloc);
    let within = put_transversals(alloc, sets, &hit, &barred, list.len(), &mut found)?;
    if !within {
        return Ok(false);
    }
    Ok(are_same(&found, list))
}

/// Whether two lists have equal sets, place by place.
fn are_same(found: &[AxiomSet], list: &[AxiomSet]) -> bool
    ensures { IsTrue result ↔ (found.now ≡ list.now) }
{
    if found.len() != list.len() {
        return false;
    }
    for place in 0..list.len() {
        if !is_equal(&found[place], &list[place]) {
            return false;
        }
    }
    true
}

/// Whether two sets are equal.
fn is_equal(one: &AxiomSet, other: &AxiomSet) -> bool
    ensures { IsTrue result ↔ (one.now ≡ other.now) }
{
    one == other
}

/// Whether the set at a place contains one at another place.
pub fn contains_another(sets: &[AxiomSet], place: usize) -> bool
    requires place { place < length sets.now }
    requires limits { All (λ s. s.limit ≡ (slice_index_or sets.now place s).limit) sets.now }
    ensures { IsTrue result ↔ ContainsAnother sets.now place }
{
    for other in 0..sets.len() {
        if contains_at(sets, place, other) {
            return true;
        }
    }
    false
}

/// Whether the set at a place contains the one at another place.
fn contains_at(sets: &[AxiomSet], place: usize, other: usize) -> bool
    requires place { place < length sets.now }
    requires other { other < length sets.now }
    requires limits { All (λ s. s.limit ≡ (slice_index_or sets.now place s).limit) sets.now }
    ensures { IsTrue result ↔ ContainsAt sets.now place other }
{
    if other == place {
        return false;
    }
    sets[place].contains_all(&sets[other])
}
