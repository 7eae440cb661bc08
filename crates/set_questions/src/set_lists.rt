// Lists of sets in the order of sets.

ghost use Rattle.std.specs.Prelude.{◌≡◌, ◌-◌, ◌<◌, OnOk, OnErr, IfSome, IfNone};
ghost use Rattle.std.specs.List.{All, Contains};
ghost use Rattle.std.specs.Ordering.{MatchOrdering};
ghost use Rattle.std.specs.declared.cmp.Ordering.TheVariants.{Less, Greater};
ghost use Rattle.pinpointing_specs.specs.Sets.{list_cmp};
ghost use Rattle.pinpointing_specs.specs.Order.{IsAscending};
ghost use Rattle.set_questions.specs.InOrder.{IsBetween, HasMore};

use lane_sieve::NoMemory;
use pinpointing_specs::AxiomSet;
use std::cmp::Ordering;

/// Puts a set into an ascending list, unless it stands there.
///
/// # Errors
/// Out of memory; the list stays as it was.
pub fn put_in_order(sets: &mut Vec<AxiomSet>, set: AxiomSet) -> Result<(), NoMemory>
    requires limits { All (λ s. s.limit ≡ set.limit) sets.old.items }
    requires order { IsAscending sets.old.items }
    ensures order { IsAscending sets.new.items }
    ensures members { OnOk result (HasMore sets.old.items set sets.new.items) }
    ensures err { OnErr result (sets.new.items ≡ sets.old.items) }
{
    let Some(place) = place_in_order(sets, &set) else {
        return Ok(());
    };
    sets.insert(place, set)?;
    Ok(())
}

/// The place at which a set is to stand in an ascending list, or none where it stands there.
fn place_in_order(sets: &[AxiomSet], set: &AxiomSet) -> Option<usize>
    requires limits { All (λ s. s.limit ≡ set.now.limit) sets.now }
    requires order { IsAscending sets.now }
    ensures none { IfNone result (Contains sets.now set.now) }
    ensures some { IfSome result (λ n. IsBetween sets.now set.now n n) }
{
    let mut low = 0;
    let mut high = sets.len();
    while low < high {
        let (next_low, next_high) = narrowed(sets, set, low, high)?;
        low = next_low;
        high = next_high;
    }
    Some(low)
}

/// A shorter span in which the set is to stand, or none where it stands there.
fn narrowed(sets: &[AxiomSet], set: &AxiomSet, low: usize, high: usize) -> Option<(usize, usize)>
    requires some { low < high }
    requires limits { All (λ s. s.limit ≡ set.now.limit) sets.now }
    requires order { IsAscending sets.now }
    requires between { IsBetween sets.now set.now low high }
    ensures none { IfNone result (Contains sets.now set.now) }
    ensures between { IfSome result (λ p. IsBetween sets.now set.now p.0 p.1) }
    ensures shorter { IfSome result (λ p. p.1 - p.0 < high - low) }
{
    let middle = low + (high - low) / 2;
    match order(&sets[middle], set) {
        Ordering::Less => Some((middle + 1, high)),
        Ordering::Greater => Some((low, middle)),
        Ordering::Equal => None,
    }
}

/// How two sets compare. Only equal sets are `Equal`.
fn order(one: &AxiomSet, other: &AxiomSet) -> Ordering
    requires { one.now.limit ≡ other.now.limit }
    ensures { MatchOrdering result
        (list_cmp one.now other.now ≡ Less) (one.now ≡ other.now) (list_cmp one.now other.now ≡ Greater) }
{
    let same_limits = one.limit() == other.limit();
    prove!(same_limits);
    one.cmp_list(other)
}
