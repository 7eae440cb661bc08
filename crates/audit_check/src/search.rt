// The smallest sets that meet each set of a list: its minimal transversals, also called minimal hitting sets.
//
// They are searched for in depth, as in the algorithm MMCS (Keisuke Murakami and Takeaki Uno, "Efficient Algorithms for
// Dualizing Large-Scale Hypergraphs", Discrete Applied Mathematics 170, 2014). A node of the search is a set that hits
// some given set in each of its members alone. A number is a candidate at a node where with it each member is still hit
// alone, and no earlier branch has it. The children of a node have one candidate more, of a given set that is not met:
// of all of these the one with the fewest candidates, so that where one has none, no branch is begun. So each
// transversal is come to once, none is looked at again for being smallest, and nothing is kept but the path to the node
// and what was found. A node costs a look at each given set for each of its members.

ghost use Rattle.std.specs.Prelude.{◌≡◌, ◌<◌, ◌≤◌, true, false, IfOk, OnOk, IfSome, IfNone, length};
ghost use Rattle.std.specs.List.{All};
ghost use Rattle.axiom_sets.specs.Sets.{IsWithin};
ghost use Rattle.pinpointing_specs.specs.Smallest.{AreApart, IsHitAlone};
ghost use Rattle.pinpointing_specs.specs.Order.{IsAscending};
ghost use Rattle.audit_check.specs.Transversals.{AreTransversals};
ghost use Rattle.audit_check.specs.Territory.{AreMet, IsUnmetAt, ComesFrom, GrowsBy, with_number};

use crate::choices::{candidates_at, choices, keep_common};
use axiom_sets::AxiomSet;
use set_questions::put_in_order;
use shq_terms::NoMemory;
use std::alloc::Global;

/// The smallest sets, of numbers up to the limit, that meet each of the sets, in the order of sets, each once. Of no
/// sets it is the empty set alone, and where one of the sets is empty there is none.
///
/// # Errors
/// Out of memory.
pub fn transversals(alloc: Global, sets: &[AxiomSet], limit: u32) -> Result<Vec<AxiomSet>, NoMemory>
    requires { All (λ s. s.limit ≡ limit) sets.now }
    ensures order { IfOk result (λ v. IsAscending v.items) }
    ensures members { IfOk result (λ v. AreTransversals limit sets.now v.items) }
{
    let hit = AxiomSet::empty(alloc, limit)?;
    let barred = AxiomSet::empty(alloc, limit)?;
    let mut found = Vec::new(alloc);
    let within = put_transversals(alloc, sets, &hit, &barred, usize::MAX, &mut found)?;
    prove!(within);
    Ok(found)
}

/// Puts each smallest transversal that contains the hit set, and has no barred number, into the ascending list, until
/// that has more than `most` sets. Answers whether it stayed within them.
pub(crate) fn put_transversals(
    alloc: Global,
    sets: &[AxiomSet],
    hit: &AxiomSet,
    barred: &AxiomSet,
    most: usize,
    found: &mut Vec<AxiomSet>,
) -> Result<bool, NoMemory>
    requires limits { All (λ s. s.limit ≡ hit.now.limit) sets.now }
    requires barred_limit { barred.now.limit ≡ hit.now.limit }
    requires found_limits { All (λ s. s.limit ≡ hit.now.limit) found.old.items }
    requires order { IsAscending found.old.items }
    requires alone { IsHitAlone sets.now hit.now }
    requires apart { AreApart barred.now.members hit.now.members }
    ensures found_limits { OnOk result (All (λ s. s.limit ≡ hit.now.limit) found.new.items) }
    ensures order { OnOk result (IsAscending found.new.items) }
    ensures from { OnOk result (ComesFrom sets.now hit.now barred.now found.old.items found.new.items) }
    ensures grown { IfOk result (λ within. within ≡ true →
        GrowsBy sets.now hit.now barred.now found.old.items found.new.items) }
    ensures stopped { IfOk result (λ within. within ≡ false → most < length found.new.items) }
{
    let candidates = candidates_at(alloc, sets, hit, barred)?;
    let place = narrowest(sets, hit, &candidates)?;
    let Some(next) = place else {
        return put_found(sets, hit, barred, most, found);
    };
    let fitting = choices(sets, &sets[next], hit, barred, &candidates)?;
    let mut shut = barred.try_clone()?;
    for number in fitting.numbers() {
        let more = with_number(hit, number)?;
        let within = put_transversals(alloc, sets, &more, &shut, most, found)?;
        if !within {
            return Ok(false);
        }
        shut.put(number);
    }
    Ok(true)
}

/// The place of a set that is not met, of all such sets one with the fewest candidates.
fn narrowest(
    sets: &[AxiomSet],
    hit: &AxiomSet,
    candidates: &AxiomSet,
) -> Result<Option<usize>, NoMemory>
    requires limits { All (λ s. s.limit ≡ hit.now.limit) sets.now }
    requires candidate_limit { candidates.now.limit ≡ hit.now.limit }
    ensures none { IfOk result (λ n. IfNone n (AreMet sets.now hit.now (length sets.now))) }
    ensures some { IfOk result (λ n. IfSome n (IsUnmetAt sets.now hit.now)) }
{
    let mut narrowest = None;
    let mut fewest = u32::MAX;
    for place in 0..sets.len() {
        if !sets[place].meets(hit) {
            let count = candidate_count(&sets[place], candidates)?;
            if narrowest.is_none() || count < fewest {
                narrowest = Some(place);
                fewest = count;
            }
        }
    }
    Ok(narrowest)
}

/// How many candidates a set has.
fn candidate_count(set: &AxiomSet, candidates: &AxiomSet) -> Result<u32, NoMemory>
    requires { candidates.now.limit ≡ set.now.limit }
{
    let mut left = set.try_clone()?;
    keep_common(&mut left, candidates)?;
    Ok(left.len())
}

/// Puts a set that meets each of the sets into the list. Answers whether that stayed within `most` sets.
fn put_found(
    sets: &[AxiomSet],
    hit: &AxiomSet,
    barred: &AxiomSet,
    most: usize,
    found: &mut Vec<AxiomSet>,
) -> Result<bool, NoMemory>
    requires found_limits { All (λ s. s.limit ≡ hit.now.limit) found.old.items }
    requires order { IsAscending found.old.items }
    requires met { AreMet sets.now hit.now (length sets.now) }
    requires alone { IsHitAlone sets.now hit.now }
    requires apart { AreApart barred.now.members hit.now.members }
    ensures found_limits { OnOk result (All (λ s. s.limit ≡ hit.now.limit) found.new.items) }
    ensures order { OnOk result (IsAscending found.new.items) }
    ensures from { OnOk result (ComesFrom sets.now hit.now barred.now found.old.items found.new.items) }
    ensures grown { IfOk result (λ within. within ≡ true →
        GrowsBy sets.now hit.now barred.now found.old.items found.new.items) }
    ensures stopped { IfOk result (λ within. within ≡ false → most < length found.new.items) }
{
    let _limit = hit.limit();
    put_in_order(found, hit.try_clone()?)?;
    Ok(found.len() <= most)
}

/// The set with one number more.
fn with_number(hit: &AxiomSet, number: u32) -> Result<AxiomSet, NoMemory>
    requires low { 1 ≤ number }
    requires high { number ≤ hit.now.limit }
    ensures more { IfOk result (λ s. s ≡ with_number hit.now number) }
    ensures within { IfOk result (λ s. IsWithin s.limit s.members) }
{
    let mut more = hit.try_clone()?;
    more.put(number);
    let _limit = more.limit();
    Ok(more)
}
