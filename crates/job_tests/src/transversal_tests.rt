// Minimal transversals of sets in memory, worked out by hand or counted.

ghost use Rattle.std.specs.Prelude.{◌≡◌, IfOk};
ghost use Rattle.std.specs.List.{All};

use crate::reading::{are_sets, sets_of};
use audit_check::{NoMemory, are_transversals, contains_another, transversals};
use axiom_sets::AxiomSet;
use std::alloc::Global;
use std::test::Fail;

// Sets of numbers up to six, and their transversals in order.
const CASES: &[(&[&[u32]], &[&[u32]])] = &[
    (&[], &[&[]]),
    (&[&[]], &[]),
    (&[&[1, 2], &[]], &[]),
    (&[&[1, 2], &[2, 3]], &[&[1, 3], &[2]]),
    (&[&[1, 2], &[1], &[1, 2]], &[&[1]]),
    (&[&[1, 2, 3]], &[&[1], &[2], &[3]]),
    (
        &[&[1, 2], &[3, 4], &[5, 6]],
        &[
            &[1, 3, 5],
            &[1, 3, 6],
            &[1, 4, 5],
            &[1, 4, 6],
            &[2, 3, 5],
            &[2, 3, 6],
            &[2, 4, 5],
            &[2, 4, 6],
        ],
    ),
    (&[&[1, 2], &[1, 3], &[2, 3]], &[&[1, 2], &[1, 3], &[2, 3]]),
    (&[&[1, 3], &[2, 4], &[1]], &[&[1, 2], &[1, 4]]),
];

// Whether the transversals are these, and are told to be these.
fn are_transversals_of(
    alloc: Global,
    sets: &[AxiomSet],
    wanted: &[&[u32]],
) -> Result<bool, NoMemory>
    requires { All (λ s. s.limit ≡ 6) sets.now }
{
    let list = transversals(alloc, sets, 6)?;
    Ok(are_transversals(alloc, sets, 6, &list)? && are_sets(&list, wanted))
}

fn are_found(alloc: Global, lists: &[&[u32]], wanted: &[&[u32]]) -> Result<bool, NoMemory> {
    let sets = sets_of(alloc, 6, lists)?;
    are_transversals_of(alloc, &sets, wanted)
}

// A set of two numbers up to 130.
fn pair(alloc: Global, low: u32, high: u32) -> Result<AxiomSet, NoMemory>
    ensures { IfOk result (λ s. s.limit ≡ 130) }
{
    let mut set = AxiomSet::empty(alloc, 130)?;
    set.put(low.clamp(1, 130));
    set.put(high.clamp(1, 130));
    Ok(set)
}

// Twenty pairs of numbers, which have more than a million transversals.
fn pairs(alloc: Global) -> Result<Vec<AxiomSet>, NoMemory>
    ensures { IfOk result (λ v. All (λ s. s.limit ≡ 130) v.items) }
{
    let mut sets = Vec::new(alloc);
    for low in 54..74 {
        sets.push(pair(alloc, low, low + 20)?)?;
    }
    Ok(sets)
}

// Whether a list that is too short is told apart before all is found, of a million transversals.
fn is_short_list_told(alloc: Global) -> Result<bool, NoMemory> {
    let sets = pairs(alloc)?;
    let is_told = are_transversals(alloc, &sets, 130, &[])?;
    Ok(!is_told)
}

// A set of up to twenty numbers up to 30.
fn mixed(alloc: Global, row: u32) -> Result<AxiomSet, NoMemory>
    ensures { IfOk result (λ s. s.limit ≡ 30) }
{
    let mut set = AxiomSet::empty(alloc, 30)?;
    for place in 0..20u32 {
        let number = row
            .wrapping_mul(11)
            .wrapping_add(place * 3)
            .wrapping_add(place * place % 7);
        set.put((number % 30) + 1);
    }
    Ok(set)
}

// Twenty of them.
fn all_mixed(alloc: Global) -> Result<Vec<AxiomSet>, NoMemory>
    ensures { IfOk result (λ v. All (λ s. s.limit ≡ 30) v.items) }
{
    let mut sets = Vec::new(alloc);
    for row in 0..20 {
        sets.push(mixed(alloc, row)?)?;
    }
    Ok(sets)
}

// How many transversals these have.
fn mixed_count(alloc: Global) -> Result<usize, NoMemory> {
    let sets = all_mixed(alloc)?;
    let list = transversals(alloc, &sets, 30)?;
    Ok(list.len())
}

// Whether no set is told to be no list of the transversals of three sets, of which the second alone contains another.
fn are_told_apart(alloc: Global, sets: &[AxiomSet]) -> Result<bool, NoMemory>
    requires { All (λ s. s.limit ≡ 6) sets.now }
{
    let count = sets.len();
    if count != 3 {
        return Ok(false);
    }
    let is_told = are_transversals(alloc, sets, 6, &[])?;
    Ok(!is_told && !contains_another(sets, 0) && contains_another(sets, 1))
}

fn are_not_whole(alloc: Global) -> Result<bool, NoMemory> {
    let sets = sets_of(alloc, 6, &[&[1, 2], &[1, 2, 3], &[3]])?;
    are_told_apart(alloc, &sets)
}

#[test]
fn transversals_are_found_and_told(rt: HostRuntime) -> Result<(), Fail> {
    let alloc = rt.alloc();
    for case in CASES {
        assert!(rt; are_found(alloc, case.0, case.1)?, "{:?}", case.0);
    }
    assert!(rt; are_not_whole(alloc)?, "lists that are not whole");
    assert!(rt; mixed_count(alloc)? == 4045, "of twenty sets");
    assert!(rt; is_short_list_told(alloc)?, "none of many");
    Ok(())
}
