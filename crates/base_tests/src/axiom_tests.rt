// Sets of axioms that are compared with lists and with each other.

use crate::checks::check;
use axiom_sets::AxiomSet;
use shq_terms::NoMemory;
use std::alloc::Global;
use std::cmp::Ordering;
use std::collections::HashSet;
use std::process::Abort;
use std::test::Fail;

const LIMITS: &[u32] = &[1, 2, 3, 62, 63, 64, 65, 66, 254, 255, 256, 257, 258, 20_000];

// Whether the sets of each limit have the number.
fn is_listed(number: u32, limit: u32) -> bool {
    number % 7 == 3 || number % 64 == 0 || number == limit || number == 1
}

// The numbers that the set of a limit has.
fn listed(alloc: Global, limit: u32) -> Result<Vec<u32>, NoMemory> {
    let mut list = Vec::new(alloc);
    for number in 1..limit.saturating_add(1) {
        if is_listed(number, limit) {
            list.push(number)?;
        }
    }
    Ok(list)
}

// Puts those of the numbers that may be in the set.
fn put_each(set: &mut AxiomSet, numbers: &[u32]) {
    for number in numbers {
        if *number >= 1 && *number <= set.limit() {
            set.put(*number);
        }
    }
}

// The set of those of the numbers that may be in it.
fn set_of(alloc: Global, limit: u32, numbers: &[u32]) -> Result<AxiomSet, NoMemory> {
    let mut set = AxiomSet::empty(alloc, limit)?;
    put_each(&mut set, numbers);
    Ok(set)
}

// Takes out a number that may be in the set.
fn take_from(set: &mut AxiomSet, number: u32) {
    if number >= 1 && number <= set.limit() {
        set.take(number);
    }
}

fn has(set: &AxiomSet, number: u32) -> bool {
    number >= 1 && number <= set.limit() && set.has(number)
}

// Of two sets of one limit, whether the first has all of the second, whether they meet, and their order.
fn told(set: &AxiomSet, other: &AxiomSet) -> Option<(bool, bool, Ordering)> {
    if set.limit() != other.limit() {
        return None;
    }
    Some((
        set.contains_all(other),
        set.meets(other),
        set.cmp_list(other),
    ))
}

fn put_all(set: &mut AxiomSet, other: &AxiomSet) {
    if set.limit() == other.limit() {
        set.put_all(other);
    }
}

fn take_all(set: &mut AxiomSet, other: &AxiomSet) {
    if set.limit() == other.limit() {
        set.take_all(other);
    }
}

// Whether these are the numbers of the set, as it counts them and goes through them.
fn has_exactly(set: &AxiomSet, list: &[u32]) -> bool {
    let mut same = set.len() as usize == list.len() && set.is_empty() == list.is_empty();
    let mut rest = list.iter();
    for number in set.numbers() {
        same &= rest.next().copied() == Some(number);
    }
    same && rest.next().is_none()
}

fn has_each(set: &AxiomSet) -> bool {
    let limit = set.limit();
    let mut same = true;
    for number in 1..limit.saturating_add(1) {
        same &= has(set, number) == is_listed(number, limit);
    }
    same
}

// A whole set, one set in it, and that without its greatest number.
fn are_parts(full: &AxiomSet, copy: &AxiomSet, set: &AxiomSet) -> bool {
    let limit = full.limit();
    let has_more = limit > 1;
    matches!(told(full, copy), Some((true, true, _)))
        && matches!(told(copy, set), Some((true, _, Ordering::Greater)))
        && matches!(told(set, copy), Some((false, _, Ordering::Less)))
        && matches!(told(full, set), Some((true, meets, _)) if meets == has_more)
        && full.len() == limit
}

// Takes a set from the whole set, and puts it back.
fn is_rest(rest: &mut AxiomSet, full: &AxiomSet, set: &AxiomSet) -> bool {
    take_all(rest, set);
    let sum = set.len().checked_add(rest.len());
    let are_apart = matches!(told(rest, set), Some((_, false, _)));
    put_all(rest, set);
    are_apart && sum == Some(full.limit()) && *rest == *full && *rest != *set
}

// The greatest number is in the one and not in the other.
fn is_last(last: &AxiomSet, copy: &AxiomSet, set: &AxiomSet) -> bool {
    matches!(told(copy, last), Some((true, true, _)))
        && matches!(told(set, last), Some((false, false, _)))
}

// Whether the whole set is put together again from a set and its rest.
fn is_put_back(full: &AxiomSet, set: &AxiomSet) -> Result<bool, NoMemory> {
    let mut rest = full.try_clone()?;
    Ok(is_rest(&mut rest, full, set))
}

// Whether the greatest number is what a set lacks.
fn lacks_last(
    alloc: Global,
    copy: &AxiomSet,
    set: &AxiomSet,
    limit: u32,
) -> Result<bool, NoMemory> {
    let last = set_of(alloc, limit, &[limit])?;
    Ok(is_last(&last, copy, set))
}

// Whether a set with its greatest number and the same without it are parts of the whole set.
fn are_in(full: &AxiomSet, copy: &AxiomSet, set: &AxiomSet) -> Result<bool, NoMemory> {
    Ok(is_put_back(full, set)? && are_parts(full, copy, set))
}

fn are_in_full(
    alloc: Global,
    copy: &AxiomSet,
    set: &AxiomSet,
    limit: u32,
) -> Result<bool, NoMemory> {
    let full = AxiomSet::full(alloc, limit)?;
    are_in(&full, copy, set)
}

// Compares the two with each other, with the whole set and with the list.
fn are_compared(
    alloc: Global,
    copy: &AxiomSet,
    set: &AxiomSet,
    list: &[u32],
    limit: u32,
) -> Result<bool, NoMemory> {
    let is_less = has_exactly(set, &list[..list.len().saturating_sub(1)]);
    Ok(are_in_full(alloc, copy, set, limit)? && lacks_last(alloc, copy, set, limit)? && is_less)
}

// Takes the greatest number out of a set, and compares it with what it was.
fn is_less_so(
    alloc: Global,
    set: &mut AxiomSet,
    list: &[u32],
    limit: u32,
) -> Result<bool, NoMemory> {
    let copy = set.try_clone()?;
    take_from(set, limit);
    are_compared(alloc, &copy, set, list, limit)
}

fn is_set_so(
    alloc: Global,
    set: &mut AxiomSet,
    list: &[u32],
    limit: u32,
) -> Result<bool, NoMemory> {
    let is_whole = set.limit() == limit && has_exactly(set, list) && has_each(set);
    Ok(is_less_so(alloc, set, list, limit)? && is_whole)
}

fn is_list_so(alloc: Global, list: &[u32], limit: u32) -> Result<bool, NoMemory> {
    let mut set = set_of(alloc, limit, list)?;
    is_set_so(alloc, &mut set, list, limit)
}

fn is_limit_so(alloc: Global, limit: u32) -> Result<bool, NoMemory> {
    let list = listed(alloc, limit)?;
    is_list_so(alloc, &list, limit)
}

/// Lists in their order.
const LISTS: &[&[u32]] = &[
    &[],
    &[1],
    &[1, 2],
    &[1, 2, 300],
    &[1, 3],
    &[1, 63],
    &[1, 63, 64],
    &[1, 63, 65],
    &[1, 64],
    &[1, 64, 129],
    &[2],
    &[2, 63],
    &[64],
    &[64, 300],
    &[65],
    &[300],
];

fn is_order(
    alloc: Global,
    first: &AxiomSet,
    right: &[u32],
    wanted: Ordering,
) -> Result<bool, NoMemory> {
    let second = set_of(alloc, 300, right)?;
    Ok(matches!(told(first, &second), Some((_, _, order)) if order == wanted))
}

// Whether the set of the list at a place is behind those before it, and before those behind it.
fn is_at(alloc: Global, place: usize, first: &AxiomSet) -> Result<bool, NoMemory> {
    let mut is_so = true;
    for (other, right) in LISTS.iter().enumerate() {
        is_so &= is_order(alloc, first, right, place.cmp(&other))?;
    }
    Ok(is_so)
}

fn is_in_order(alloc: Global, place: usize, left: &[u32]) -> Result<bool, NoMemory> {
    let first = set_of(alloc, 300, left)?;
    is_at(alloc, place, &first)
}

/// Limits, numbers, and whether no equal set was put before.
const KEYS: &[(u32, &[u32], bool)] = &[
    (70, &[], true),
    (70, &[1], true),
    (70, &[1, 64], true),
    (71, &[1], true),
    (70, &[1], false),
];

fn is_kept(
    alloc: Global,
    kept: &mut HashSet<AxiomSet>,
    limit: u32,
    numbers: &[u32],
) -> Result<bool, NoMemory> {
    let set = set_of(alloc, limit, numbers)?;
    Ok(kept.insert(set)?)
}

fn are_kept(alloc: Global, kept: &mut HashSet<AxiomSet>) -> Result<bool, NoMemory> {
    let mut are_so = true;
    for (limit, numbers, is_new) in KEYS {
        are_so &= is_kept(alloc, kept, *limit, numbers)? == *is_new;
    }
    Ok(are_so)
}

fn are_keys(alloc: Global) -> Result<bool, NoMemory> {
    let mut kept = HashSet::new(alloc);
    are_kept(alloc, &mut kept)
}

fn are_limits_so(alloc: Global) -> Result<bool, NoMemory> {
    let mut are_so = true;
    for limit in LIMITS {
        are_so &= is_limit_so(alloc, *limit)?;
    }
    Ok(are_so)
}

fn are_in_order(alloc: Global) -> Result<bool, NoMemory> {
    let mut are_so = true;
    for (place, left) in LISTS.iter().enumerate() {
        are_so &= is_in_order(alloc, place, left)?;
    }
    Ok(are_so)
}

fn test_sets(rt: &impl Abort, alloc: Global) -> Result<(), NoMemory> {
    check(rt, are_limits_so(alloc)?, "sets of each limit");
    check(rt, are_in_order(alloc)?, "the order of lists");
    check(rt, are_keys(alloc)?, "sets as keys");
    Ok(())
}

#[test]
fn sets_of_axioms(rt: HostRuntime) -> Result<(), Fail> {
    test_sets(&rt, rt.alloc())?;
    Ok(())
}
