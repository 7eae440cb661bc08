// Sets of marks that are compared with lists.

use crate::checks::check;
use axiom_sets::Deps;
use shq_terms::NoMemory;
use std::alloc::Global;
use std::process::Abort;
use std::test::Fail;

/// Marks in ascending order, on both sides of the ends of words and of blocks.
const MARKS: [u32; 13] = [
    0, 1, 2, 62, 63, 64, 65, 255, 256, 257, 1000, 20_000, 1_000_000,
];

/// What is done with a set in each round, and what is left of the marks.
enum Round {
    /// Puts the least of those that are not in it last.
    Up,
    /// Puts the greatest of those that are not in it first.
    Down,
    /// Takes out the greatest.
    Fewer,
    /// Takes out the least, and one that is not in it.
    Later,
}

fn put_last(alloc: Global, set: &Deps, mark: u32) -> Result<Deps, NoMemory> {
    let one = Deps::one(alloc, mark)?;
    set.union(alloc, &one)
}

fn put_first(alloc: Global, set: &Deps, mark: u32) -> Result<Deps, NoMemory> {
    let one = Deps::one(alloc, mark)?;
    one.union(alloc, set)
}

fn take(alloc: Global, set: &Deps, mark: u32) -> Result<Deps, NoMemory> {
    let fewer = set.without(alloc, mark)?;
    fewer.without(alloc, 2_000_000)
}

// The set after one more change of the round.
fn changed(alloc: Global, set: &Deps, round: &Round, i: usize) -> Result<Deps, NoMemory> {
    let least = MARKS[i.min(12)];
    let greatest = MARKS[12 - i.min(12)];
    match round {
        Round::Up => put_last(alloc, set, least),
        Round::Down => put_first(alloc, set, greatest),
        Round::Fewer => take(alloc, set, greatest),
        Round::Later => take(alloc, set, least),
    }
}

// The marks that are in the set then.
fn left(round: &Round, i: usize) -> &'static [u32] {
    let i = i.min(12);
    match round {
        Round::Up => &MARKS[..i + 1],
        Round::Down => &MARKS[12 - i..],
        Round::Fewer => &MARKS[..12 - i],
        Round::Later => &MARKS[i + 1..],
    }
}

// Whether these are the marks of a set, which are among those of the table.
fn has_exactly(set: &Deps, list: &[u32]) -> bool {
    let mut same = set.latest() == list.last().copied();
    for mark in MARKS.iter() {
        let next = (*mark).saturating_add(3);
        same &= set.has(*mark) == list.contains(mark);
        same &= set.has(next) == list.contains(&next);
    }
    same
}

fn go_through(alloc: Global, set: &mut Deps, round: &Round) -> Result<bool, NoMemory> {
    let mut is_so = true;
    for i in 0..13 {
        *set = changed(alloc, set, round, i)?;
        is_so &= has_exactly(set, left(round, i));
    }
    Ok(is_so)
}

// Changes a copy.
fn go_back(alloc: Global, set: &Deps, round: &Round) -> Result<bool, NoMemory> {
    let mut copy = set.try_clone()?;
    go_through(alloc, &mut copy, round)
}

/// What fills a set, and what makes it empty again.
const ROUNDS: &[(Round, Round)] = &[(Round::Up, Round::Fewer), (Round::Down, Round::Later)];

fn there_and_back(
    rt: &impl Abort,
    alloc: Global,
    set: &mut Deps,
    (there, back): &(Round, Round),
) -> Result<(), NoMemory> {
    check(rt, go_through(alloc, set, there)?, "there");
    check(rt, go_back(alloc, set, back)?, "back");
    check(rt, has_exactly(set, &MARKS), "a copy was changed");
    Ok(())
}

fn test_rounds(rt: &impl Abort, alloc: Global, set: &mut Deps) -> Result<(), NoMemory> {
    for rounds in ROUNDS {
        *set = Deps::none();
        there_and_back(rt, alloc, set, rounds)?;
    }
    Ok(())
}

fn test_sets(rt: &impl Abort, alloc: Global) -> Result<(), NoMemory> {
    let mut set = Deps::none();
    check(rt, has_exactly(&set, &[]), "none");
    test_rounds(rt, alloc, &mut set)
}

#[test]
fn dependencies_against_lists(rt: HostRuntime) -> Result<(), Fail> {
    test_sets(&rt, rt.alloc())?;
    Ok(())
}
