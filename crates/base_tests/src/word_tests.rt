// Each call on words once, by tables.

use crate::checks::check;
use lane_sieve::{
    Numbers, compare_numbers, copy_words, count_numbers, do_meet, has_number, is_part, last_number,
    next_number, put_number, repeat_word, subtract, take_number, unite,
};
use shq_terms::NoMemory;
use std::alloc::Global;
use std::cmp::Ordering;
use std::process::Abort;
use std::test::Fail;

/// The numbers 63, 128 and 130.
const WORDS: &[u64] = &[1 << 63, 0, 0b101];

/// The same, and 129.
const ONE_MORE: &[u64] = &[1 << 63, 0, 0b111];

/// Numbers, and whether they are members.
const MEMBERS: &[(u32, bool)] = &[
    (63, true),
    (128, true),
    (130, true),
    (62, false),
    (129, false),
    (500, false),
];

/// Where one looks from, and the next number.
const NEXT: &[(usize, Option<usize>)] = &[
    (0, Some(63)),
    (64, Some(128)),
    (129, Some(130)),
    (131, None),
];

/// What two lists of one length answer: whether the first is a part of the second, whether they meet, and their
/// order.
type Pair = (&'static [u64], &'static [u64], (bool, bool, Ordering));

const PAIRS: &[Pair] = &[
    (WORDS, ONE_MORE, (true, true, Ordering::Greater)),
    (ONE_MORE, WORDS, (false, true, Ordering::Less)),
    (WORDS, &[0, 1, 2], (false, false, Ordering::Less)),
    (WORDS, WORDS, (true, true, Ordering::Equal)),
];

enum Change {
    Put(u32),
    Take(u32),
    Unite(&'static [u64]),
    Subtract(&'static [u64]),
}

/// Changes one after the other, and the words behind each.
const CHANGES: &[(Change, &[u64])] = &[
    (Change::Put(64), &[1 << 63, 1, 0b101]),
    (Change::Take(128), &[1 << 63, 1, 0b100]),
    (Change::Unite(&[3]), &[3 | 1 << 63, 1, 0b100]),
    (Change::Subtract(&[1, 2, 0b110]), &[2 | 1 << 63, 1, 0]),
];

// Calls on lists of at most three words. None where what a call requires is not so.

fn next(words: &[u64], from: usize) -> Option<usize> {
    if words.len() > 3 {
        return None;
    }
    next_number(words, from)
}

fn last(words: &[u64]) -> Option<(usize, usize)> {
    let len = words.len();
    if len < 1 || len > 3 || words[len - 1] < 1 {
        return None;
    }
    Some((last_number(words), count_numbers(words)))
}

fn told(words: &[u64], others: &[u64]) -> Option<(bool, bool, Ordering)> {
    if words.len() != others.len() || words.len() > 3 {
        return None;
    }
    let order = compare_numbers(words, others);
    Some((is_part(words, others), do_meet(words, others), order))
}

fn do_change(words: &mut [u64], change: &Change) {
    let len = words.len();
    match change {
        Change::Put(number) if (*number as usize) / 64 < len => put_number(words, *number),
        Change::Take(number) if (*number as usize) / 64 < len => take_number(words, *number),
        Change::Unite(others) if others.len() <= len => unite(words, others),
        Change::Subtract(others) if others.len() == len => subtract(words, others),
        _ => {}
    }
}

fn is_list(words: &[u64], wanted: &[u64]) -> bool {
    words == wanted
}

fn are_members(words: &[u64]) -> bool {
    let mut same = true;
    for (number, wanted) in MEMBERS {
        same &= has_number(words, *number) == *wanted;
    }
    for (from, wanted) in NEXT {
        same &= next(words, *from) == *wanted;
    }
    same
}

fn are_numbers(mut numbers: Numbers<'_>, wanted: &[u32]) -> bool {
    let mut same = true;
    for number in wanted {
        same &= numbers.next() == Some(*number);
    }
    same && numbers.next() == None
}

fn are_pairs() -> bool {
    let mut are_so = true;
    for (first, second, wanted) in PAIRS {
        are_so &= told(first, second) == Some(*wanted);
    }
    are_so
}

fn are_changed(words: &mut [u64]) -> bool {
    let mut are_so = true;
    for (change, wanted) in CHANGES {
        do_change(words, change);
        are_so &= is_list(words, wanted);
    }
    are_so
}

fn are_copied(alloc: Global, words: &[u64]) -> Result<bool, NoMemory> {
    let copy = copy_words(alloc, words)?;
    Ok(is_list(&copy, words))
}

fn is_repeated(alloc: Global) -> Result<bool, NoMemory> {
    let repeated = repeat_word(alloc, 9, 2)?;
    Ok(is_list(&repeated, &[9, 9]))
}

fn are_told() -> bool {
    are_members(WORDS)
        && are_numbers(Numbers::new(WORDS), &[63, 128, 130])
        && last(WORDS) == Some((130, 3))
}

fn test_words(rt: &impl Abort, alloc: Global) -> Result<(), NoMemory> {
    check(rt, are_told(), "numbers");
    check(rt, are_copied(alloc, WORDS)?, "a copy");
    check(rt, is_repeated(alloc)?, "a word that is repeated");
    check(rt, are_pairs(), "pairs");
    check(rt, are_changed(&mut [1 << 63, 0, 0b101]), "changes");
    Ok(())
}

#[test]
fn calls_on_words(rt: HostRuntime) -> Result<(), Fail> {
    test_words(&rt, rt.alloc())?;
    Ok(())
}
