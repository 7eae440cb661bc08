// The kernels over words, and tables of prints, for lists of each length up to 70.

use crate::checks::check;
use lane_sieve::{Lanes, candidates, meets_words, subset_words, union_words};
use shq_terms::NoMemory;
use std::alloc::Global;
use std::process::Abort;
use std::test::Fail;

// Whether one list is a part of another of its length, and whether they meet.
fn told(words: &[u64], others: &[u64]) -> Option<(bool, bool)> {
    if words.len() != others.len() {
        return None;
    }
    Some((subset_words(words, others), meets_words(words, others)))
}

fn unite(words: &mut [u64], others: &[u64]) {
    if words.len() == others.len() {
        union_words(words, others);
    }
}

fn put(words: &mut [u64], place: usize, word: u64) {
    if place < words.len() {
        words[place] = word;
    }
}

fn are_all_ones(words: &[u64]) -> bool {
    let mut are = true;
    for word in words {
        are &= *word == u64::MAX;
    }
    are
}

// Words in which each bit but one is set, and words with that one bit alone: apart, one in the other, swapped, and
// united.
fn agree_at(most: &mut [u64], one: &mut [u64], place: usize) -> bool {
    let bit = 1 << (place % 64);
    put(most, place, !bit);
    put(one, place, bit);
    let are_apart = told(one, most) == Some((false, false));
    put(most, place, bit);
    let is_inside = told(one, most) == Some((true, true));
    put(one, place, bit ^ u64::MAX);
    let is_swapped = told(one, most) == Some((false, false));
    unite(most, one);
    let is_whole = are_all_ones(most);
    put(one, place, 0);
    unite(one, most);
    let is_copied = are_all_ones(one);
    one.fill(0);
    are_apart & is_inside & is_swapped & is_whole & is_copied
}

fn agree(most: &mut [u64], one: &mut [u64]) -> bool {
    let mut is_so = told(one, most) == Some((true, false));
    for place in 0..one.len() {
        is_so &= agree_at(most, one, place);
    }
    is_so
}

fn agree_with(alloc: Global, most: &mut [u64], len: usize) -> Result<bool, NoMemory> {
    let mut one = vec![in alloc; 0; len]?;
    Ok(agree(most, &mut one))
}

fn are_words(alloc: Global, len: usize) -> Result<bool, NoMemory> {
    let mut most = vec![in alloc; u64::MAX; len]?;
    agree_with(alloc, &mut most, len)
}

// A print with the bits 3 and 200 where the two places are equal, and else one with one of the two.
fn print_at(at: u32, place: u32) -> [u64; 4] {
    if at == place {
        [8, 0, 0, 256]
    } else if at % 2 == 0 {
        [8, 0, 0, 255]
    } else {
        [u64::MAX ^ 8, 7, 9, 256]
    }
}

// A table of `len` prints, of which that at `place` alone has both bits.
fn table_with(alloc: Global, len: u32, place: u32) -> Result<Lanes, NoMemory> {
    let mut table = Lanes::new(alloc);
    for at in 0..len {
        table.push(print_at(at, place))?;
    }
    Ok(table)
}

// How many places have the print, where there is room for all.
fn find(print: [u64; 4], table: &Lanes, out: &mut [u32]) -> usize {
    if table.len() as usize > out.len() {
        return usize::MAX;
    }
    candidates(print, table, out)
}

// Whether so many places from one on have the print, and behind these nothing was written.
fn finds(table: &Lanes, print: [u64; 4], out: &mut [u32], from: u32, count: u32) -> bool {
    out.fill(77);
    let mut same = find(print, table, out) == count as usize;
    let mut seen = 0u32;
    for found in out.iter() {
        let wanted = if seen < count {
            from.wrapping_add(seen)
        } else {
            77
        };
        same &= *found == wanted;
        seen = seen.wrapping_add(1);
    }
    same
}

const BOTH: [u64; 4] = [8, 0, 0, 256];

fn is_table(alloc: Global, len: u32, place: u32, out: &mut [u32]) -> Result<bool, NoMemory> {
    let table = table_with(alloc, len, place)?;
    Ok(finds_both(&table, len, place, out))
}

// The place alone by the two bits, and all places by none.
fn finds_both(table: &Lanes, len: u32, place: u32, out: &mut [u32]) -> bool {
    finds(table, BOTH, out, place, 1) && table.len() == len && finds(table, [0; 4], out, 0, len)
}

fn is_list(found: &[u32], wanted: &[u32]) -> bool {
    found == wanted
}

// One more place has the print, and then fewer.
fn changes(table: &mut Lanes, out: &mut [u32]) -> bool {
    if table.len() != 5 || out.len() != 5 {
        return false;
    }
    table.set(4, [12, 1, 1, 256]);
    let has_two = find(BOTH, table, out) == 2 && is_list(out, &[2, 4, 77, 77, 77]);
    table.cut(4);
    let has_one = table.len() == 4 && find(BOTH, table, out) == 1;
    table.cut(0);
    has_two && has_one && table.is_empty()
}

fn are_changed(alloc: Global) -> Result<bool, NoMemory> {
    let mut table = table_with(alloc, 5, 2)?;
    Ok(changes(&mut table, &mut [77; 5]))
}

fn are_tables(alloc: Global, len: u32, out: &mut [u32]) -> Result<bool, NoMemory> {
    let mut are_so = true;
    for place in 0..len {
        are_so &= is_table(alloc, len, place, out)?;
    }
    Ok(are_so)
}

fn are_all_tables(alloc: Global, out: &mut [u32]) -> Result<bool, NoMemory> {
    let mut are_so = true;
    for len in 0..71 {
        are_so &= are_tables(alloc, len, out)?;
    }
    Ok(are_so)
}

fn are_all_words(alloc: Global) -> Result<bool, NoMemory> {
    let mut are_so = true;
    for len in 0..71 {
        are_so &= are_words(alloc, len)?;
    }
    Ok(are_so)
}

fn test_lengths(rt: &impl Abort, alloc: Global) -> Result<(), NoMemory> {
    check(rt, are_all_words(alloc)?, "words");
    check(rt, are_all_tables(alloc, &mut [77; 71])?, "tables");
    check(rt, are_changed(alloc)?, "changes");
    Ok(())
}

#[test]
fn words_and_tables_of_each_length(rt: HostRuntime) -> Result<(), Fail> {
    test_lengths(&rt, rt.alloc())?;
    Ok(())
}
