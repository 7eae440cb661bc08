// What is done with four words at once.

ghost use Rattle.std.specs.Prelude.{◌≡◌, ◌+◌, ◌≤◌, length, bit_or};
ghost use Rattle.std.specs.Simd.Lanes.{zip2, chunk, put_chunk};
ghost use Rattle.lane_sieve.specs.Words.{each_pair, is_part, is_apart, is_part_of_none};

use std::simd::prelude::*;

/// How many words a block has.
pub const BLOCK: usize = 4;

/// Whether each bit of the block of `a` at `at` is set in that of `b`.
#[inline]
pub fn is_part_at(a: &[u64], b: &[u64], at: usize) -> bool
    requires a_has_block { at + 4 ≤ length a.now }
    requires b_has_block { at + 4 ≤ length b.now }
    ensures { result ≡ each_pair is_part (chunk at 4 a.now) (chunk at 4 b.now) }
{
    let x = u64x4::from_slice(&a[at..]);
    let y = u64x4::from_slice(&b[at..]);
    (x & y).simd_ne(x).to_bitmask() == 0
}

/// Whether none of the four words of `list` at `at` has each bit of `word`.
#[inline]
pub fn is_part_of_none_at(word: u64, list: &[u64], at: usize) -> bool
    requires { at + 4 ≤ length list.now }
    ensures { result ≡ is_part_of_none word (chunk at 4 list.now) }
{
    let x = u64x4::splat(word);
    let y = u64x4::from_slice(&list[at..]);
    (x & y).simd_eq(x).to_bitmask() == 0
}

/// Whether no bit is set both in the block of `a` at `at` and in that of `b`.
#[inline]
pub fn is_apart_at(a: &[u64], b: &[u64], at: usize) -> bool
    requires a_has_block { at + 4 ≤ length a.now }
    requires b_has_block { at + 4 ≤ length b.now }
    ensures { result ≡ each_pair is_apart (chunk at 4 a.now) (chunk at 4 b.now) }
{
    let x = u64x4::from_slice(&a[at..]);
    let y = u64x4::from_slice(&b[at..]);
    (x & y).simd_ne(u64x4::splat(0)).to_bitmask() == 0
}

/// Sets in the block of `a` at `at` the bits of that of `b`.
#[inline]
pub fn unite_at(a: &mut [u64], b: &[u64], at: usize)
    requires a_has_block { at + 4 ≤ length a.old }
    requires b_has_block { at + 4 ≤ length b.now }
    ensures { a.new ≡ put_chunk at a.old (zip2 bit_or (chunk at 4 a.old) (chunk at 4 b.now)) }
{
    let x = u64x4::from_slice(&a[at..]);
    let y = u64x4::from_slice(&b[at..]);
    (x | y).copy_to_slice(&mut a[at..]);
}
