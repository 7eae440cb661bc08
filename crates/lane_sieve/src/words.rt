// The kernels over two lists of words of equal length: whole blocks first, then the words after the last block.

ghost use Rattle.std.specs.Prelude.{◌≡◌, length, bit_or};
ghost use Rattle.std.specs.Simd.Lanes.{zip2};
ghost use Rattle.lane_sieve.specs.Words.{each_pair, is_apart, is_subset, do_meet};

use crate::block::{BLOCK, is_apart_at, is_part_at, unite_at};

/// Whether each bit that is set in `a` is set at its place in `b`.
pub fn subset_words(a: &[u64], b: &[u64]) -> bool
    requires { length a.now ≡ length b.now }
    ensures { result ≡ is_subset a.now b.now }
{
    let mut at = 0;
    while a.len() - at >= BLOCK {
        if !is_part_at(a, b, at) {
            return false;
        }
        at += BLOCK;
    }
    while at < a.len() {
        if a[at] & b[at] != a[at] {
            return false;
        }
        at += 1;
    }
    true
}

/// Sets in `a` each bit that is set in `b`.
pub fn union_words(a: &mut [u64], b: &[u64])
    requires { length a.old ≡ length b.now }
    ensures { a.new ≡ zip2 bit_or a.old b.now }
{
    let mut at = 0;
    while a.len() - at >= BLOCK {
        unite_at(a, b, at);
        at += BLOCK;
    }
    while at < a.len() {
        a[at] |= b[at];
        at += 1;
    }
}

/// Whether some bit is set at one place in both.
pub fn meets_words(a: &[u64], b: &[u64]) -> bool
    requires { length a.now ≡ length b.now }
    ensures { result ≡ do_meet a.now b.now }
{
    !are_apart(a, b)
}

/// Whether no bit is set at one place in both.
fn are_apart(a: &[u64], b: &[u64]) -> bool
    requires { length a.now ≡ length b.now }
    ensures { result ≡ each_pair is_apart a.now b.now }
{
    let mut at = 0;
    while a.len() - at >= BLOCK {
        if !is_apart_at(a, b, at) {
            return false;
        }
        at += BLOCK;
    }
    while at < a.len() {
        if a[at] & b[at] != 0 {
            return false;
        }
        at += 1;
    }
    true
}
