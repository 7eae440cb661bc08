// The kernels over words, as what they say of two sets.

ghost use Rattle.std.specs.Prelude.{◌≡◌, ◌≤◌, ◌↔◌, IsTrue, length};
ghost use Rattle.std.specs.FinSet as set;
ghost use Rattle.lane_sieve.specs.Sets.{number_set, IsPart, DoMeet};

use crate::{meets_words, subset_words, union_words};

/// Whether each number of the first set is in the second.
pub fn is_part(xs: &[u64], ys: &[u64]) -> bool
    requires { length xs.now ≡ length ys.now }
    ensures { IsTrue result ↔ IsPart (number_set xs.now) (number_set ys.now) }
{
    subset_words(xs, ys)
}

/// Whether some number is in both sets.
pub fn do_meet(xs: &[u64], ys: &[u64]) -> bool
    requires { length xs.now ≡ length ys.now }
    ensures { IsTrue result ↔ DoMeet (number_set xs.now) (number_set ys.now) }
{
    meets_words(xs, ys)
}

/// Puts the numbers of the second set, which has no more words, into the first.
pub fn unite(xs: &mut [u64], ys: &[u64])
    requires { length ys.now ≤ length xs.old }
    ensures { number_set xs.new ≡ set.union (number_set xs.old) (number_set ys.now) }
{
    union_words(&mut xs[..ys.len()], ys);
}

/// Takes the numbers of the second set, which has as many words, out of the first.
pub fn subtract(xs: &mut [u64], ys: &[u64])
    requires { length ys.now ≡ length xs.old }
    ensures { number_set xs.new ≡ set.difference (number_set xs.old) (number_set ys.now) }
{
    for place in 0..xs.len() {
        xs[place] &= !ys[place];
    }
}
