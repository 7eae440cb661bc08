// The order of sets.

ghost use Rattle.std.specs.Prelude.{◌≡◌, ℕ, ◌+◌, ◌*◌, ◌^◌, ◌<◌, ◌≤◌, length, true, false, IfSome, IfNone, slice_index};
ghost use Rattle.std.specs.FinSet as set;
ghost use Rattle.std.specs.Ordering.{nat_cmp};
ghost use Rattle.std.specs.Cmp.Lexicographic.{slice_cmp};
ghost use Rattle.lane_sieve.specs.Sets.{number_set, words_cmp, GoesOnAsOrdered};

use crate::members::next_number;
use std::cmp::Ordering;

/// The order of two sets of equally many words: the lexicographic order of their ascending lists, in which a proper
/// prefix comes first.
pub fn compare_numbers(xs: &[u64], ys: &[u64]) -> Ordering
    requires same { length xs.now ≡ length ys.now }
    requires short { length xs.now ≤ 2 ^ 26 }
    ensures { result ≡ words_cmp xs.now ys.now }
{
    let Some(place) = first_difference(xs, ys) else {
        return Ordering::Equal;
    };
    let bit = (xs[place] ^ ys[place]).trailing_zeros();
    let first = 64 * place + bit as usize;
    if (xs[place] >> bit) & 1 == 1 {
        order_by_first(ys, first)
    } else {
        order_by_first(xs, first).reverse()
    }
}

/// The first place at which the words differ.
fn first_difference(xs: &[u64], ys: &[u64]) -> Option<usize>
    requires { length xs.now ≡ length ys.now }
    ensures none { IfNone result (xs.now ≡ ys.now) }
    ensures within { IfSome result (λ n. n < length xs.now) }
    ensures differ { IfSome result (λ n. ¬ (slice_index xs.now n ≡ slice_index ys.now n)) }
    ensures first { IfSome result (λ n. (i : ℕ) → i < n → slice_index xs.now i ≡ slice_index ys.now i) }
{
    xs.iter().zip(ys).position(|(x, y)| x != y)
}

/// How a set compares with that of the words, where both have the same numbers below `first` and it alone has `first`:
/// it comes before exactly where the other goes on.
fn order_by_first(words: &[u64], first: usize) -> Ordering
    requires short { length words.now ≤ 2 ^ 26 }
    requires within { first < 64 * length words.now }
    ensures { GoesOnAsOrdered (number_set words.now) (64 * length words.now) first result }
{
    match next_number(words, first + 1) {
        Some(_) => Ordering::Less,
        None => Ordering::Greater,
    }
}
