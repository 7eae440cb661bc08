// The numbers of a set, one after another.

ghost use Rattle.std.specs.Prelude.{◌≡◌, ℕ, ◌*◌, ◌^◌, ◌≤◌, length};
ghost use Rattle.std.specs.Iterator.{YieldsFirst, item_count};
ghost use Rattle.lane_sieve.specs.Sets.{number_set, members_below};

use crate::members::next_number;
use std::marker::Model;

/// The numbers of a set of words that are still to come, in ascending order. Contracts see their list.
#[derive(Drop)]
pub struct Numbers<'a> {
    words: &'a [u64],
    from: usize,
}

impl<'a> Model for Numbers<'a> {
    ghost use Rattle.std.specs.Prelude.{List, ℕ, ◌*◌, ◌-◌, ◌^◌, ◌≤◌, length};
    ghost use Rattle.std.specs.FinSet as set;
    ghost use Rattle.lane_sieve.specs.Sets.{passing, number_set};

    ghost Value = { List ℕ };

    ghost view = { λ n. passing (set.contains (number_set n.words.now)) n.from (64 * length n.words.now - n.from) };

    ghost invariant = { λ n. length n.words.now ≤ 2 ^ 26 };
}

impl<'a> Numbers<'a> {
    /// All numbers of the set.
    pub fn new(words: &'a [u64]) -> Self
        requires { length words.now ≤ 2 ^ 26 }
        ensures { result ≡ members_below (number_set words.now) (64 * length words.now) }
    {
        Numbers { words, from: 0 }
    }
}

impl Iterator for Numbers<'_> {
    type Item = u32;

    ghost can_next = { λ _. Unit {0} };

    ghost next_gives = { YieldsFirst (λ xs. xs) };

    ghost remaining = { item_count (λ xs. xs) };

    fn next(&mut self) -> Option<u32> {
        let number = next_number(self.words, self.from)?;
        self.from = number + 1;
        Some(number as u32)
    }
}
