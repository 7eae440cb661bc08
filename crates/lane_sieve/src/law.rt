// What set a list of words stands for.

ghost use Rattle.std.specs.Prelude.{◌≡◌, ℕ, List};
ghost use Rattle.std.specs.FinSet as set;
ghost use Rattle.lane_sieve.specs.Sets.{number_set, has_bit};

/// A number is in the set that some words stand for exactly where its bit is set.
pub fn words_are_sets()
    ensures { (words : List ℕ) (k : ℕ) → set.contains (number_set words) k ≡ has_bit words k }
{}
