// The print of a label.
ghost use Rattle.std.specs.Prelude.{◌≡◌, ℕ, ◌<◌, length, true};
ghost use Rattle.std.specs.FinSet as set;
ghost use Rattle.lane_sieve.specs.Sets.{number_set};
ghost use Rattle.blocking.specs.Followed.{IsPrintOf};

use lane_sieve::put_number;

/// The print that has every bit.
pub(crate) fn full_print() -> [u64; 4]
    ensures shows { (k : ℕ) → k < 256 → set.contains (number_set result) k ≡ true }
    ensures words { length result ≡ 4 }
{
    [u64::MAX; 4]
}

/// The bits of these concepts.
pub(crate) fn print_of(concepts: &[u32]) -> [u64; 4]
    ensures shows { IsPrintOf concepts.now result }
    ensures words { length result ≡ 4 }
{
    let mut print = [0; 4];
    for concept in concepts {
        put_number(&mut print, *concept % 256);
    }
    print
}
