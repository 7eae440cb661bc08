// Questions about one number of a set, and its changes by one number.

ghost use Rattle.std.specs.Prelude.{◌≡◌, ℕ, ◌+◌, ◌-◌, ◌*◌, ◌/◌, ◌^◌, ◌<◌, ◌≤◌, length, true, false, IfSome, IfNone};
ghost use Rattle.std.specs.Prelude.{slice_index};
ghost use Rattle.std.specs.FinSet as set;
ghost use Rattle.lane_sieve.specs.Sets.{number_set, members_below, LacksFrom, LacksBetween, LacksGreater};

/// Whether the number is in the set.
pub fn has_number(words: &[u64], number: u32) -> bool
    ensures { result ≡ set.contains (number_set words.now) number }
{
    let place = number as usize / 64;
    place < words.len() && (words[place] >> (number % 64)) & 1 == 1
}

/// Puts the number into the set.
pub fn put_number(words: &mut [u64], number: u32)
    requires { number / 64 < length words.old }
    ensures { number_set words.new ≡ set.insert (number_set words.old) number }
{
    words[number as usize / 64] |= 1 << (number % 64);
}

/// Takes the number out of the set.
pub fn take_number(words: &mut [u64], number: u32)
    requires { number / 64 < length words.old }
    ensures { number_set words.new ≡ set.remove (number_set words.old) number }
{
    words[number as usize / 64] &= !(1 << (number % 64));
}

/// The least number of the set that is at least `from`.
pub fn next_number(words: &[u64], from: usize) -> Option<usize>
    requires { length words.now ≤ 2 ^ 26 }
    ensures none { IfNone result (LacksFrom (number_set words.now) from) }
    ensures member { IfSome result (λ n. set.contains (number_set words.now) n ≡ true) }
    ensures from { IfSome result (λ n. from ≤ n) }
    ensures least { IfSome result (LacksBetween (number_set words.now) from) }
    ensures within { IfSome result (λ n. n < 64 * length words.now) }
{
    let place = from / 64;
    if place >= words.len() {
        return None;
    }
    let rest = words[place] >> (from % 64);
    if rest != 0 {
        return Some(from + rest.trailing_zeros() as usize);
    }
    let found = next_word(words, place + 1)?;
    Some(64 * found + words[found].trailing_zeros() as usize)
}

/// The first place from `from` on whose word is not 0.
fn next_word(words: &[u64], from: usize) -> Option<usize>
    requires { from ≤ length words.now }
    ensures none { IfNone result ((i : ℕ) → from ≤ i → slice_index words.now i ≡ 0) }
    ensures from { IfSome result (λ n. from ≤ n) }
    ensures within { IfSome result (λ n. n < length words.now) }
    ensures some { IfSome result (λ n. 0 < slice_index words.now n) }
    ensures first { IfSome result (λ n. (i : ℕ) → from ≤ i → i < n → slice_index words.now i ≡ 0) }
{
    for place in from..words.len() {
        if words[place] != 0 {
            return Some(place);
        }
    }
    None
}

/// The greatest number of a set whose last word is not 0.
pub fn last_number(words: &[u64]) -> usize
    requires short { length words.now ≤ 2 ^ 26 }
    requires some { 0 < length words.now }
    requires trimmed { 0 < slice_index words.now (length words.now - 1) }
    ensures member { set.contains (number_set words.now) result ≡ true }
    ensures greatest { LacksGreater (number_set words.now) result }
    ensures within { result < 64 * length words.now }
{
    let last = words.len() - 1;
    64 * last + words[last].ilog2() as usize
}

/// How many numbers the set has.
pub fn count_numbers(words: &[u64]) -> usize
    requires { length words.now ≤ 2 ^ 26 }
    ensures { result ≡ length (members_below (number_set words.now) (64 * length words.now)) }
{
    let mut count = 0;
    for word in words {
        count += word.count_ones() as usize;
    }
    count
}
