// The first of a list of sets that is part of a set, or apart from it.

ghost use Rattle.std.specs.Prelude.{◌≡◌, ℕ, ◌<◌, IfSome, IfNone, length, slice_index_or};
ghost use Rattle.std.specs.List.{All};
ghost use Rattle.lane_sieve.specs.Sets.{IsPart, DoMeet};
ghost use Rattle.pinpointing_specs.specs.Sets.{Limited};

use pinpointing_specs::AxiomSet;

/// The place of the first of the sets that is part of the set.
pub fn place_of_part(sets: &[AxiomSet], set: &AxiomSet) -> Option<usize>
    requires { All (λ s. s.limit ≡ set.now.limit) sets.now }
    ensures none { IfNone result (All (λ s. ¬ IsPart s.members set.now.members) sets.now) }
    ensures some { IfSome result (λ n. n < length sets.now) }
    ensures part { IfSome result (λ n. IsPart (slice_index_or sets.now n set.now).members set.now.members) }
    ensures first { IfSome result (λ n. (k : ℕ) (d : Limited) → k < n
        → ¬ IsPart (slice_index_or sets.now k d).members set.now.members) }
{
    for place in 0..sets.len() {
        if set.contains_all(&sets[place]) {
            return Some(place);
        }
    }
    None
}

/// The place of the first of the sets that has no number of the set.
pub fn place_apart(sets: &[AxiomSet], set: &AxiomSet) -> Option<usize>
    requires { All (λ s. s.limit ≡ set.now.limit) sets.now }
    ensures none { IfNone result (All (λ s. DoMeet s.members set.now.members) sets.now) }
    ensures some { IfSome result (λ n. n < length sets.now) }
    ensures apart { IfSome result (λ n. ¬ DoMeet (slice_index_or sets.now n set.now).members set.now.members) }
    ensures first { IfSome result (λ n. (k : ℕ) (d : Limited) → k < n
        → DoMeet (slice_index_or sets.now k d).members set.now.members) }
{
    for place in 0..sets.len() {
        if !sets[place].meets(set) {
            return Some(place);
        }
    }
    None
}
