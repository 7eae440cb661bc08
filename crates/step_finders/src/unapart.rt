// Two of some nodes that are not apart.
ghost use Rattle.std.specs.Prelude.{◌≡◌, ℕ, ◌+◌, ◌<◌, ◌==◌, MatchOption, true, drop, slice_index, length};
ghost use Rattle.std.specs.List.{list_all, All, IsDistinct};
ghost use Rattle.calculus_specs.specs.State.{node_count_from, are_apart, all_apart};
ghost use Rattle.step_finders.specs.Filled.{AreUnapart, IsLater};

use crate::State;

/// Two of the nodes, which differ, that are not apart.
pub fn find_unapart<S: State>(state: &S, nodes: &[u32]) -> Option<(u32, u32)>
    requires distinct { IsDistinct (λ y z. y == z) nodes.now }
    requires within { All (λ y. y < node_count_from (S.first state.now) (S.facts state.now)) nodes.now }
    ensures { let fs = S.facts state.now in
        MatchOption result (all_apart fs nodes.now ≡ true) (λ p. AreUnapart fs nodes.now p.0 p.1) }
{
    for place in 0..nodes.len() {
        match find_later(state, nodes, place) {
            Some(other) => return Some((nodes[place], other)),
            None => {}
        }
    }
    None
}

// A node behind that place from which the node there is not apart.
fn find_later<S: State>(state: &S, nodes: &[u32], place: usize) -> Option<u32>
    requires place { place < length nodes.now }
    requires within { All (λ y. y < node_count_from (S.first state.now) (S.facts state.now)) nodes.now }
    ensures { let fs = S.facts state.now in
        MatchOption result (list_all (are_apart fs (slice_index nodes.now place)) (drop (place + 1) nodes.now) ≡ true)
        (λ z. IsLater fs nodes.now place z) }
{
    for later in place + 1..nodes.len() {
        if !state.are_apart(nodes[place], nodes[later]) {
            return Some(nodes[later]);
        }
    }
    None
}
