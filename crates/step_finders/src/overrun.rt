// Whether an 'at most' counts too many successors. It takes no memory.
ghost use Rattle.std.specs.Prelude.{◌≡◌, ℕ, ◌+◌, ◌<◌, ◌≤◌, ◌==◌, ◌&&◌, ◌||◌, nat_le, Bool, true, false, [], ◌∷◌};
ghost use Rattle.std.specs.Prelude.{MatchOption, IsSome, IfSome, length};
ghost use Rattle.std.specs.List.{list_all};
ghost use Rattle.calculus_specs.specs.State.{node_count_from, has as holds, are_apart as kept_apart};
ghost use Rattle.tableau_specs.specs.Clash.{filled_successors};
ghost use Rattle.tableau_specs.specs.Steps.{below_of};
ghost use Rattle.step_finders.specs.Clashing.{AnswersOverrun};
ghost use Rattle.step_finders.specs.Filled.{filled_from, IsLeast};

use crate::counted::is_counted;
use crate::nodes::{are_apart, count_of};
use crate::{Rules, State, StateWithRules};

/// Whether the successors by roles below this one that have the filler are more than so many, and pairwise apart.
pub(crate) fn is_overrun<S: State, R: Rules>(
    search: &StateWithRules<'_, S, R>,
    node: u32,
    count: u32,
    role: u32,
    filler: u32,
) -> bool
    ensures { AnswersOverrun (R.context search.now.rules.now) (S.facts search.now.state.now) node count role filler
        result }
{
    if count_edges(search, node, role, filler) <= count as usize {
        return false;
    }
    let _nodes = count_of(search);
    let mut more = 0_u32;
    let mut from = 0_u32;
    while let Some(next) = next_filled(search, node, role, filler, from) {
        if !is_apart_from_later(search, node, role, filler, next) {
            return false;
        }
        more += 1;
        from = next + 1;
    }
    more > count
}

// How many edges lead to successors that are counted: at least as many as there are such successors.
fn count_edges<S: State, R: Rules>(
    search: &StateWithRules<'_, S, R>,
    node: u32,
    role: u32,
    filler: u32,
) -> usize
    ensures { length
        (filled_successors (R.context search.now.rules.now).first (below_of (R.context search.now.rules.now))
        (S.facts search.now.state.now) node role
        filler)
        ≤ result }
{
    let mut count = 0;
    for edge in search.state.edges(node) {
        if is_counted(search, edge.0, edge.1, role, filler) {
            count += 1;
        }
    }
    count
}

// The first of the successors that are counted, by their numbers, from one on.
fn next_filled<S: State, R: Rules>(
    search: &StateWithRules<'_, S, R>,
    node: u32,
    role: u32,
    filler: u32,
    from: u32,
) -> Option<u32>
    ensures next { let w = R.context search.now.rules.now in let fs = S.facts search.now.state.now in
        MatchOption result (filled_from w.first (below_of w) fs node role filler from ≡ [])
        (λ y. filled_from w.first (below_of w) fs node role filler from
        ≡ y ∷ filled_from w.first (below_of w) fs node role filler (y + 1)) }
    ensures later { IfSome result (λ y. from ≤ y) }
    ensures within { IfSome result (λ y. y < node_count_from (R.context search.now.rules.now).first
        (S.facts search.now.state.now)) }
{
    let mut least = None;
    for edge in search.state.edges(node) {
        let end = search.state.representative(edge.1);
        least = lesser(search, least, from, *edge, end, role, filler);
    }
    least
}

// The least of the numbers so far, and the end of an edge, where the edge is counted and its end is not less than
// `from`. Whether it is counted is asked only where that can change the answer.
fn lesser<S: State, R: Rules>(
    search: &StateWithRules<'_, S, R>,
    least: Option<u32>,
    from: u32,
    edge: (u32, u32),
    end: u32,
    role: u32,
    filler: u32,
) -> Option<u32>
    ensures { (p : ℕ → Bool) → IsLeast p least → IsLeast (λ z. p z
        || (((below_of (R.context search.now.rules.now) edge.0 role && holds (S.facts search.now.state.now) edge.1
        filler) && nat_le from end)
        && z == end))
        result }
{
    if end < from || !is_less(end, least) {
        return least;
    }
    if is_counted(search, edge.0, edge.1, role, filler) {
        Some(end)
    } else {
        least
    }
}

// Whether the number is less than the other, if there is one.
fn is_less(number: u32, other: Option<u32>) -> bool
    ensures none { result ≡ false → IsSome other }
    ensures no { result ≡ false → IfSome other (λ y. y ≤ number) }
    ensures yes { result ≡ true → IfSome other (λ y. number < y) }
{
    match other {
        Some(other) => number < other,
        None => true,
    }
}

// Whether the node is apart from each successor that is counted and has a greater number.
fn is_apart_from_later<S: State, R: Rules>(
    search: &StateWithRules<'_, S, R>,
    node: u32,
    role: u32,
    filler: u32,
    first: u32,
) -> bool
    requires is_node { first < node_count_from (R.context search.now.rules.now).first (S.facts search.now.state.now) }
    ensures { let w = R.context search.now.rules.now in let fs = S.facts search.now.state.now in
        result ≡ list_all (kept_apart fs first) (filled_from w.first (below_of w) fs node role filler (first + 1)) }
{
    for edge in search.state.edges(node) {
        let end = search.state.representative(edge.1);
        if !is_passed(search, first, *edge, end, role, filler) {
            return false;
        }
    }
    true
}

// Whether the end of an edge is apart from the first, where the edge is counted and its end is later.
fn is_passed<S: State, R: Rules>(
    search: &StateWithRules<'_, S, R>,
    first: u32,
    edge: (u32, u32),
    end: u32,
    role: u32,
    filler: u32,
) -> bool
    requires first { first < node_count_from (R.context search.now.rules.now).first (S.facts search.now.state.now) }
    requires end { (below_of (R.context search.now.rules.now) edge.0 role && holds (S.facts search.now.state.now) edge.1
        filler) ≡ true
        → end < node_count_from (R.context search.now.rules.now).first (S.facts search.now.state.now) }
    ensures yes { result ≡ true
        → (below_of (R.context search.now.rules.now) edge.0 role && holds (S.facts search.now.state.now) edge.1 filler)
        ≡ true
        → first < end → kept_apart (S.facts search.now.state.now) first end ≡ true }
    ensures no_counted { result ≡ false
        → (below_of (R.context search.now.rules.now) edge.0 role && holds (S.facts search.now.state.now) edge.1 filler)
        ≡ true }
    ensures no_later { result ≡ false → first < end }
    ensures no_apart { result ≡ false → kept_apart (S.facts search.now.state.now) first end ≡ false }
{
    if end <= first || !is_counted(search, edge.0, edge.1, role, filler) {
        return true;
    }
    are_apart(search, first, end)
}
