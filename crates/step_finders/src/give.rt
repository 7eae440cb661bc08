// Give: a fact that an axiom gives.
ghost use Rattle.std.specs.Prelude.{◌≡◌, ◌==◌, true, MatchOption};
ghost use Rattle.calculus_specs.specs.State.{node_count_from, speaks_below, has_edge as leads, is_so as says_so};
ghost use Rattle.step_finders.specs.Giving.{IsGiving, NothingToGive};

use crate::{Given, Rules, State, StateWithRules};
use calculus_specs::Fact;

// Whether an edge by this very role leads from one node to another.
fn has_edge<S: State>(state: &S, role: u32, begin: u32, end: u32) -> bool
    ensures { result ≡ leads (S.facts state.now) (λ r. r == role) begin end }
{
    let to = state.representative(end);
    for edge in state.edges(begin) {
        if edge.0 == role && state.representative(edge.1) == to {
            return true;
        }
    }
    false
}

/// Whether what a fact says is so: an edge by its very role.
pub fn is_so<S: State>(state: &S, fact: Fact<u32>) -> bool
    requires { speaks_below (node_count_from (S.first state.now) (S.facts state.now)) fact ≡ true }
    ensures { result ≡ says_so (S.facts state.now) fact }
{
    match fact {
        Fact::Has(node, concept) => state.has(node, concept),
        Fact::Edge(role, begin, end) => has_edge(state, role, begin, end),
        Fact::Apart(one, other) => state.are_apart(one, other),
        Fact::Same(one, other) => state.representative(one) == state.representative(other),
    }
}

/// A given fact that is not so; none exactly where each is.
pub fn find_giving<S: State, R: Rules>(search: &StateWithRules<'_, S, R>) -> Option<Given>
    ensures { let w = R.context search.now.rules.now in let fs = S.facts search.now.state.now in
        MatchOption result (NothingToGive w fs) (IsGiving w fs) }
{
    search.rules.is_ready();
    for given in search.rules.given() {
        if !is_so(search.state, given.fact) {
            return Some(*given);
        }
    }
    None
}
