// Add: a concept that a rule without branches gives a node.
ghost use Rattle.std.specs.Prelude.{◌≡◌, ◌<◌, MatchOption};
ghost use Rattle.calculus_specs.specs.Joins.{rep};
ghost use Rattle.calculus_specs.specs.State.{node_count_from};
ghost use Rattle.step_finders.specs.Found.{NothingToAdd, NothingFrom};
ghost use Rattle.step_finders.specs.Reasons.{IsAddition};

use crate::nodes::count_of;
use crate::parts::find_at_node;
use crate::rows::find_by_rows;
use crate::{Addition, Rules, State, StateWithRules};

/// A node and a concept that is to be added to it; none exactly where there is none.
pub fn find_add<S: State, R: Rules>(search: &StateWithRules<'_, S, R>) -> Option<Addition>
    ensures { let w = R.context search.now.rules.now in let fs = S.facts search.now.state.now in
        MatchOption result (NothingToAdd w fs) (IsAddition w fs (R.files search.now.rules.now)) }
{
    search.rules.is_ready();
    for node in 0..count_of(search) {
        match find_at_representative(search, node) {
            Some(addition) => return Some(addition),
            None => {}
        }
    }
    None
}

// What is to be added because of what the node has, where it is a representative.
fn find_at_representative<S: State, R: Rules>(
    search: &StateWithRules<'_, S, R>,
    node: u32,
) -> Option<Addition>
    requires { node < node_count_from (R.context search.now.rules.now).first (S.facts search.now.state.now) }
    ensures { let w = R.context search.now.rules.now in let fs = S.facts search.now.state.now in
        MatchOption result (rep fs node ≡ node → NothingFrom w fs (R.files search.now.rules.now) node)
        (IsAddition w fs (R.files search.now.rules.now)) }
{
    if search.state.representative(node) != node {
        return None;
    }
    find_from(search, node)
}

/// What is to be added because of what the node has; none exactly where there is nothing.
pub fn find_from<S: State, R: Rules>(
    search: &StateWithRules<'_, S, R>,
    node: u32,
) -> Option<Addition>
    requires { node < node_count_from (R.context search.now.rules.now).first (S.facts search.now.state.now) }
    ensures { let w = R.context search.now.rules.now in let fs = S.facts search.now.state.now in
        MatchOption result (NothingFrom w fs (R.files search.now.rules.now) node)
        (IsAddition w fs (R.files search.now.rules.now)) }
{
    match find_at_node(search, node) {
        Some(addition) => Some(addition),
        None => find_by_rows(search, node),
    }
}
