// Nodes of a state, where the rules say how many of them are first ones.
ghost use Rattle.std.specs.Prelude.{◌≡◌, ◌+◌, ◌<◌, ◌^◌, ◌↔◌, IsTrue};
ghost use Rattle.calculus_specs.specs.State.{node_count_from, parent_from, are_apart as kept_apart};
ghost use Rattle.calculus_specs.specs.Listed.{AreJoined};
ghost use Rattle.tableau_specs.specs.declared.Block.TheVariants.{Clear};
ghost use Rattle.tableau_specs.specs.Blocked.{block_of};

use crate::{Rules, State, StateWithBlocks, StateWithRules};

/// How many nodes there are.
pub fn count_of<S: State, R: Rules>(search: &StateWithRules<'_, S, R>) -> u32
    ensures count { result ≡ node_count_from (R.context search.now.rules.now).first (S.facts search.now.state.now) }
    ensures small { result + 200 < 2 ^ 32 }
{
    search.state.nodes()
}

/// The parent of a node, which first nodes do not have.
pub(crate) fn parent_of<S: State, R: Rules>(
    search: &StateWithRules<'_, S, R>,
    node: u32,
) -> Option<u32>
    requires is_node { node < node_count_from (R.context search.now.rules.now).first (S.facts search.now.state.now) }
    ensures { result ≡ parent_from (R.context search.now.rules.now).first (S.facts search.now.state.now) node }
{
    search.state.parent(node)
}

/// The nodes that are one with a node, itself among them.
pub fn members_of<'a, S: State, R: Rules>(search: &StateWithRules<'a, S, R>, node: u32) -> &'a [u32]
    requires is_node { node < node_count_from (R.context search.now.rules.now).first (S.facts search.now.state.now) }
    ensures { let w = R.context search.now.rules.now in let fs = S.facts search.now.state.now in
        AreJoined fs (node_count_from w.first fs) node result.now }
{
    search.state.members(node)
}

/// Whether two nodes are apart.
pub(crate) fn are_apart<S: State, R: Rules>(
    search: &StateWithRules<'_, S, R>,
    one: u32,
    other: u32,
) -> bool
    requires one { one < node_count_from (R.context search.now.rules.now).first (S.facts search.now.state.now) }
    requires other { other < node_count_from (R.context search.now.rules.now).first (S.facts search.now.state.now) }
    ensures { result ≡ kept_apart (S.facts search.now.state.now) one other }
{
    search.state.are_apart(one, other)
}

/// Whether nodes may be made below a representative.
pub(crate) fn is_clear<S: StateWithBlocks, R: Rules>(
    search: &StateWithRules<'_, S, R>,
    node: u32,
) -> bool
    ensures { IsTrue result ↔ (block_of (R.context search.now.rules.now).first (S.State.facts search.now.state.now) node
        ≡ Clear) }
{
    search.state.is_clear(node)
}
