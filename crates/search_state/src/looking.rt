// Whether the last facts have made a plain clash.
ghost use Rattle.std.specs.Prelude.{◌≡◌, MatchOption};
ghost use Rattle.step_agenda.specs.Trail.{facts_in};
ghost use Rattle.step_finders.specs.Clashing.{IsShown, NoClashByNew};
ghost use Rattle.search_state.specs.Looking.{IsLookable, IsNewLookable, NoClashByFact};

use calculus_specs::Fact;
use std::alloc::Allocator;
use step_agenda::{Tree, TreeState};
use step_finders::{
    Clash, NewNodes, Rules, StateWithRules, find_clash, find_clash_of_apart, find_clash_of_edge,
    find_clash_of_join, find_clash_of_new_nodes,
};

/// A plain clash that is there by the fact; none exactly where there is none.
pub(crate) fn find_clash_by<A: Allocator + Copy, R: Rules>(
    tree: &Tree<A>,
    rules: &R,
    fact: Fact<u32>,
) -> Option<Clash>
    requires one_first { tree.now.first ≡ (R.context rules.now).first }
    requires lookable { IsLookable (R.context rules.now) (facts_in tree.now.entries) fact }
    ensures { let w = R.context rules.now in let fs = facts_in tree.now.entries in
        MatchOption result (NoClashByFact w fs fact) (IsShown w fs) }
{
    let state = TreeState::new(tree);
    let search = StateWithRules {
        state: &state,
        rules,
    };
    match fact {
        Fact::Has(node, concept) => find_clash(&search, node, concept),
        Fact::Edge(role, begin, end) => find_clash_of_edge(&search, role, begin, end),
        Fact::Apart(first, second) => find_clash_of_apart(&search, first, second),
        Fact::Same(first, _) => find_clash_of_join(&search, first),
    }
}

/// A plain clash that is there by new nodes, of which this is the first; none exactly where there is none.
pub(crate) fn find_clash_by_new<A: Allocator + Copy, R: Rules>(
    tree: &Tree<A>,
    rules: &R,
    new: &NewNodes,
    first: u32,
) -> Option<Clash>
    requires one_first { tree.now.first ≡ (R.context rules.now).first }
    requires lookable { IsNewLookable (R.context rules.now) (facts_in tree.now.entries) new.now first }
    ensures { let w = R.context rules.now in let fs = facts_in tree.now.entries in
        MatchOption result (NoClashByNew w fs new.now.parent new.now.role new.now.filler) (IsShown w fs) }
{
    let state = TreeState::new(tree);
    let search = StateWithRules {
        state: &state,
        rules,
    };
    find_clash_of_new_nodes(&search, new.parent, new.role, new.filler, first)
}
