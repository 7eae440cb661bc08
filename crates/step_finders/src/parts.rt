// What the concepts of a node add.
ghost use Rattle.std.specs.Prelude.{◌≡◌, ℕ, ◌<◌, true, false, MatchOption, List};
ghost use Rattle.std.specs.List.{All, Contains};
ghost use Rattle.calculus_specs.specs.Shape.{shape_of};
ghost use Rattle.calculus_specs.specs.Shape.Shape.{all_of, intersection};
ghost use Rattle.calculus_specs.specs.State.{node_count_from, has as holds};
ghost use Rattle.step_finders.specs.Found.{NoneByShape, NoneByConcepts, AllEndsHave, LacksAtEnd, AllCarried};
ghost use Rattle.step_finders.specs.Found.{AreCarries};
ghost use Rattle.step_finders.specs.Reasons.{IsAddition};

use crate::{Addition, Reason, Rules, State, StateWithRules};
use shq_nnf::Shape;

/// One of the concepts that the node does not have.
pub fn find_part<S: State>(state: &S, node: u32, parts: &[u32]) -> Option<u32>
    ensures { let fs = S.facts state.now in
        MatchOption result (All (λ d. holds fs node d ≡ true) parts.now)
        (λ d. Contains parts.now d × (holds fs node d ≡ false)) }
{
    for part in parts {
        if !state.has(node, *part) {
            return Some(*part);
        }
    }
    None
}

// An edge by a role below this one, as its role and its end, whose end does not have the filler.
#[tactic(auto, using(crate::proofs::Edges::all_ends_have, crate::proofs::Edges::lacks_at_end))]
fn find_end<S: State, R: Rules>(
    search: &StateWithRules<'_, S, R>,
    node: u32,
    role: u32,
    filler: u32,
) -> Option<(u32, u32)>
    ensures { let w = R.context search.now.rules.now in let fs = S.facts search.now.state.now in
        MatchOption result (AllEndsHave w fs node role filler) (λ p. LacksAtEnd w fs node role filler p.0 p.1) }
{
    for edge in search.state.edges(node) {
        if search.rules.is_below(edge.0, role) && !search.state.has(edge.1, filler) {
            return Some((edge.0, search.state.representative(edge.1)));
        }
    }
    None
}

// What the transitive roles of these pairs carry to a successor, where they are those of the universal restriction.
fn find_carried<S: State, R: Rules>(
    search: &StateWithRules<'_, S, R>,
    node: u32,
    concept: u32,
    role: u32,
    filler: u32,
    carries: &[(u32, u32)],
) -> Option<Addition>
    requires is_node { node < node_count_from (R.context search.now.rules.now).first (S.facts search.now.state.now) }
    requires holds { holds (S.facts search.now.state.now) node concept ≡ true }
    requires shape { shape_of (R.context search.now.rules.now).table concept ≡ all_of role filler }
    requires carries { AreCarries (R.context search.now.rules.now) role filler carries.now }
    ensures { let w = R.context search.now.rules.now in let fs = S.facts search.now.state.now in
        MatchOption result (AllCarried w fs node carries.now) (IsAddition w fs (R.files search.now.rules.now)) }
{
    for carry in carries {
        match find_end(search, node, carry.0, carry.1) {
            Some((by, end)) => {
                return Some(Addition {
                    node: end,
                    concept: carry.1,
                    reason: Reason::Carry {
                        from: node,
                        role: by,
                        over: carry.0,
                        concept,
                    },
                });
            }
            None => {}
        }
    }
    None
}

// What the node's universal restriction of this role and filler adds to a successor.
fn find_by_all<S: State, R: Rules>(
    search: &StateWithRules<'_, S, R>,
    node: u32,
    concept: u32,
    role: u32,
    filler: u32,
) -> Option<Addition>
    requires is_node { node < node_count_from (R.context search.now.rules.now).first (S.facts search.now.state.now) }
    requires holds { holds (S.facts search.now.state.now) node concept ≡ true }
    requires shape { shape_of (R.context search.now.rules.now).table concept ≡ all_of role filler }
    ensures { let w = R.context search.now.rules.now in let fs = S.facts search.now.state.now in
        MatchOption result (NoneByShape w fs node (all_of role filler))
        (IsAddition w fs (R.files search.now.rules.now)) }
{
    match find_end(search, node, role, filler) {
        Some((by, end)) => Some(Addition {
            node: end,
            concept: filler,
            reason: Reason::All {
                from: node,
                role: by,
                concept,
            },
        }),
        None => find_carried(
            search,
            node,
            concept,
            role,
            filler,
            search.rules.carries(concept),
        ),
    }
}

// What the node's intersection of these parts adds to it.
fn find_by_and<S: State, R: Rules>(
    search: &StateWithRules<'_, S, R>,
    node: u32,
    concept: u32,
    parts: &[u32],
) -> Option<Addition>
    requires is_node { node < node_count_from (R.context search.now.rules.now).first (S.facts search.now.state.now) }
    requires holds { holds (S.facts search.now.state.now) node concept ≡ true }
    requires shape { shape_of (R.context search.now.rules.now).table concept ≡ intersection parts.now }
    ensures { let w = R.context search.now.rules.now in let fs = S.facts search.now.state.now in
        MatchOption result (All (λ d. holds fs node d ≡ true) parts.now)
        (IsAddition w fs (R.files search.now.rules.now)) }
{
    match find_part(search.state, node, parts) {
        Some(part) => Some(Addition {
            node,
            concept: part,
            reason: Reason::And { concept },
        }),
        None => None,
    }
}

/// What a concept of the node adds to a node; none exactly where it adds nothing.
pub fn find_by_concept<S: State, R: Rules>(
    search: &StateWithRules<'_, S, R>,
    node: u32,
    concept: u32,
) -> Option<Addition>
    requires is_node { node < node_count_from (R.context search.now.rules.now).first (S.facts search.now.state.now) }
    requires holds { holds (S.facts search.now.state.now) node concept ≡ true }
    ensures { let w = R.context search.now.rules.now in let fs = S.facts search.now.state.now in
        MatchOption result (NoneByShape w fs node (shape_of w.table concept))
        (IsAddition w fs (R.files search.now.rules.now)) }
{
    match search.rules.shape(concept) {
        Shape::And(parts) => find_by_and(search, node, concept, parts),
        Shape::AllOf(role, filler) => find_by_all(search, node, concept, role, filler),
        _ => None,
    }
}

/// What the concepts of the node add to a node; none exactly where they add nothing.
pub fn find_at_node<S: State, R: Rules>(
    search: &StateWithRules<'_, S, R>,
    node: u32,
) -> Option<Addition>
    requires { node < node_count_from (R.context search.now.rules.now).first (S.facts search.now.state.now) }
    ensures { let w = R.context search.now.rules.now in let fs = S.facts search.now.state.now in
        MatchOption result (NoneByConcepts w fs node) (IsAddition w fs (R.files search.now.rules.now)) }
{
    for concept in search.state.label(node) {
        match find_by_concept(search, node, *concept) {
            Some(addition) => return Some(addition),
            None => {}
        }
    }
    None
}
