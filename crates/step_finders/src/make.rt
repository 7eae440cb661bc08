// Generate: new nodes at the ends of edges.
ghost use Rattle.std.specs.Prelude.{◌≡◌, ◌<◌, ◌≤◌, ◌+◌, ◌^◌, [], true, false, MatchOption, IfOk, IsTrue};
ghost use Rattle.std.specs.List.{list_all, range_with_len};
ghost use Rattle.calculus_specs.specs.Shape.{shape_of};
ghost use Rattle.calculus_specs.specs.Shape.Shape.{at_least, some_of};
ghost use Rattle.calculus_specs.specs.Joins.{rep};
ghost use Rattle.calculus_specs.specs.State.{node_count_from, has as holds, are_apart, all_apart};
ghost use Rattle.tableau_specs.specs.Clash.{filled_successors as all_filled};
ghost use Rattle.tableau_specs.specs.Steps.{below_of, IsOpen};
ghost use Rattle.step_finders.specs.Making.{IsMaking, HasFiller, AnswersRun, AnswersAmong, NoMakingByShape, NoMakingAt};
ghost use Rattle.step_finders.specs.Making.{NothingToMake};

use crate::counted::filled_successors;
use crate::nodes::{count_of, is_clear};
use crate::{NoMemory, Rules, State, StateWithBlocks, StateWithRules};
use shq_nnf::Shape;
use std::alloc::Global;

/// Nodes to be made at the ends of edges.
#[derive(Clone, Copy, Debug, PartialEq, Eq)]
pub struct NewNodes {
    /// The node where the edges begin.
    pub parent: u32,
    /// The role of the edges.
    pub role: u32,
    /// The number of the concept that each new node gets.
    pub filler: u32,
    /// How many nodes.
    pub count: u32,
    /// The number of the parent's concept that asks for them.
    pub concept: u32,
}

// Whether a successor by a role below this one has the filler.
fn has_filler<S: State, R: Rules>(
    search: &StateWithRules<'_, S, R>,
    node: u32,
    role: u32,
    filler: u32,
) -> bool
    ensures yes { IsTrue result → HasFiller (R.context search.now.rules.now) (S.facts search.now.state.now) node role
        filler }
    ensures no { let w = R.context search.now.rules.now in let fs = S.facts search.now.state.now in
        result ≡ false → all_filled w.first (below_of w) fs node role filler ≡ [] }
{
    for edge in search.state.edges(node) {
        if search.rules.is_below(edge.0, role) && search.state.has(edge.1, filler) {
            return true;
        }
    }
    false
}

// Whether the node is apart from each of so many nodes in a row.
fn is_apart_from<S: State>(state: &S, node: u32, first: u32, count: u32) -> bool
    requires room { first + count < 2 ^ 32 }
    requires node { node < node_count_from (S.first state.now) (S.facts state.now) }
    requires within { first + count ≤ node_count_from (S.first state.now) (S.facts state.now) }
    ensures { result ≡ list_all (are_apart (S.facts state.now) node) (range_with_len first count) }
{
    let end = first + count;
    for other in first..end {
        if !state.are_apart(node, other) {
            return false;
        }
    }
    true
}

// Whether so many nodes in a row are pairwise apart.
fn are_all_apart<S: State>(state: &S, first: u32, count: u32) -> bool
    requires room { first + count < 2 ^ 32 }
    requires within { first + count ≤ node_count_from (S.first state.now) (S.facts state.now) }
    ensures { result ≡ all_apart (S.facts state.now) (range_with_len first count) }
{
    let end = first + count;
    for node in first..end {
        if !is_apart_from(state, node, node + 1, end - (node + 1)) {
            return false;
        }
    }
    true
}

// Whether so many nodes in a row are at ends of edges by roles below this one and have the filler, and are pairwise
// apart. A node that has been joined to another is one of them where its representative is.
fn has_run<S: State, R: Rules>(
    alloc: Global,
    search: &StateWithRules<'_, S, R>,
    node: u32,
    count: u32,
    role: u32,
    filler: u32,
) -> Result<bool, NoMemory>
    requires some { 0 < count }
    requires few { count < 200 }
    ensures { IfOk result (λ found. AnswersRun (R.context search.now.rules.now) (S.facts search.now.state.now) node
        count role filler found) }
{
    let ends = filled_successors(alloc, search, node, role, filler)?;
    Ok(has_run_among(search.state, &ends, search.state.nodes(), count))
}

// Whether so many nodes in a row below the bound have representatives in the list, and are pairwise apart. The nodes
// from `start` to this one are such.
fn has_run_among<S: State>(state: &S, ends: &[u32], bound: u32, count: u32) -> bool
    requires some { 0 < count }
    requires small { bound + count < 2 ^ 32 }
    requires within { bound ≤ node_count_from (S.first state.now) (S.facts state.now) }
    ensures { AnswersAmong (S.facts state.now) ends.now bound count result }
{
    let mut start = 0;
    for node in 0..bound {
        if !ends.contains(&state.representative(node)) {
            start = node + 1;
        } else if start + count <= node + 1 && are_all_apart(state, node + 1 - count, count) {
            return true;
        }
    }
    false
}

// What is to be made since the node has an existential restriction.
fn find_by_some<S: State, R: Rules>(
    search: &StateWithRules<'_, S, R>,
    node: u32,
    concept: u32,
    role: u32,
    filler: u32,
) -> Option<NewNodes>
    requires is_open { IsOpen (R.context search.now.rules.now) (S.facts search.now.state.now) node }
    requires holds { holds (S.facts search.now.state.now) node concept ≡ true }
    requires shape { shape_of (R.context search.now.rules.now).table concept ≡ some_of role filler }
    ensures { let w = R.context search.now.rules.now in let fs = S.facts search.now.state.now in
        MatchOption result (NoMakingByShape w fs node (some_of role filler)) (IsMaking w fs) }
{
    if has_filler(search, node, role, filler) {
        return None;
    }
    Some(NewNodes {
        parent: node,
        role,
        filler,
        count: 1,
        concept,
    })
}

/// What is to be made since the node has the concept; none exactly where nothing is.
///
/// # Errors
///
/// Out of memory.
pub fn find_making_by<S: State, R: Rules>(
    alloc: Global,
    search: &StateWithRules<'_, S, R>,
    node: u32,
    concept: u32,
) -> Result<Option<NewNodes>, NoMemory>
    requires is_open { IsOpen (R.context search.now.rules.now) (S.facts search.now.state.now) node }
    requires holds { holds (S.facts search.now.state.now) node concept ≡ true }
    ensures { let w = R.context search.now.rules.now in let fs = S.facts search.now.state.now in
        IfOk result (λ found. MatchOption found (NoMakingByShape w fs node (shape_of w.table concept))
        (IsMaking w fs)) }
{
    match search.rules.shape(concept) {
        Shape::SomeOf(role, filler) => { Ok(find_by_some(search, node, concept, role, filler)) }
        Shape::Min(count, role, filler) => find_by_least(
            alloc, search, node, concept, count, role, filler,
        ),
        _ => Ok(None),
    }
}

// What is to be made since the node has an 'at least'.
#[tactic(auto, using(crate::proofs::Making::least_some, crate::proofs::Making::least_few))]
fn find_by_least<S: State, R: Rules>(
    alloc: Global,
    search: &StateWithRules<'_, S, R>,
    node: u32,
    concept: u32,
    count: u32,
    role: u32,
    filler: u32,
) -> Result<Option<NewNodes>, NoMemory>
    requires is_open { IsOpen (R.context search.now.rules.now) (S.facts search.now.state.now) node }
    requires holds { holds (S.facts search.now.state.now) node concept ≡ true }
    requires shape { shape_of (R.context search.now.rules.now).table concept ≡ at_least count role filler }
    ensures { let w = R.context search.now.rules.now in let fs = S.facts search.now.state.now in
        IfOk result (λ found. MatchOption found (NoMakingByShape w fs node (at_least count role filler))
        (IsMaking w fs)) }
{
    search.rules.is_ready();
    if has_run(alloc, search, node, count, role, filler)? {
        return Ok(None);
    }
    Ok(Some(NewNodes {
        parent: node,
        role,
        filler,
        count,
        concept,
    }))
}

/// What is to be made since the node has some concept; none exactly where nothing is.
///
/// # Errors
///
/// Out of memory.
pub fn find_making_at<S: State, R: Rules>(
    alloc: Global,
    search: &StateWithRules<'_, S, R>,
    node: u32,
) -> Result<Option<NewNodes>, NoMemory>
    requires is_open { IsOpen (R.context search.now.rules.now) (S.facts search.now.state.now) node }
    ensures { let w = R.context search.now.rules.now in let fs = S.facts search.now.state.now in
        IfOk result (λ found. MatchOption found (NoMakingAt w fs node) (IsMaking w fs)) }
{
    for concept in search.state.label(node) {
        match find_making_by(alloc, search, node, *concept)? {
            Some(new) => return Ok(Some(new)),
            None => {}
        }
    }
    Ok(None)
}

// The same, where the node is clear and a representative.
fn find_at_open<S: StateWithBlocks, R: Rules>(
    alloc: Global,
    search: &StateWithRules<'_, S, R>,
    node: u32,
) -> Result<Option<NewNodes>, NoMemory>
    requires is_node { node < node_count_from (R.context search.now.rules.now).first (S.facts search.now.state.now) }
    ensures { let w = R.context search.now.rules.now in let fs = S.facts search.now.state.now in
        IfOk result (λ found. MatchOption found (IsOpen w fs node → NoMakingAt w fs node) (IsMaking w fs)) }
{
    if search.state.representative(node) != node {
        return Ok(None);
    }
    if !is_clear(search, node) {
        return Ok(None);
    }
    find_making_at(alloc, search, node)
}

/// What nodes are to be made; none exactly where there are none.
///
/// # Errors
///
/// Out of memory.
pub fn find_making<S: StateWithBlocks, R: Rules>(
    alloc: Global,
    search: &StateWithRules<'_, S, R>,
) -> Result<Option<NewNodes>, NoMemory>
    ensures { let w = R.context search.now.rules.now in let fs = S.facts search.now.state.now in
        IfOk result (λ found. MatchOption found (NothingToMake w fs) (IsMaking w fs)) }
{
    for node in 0..count_of(search) {
        match find_at_open(alloc, search, node)? {
            Some(new) => return Ok(Some(new)),
            None => {}
        }
    }
    Ok(None)
}
