// Choose: the parts of a union, a filler or its complement, or whether two nodes are one.
ghost use Rattle.std.specs.Prelude.{◌≡◌, ◌<◌, true, false, MatchOption, IfOk, IsTrue};
ghost use Rattle.std.specs.List.{list_any};
ghost use Rattle.calculus_specs.specs.Shape.{shape_of};
ghost use Rattle.calculus_specs.specs.Shape.Shape.{union, at_most};
ghost use Rattle.calculus_specs.specs.Joins.{rep};
ghost use Rattle.calculus_specs.specs.State.{node_count_from, has as holds, is_successor};
ghost use Rattle.tableau_specs.specs.Steps.{below_of};
ghost use Rattle.step_finders.specs.Choosing.{IsChoosable, HasComplement, LacksComplement, IsDecided, IsUndecided};
ghost use Rattle.step_finders.specs.Choosing.{AllDecided, UndecidedAtEnd, NoPair, IsPair, IsRoleTo, NoUnionByShape};
ghost use Rattle.step_finders.specs.Choosing.{NoMostByShape, NoPairByShape, NoUnionAt, NoMostAt, NoUnion, NoMost};
ghost use Rattle.step_finders.specs.Choosing.{NothingToChoose};

use crate::counted::filled_successors;
use crate::nodes::count_of;
use crate::unapart::find_unapart;
use crate::{Choosing, NoMemory, Rules, State, StateWithRules};
use shq_nnf::Shape;
use std::alloc::Global;

// Whether the node has one of the concepts.
fn has_any<S: State>(state: &S, node: u32, concepts: &[u32]) -> bool
    ensures { result ≡ list_any (holds (S.facts state.now) node) concepts.now }
{
    for concept in concepts {
        if state.has(node, *concept) {
            return true;
        }
    }
    false
}

// Whether the node has the complement of the concept.
fn has_complement<S: State, R: Rules>(
    search: &StateWithRules<'_, S, R>,
    node: u32,
    concept: u32,
) -> bool
    ensures yes { IsTrue result → HasComplement (R.context search.now.rules.now) (S.facts search.now.state.now) node
        concept }
    ensures no { result ≡ false → LacksComplement (R.context search.now.rules.now) (S.facts search.now.state.now) node
        concept }
{
    search.rules.is_ready();
    match search.rules.complement(concept) {
        Some(complement) => search.state.has(node, complement),
        None => false,
    }
}

// Whether the node has the concept or its complement.
fn is_decided<S: State, R: Rules>(
    search: &StateWithRules<'_, S, R>,
    node: u32,
    concept: u32,
) -> bool
    ensures yes { IsTrue result → IsDecided (R.context search.now.rules.now) (S.facts search.now.state.now) node
        concept }
    ensures no { result ≡ false → IsUndecided (R.context search.now.rules.now) (S.facts search.now.state.now) node
        concept }
{
    if search.state.has(node, concept) {
        return true;
    }
    has_complement(search, node, concept)
}

// An edge by a role below this one, as its role and its end, whose end has neither the filler nor its complement.
fn find_undecided<S: State, R: Rules>(
    search: &StateWithRules<'_, S, R>,
    node: u32,
    role: u32,
    filler: u32,
) -> Option<(u32, u32)>
    ensures { let w = R.context search.now.rules.now in let fs = S.facts search.now.state.now in
        MatchOption result (AllDecided w fs node role filler) (λ p. UndecidedAtEnd w fs node role filler p.0 p.1) }
{
    for edge in search.state.edges(node) {
        if search.rules.is_below(edge.0, role) && !is_decided(search, edge.1, filler) {
            return Some((edge.0, search.state.representative(edge.1)));
        }
    }
    None
}

// Two successors with the filler that are not apart, where there are more than so many.
fn find_pair<S: State, R: Rules>(
    alloc: Global,
    search: &StateWithRules<'_, S, R>,
    node: u32,
    count: u32,
    role: u32,
    filler: u32,
) -> Result<Option<(u32, u32)>, NoMemory>
    ensures { let w = R.context search.now.rules.now in let fs = S.facts search.now.state.now in
        IfOk result (λ found. MatchOption found (NoPair w fs node count role filler)
        (λ p. IsPair w fs node count role filler p.0 p.1)) }
{
    let nodes = filled_successors(alloc, search, node, role, filler)?;
    if nodes.len() <= count as usize {
        return Ok(None);
    }
    Ok(find_unapart(search.state, &nodes))
}

/// A role below this one by which an edge leads from the node to this representative; none exactly where there is none.
pub fn role_to<S: State, R: Rules>(
    search: &StateWithRules<'_, S, R>,
    node: u32,
    role: u32,
    end: u32,
) -> Option<u32>
    ensures { let w = R.context search.now.rules.now in let fs = S.facts search.now.state.now in
        MatchOption result (is_successor fs (λ r. below_of w r role) node end ≡ false) (IsRoleTo w fs node role end) }
{
    for edge in search.state.edges(node) {
        if search.rules.is_below(edge.0, role) && search.state.representative(edge.1) == end {
            return Some(edge.0);
        }
    }
    None
}

// The choice of two successors, with their edges.
fn pair_of<S: State, R: Rules>(
    search: &StateWithRules<'_, S, R>,
    node: u32,
    concept: u32,
    count: u32,
    role: u32,
    filler: u32,
    first: u32,
    second: u32,
) -> Option<Choosing>
    requires is_node { node < node_count_from (R.context search.now.rules.now).first (S.facts search.now.state.now) }
    requires holds { holds (S.facts search.now.state.now) node concept ≡ true }
    requires shape { shape_of (R.context search.now.rules.now).table concept ≡ at_most count role filler }
    requires pair { IsPair (R.context search.now.rules.now) (S.facts search.now.state.now) node count role filler first
        second }
    ensures { MatchOption result ⊥ (IsChoosable (R.context search.now.rules.now) (S.facts search.now.state.now)) }
{
    match role_to(search, node, role, first) {
        Some(first_role) => match role_to(search, node, role, second) {
            Some(second_role) => Some(Choosing::Pair {
                first,
                second,
                from: node,
                first_role,
                second_role,
                concept,
            }),
            None => None,
        },
        None => None,
    }
}

// What there is to choose at successors since the node has an 'at most'.
fn find_by_most<S: State, R: Rules>(
    alloc: Global,
    search: &StateWithRules<'_, S, R>,
    node: u32,
    concept: u32,
    count: u32,
    role: u32,
    filler: u32,
) -> Result<Option<Choosing>, NoMemory>
    requires is_node { node < node_count_from (R.context search.now.rules.now).first (S.facts search.now.state.now) }
    requires holds { holds (S.facts search.now.state.now) node concept ≡ true }
    requires shape { shape_of (R.context search.now.rules.now).table concept ≡ at_most count role filler }
    ensures { let w = R.context search.now.rules.now in let fs = S.facts search.now.state.now in
        IfOk result (λ found. MatchOption found (NoMostByShape w fs node (at_most count role filler))
        (IsChoosable w fs)) }
{
    match find_undecided(search, node, role, filler) {
        Some((by, end)) => Ok(Some(Choosing::Filler {
            node: end,
            filler,
            from: node,
            role: by,
            concept,
        })),
        None => find_pair_by_most(alloc, search, node, concept, count, role, filler),
    }
}

// What pair of successors there is to choose since the node has an 'at most'.
fn find_pair_by_most<S: State, R: Rules>(
    alloc: Global,
    search: &StateWithRules<'_, S, R>,
    node: u32,
    concept: u32,
    count: u32,
    role: u32,
    filler: u32,
) -> Result<Option<Choosing>, NoMemory>
    requires is_node { node < node_count_from (R.context search.now.rules.now).first (S.facts search.now.state.now) }
    requires holds { holds (S.facts search.now.state.now) node concept ≡ true }
    requires shape { shape_of (R.context search.now.rules.now).table concept ≡ at_most count role filler }
    ensures { let w = R.context search.now.rules.now in let fs = S.facts search.now.state.now in
        IfOk result (λ found. MatchOption found (NoPair w fs node count role filler) (IsChoosable w fs)) }
{
    match find_pair(alloc, search, node, count, role, filler)? {
        Some((first, second)) => Ok(pair_of(
            search, node, concept, count, role, filler, first, second,
        )),
        None => Ok(None),
    }
}

// Which part is to be chosen since the node has a union.
fn find_by_union<S: State, R: Rules>(
    search: &StateWithRules<'_, S, R>,
    node: u32,
    concept: u32,
    parts: &[u32],
) -> Option<Choosing>
    requires is_node { node < node_count_from (R.context search.now.rules.now).first (S.facts search.now.state.now) }
    requires holds { holds (S.facts search.now.state.now) node concept ≡ true }
    requires shape { shape_of (R.context search.now.rules.now).table concept ≡ union parts.now }
    ensures { let w = R.context search.now.rules.now in let fs = S.facts search.now.state.now in
        MatchOption result (NoUnionByShape w fs node (union parts.now)) (IsChoosable w fs) }
{
    search.rules.is_ready();
    if has_any(search.state, node, parts) {
        None
    } else {
        Some(Choosing::Union { node, concept })
    }
}

/// What there is to choose at successors since the node has the concept, where that is an 'at most'; none exactly where
/// there is nothing.
///
/// # Errors
///
/// Out of memory.
pub fn find_most_by<S: State, R: Rules>(
    alloc: Global,
    search: &StateWithRules<'_, S, R>,
    node: u32,
    concept: u32,
) -> Result<Option<Choosing>, NoMemory>
    requires is_node { node < node_count_from (R.context search.now.rules.now).first (S.facts search.now.state.now) }
    requires holds { holds (S.facts search.now.state.now) node concept ≡ true }
    ensures { let w = R.context search.now.rules.now in let fs = S.facts search.now.state.now in
        IfOk result (λ found. MatchOption found (NoMostByShape w fs node (shape_of w.table concept))
        (IsChoosable w fs)) }
{
    match search.rules.shape(concept) {
        Shape::Max(count, role, filler) => {
            find_by_most(alloc, search, node, concept, count, role, filler)
        }
        _ => Ok(None),
    }
}

/// Two successors to be made one or kept apart since the node has the concept, where that is an 'at most'; none exactly
/// where there are none.
///
/// # Errors
///
/// Out of memory.
pub fn find_pair_by<S: State, R: Rules>(
    alloc: Global,
    search: &StateWithRules<'_, S, R>,
    node: u32,
    concept: u32,
) -> Result<Option<Choosing>, NoMemory>
    requires is_node { node < node_count_from (R.context search.now.rules.now).first (S.facts search.now.state.now) }
    requires holds { holds (S.facts search.now.state.now) node concept ≡ true }
    ensures { let w = R.context search.now.rules.now in let fs = S.facts search.now.state.now in
        IfOk result (λ found. MatchOption found (NoPairByShape w fs node (shape_of w.table concept))
        (IsChoosable w fs)) }
{
    match search.rules.shape(concept) {
        Shape::Max(count, role, filler) => {
            find_pair_by_most(alloc, search, node, concept, count, role, filler)
        }
        _ => Ok(None),
    }
}

/// Which part is to be chosen since the node has the concept, where that is a union; none exactly where none is.
pub fn find_union_by<S: State, R: Rules>(
    search: &StateWithRules<'_, S, R>,
    node: u32,
    concept: u32,
) -> Option<Choosing>
    requires is_node { node < node_count_from (R.context search.now.rules.now).first (S.facts search.now.state.now) }
    requires holds { holds (S.facts search.now.state.now) node concept ≡ true }
    ensures { let w = R.context search.now.rules.now in let fs = S.facts search.now.state.now in
        MatchOption result (NoUnionByShape w fs node (shape_of w.table concept)) (IsChoosable w fs) }
{
    match search.rules.shape(concept) {
        Shape::Or(parts) => find_by_union(search, node, concept, parts),
        _ => None,
    }
}

/// What there is to choose at successors of the node; none exactly where there is nothing.
///
/// # Errors
///
/// Out of memory.
pub fn find_most_at<S: State, R: Rules>(
    alloc: Global,
    search: &StateWithRules<'_, S, R>,
    node: u32,
) -> Result<Option<Choosing>, NoMemory>
    requires is_node { node < node_count_from (R.context search.now.rules.now).first (S.facts search.now.state.now) }
    ensures { let w = R.context search.now.rules.now in let fs = S.facts search.now.state.now in
        IfOk result (λ found. MatchOption found (NoMostAt w fs node) (IsChoosable w fs)) }
{
    for concept in search.state.label(node) {
        match find_most_by(alloc, search, node, *concept)? {
            Some(choosing) => return Ok(Some(choosing)),
            None => {}
        }
    }
    Ok(None)
}

/// Which part of a union of the node is to be chosen; none exactly where none is.
pub fn find_union_at<S: State, R: Rules>(
    search: &StateWithRules<'_, S, R>,
    node: u32,
) -> Option<Choosing>
    requires { node < node_count_from (R.context search.now.rules.now).first (S.facts search.now.state.now) }
    ensures { let w = R.context search.now.rules.now in let fs = S.facts search.now.state.now in
        MatchOption result (NoUnionAt w fs node) (IsChoosable w fs) }
{
    for concept in search.state.label(node) {
        match find_union_by(search, node, *concept) {
            Some(choosing) => return Some(choosing),
            None => {}
        }
    }
    None
}

// What there is to choose at successors of the node, where it is a representative.
fn find_most_of_rep<S: State, R: Rules>(
    alloc: Global,
    search: &StateWithRules<'_, S, R>,
    node: u32,
) -> Result<Option<Choosing>, NoMemory>
    requires is_node { node < node_count_from (R.context search.now.rules.now).first (S.facts search.now.state.now) }
    ensures { let w = R.context search.now.rules.now in let fs = S.facts search.now.state.now in
        IfOk result (λ found. MatchOption found (rep fs node ≡ node → NoMostAt w fs node) (IsChoosable w fs)) }
{
    if search.state.representative(node) != node {
        return Ok(None);
    }
    find_most_at(alloc, search, node)
}

// Which part of a union of the node is to be chosen, where it is a representative.
fn find_union_of_rep<S: State, R: Rules>(
    search: &StateWithRules<'_, S, R>,
    node: u32,
) -> Option<Choosing>
    requires { node < node_count_from (R.context search.now.rules.now).first (S.facts search.now.state.now) }
    ensures { let w = R.context search.now.rules.now in let fs = S.facts search.now.state.now in
        MatchOption result (rep fs node ≡ node → NoUnionAt w fs node) (IsChoosable w fs) }
{
    if search.state.representative(node) != node {
        return None;
    }
    find_union_at(search, node)
}

/// A filler to be chosen at a successor, or two successors to be made one or kept apart; none exactly where there are
/// none.
///
/// # Errors
///
/// Out of memory.
pub fn find_most<S: State, R: Rules>(
    alloc: Global,
    search: &StateWithRules<'_, S, R>,
) -> Result<Option<Choosing>, NoMemory>
    ensures { let w = R.context search.now.rules.now in let fs = S.facts search.now.state.now in
        IfOk result (λ found. MatchOption found (NoMost w fs) (IsChoosable w fs)) }
{
    for node in 0..count_of(search) {
        match find_most_of_rep(alloc, search, node)? {
            Some(choosing) => return Ok(Some(choosing)),
            None => {}
        }
    }
    Ok(None)
}

/// A union of which a part is to be chosen; none exactly where there is none.
pub fn find_union<S: State, R: Rules>(search: &StateWithRules<'_, S, R>) -> Option<Choosing>
    ensures { let w = R.context search.now.rules.now in let fs = S.facts search.now.state.now in
        MatchOption result (NoUnion w fs) (IsChoosable w fs) }
{
    for node in 0..count_of(search) {
        match find_union_of_rep(search, node) {
            Some(choosing) => return Some(choosing),
            None => {}
        }
    }
    None
}

/// What there is to choose, fillers and pairs before unions; none exactly where there is nothing.
///
/// # Errors
///
/// Out of memory.
pub fn find_choice<S: State, R: Rules>(
    alloc: Global,
    search: &StateWithRules<'_, S, R>,
) -> Result<Option<Choosing>, NoMemory>
    ensures { let w = R.context search.now.rules.now in let fs = S.facts search.now.state.now in
        IfOk result (λ found. MatchOption found (NothingToChoose w fs) (IsChoosable w fs)) }
{
    match find_most(alloc, search)? {
        Some(choosing) => Ok(Some(choosing)),
        None => Ok(find_union(search)),
    }
}
