// Pairs of successors to be made one or kept apart, at the facts by which there may be too many.
ghost use Rattle.std.specs.Prelude.{◌≡◌, ◌<◌, IfOk, IfSome};
ghost use Rattle.step_finders.specs.Choosing.{IsChoosable};

use crate::NoMemory;
use crate::above::{above, members_at};
use blocking::Item;
use calculus_specs::Fact;
use std::alloc::Global;
use step_finders::{Choosing, Rules, Shape, State, StateWithRules, count_of, find_pair_by};

// Top, the filler that each node has.
const TOP: u32 = 0;

// Which concepts of a node are looked at.
#[derive(Clone, Copy)]
enum Asked<'a> {
    // These, if the node has them.
    These(&'a [u32]),
    // All that it has.
    Own,
}

/// A choice that the entry makes possible: whether two successors are made one or kept apart. It is called a pair here.
///
/// # Errors
///
/// Out of memory.
pub(crate) fn pair_by<S: State, R: Rules>(
    heap: Global,
    item: Item,
    search: &StateWithRules<'_, S, R>,
) -> Result<Option<Choosing>, NoMemory>
    ensures { IfOk result (λ found. IfSome found
        (IsChoosable (R.context search.now.rules.now) (S.facts search.now.state.now))) }
{
    match item {
        Item::Fact(Fact::Has(node, concept)) => {
            pair_by_concept(heap, search, search.state.representative(node), concept)
        }
        Item::Fact(Fact::Edge(role, from, to)) => {
            pair_by_edge(heap, search, role, search.state.representative(from), to)
        }
        Item::Fact(Fact::Same(node, _)) => {
            pair_by_join(heap, search, search.state.representative(node))
        }
        Item::Fact(Fact::Apart(_, _)) => Ok(None),
        Item::Mark(_) => Ok(None),
    }
}

// A pair by the concept, if that is an 'at most', or by an 'at most' of a node above, if the concept is its filler.
fn pair_by_concept<S: State, R: Rules>(
    heap: Global,
    search: &StateWithRules<'_, S, R>,
    node: u32,
    concept: u32,
) -> Result<Option<Choosing>, NoMemory>
    ensures { IfOk result (λ found. IfSome found
        (IsChoosable (R.context search.now.rules.now) (S.facts search.now.state.now))) }
{
    match pair_of(heap, search, node, concept)? {
        Some(choosing) => Ok(Some(choosing)),
        None => pair_by_mosts_above(heap, search, node, search.rules.mosts(concept)),
    }
}

// A pair by one of these concepts, each an 'at most', if a node above has it.
fn pair_by_mosts_above<S: State, R: Rules>(
    heap: Global,
    search: &StateWithRules<'_, S, R>,
    node: u32,
    mosts: &[u32],
) -> Result<Option<Choosing>, NoMemory>
    ensures { IfOk result (λ found. IfSome found
        (IsChoosable (R.context search.now.rules.now) (S.facts search.now.state.now))) }
{
    if mosts.is_empty() {
        return Ok(None);
    }
    pair_above(heap, search, node, Asked::These(mosts))
}

// A pair by a concept of a node from which an edge leads to this one.
fn pair_above<S: State, R: Rules>(
    heap: Global,
    search: &StateWithRules<'_, S, R>,
    node: u32,
    asked: Asked<'_>,
) -> Result<Option<Choosing>, NoMemory>
    ensures { IfOk result (λ found. IfSome found
        (IsChoosable (R.context search.now.rules.now) (S.facts search.now.state.now))) }
{
    match above(search.state, node) {
        Some(above) => return pair_of_asked(heap, search, above, asked),
        None => {}
    }
    for member in members_at(search.state, node) {
        match pair_into(heap, search, *member, asked)? {
            Some(choosing) => return Ok(Some(choosing)),
            None => {}
        }
    }
    Ok(None)
}

// A pair by a concept of a node from which an edge to this one is given.
fn pair_into<S: State, R: Rules>(
    heap: Global,
    search: &StateWithRules<'_, S, R>,
    node: u32,
    asked: Asked<'_>,
) -> Result<Option<Choosing>, NoMemory>
    ensures { IfOk result (λ found. IfSome found
        (IsChoosable (R.context search.now.rules.now) (S.facts search.now.state.now))) }
{
    for edge in search.rules.given_into(node) {
        match pair_of_asked(heap, search, search.state.representative(edge.1), asked)? {
            Some(choosing) => return Ok(Some(choosing)),
            None => {}
        }
    }
    Ok(None)
}

// A pair by one of the concepts of the node that are looked at.
fn pair_of_asked<S: State, R: Rules>(
    heap: Global,
    search: &StateWithRules<'_, S, R>,
    node: u32,
    asked: Asked<'_>,
) -> Result<Option<Choosing>, NoMemory>
    ensures { IfOk result (λ found. IfSome found
        (IsChoosable (R.context search.now.rules.now) (S.facts search.now.state.now))) }
{
    match asked {
        Asked::These(concepts) => pair_of_any(heap, search, node, concepts),
        Asked::Own => pair_of_any(heap, search, node, search.state.label(node)),
    }
}

// A pair by one of these concepts, if the node has it.
fn pair_of_any<S: State, R: Rules>(
    heap: Global,
    search: &StateWithRules<'_, S, R>,
    node: u32,
    concepts: &[u32],
) -> Result<Option<Choosing>, NoMemory>
    ensures { IfOk result (λ found. IfSome found
        (IsChoosable (R.context search.now.rules.now) (S.facts search.now.state.now))) }
{
    for concept in concepts {
        match pair_of(heap, search, node, *concept)? {
            Some(choosing) => return Ok(Some(choosing)),
            None => {}
        }
    }
    Ok(None)
}

// A pair by an 'at most' of the beginning of an edge that counts its end. If the end is no first node, only an 'at
// most' of all successors is looked for, since whatever else the end has came after the edge.
fn pair_by_edge<S: State, R: Rules>(
    heap: Global,
    search: &StateWithRules<'_, S, R>,
    role: u32,
    from: u32,
    to: u32,
) -> Result<Option<Choosing>, NoMemory>
    ensures { IfOk result (λ found. IfSome found
        (IsChoosable (R.context search.now.rules.now) (S.facts search.now.state.now))) }
{
    if to >= search.rules.first() {
        return pair_by_filler(heap, search, role, from, TOP);
    }
    for concept in search.state.label(to) {
        match pair_by_filler(heap, search, role, from, *concept)? {
            Some(choosing) => return Ok(Some(choosing)),
            None => {}
        }
    }
    Ok(None)
}

// A pair by an 'at most' of the node with this filler, of a role above this one.
fn pair_by_filler<S: State, R: Rules>(
    heap: Global,
    search: &StateWithRules<'_, S, R>,
    role: u32,
    node: u32,
    filler: u32,
) -> Result<Option<Choosing>, NoMemory>
    ensures { IfOk result (λ found. IfSome found
        (IsChoosable (R.context search.now.rules.now) (S.facts search.now.state.now))) }
{
    for concept in search.rules.mosts(filler) {
        if counts(search.rules, *concept, role) {
            match pair_of(heap, search, node, *concept)? {
                Some(choosing) => return Ok(Some(choosing)),
                None => {}
            }
        }
    }
    Ok(None)
}

// Whether the concept is an 'at most' of a role above this one.
fn counts<R: Rules>(rules: &R, concept: u32, role: u32) -> bool {
    match rules.shape(concept) {
        Shape::Max(_, upper, _) => rules.is_below(role, upper),
        Shape::Top
        | Shape::Bottom
        | Shape::Name(_)
        | Shape::NotName(_)
        | Shape::And(_)
        | Shape::Or(_)
        | Shape::SomeOf(_, _)
        | Shape::AllOf(_, _)
        | Shape::Min(_, _, _) => false,
    }
}

// A pair by a concept that a joined node has, or a node above it.
fn pair_by_join<S: State, R: Rules>(
    heap: Global,
    search: &StateWithRules<'_, S, R>,
    node: u32,
) -> Result<Option<Choosing>, NoMemory>
    ensures { IfOk result (λ found. IfSome found
        (IsChoosable (R.context search.now.rules.now) (S.facts search.now.state.now))) }
{
    match pair_of_any(heap, search, node, search.state.label(node))? {
        Some(choosing) => Ok(Some(choosing)),
        None => pair_above(heap, search, node, Asked::Own),
    }
}

// A pair by the concept, if the node has it.
fn pair_of<S: State, R: Rules>(
    heap: Global,
    search: &StateWithRules<'_, S, R>,
    node: u32,
    concept: u32,
) -> Result<Option<Choosing>, NoMemory>
    ensures { IfOk result (λ found. IfSome found
        (IsChoosable (R.context search.now.rules.now) (S.facts search.now.state.now))) }
{
    if node >= count_of(search) || !search.state.has(node, concept) {
        return Ok(None);
    }
    find_pair_by(heap, search, node, concept)
}
