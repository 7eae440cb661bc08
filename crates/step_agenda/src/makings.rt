// New nodes that a fact asks for: below any clear node, and below first nodes, which are always clear.
ghost use Rattle.std.specs.Prelude.{◌≡◌, ◌<◌, true, IsTrue, IfOk, IfSome};
ghost use Rattle.calculus_specs.specs.Joins.{rep};
ghost use Rattle.calculus_specs.specs.State.{node_count_from, has as holds};
ghost use Rattle.step_finders.specs.Making.{IsMaking};

use crate::NoMemory;
use crate::branchings::node_at;
use crate::passed::Passed;
use blocking::{Item, Tree};
use calculus_specs::Fact;
use std::alloc::{Allocator, Global};
use step_finders::{
    NewNodes, Rules, Shape, State, StateWithBlocks, StateWithRules, count_of, find_making_by,
};

/// An entry that asks for nodes, and whose own node was not clear when it was looked at.
#[derive(Clone, Copy, Debug, PartialEq, Eq)]
pub(crate) struct Held {
    /// Its place.
    pub(crate) place: u32,
    /// Its node, which may be joined with a lesser one.
    pub(crate) node: u32,
}

/// The first entry from `from` on for which nodes are to be made, and these nodes; or the length of the trail. Each
/// entry on the way that may ask for nodes once its own node is clear is put last in `held`.
///
/// # Errors
///
/// Out of memory.
pub(crate) fn first_making<A: Allocator + Copy, S: StateWithBlocks, R: Rules>(
    heap: Global,
    tree: &Tree<A>,
    search: &StateWithRules<'_, S, R>,
    held: &mut Vec<Held>,
    passed: Passed,
    from: u32,
) -> Result<(u32, Option<NewNodes>), NoMemory>
    ensures { IfOk result (λ p. IfSome p.1 (IsMaking (R.context search.now.rules.now) (S.facts search.now.state.now))) }
{
    for place in from..tree.len() {
        if passed.has(place) {
            continue;
        }
        let item = tree.item(place);
        match making_by(heap, item, search)? {
            Some(making) => return Ok((place, Some(making))),
            None => hold(held, item, place, search)?,
        }
    }
    Ok((tree.len(), None))
}

// Puts the entry last in the list, where its concept asks for nodes and its node is not clear.
fn hold<S: StateWithBlocks, R: Rules>(
    held: &mut Vec<Held>,
    item: Item,
    place: u32,
    search: &StateWithRules<'_, S, R>,
) -> Result<(), NoMemory> {
    match item {
        Item::Fact(Fact::Has(node, concept)) => {
            if asks(search.rules, concept)
                && !search.state.is_clear(search.state.representative(node))
            {
                held.push(Held { place, node })?;
            }
            Ok(())
        }
        Item::Fact(Fact::Edge(_, _, _)) => Ok(()),
        Item::Fact(Fact::Apart(_, _)) => Ok(()),
        Item::Fact(Fact::Same(_, _)) => Ok(()),
        Item::Mark(_) => Ok(()),
    }
}

/// The nodes that are to be made for the first of the held entries that asks for some now. Entries of nodes below
/// `from` are not asked.
///
/// # Errors
///
/// Out of memory.
pub(crate) fn first_held<A: Allocator + Copy, S: StateWithBlocks, R: Rules>(
    heap: Global,
    tree: &Tree<A>,
    search: &StateWithRules<'_, S, R>,
    held: &[Held],
    from: u32,
) -> Result<Option<NewNodes>, NoMemory>
    ensures { IfOk result (λ found. IfSome found
        (IsMaking (R.context search.now.rules.now) (S.facts search.now.state.now))) }
{
    for entry in held {
        if entry.node >= from && entry.place < tree.len() {
            match making_by(heap, tree.item(entry.place), search)? {
                Some(making) => return Ok(Some(making)),
                None => {}
            }
        }
    }
    Ok(None)
}

// The nodes that the entry asks for, if its own node is clear.
fn making_by<S: StateWithBlocks, R: Rules>(
    heap: Global,
    item: Item,
    search: &StateWithRules<'_, S, R>,
) -> Result<Option<NewNodes>, NoMemory>
    ensures { IfOk result (λ found. IfSome found
        (IsMaking (R.context search.now.rules.now) (S.facts search.now.state.now))) }
{
    match item {
        Item::Fact(Fact::Has(node, concept)) => {
            making_at(heap, search, search.state.representative(node), concept)
        }
        Item::Fact(Fact::Edge(_, _, _)) => Ok(None),
        Item::Fact(Fact::Apart(_, _)) => Ok(None),
        Item::Fact(Fact::Same(_, _)) => Ok(None),
        Item::Mark(_) => Ok(None),
    }
}

// The nodes that are to be made since the node has the concept, if it is a representative and clear.
fn making_at<S: StateWithBlocks, R: Rules>(
    heap: Global,
    search: &StateWithRules<'_, S, R>,
    node: u32,
    concept: u32,
) -> Result<Option<NewNodes>, NoMemory>
    ensures { IfOk result (λ found. IfSome found
        (IsMaking (R.context search.now.rules.now) (S.facts search.now.state.now))) }
{
    if !asks(search.rules, concept)
        || !search.state.is_clear(node)
        || !is_there(search, node, concept)
    {
        return Ok(None);
    }
    find_making_by(heap, search, node, concept)
}

/// The first entry from `from` on for which nodes are to be made below a first node, or below the node `alone` if there
/// is one, and these nodes; or the length of the trail. First nodes are clear, whatever blocks others.
///
/// # Errors
///
/// Out of memory.
pub(crate) fn first_below_first<A: Allocator + Copy, S: State, R: Rules>(
    heap: Global,
    tree: &Tree<A>,
    search: &StateWithRules<'_, S, R>,
    alone: Option<u32>,
    passed: Passed,
    from: u32,
) -> Result<(u32, Option<NewNodes>), NoMemory>
    ensures { IfOk result (λ p. IfSome p.1 (IsMaking (R.context search.now.rules.now) (S.facts search.now.state.now))) }
{
    for place in from..tree.len() {
        if passed.has(place) || !is_wanted(tree, place, alone) {
            continue;
        }
        match below_first_by(heap, tree.item(place), search)? {
            Some(making) => return Ok((place, Some(making))),
            None => {}
        }
    }
    Ok((tree.len(), None))
}

// Whether the entry at a place gives a concept to the node `alone`. If there is no such node, each entry counts.
fn is_wanted<A: Allocator + Copy>(tree: &Tree<A>, place: u32, alone: Option<u32>) -> bool {
    match alone {
        Some(node) => node_at(tree, place) == Some(node),
        None => true,
    }
}

// The nodes below a first node that the entry asks for.
fn below_first_by<S: State, R: Rules>(
    heap: Global,
    item: Item,
    search: &StateWithRules<'_, S, R>,
) -> Result<Option<NewNodes>, NoMemory>
    ensures { IfOk result (λ found. IfSome found
        (IsMaking (R.context search.now.rules.now) (S.facts search.now.state.now))) }
{
    match item {
        Item::Fact(Fact::Has(node, concept)) => {
            below_first(heap, search, search.state.representative(node), concept)
        }
        Item::Fact(Fact::Edge(_, _, _)) => Ok(None),
        Item::Fact(Fact::Apart(_, _)) => Ok(None),
        Item::Fact(Fact::Same(_, _)) => Ok(None),
        Item::Mark(_) => Ok(None),
    }
}

// The nodes that are to be made since the node has the concept, if it is a first node and a representative.
#[tactic(auto, using(blocking::proofs::BlockLists::first_is_clear))]
fn below_first<S: State, R: Rules>(
    heap: Global,
    search: &StateWithRules<'_, S, R>,
    node: u32,
    concept: u32,
) -> Result<Option<NewNodes>, NoMemory>
    ensures { IfOk result (λ found. IfSome found
        (IsMaking (R.context search.now.rules.now) (S.facts search.now.state.now))) }
{
    if node >= search.rules.first()
        || !asks(search.rules, concept)
        || !is_there(search, node, concept)
    {
        return Ok(None);
    }
    find_making_by(heap, search, node, concept)
}

// Whether the node is a representative and has the concept.
fn is_there<S: State, R: Rules>(search: &StateWithRules<'_, S, R>, node: u32, concept: u32) -> bool
    ensures node { IsTrue result → node < node_count_from (R.context search.now.rules.now).first
        (S.facts search.now.state.now) }
    ensures representative { IsTrue result → rep (S.facts search.now.state.now) node ≡ node }
    ensures holds { IsTrue result → holds (S.facts search.now.state.now) node concept ≡ true }
{
    node < count_of(search)
        && search.state.representative(node) == node
        && search.state.has(node, concept)
}

// Whether the concept asks for successors.
fn asks<R: Rules>(rules: &R, concept: u32) -> bool {
    match rules.shape(concept) {
        Shape::SomeOf(_, _) | Shape::Min(_, _, _) => true,
        Shape::Top
        | Shape::Bottom
        | Shape::Name(_)
        | Shape::NotName(_)
        | Shape::And(_)
        | Shape::Or(_)
        | Shape::AllOf(_, _)
        | Shape::Max(_, _, _) => false,
    }
}
