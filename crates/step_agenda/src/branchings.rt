// Choices that a fact makes possible: of a part of a union, a filler of a successor, or whether two successors are one.
ghost use Rattle.std.specs.Prelude.{◌≡◌, ◌<◌, IfOk, IfSome};
ghost use Rattle.step_finders.specs.Choosing.{IsChoosable};

use crate::NoMemory;
use crate::pairs::pair_by;
use crate::passed::Passed;
use blocking::{Item, Tree};
use calculus_specs::Fact;
use std::alloc::{Allocator, Global};
use step_finders::{
    Choosing, Rules, State, StateWithRules, count_of, find_most_at, find_most_by, find_union_by,
};

/// Which kind of choice is looked for.
#[derive(Clone, Copy)]
pub(crate) enum Wanted {
    /// Two successors that are to be made one or kept apart.
    Pair,
    /// A union of which a part is to be chosen.
    Part,
    /// Such a union of a first node.
    FirstPart,
    /// A successor of which a filler or its complement is to be chosen, or a pair.
    Most,
}

/// The first entry from `from` on by which there is a choice of this kind, and that choice; or the length of the trail.
///
/// # Errors
///
/// Out of memory.
pub(crate) fn first_branching<A: Allocator + Copy, S: State, R: Rules>(
    heap: Global,
    tree: &Tree<A>,
    search: &StateWithRules<'_, S, R>,
    wanted: Wanted,
    passed: Passed,
    from: u32,
) -> Result<(u32, Option<Choosing>), NoMemory>
    ensures { IfOk result (λ p. IfSome p.1
        (IsChoosable (R.context search.now.rules.now) (S.facts search.now.state.now))) }
{
    for place in from..tree.len() {
        if passed.has(place) {
            continue;
        }
        match branching_by(heap, wanted, tree.item(place), search)? {
            Some(choosing) => return Ok((place, Some(choosing))),
            None => {}
        }
    }
    Ok((tree.len(), None))
}

fn branching_by<S: State, R: Rules>(
    heap: Global,
    wanted: Wanted,
    item: Item,
    search: &StateWithRules<'_, S, R>,
) -> Result<Option<Choosing>, NoMemory>
    ensures { IfOk result (λ found. IfSome found
        (IsChoosable (R.context search.now.rules.now) (S.facts search.now.state.now))) }
{
    match wanted {
        Wanted::Pair => pair_by(heap, item, search),
        Wanted::Part => Ok(union_by(item, search)),
        Wanted::FirstPart => Ok(first_union_by(item, search)),
        Wanted::Most => most_by(heap, item, search),
    }
}

// A choice of a filler, or of a pair of successors, that the entry makes possible.
fn most_by<S: State, R: Rules>(
    heap: Global,
    item: Item,
    search: &StateWithRules<'_, S, R>,
) -> Result<Option<Choosing>, NoMemory>
    ensures { IfOk result (λ found. IfSome found
        (IsChoosable (R.context search.now.rules.now) (S.facts search.now.state.now))) }
{
    match item {
        Item::Fact(Fact::Has(node, concept)) => {
            most_of(heap, search, search.state.representative(node), concept)
        }
        Item::Fact(Fact::Edge(_, from, _)) => {
            most_at(heap, search, search.state.representative(from))
        }
        Item::Fact(Fact::Same(node, _)) => {
            most_at(heap, search, search.state.representative(node))
        }
        Item::Fact(Fact::Apart(_, _)) => Ok(None),
        Item::Mark(_) => Ok(None),
    }
}

fn most_of<S: State, R: Rules>(
    heap: Global,
    search: &StateWithRules<'_, S, R>,
    node: u32,
    concept: u32,
) -> Result<Option<Choosing>, NoMemory>
    ensures { IfOk result (λ found. IfSome found
        (IsChoosable (R.context search.now.rules.now) (S.facts search.now.state.now))) }
{
    if node >= count_of(search) || !search.state.has(node, concept) {
        return Ok(None);
    }
    find_most_by(heap, search, node, concept)
}

fn most_at<S: State, R: Rules>(
    heap: Global,
    search: &StateWithRules<'_, S, R>,
    node: u32,
) -> Result<Option<Choosing>, NoMemory>
    ensures { IfOk result (λ found. IfSome found
        (IsChoosable (R.context search.now.rules.now) (S.facts search.now.state.now))) }
{
    if node >= count_of(search) {
        return Ok(None);
    }
    find_most_at(heap, search, node)
}

/// The node to which the entry at a place gives a concept, if there is such an entry.
pub(crate) fn node_at<A: Allocator + Copy>(tree: &Tree<A>, place: u32) -> Option<u32> {
    if place >= tree.len() {
        return None;
    }
    match tree.item(place) {
        Item::Fact(Fact::Has(node, _)) => Some(node),
        Item::Fact(Fact::Edge(_, _, _)) => None,
        Item::Fact(Fact::Apart(_, _)) => None,
        Item::Fact(Fact::Same(_, _)) => None,
        Item::Mark(_) => None,
    }
}

/// The first entry from `from` on by which a part of a union of the node is to be chosen, and that choice; or the first
/// entry that gives the node no concept. If there is no node, that is the first entry that gives a concept to any.
pub(crate) fn next_union_of<A: Allocator + Copy, S: State, R: Rules>(
    tree: &Tree<A>,
    search: &StateWithRules<'_, S, R>,
    passed: Passed,
    node: Option<u32>,
    from: u32,
) -> (u32, Option<Choosing>)
    ensures { IfSome result.1 (IsChoosable (R.context search.now.rules.now) (S.facts search.now.state.now)) }
{
    for place in from..tree.len() {
        if passed.has(place) {
            continue;
        }
        if node_at(tree, place) != node {
            return (place, None);
        }
        match union_by(tree.item(place), search) {
            Some(choosing) => return (place, Some(choosing)),
            None => {}
        }
    }
    (tree.len(), None)
}

// The choice of a part, if the entry gives a first node a union of which one is to be chosen.
fn first_union_by<S: State, R: Rules>(
    item: Item,
    search: &StateWithRules<'_, S, R>,
) -> Option<Choosing>
    ensures { IfSome result (IsChoosable (R.context search.now.rules.now) (S.facts search.now.state.now)) }
{
    match item {
        Item::Fact(Fact::Has(node, _)) if node < search.rules.first() => union_by(item, search),
        Item::Fact(Fact::Has(_, _)) => None,
        Item::Fact(Fact::Edge(_, _, _)) => None,
        Item::Fact(Fact::Apart(_, _)) => None,
        Item::Fact(Fact::Same(_, _)) => None,
        Item::Mark(_) => None,
    }
}

// The choice of a part, if the entry gives a union of which one is to be chosen.
fn union_by<S: State, R: Rules>(item: Item, search: &StateWithRules<'_, S, R>) -> Option<Choosing>
    ensures { IfSome result (IsChoosable (R.context search.now.rules.now) (S.facts search.now.state.now)) }
{
    match item {
        Item::Fact(Fact::Has(node, concept)) => {
            union_of(search, search.state.representative(node), concept)
        }
        Item::Fact(Fact::Edge(_, _, _)) => None,
        Item::Fact(Fact::Apart(_, _)) => None,
        Item::Fact(Fact::Same(_, _)) => None,
        Item::Mark(_) => None,
    }
}

fn union_of<S: State, R: Rules>(
    search: &StateWithRules<'_, S, R>,
    node: u32,
    concept: u32,
) -> Option<Choosing>
    ensures { IfSome result (IsChoosable (R.context search.now.rules.now) (S.facts search.now.state.now)) }
{
    if node >= count_of(search) || !search.state.has(node, concept) {
        return None;
    }
    find_union_by(search, node, concept)
}
