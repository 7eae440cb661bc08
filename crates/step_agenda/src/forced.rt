// Unions of which all parts but at most one would clash at once, looked for at the facts by which this may have become
// so: unions that a node has, and, where the index says so, unions that a row would give it.
ghost use Rattle.std.specs.Prelude.{◌≡◌, ◌<◌, IfOk, IfSome};
ghost use Rattle.calculus_specs.specs.State.{node_count_from};
ghost use Rattle.step_finders.specs.Stepping.{IsStep};

use crate::NoMemory;
use crate::above::{above, members_at};
use crate::additions::by_named_at;
use crate::passed::Passed;
use crate::watched::{Closes, RowPlace, UnionIndex, Watch};
use blocking::{Item, Tree};
use calculus_specs::Fact;
use std::alloc::Allocator;
use step_finders::{Rules, Shape, State, StateWithRules, Step, count_of, find_union_by};

// Top, which every node has: an edge alone closes a part that allows no successor.
const TOP: u32 = 0;

/// The first entry from `from` on by which a union is forced, and the step that it forces; or the length of the trail.
/// A union is forced if a part of it is to be chosen, and all parts but at most one would clash at once.
///
/// # Errors
///
/// Out of memory.
pub(crate) fn first_forced<A: Allocator + Copy, S: State, R: Rules>(
    tree: &Tree<A>,
    search: &StateWithRules<'_, S, R>,
    index: &mut UnionIndex,
    passed: Passed,
    from: u32,
) -> Result<(u32, Option<Step>), NoMemory>
    ensures { IfOk result (λ p. IfSome p.1
        (IsStep (R.context search.now.rules.now) (S.facts search.now.state.now) (R.files search.now.rules.now))) }
{
    for place in from..tree.len() {
        if passed.has(place) {
            continue;
        }
        match forced_by(tree.item(place), search, index)? {
            Some(step) => return Ok((place, Some(step))),
            None => {}
        }
    }
    Ok((tree.len(), None))
}

// The step of a union that is forced by the entry.
fn forced_by<S: State, R: Rules>(
    item: Item,
    search: &StateWithRules<'_, S, R>,
    index: &mut UnionIndex,
) -> Result<Option<Step>, NoMemory>
    ensures { IfOk result (λ found. IfSome found
        (IsStep (R.context search.now.rules.now) (S.facts search.now.state.now) (R.files search.now.rules.now))) }
{
    match item {
        Item::Fact(Fact::Has(node, concept)) => {
            forced_by_concept(search, index, search.state.representative(node), concept)
        }
        Item::Fact(Fact::Edge(_, from, to)) => {
            Ok(forced_by_edge(search, index, search.state.representative(from), to))
        }
        Item::Fact(Fact::Same(node, _)) => {
            forced_by_label(search, index, search.state.representative(node))
        }
        Item::Fact(Fact::Apart(_, _)) => Ok(None),
        Item::Mark(_) => Ok(None),
    }
}

// A union of the beginning of an edge that is forced by what the end has: by top alone where the end is no first node,
// since then what else it has came after the edge.
fn forced_by_edge<S: State, R: Rules>(
    search: &StateWithRules<'_, S, R>,
    index: &UnionIndex,
    from: u32,
    to: u32,
) -> Option<Step>
    ensures { IfSome result (IsStep (R.context search.now.rules.now) (S.facts search.now.state.now)
        (R.files search.now.rules.now)) }
{
    if to >= search.rules.first() {
        return forced_by_successor(search, index, from, TOP);
    }
    for concept in search.state.label(to) {
        match forced_by_successor(search, index, from, *concept) {
            Some(step) => return Some(step),
            None => {}
        }
    }
    None
}

// A union of the node that is forced since a successor has the concept, which closes a part of it.
fn forced_by_successor<S: State, R: Rules>(
    search: &StateWithRules<'_, S, R>,
    index: &UnionIndex,
    node: u32,
    concept: u32,
) -> Option<Step>
    ensures { IfSome result (IsStep (R.context search.now.rules.now) (S.facts search.now.state.now)
        (R.files search.now.rules.now)) }
{
    let mut place = index.latest(concept);
    for _ in 0..index.len() {
        let watch = index.watch(place)?;
        match forced_by_end(search, index, node, watch) {
            Some(step) => return Some(step),
            None => {}
        }
        place = watch.next;
    }
    None
}

fn forced_by_end<S: State, R: Rules>(
    search: &StateWithRules<'_, S, R>,
    index: &UnionIndex,
    node: u32,
    watch: Watch,
) -> Option<Step>
    ensures { IfSome result (IsStep (R.context search.now.rules.now) (S.facts search.now.state.now)
        (R.files search.now.rules.now)) }
{
    match watch.closes {
        Closes::Here => None,
        Closes::Above => forced_at(search, index, node, watch.union),
    }
}

// A union that is forced by one of the concepts of a node.
fn forced_by_label<S: State, R: Rules>(
    search: &StateWithRules<'_, S, R>,
    index: &mut UnionIndex,
    node: u32,
) -> Result<Option<Step>, NoMemory>
    ensures { IfOk result (λ found. IfSome found
        (IsStep (R.context search.now.rules.now) (S.facts search.now.state.now) (R.files search.now.rules.now))) }
{
    for concept in search.state.label(node) {
        match forced_by_concept(search, index, node, *concept)? {
            Some(step) => return Ok(Some(step)),
            None => {}
        }
    }
    Ok(None)
}

// A union that is forced since the node has the concept: the concept itself, one of the node, or one of a node above.
fn forced_by_concept<S: State, R: Rules>(
    search: &StateWithRules<'_, S, R>,
    index: &mut UnionIndex,
    node: u32,
    concept: u32,
) -> Result<Option<Step>, NoMemory>
    ensures { IfOk result (λ found. IfSome found
        (IsStep (R.context search.now.rules.now) (S.facts search.now.state.now) (R.files search.now.rules.now))) }
{
    let found = match union_parts(search.rules, concept) {
        Some(parts) => {
            index.meet(search.rules, concept, parts)?;
            forced_at(search, index, node, concept)
        }
        None => forced_by_rows(search, index, node, concept)?,
    };
    match found {
        Some(step) => Ok(Some(step)),
        None => Ok(forced_by_watches(search, index, node, concept)),
    }
}

// A union that is forced and that a row gives which waits for the concept, where rows are looked at.
fn forced_by_rows<S: State, R: Rules>(
    search: &StateWithRules<'_, S, R>,
    index: &mut UnionIndex,
    node: u32,
    concept: u32,
) -> Result<Option<Step>, NoMemory>
    ensures { IfOk result (λ found. IfSome found
        (IsStep (R.context search.now.rules.now) (S.facts search.now.state.now) (R.files search.now.rules.now))) }
{
    if !index.looks_at_rows() {
        return Ok(None);
    }
    for place in 0..search.rules.named(concept).len() {
        let union = search.rules.named(concept)[place].gives;
        match forced_by_row_at(search, index, node, RowPlace { concept, place }, union)? {
            Some(step) => return Ok(Some(step)),
            None => {}
        }
    }
    Ok(None)
}

// What the row gives, where that is a union that is forced. The union and the row are met.
fn forced_by_row_at<S: State, R: Rules>(
    search: &StateWithRules<'_, S, R>,
    index: &mut UnionIndex,
    node: u32,
    row: RowPlace,
    gives: u32,
) -> Result<Option<Step>, NoMemory>
    ensures { IfOk result (λ found. IfSome found
        (IsStep (R.context search.now.rules.now) (S.facts search.now.state.now) (R.files search.now.rules.now))) }
{
    match union_parts(search.rules, gives) {
        Some(parts) => {
            index.meet(search.rules, gives, parts)?;
            index.meet_row(gives, row)?;
            Ok(forced_at(search, index, node, gives))
        }
        None => Ok(None),
    }
}

// A union that is forced since the concept of the node closes a part of it.
fn forced_by_watches<S: State, R: Rules>(
    search: &StateWithRules<'_, S, R>,
    index: &UnionIndex,
    node: u32,
    concept: u32,
) -> Option<Step>
    ensures { IfSome result (IsStep (R.context search.now.rules.now) (S.facts search.now.state.now)
        (R.files search.now.rules.now)) }
{
    let mut place = index.latest(concept);
    for _ in 0..index.len() {
        let watch = index.watch(place)?;
        match forced_by_watch(search, index, node, watch) {
            Some(step) => return Some(step),
            None => {}
        }
        place = watch.next;
    }
    None
}

fn forced_by_watch<S: State, R: Rules>(
    search: &StateWithRules<'_, S, R>,
    index: &UnionIndex,
    node: u32,
    watch: Watch,
) -> Option<Step>
    ensures { IfSome result (IsStep (R.context search.now.rules.now) (S.facts search.now.state.now)
        (R.files search.now.rules.now)) }
{
    match watch.closes {
        Closes::Here => forced_at(search, index, node, watch.union),
        Closes::Above => forced_above(search, index, node, watch.union),
    }
}

// The union, where a node from which an edge leads to this one has it, and it is forced there.
fn forced_above<S: State, R: Rules>(
    search: &StateWithRules<'_, S, R>,
    index: &UnionIndex,
    node: u32,
    union: u32,
) -> Option<Step>
    ensures { IfSome result (IsStep (R.context search.now.rules.now) (S.facts search.now.state.now)
        (R.files search.now.rules.now)) }
{
    match above(search.state, node) {
        Some(above) => return forced_at(search, index, above, union),
        None => {}
    }
    for member in members_at(search.state, node) {
        match forced_into(search, index, *member, union) {
            Some(step) => return Some(step),
            None => {}
        }
    }
    None
}

// The union, where a node from which an edge to this one is given has it, and it is forced there.
fn forced_into<S: State, R: Rules>(
    search: &StateWithRules<'_, S, R>,
    index: &UnionIndex,
    node: u32,
    union: u32,
) -> Option<Step>
    ensures { IfSome result (IsStep (R.context search.now.rules.now) (S.facts search.now.state.now)
        (R.files search.now.rules.now)) }
{
    for edge in search.rules.given_into(node) {
        match forced_at(search, index, search.state.representative(edge.1), union) {
            Some(step) => return Some(step),
            None => {}
        }
    }
    None
}

// The union, where the node has it or a row gives it, a part of it is to be chosen, and it is forced.
fn forced_at<S: State, R: Rules>(
    search: &StateWithRules<'_, S, R>,
    index: &UnionIndex,
    node: u32,
    union: u32,
) -> Option<Step>
    ensures { IfSome result (IsStep (R.context search.now.rules.now) (S.facts search.now.state.now)
        (R.files search.now.rules.now)) }
{
    if node >= count_of(search) {
        return None;
    }
    if !search.state.has(node, union) {
        return forced_by_row(search, index, node, union);
    }
    let choosing = find_union_by(search, node, union)?;
    if is_forced(search, node, union) {
        Some(Step::Choose(choosing))
    } else {
        None
    }
}

// The row that gives the union to the node, where one does, the node has no part of the union, and it is forced.
fn forced_by_row<S: State, R: Rules>(
    search: &StateWithRules<'_, S, R>,
    index: &UnionIndex,
    node: u32,
    union: u32,
) -> Option<Step>
    requires { node < node_count_from (R.context search.now.rules.now).first (S.facts search.now.state.now) }
    ensures { IfSome result (IsStep (R.context search.now.rules.now) (S.facts search.now.state.now)
        (R.files search.now.rules.now)) }
{
    let row = index.row(union)?;
    let addition = by_named_at(search, node, row.concept, row.place)?;
    if addition.concept == union && is_open(search, node, union) && is_forced(search, node, union) {
        Some(Step::Add(addition))
    } else {
        None
    }
}

// Whether the node has no part of the union.
fn is_open<S: State, R: Rules>(search: &StateWithRules<'_, S, R>, node: u32, union: u32) -> bool {
    match union_parts(search.rules, union) {
        Some(parts) => !has_any(search.state, node, parts),
        None => false,
    }
}

// Whether at most one part of the union does not clash at once.
fn is_forced<S: State, R: Rules>(search: &StateWithRules<'_, S, R>, node: u32, union: u32) -> bool {
    match union_parts(search.rules, union) {
        Some(parts) => !are_two_open(search, node, parts),
        None => false,
    }
}

// The parts of the concept, if it is a union.
fn union_parts<R: Rules>(rules: &R, concept: u32) -> Option<&[u32]> {
    match rules.shape(concept) {
        Shape::Or(parts) => Some(parts),
        Shape::Top
        | Shape::Bottom
        | Shape::Name(_)
        | Shape::NotName(_)
        | Shape::And(_)
        | Shape::SomeOf(_, _)
        | Shape::AllOf(_, _)
        | Shape::Min(_, _, _)
        | Shape::Max(_, _, _) => None,
    }
}

// Whether the node has one of the concepts.
fn has_any<S: State>(state: &S, node: u32, concepts: &[u32]) -> bool {
    for concept in concepts {
        if state.has(node, *concept) {
            return true;
        }
    }
    false
}

// Whether two of the concepts do not clash at once.
fn are_two_open<S: State, R: Rules>(
    search: &StateWithRules<'_, S, R>,
    node: u32,
    parts: &[u32],
) -> bool {
    let mut is_one_open = false;
    for part in parts {
        if !clashes_at_once(search, node, *part) {
            if is_one_open {
                return true;
            }
            is_one_open = true;
        }
    }
    false
}

// Whether the concept would clash at the node or at a successor that is there. The complement of a restriction counts
// for nothing: what it says of successors may still be met by one that is to be made.
fn clashes_at_once<S: State, R: Rules>(
    search: &StateWithRules<'_, S, R>,
    node: u32,
    concept: u32,
) -> bool {
    match search.rules.shape(concept) {
        Shape::Bottom => true,
        Shape::Name(_) | Shape::NotName(_) | Shape::And(_) | Shape::Or(_) => {
            has_complement(search, node, concept)
        }
        Shape::AllOf(role, filler) => {
            is_plain(search.rules, filler) && has_end_without(search, node, role, filler)
        }
        Shape::Top | Shape::SomeOf(_, _) | Shape::Min(_, _, _) | Shape::Max(_, _, _) => false,
    }
}

// Whether the concept is a class, the complement of one, or bottom.
fn is_plain<R: Rules>(rules: &R, concept: u32) -> bool {
    match rules.shape(concept) {
        Shape::Bottom | Shape::Name(_) | Shape::NotName(_) => true,
        Shape::Top
        | Shape::And(_)
        | Shape::Or(_)
        | Shape::SomeOf(_, _)
        | Shape::AllOf(_, _)
        | Shape::Min(_, _, _)
        | Shape::Max(_, _, _) => false,
    }
}

fn has_complement<S: State, R: Rules>(
    search: &StateWithRules<'_, S, R>,
    node: u32,
    concept: u32,
) -> bool {
    match search.rules.complement(concept) {
        Some(complement) => search.state.has(node, complement),
        None => false,
    }
}

// Whether an edge by a role below this one leads to a node with the complement of the filler.
fn has_end_without<S: State, R: Rules>(
    search: &StateWithRules<'_, S, R>,
    node: u32,
    role: u32,
    filler: u32,
) -> bool {
    for edge in search.state.edges(node) {
        if search.rules.is_below(edge.0, role) && has_complement(search, edge.1, filler) {
            return true;
        }
    }
    false
}
