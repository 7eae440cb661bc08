// Concepts that are added by a fact: by its form, by rows, and by what the node at its end or its beginning has.
ghost use Rattle.std.specs.Prelude.{◌≡◌, ◌<◌, true, IsTrue, IfOk, IfSome};
ghost use Rattle.std.specs.List.{list_all};
ghost use Rattle.calculus_specs.specs.State.{node_count_from, has as holds};
ghost use Rattle.step_finders.specs.Found.{PlainDue, NamedDue};
ghost use Rattle.step_finders.specs.Reasons.{IsAddition};

use crate::NoMemory;
use crate::nearness::Nearness;
use crate::passed::Passed;
use crate::waiting::WaitingRows;
use blocking::{Item, Tree};
use calculus_specs::Fact;
use std::alloc::Allocator;
use step_finders::{
    Addition, NamedRow, PlainRow, Reason, Rules, Shape, State, StateWithRules, count_of,
    find_by_concept, find_by_edge, find_from, find_general,
};

/// Up to where a search has looked for a concept that an entry adds.
#[derive(Clone, Copy, Debug, PartialEq, Eq)]
pub(crate) struct Reached {
    /// The first entry that may add more.
    pub(crate) place: u32,
    /// If that is an edge to a new node: how many of the rows that are used at each node were asked what they give that
    /// node. If it gives a concept: how many of the rows that wait for this concept were asked. While the number is 0,
    /// what the entry adds in another way is looked for too.
    pub(crate) rows: usize,
}

/// Which of the rows that wait for classes are used at first nodes.
#[derive(Clone, Copy, Debug, PartialEq, Eq)]
pub(crate) enum WantedRows {
    /// All.
    All,
    /// Those that give no union.
    NoUnions,
    /// All, and nothing else is looked for.
    Alone,
}

/// The first concept that an entry adds from `from` on, and up to where it was looked for then. The entries in `passed`
/// are passed over; `waiting` meets their concepts all the same.
///
/// # Errors
///
/// Out of memory.
pub(crate) fn first_addition<A: Allocator + Copy, S: State, R: Rules>(
    tree: &Tree<A>,
    search: &StateWithRules<'_, S, R>,
    waiting: &mut WaitingRows,
    wanted: WantedRows,
    passed: Passed,
    from: Reached,
) -> Result<(Reached, Option<Addition>), NoMemory>
    ensures { IfOk result (λ p. IfSome p.1 (IsAddition (R.context search.now.rules.now) (S.facts search.now.state.now)
        (R.files search.now.rules.now))) }
{
    let mut rows = from.rows;
    for place in from.place..tree.len() {
        let item = tree.item(place);
        waiting.meet(search.rules, item)?;
        if passed.has(place) {
            continue;
        }
        match addition_at(item, search, waiting, wanted, rows) {
            Some((rows, addition)) => return Ok((Reached { place, rows }, Some(addition))),
            None => rows = 0,
        }
    }
    let end = Reached {
        place: tree.len(),
        rows: 0,
    };
    Ok((end, None))
}

/// The first rank from `from` on and below `to`, in the order of nearness, of a first node to which a row that is used
/// at each node adds a concept, and that addition; or `to`.
pub(crate) fn first_general<S: State, R: Rules>(
    search: &StateWithRules<'_, S, R>,
    nearness: &Nearness,
    from: usize,
    to: usize,
) -> (usize, Option<Addition>)
    ensures { IfSome result.1 (IsAddition (R.context search.now.rules.now) (S.facts search.now.state.now)
        (R.files search.now.rules.now)) }
{
    for rank in from..to {
        match nearness.node(rank) {
            Some(node) => match in_general(search, node) {
                Some(addition) => return (rank, Some(addition)),
                None => {}
            },
            None => {}
        }
    }
    (to, None)
}

// What the entry adds, if `rows` of the rows that are used at each node were asked already what they give the end of
// its edge, or `rows` of those that wait for its concept; and how many of them have been asked after that.
fn addition_at<S: State, R: Rules>(
    item: Item,
    search: &StateWithRules<'_, S, R>,
    waiting: &WaitingRows,
    wanted: WantedRows,
    rows: usize,
) -> Option<(usize, Addition)>
    ensures { IfSome result (λ p. IsAddition (R.context search.now.rules.now) (S.facts search.now.state.now)
        (R.files search.now.rules.now) p.1) }
{
    match wanted {
        WantedRows::All => any_addition_at(item, search, waiting, false, rows),
        WantedRows::NoUnions => any_addition_at(item, search, waiting, true, rows),
        WantedRows::Alone => row_at(item, search, waiting, rows),
    }
}

// What the entry adds in any way. Rows that give unions may be left out at first nodes.
fn any_addition_at<S: State, R: Rules>(
    item: Item,
    search: &StateWithRules<'_, S, R>,
    waiting: &WaitingRows,
    skips_unions: bool,
    rows: usize,
) -> Option<(usize, Addition)>
    ensures { IfSome result (λ p. IsAddition (R.context search.now.rules.now) (S.facts search.now.state.now)
        (R.files search.now.rules.now) p.1) }
{
    match item {
        Item::Fact(Fact::Edge(role, from, to)) => {
            by_edge(search, role, search.state.representative(from), to, rows)
        }
        Item::Fact(Fact::Has(node, concept)) => {
            let node = search.state.representative(node);
            match by_concept(search, skips_unions, node, concept, rows) {
                Some(found) => Some(found),
                None => by_waiting(search, waiting, skips_unions, node, concept),
            }
        }
        Item::Fact(Fact::Same(node, _)) => Some((0, at_node(search, node)?)),
        Item::Fact(Fact::Apart(_, _)) => None,
        Item::Mark(_) => None,
    }
}

// What the entry adds by the rows from number `rows` on that wait for its concept, and by those that are filed under
// other names.
fn row_at<S: State, R: Rules>(
    item: Item,
    search: &StateWithRules<'_, S, R>,
    waiting: &WaitingRows,
    rows: usize,
) -> Option<(usize, Addition)>
    ensures { IfSome result (λ p. IsAddition (R.context search.now.rules.now) (S.facts search.now.state.now)
        (R.files search.now.rules.now) p.1) }
{
    match item {
        Item::Fact(Fact::Has(node, concept)) => {
            let node = search.state.representative(node);
            match by_rows(search, node, concept, rows) {
                Some(found) => Some(found),
                None => by_waiting(search, waiting, false, node, concept),
            }
        }
        Item::Fact(Fact::Edge(_, _, _)) => None,
        Item::Fact(Fact::Same(_, _)) => None,
        Item::Fact(Fact::Apart(_, _)) => None,
        Item::Mark(_) => None,
    }
}

// What an edge adds: by what its beginning has, by rows at either end, and then by rows that are used at each node, one
// behind the other, where its end is no first node.
fn by_edge<S: State, R: Rules>(
    search: &StateWithRules<'_, S, R>,
    role: u32,
    from: u32,
    to: u32,
    rows: usize,
) -> Option<(usize, Addition)>
    ensures { IfSome result (λ p. IsAddition (R.context search.now.rules.now) (S.facts search.now.state.now)
        (R.files search.now.rules.now) p.1) }
{
    if rows == 0 {
        match by_edge_alone(search, role, from, to) {
            Some(addition) => return Some((0, addition)),
            None => {}
        }
    }
    if to < search.rules.first() {
        return None;
    }
    by_general(search, to, rows)
}

// What an edge adds by what its beginning has, and by rows at either end.
fn by_edge_alone<S: State, R: Rules>(
    search: &StateWithRules<'_, S, R>,
    role: u32,
    from: u32,
    to: u32,
) -> Option<Addition>
    ensures { IfSome result (IsAddition (R.context search.now.rules.now) (S.facts search.now.state.now)
        (R.files search.now.rules.now)) }
{
    match by_universals(search, from, to) {
        Some(addition) => Some(addition),
        None => by_ends(search, role, from, to),
    }
}

// What the rows from number `from` on that are used at each node add to the node's representative, and how many have
// been asked after that.
fn by_general<S: State, R: Rules>(
    search: &StateWithRules<'_, S, R>,
    node: u32,
    from: usize,
) -> Option<(usize, Addition)>
    ensures { IfSome result (λ p. IsAddition (R.context search.now.rules.now) (S.facts search.now.state.now)
        (R.files search.now.rules.now) p.1) }
{
    let node = search.state.representative(node);
    if node >= count_of(search) {
        return None;
    }
    for place in from..search.rules.general().len() {
        match by_general_at(search, node, place) {
            Some(addition) => return Some((place + 1, addition)),
            None => {}
        }
    }
    None
}

// What the row at a place of those that are used at each node adds to the node.
fn by_general_at<S: State, R: Rules>(
    search: &StateWithRules<'_, S, R>,
    node: u32,
    place: usize,
) -> Option<Addition>
    requires { node < node_count_from (R.context search.now.rules.now).first (S.facts search.now.state.now) }
    ensures { IfSome result (IsAddition (R.context search.now.rules.now) (S.facts search.now.state.now)
        (R.files search.now.rules.now)) }
{
    search.rules.is_ready();
    match due_at(search.state, node, search.rules.general(), place) {
        Some(row) => Some(Addition {
            node,
            concept: row.gives,
            reason: Reason::General { row },
        }),
        None => None,
    }
}

// The row at a place, if it gives a concept that the node lacks.
fn due_at<S: State>(state: &S, node: u32, rows: &[PlainRow], place: usize) -> Option<PlainRow>
    ensures { IfSome result (PlainDue (S.facts state.now) node rows.now) }
{
    if place >= rows.len() || state.has(node, rows[place].gives) {
        None
    } else {
        Some(rows[place])
    }
}

// What a universal restriction of the node adds, if it may say something new of this successor.
fn by_universals<S: State, R: Rules>(
    search: &StateWithRules<'_, S, R>,
    node: u32,
    to: u32,
) -> Option<Addition>
    ensures { IfSome result (IsAddition (R.context search.now.rules.now) (S.facts search.now.state.now)
        (R.files search.now.rules.now)) }
{
    for concept in search.state.label(node) {
        if may_reach(search, *concept, to) {
            match by_concept(search, false, node, *concept, 0) {
                Some((_, addition)) => return Some(addition),
                None => {}
            }
        }
    }
    None
}

// Whether the concept is a universal restriction by which the node `to` may still have to get something.
fn may_reach<S: State, R: Rules>(search: &StateWithRules<'_, S, R>, concept: u32, to: u32) -> bool {
    match search.rules.shape(concept) {
        Shape::AllOf(_, filler) => {
            !search.state.has(to, filler) || !search.rules.carries(concept).is_empty()
        }
        _ => false,
    }
}

// What rows add at the ends of an edge between these nodes.
fn by_ends<S: State, R: Rules>(
    search: &StateWithRules<'_, S, R>,
    role: u32,
    from: u32,
    to: u32,
) -> Option<Addition>
    ensures { IfSome result (IsAddition (R.context search.now.rules.now) (S.facts search.now.state.now)
        (R.files search.now.rules.now)) }
{
    if from >= count_of(search) {
        return None;
    }
    for edge in search.state.edges(from) {
        if edge.0 == role && edge.1 == to {
            return find_by_edge(search, from, edge.0, search.state.representative(edge.1));
        }
    }
    None
}

// What a row that is used at each node adds to the node's representative.
fn in_general<S: State, R: Rules>(search: &StateWithRules<'_, S, R>, node: u32) -> Option<Addition>
    ensures { IfSome result (IsAddition (R.context search.now.rules.now) (S.facts search.now.state.now)
        (R.files search.now.rules.now)) }
{
    let node = search.state.representative(node);
    if node >= count_of(search) {
        return None;
    }
    find_general(search, node)
}

// What the node's representative adds.
fn at_node<S: State, R: Rules>(search: &StateWithRules<'_, S, R>, node: u32) -> Option<Addition>
    ensures { IfSome result (IsAddition (R.context search.now.rules.now) (S.facts search.now.state.now)
        (R.files search.now.rules.now)) }
{
    let node = search.state.representative(node);
    if node >= count_of(search) {
        return None;
    }
    find_from(search, node)
}

// What a concept of the node adds: by its form, and then by the rows from number `rows` on that wait for it, one after
// the other; and how many of these have been asked after that. Rows that give unions may be left out at first nodes.
fn by_concept<S: State, R: Rules>(
    search: &StateWithRules<'_, S, R>,
    skips_unions: bool,
    node: u32,
    concept: u32,
    rows: usize,
) -> Option<(usize, Addition)>
    ensures { IfSome result (λ p. IsAddition (R.context search.now.rules.now) (S.facts search.now.state.now)
        (R.files search.now.rules.now) p.1) }
{
    if node >= count_of(search) || !search.state.has(node, concept) {
        return None;
    }
    if rows == 0 {
        match find_by_concept(search, node, concept) {
            Some(addition) => return Some((0, addition)),
            None => {}
        }
    }
    let skips = skips_unions && node < search.rules.first();
    by_named(search, skips, node, concept, rows)
}

// What the rows from number `rows` on that wait for the concept add to the node, if there is such a node, and how many
// have been asked after that.
fn by_rows<S: State, R: Rules>(
    search: &StateWithRules<'_, S, R>,
    node: u32,
    concept: u32,
    rows: usize,
) -> Option<(usize, Addition)>
    ensures { IfSome result (λ p. IsAddition (R.context search.now.rules.now) (S.facts search.now.state.now)
        (R.files search.now.rules.now) p.1) }
{
    if node >= count_of(search) {
        return None;
    }
    by_named(search, false, node, concept, rows)
}

// The same of a node that there is. Rows that give unions may be left out.
fn by_named<S: State, R: Rules>(
    search: &StateWithRules<'_, S, R>,
    skips_unions: bool,
    node: u32,
    concept: u32,
    from: usize,
) -> Option<(usize, Addition)>
    requires { node < node_count_from (R.context search.now.rules.now).first (S.facts search.now.state.now) }
    ensures { IfSome result (λ p. IsAddition (R.context search.now.rules.now) (S.facts search.now.state.now)
        (R.files search.now.rules.now) p.1) }
{
    for place in from..search.rules.named(concept).len() {
        match by_named_at(search, node, concept, place) {
            Some(addition) => {
                if !skips_unions || !is_union(search.rules, addition.concept) {
                    return Some((place + 1, addition));
                }
            }
            None => {}
        }
    }
    None
}

// What the node gets by a row that waits for the name too but is filed under another one. All rows that are filed under
// the name have been asked before. Rows that give unions may be left out at first nodes.
fn by_waiting<S: State, R: Rules>(
    search: &StateWithRules<'_, S, R>,
    waiting: &WaitingRows,
    skips_unions: bool,
    node: u32,
    name: u32,
) -> Option<(usize, Addition)>
    ensures { IfSome result (λ p. IsAddition (R.context search.now.rules.now) (S.facts search.now.state.now)
        (R.files search.now.rules.now) p.1) }
{
    let skips = skips_unions && node < search.rules.first();
    for file in waiting.files(name) {
        match by_file(search, skips, node, *file) {
            Some((_, addition)) => return Some((search.rules.named(name).len(), addition)),
            None => {}
        }
    }
    None
}

// What a row adds to the node that is filed under this name, if the node has the name.
fn by_file<S: State, R: Rules>(
    search: &StateWithRules<'_, S, R>,
    skips_unions: bool,
    node: u32,
    name: u32,
) -> Option<(usize, Addition)>
    ensures { IfSome result (λ p. IsAddition (R.context search.now.rules.now) (S.facts search.now.state.now)
        (R.files search.now.rules.now) p.1) }
{
    if node >= count_of(search) || !search.state.has(node, name) {
        return None;
    }
    by_named(search, skips_unions, node, name, 0)
}

/// What the row at a place of those that wait for the concept adds to the node.
pub(crate) fn by_named_at<S: State, R: Rules>(
    search: &StateWithRules<'_, S, R>,
    node: u32,
    concept: u32,
    place: usize,
) -> Option<Addition>
    requires { node < node_count_from (R.context search.now.rules.now).first (S.facts search.now.state.now) }
    ensures { IfSome result (IsAddition (R.context search.now.rules.now) (S.facts search.now.state.now)
        (R.files search.now.rules.now)) }
{
    search.rules.is_ready();
    match named_due_at(search.state, node, search.rules.named(concept), place) {
        Some(gives) => Some(Addition {
            node,
            concept: gives,
            reason: Reason::Named { concept, place },
        }),
        None => None,
    }
}

// Whether the concept is a union.
fn is_union<R: Rules>(rules: &R, concept: u32) -> bool {
    matches!(rules.shape(concept), Shape::Or(_))
}

// What the row at a place gives the node, if the node has all concepts that the row waits for, and lacks what it gives.
fn named_due_at<S: State>(state: &S, node: u32, rows: &[NamedRow], place: usize) -> Option<u32>
    ensures { IfSome result (NamedDue (S.facts state.now) node rows.now place) }
{
    if place >= rows.len() {
        return None;
    }
    let row = &rows[place];
    if state.has(node, row.gives) || !has_all(state, node, row.waits.items()) {
        None
    } else {
        Some(row.gives)
    }
}

// Whether the node has each of the concepts.
fn has_all<S: State>(state: &S, node: u32, concepts: &[u32]) -> bool
    ensures { IsTrue result → list_all (holds (S.facts state.now) node) concepts.now ≡ true }
{
    for concept in concepts {
        if !state.has(node, *concept) {
            return false;
        }
    }
    true
}
