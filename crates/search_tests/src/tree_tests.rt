// Each call of a tree once, over the heap and in an arena, and nodes that are joined in several orders: new ones, and
// first ones.
ghost use Rattle.std.specs.Prelude.{◌≡◌, true, IsTrue};
ghost use Rattle.calculus_specs.specs.declared.facts.Fact.TheVariants.{Edge};
ghost use Rattle.calculus_specs.specs.State.{is_so as is_so_in};
ghost use Rattle.completion_tree.specs.Trail.{facts_in};

use crate::following::is_fit;
use bumpalo::Bump;
use calculus_specs::{Fact, NoMemory};
use completion_tree::{By, Choice, Deps, Item, Mark, Tree};
use fact_tree::FactTree;
use std::alloc::{Allocator, Global};
use std::test::Fail;
use step_agenda::TreeState;
use step_finders::is_so;
use tableau_specs::Branch;

/// Three joins one after the other, and then the representatives of nodes 0 to 4.
const ORDERS: &[(&[Fact<u32>], &[u32])] = &[
    (
        &[Fact::Same(1, 2), Fact::Same(3, 4), Fact::Same(2, 4)],
        &[0, 1, 1, 1, 1],
    ),
    (
        &[Fact::Same(4, 3), Fact::Same(3, 2), Fact::Same(2, 1)],
        &[0, 1, 1, 1, 1],
    ),
    (
        &[Fact::Same(2, 3), Fact::Same(0, 3), Fact::Same(1, 1)],
        &[0, 1, 0, 0, 4],
    ),
    (
        &[Fact::Same(4, 0), Fact::Same(2, 4), Fact::Same(4, 2)],
        &[0, 1, 0, 3, 0],
    ),
];

fn put_each(tree: &mut FactTree<Global>, facts: &[Fact<u32>]) -> Result<(), NoMemory> {
    for fact in facts {
        if is_fit(tree.nodes(), *fact) {
            tree.add(*fact)?;
        }
    }
    Ok(())
}

fn are_representatives(tree: &FactTree<Global>, representatives: &[u32]) -> bool {
    let mut are_so = true;
    let mut node = 0u32;
    for representative in representatives {
        are_so &= tree.representative(node) == *representative;
        node = node.wrapping_add(1);
    }
    are_so
}

// Whether the nodes that are told to be one with a node are those of its representative.
fn are_members(tree: &FactTree<Global>) -> bool {
    let mut are_so = true;
    for node in 0..tree.nodes() {
        let members = tree.members(node);
        for other in 0..tree.nodes() {
            let is_one = tree.representative(other) == tree.representative(node);
            are_so &= members.contains(&other) == is_one;
        }
    }
    are_so
}

// Joins in an order, and takes the nodes apart again.
fn is_order(
    tree: &mut FactTree<Global>,
    joins: &[Fact<u32>],
    representatives: &[u32],
) -> Result<bool, NoMemory> {
    let len = tree.len();
    put_each(tree, joins)?;
    let are_joined = are_representatives(tree, representatives) && are_members(tree);
    if len <= tree.len() {
        tree.undo_to(len);
    }
    Ok(are_joined && are_representatives(tree, &[0, 1, 2, 3, 4]) && are_members(tree))
}

fn are_grounds(tree: &FactTree<Global>) -> bool {
    tree.len() == 14
        && tree.fact(1) == Fact::Has(1, 5)
        && tree.ground(Fact::Has(1, 5)) == Some(1)
        && tree.ground(Fact::Edge(7, 0, 3)) == Some(4)
        && tree.ground(Fact::Apart(3, 2)) == Some(11)
        && tree.ground(Fact::Has(1, 6)) == None
        && tree.is_alone(2)
}

// Nodes 1 to 4 below node 0 by role 7 with concept 5.
fn is_grown(tree: &mut FactTree<Global>) -> Result<bool, NoMemory> {
    if tree.nodes() == 0 {
        return Err(NoMemory);
    }
    let first = tree.fresh(0, 7, 5, 4)?;
    Ok(first == 1 && are_grounds(tree))
}

/// Edges between first nodes, and the places where they stand.
const GIVEN: &[Fact<u32>] = &[
    Fact::Edge(7, 0, 1),
    Fact::Edge(7, 3, 1),
    Fact::Edge(7, 0, 2),
    Fact::Edge(8, 2, 0),
    Fact::Edge(7, 1, 1),
];

fn are_given_grounds(tree: &FactTree<Global>) -> bool {
    let mut are_so = tree.ground(Fact::Edge(7, 1, 0)) == None;
    for (place, fact) in GIVEN.iter().enumerate() {
        are_so &= tree.ground(*fact) == Some(place);
    }
    are_so
}

fn have_no_parents(tree: &FactTree<Global>) -> bool {
    let mut are_so = true;
    for node in 0..tree.nodes() {
        are_so &= tree.parent(node) == None && tree.origin(node) == None;
    }
    are_so
}

// Five first nodes with edges that lead to earlier and to later ones.
fn is_begun(tree: &mut FactTree<Global>) -> Result<bool, NoMemory> {
    put_each(tree, GIVEN)?;
    let are_nodes = tree.first() == 5 && tree.nodes() == 5 && have_no_parents(tree);
    let are_edges = tree.edges(0) == [(7, 1), (7, 2)].as_slice();
    Ok(are_nodes && are_edges && are_given_grounds(tree))
}

// Whether five nodes are joined in each order: new ones, or first ones.
fn are_orders(tree: &mut FactTree<Global>, are_new: bool) -> Result<bool, NoMemory> {
    let mut are_so = if are_new {
        is_grown(tree)?
    } else {
        is_begun(tree)?
    };
    for (joins, representatives) in ORDERS {
        are_so &= is_order(tree, joins, representatives)?;
    }
    Ok(are_so)
}

fn are_joined_in_orders(heap: Global, are_new: bool) -> Result<bool, NoMemory> {
    let mut tree = FactTree::new_in(heap, if are_new { 1 } else { 5 })?;
    are_orders(&mut tree, are_new)
}

fn by(heap: Global, line: u32, mark: u32) -> Result<By, NoMemory> {
    Ok(By {
        line,
        marks: Deps::one(heap, mark)?,
    })
}

// The first of so many new nodes below node 0 by role 7 with concept 5.
fn fresh<A: Allocator + Copy>(
    heap: Global,
    tree: &mut Tree<A>,
    count: u32,
    line: u32,
) -> Result<u32, NoMemory> {
    let by = by(heap, line, 20)?;
    if tree.nodes() == 0 || count > 101 {
        return Err(NoMemory);
    }
    tree.fresh(0, 7, 5, count, by)
}

// Node 4 has concept 6 too, and is one with node 1.
fn say<A: Allocator + Copy>(heap: Global, tree: &mut Tree<A>) -> Result<(), NoMemory> {
    if 4 < tree.nodes() {
        tree.add(Fact::Has(4, 6), by(heap, 5, 20)?)?;
    }
    if 4 < tree.nodes() {
        tree.join(4, 1, by(heap, 3, 3)?)?;
    }
    Ok(())
}

/// Nodes 1 to 3 below node 0, a mark, node 4 in the same way, and what is said of it.
fn is_made<A: Allocator + Copy>(heap: Global, tree: &mut Tree<A>) -> Result<bool, NoMemory> {
    let first = fresh(heap, tree, 3, 2)?;
    let mark = tree.put_mark(Choice {
        line: 3,
        branch: Branch::Pair(4, 1),
        alternative: 1,
    })?;
    let next = fresh(heap, tree, 1, 4)?;
    say(heap, tree)?;
    Ok(first == 1 && mark.len == 9 && next == 4)
}

/// Nodes, and their representatives.
const STAND: &[(u32, u32)] = &[(0, 0), (1, 1), (3, 3), (4, 1)];

/// Nodes, concepts, and whether the node has the concept.
const HELD: &[(u32, u32, bool)] = &[(1, 6, true), (4, 5, true), (2, 6, false), (2, 0, true)];

fn are_joined<A: Allocator + Copy>(tree: &Tree<A>) -> bool {
    let mut are_so = true;
    for (node, representative) in STAND {
        are_so &= tree.representative(*node) == *representative;
    }
    for (node, concept, wanted) in HELD {
        are_so &= tree.has(*node, *concept) == *wanted;
    }
    are_so
}

fn are_nodes<A: Allocator + Copy>(tree: &Tree<A>) -> bool {
    tree.len() == 14
        && tree.nodes() == 5
        && tree.parent(4) == Some(0)
        && tree.parent(0) == None
        && tree.origin(4) == Some((7, 0))
        && tree.origin(0) == None
        && tree.are_apart(4, 2)
        && !tree.are_apart(4, 1)
}

fn are_labels_and_entries<A: Allocator + Copy>(tree: &Tree<A>) -> bool {
    tree.len() == 14
        && tree.item(12) == Item::Fact(Fact::Has(4, 6))
        && matches!(tree.by(12), Some(by) if by.line == 5)
        && tree.by(9).is_none()
        && tree.label(1) == [0, 5, 6].as_slice()
        && tree.edges(0) == [(7, 1), (7, 2), (7, 3), (7, 4)].as_slice()
}

/// Facts, and whether their marks have choice 3, by which nodes 4 and 1 are one, and choice 20, on which the rest is
/// said to rest. Node 1 has concept 6 since node 4 has it.
const MARKED: &[(Fact<u32>, bool, bool)] = &[
    (Fact::Has(1, 6), true, true),
    (Fact::Has(2, 5), false, true),
    (Fact::Has(1, 0), false, false),
    (Fact::Apart(4, 2), true, true),
];

// The marks of a fact that is so. Of another it counts as out of memory.
fn marks_of<A: Allocator + Copy>(
    heap: Global,
    tree: &Tree<A>,
    fact: Fact<u32>,
) -> Result<Deps, NoMemory> {
    let nodes = tree.nodes();
    match fact {
        Fact::Has(node, concept) if tree.has(node, concept) => {
            tree.marks_of(heap, Fact::Has(node, concept))
        }
        Fact::Apart(first, second)
            if first < nodes && second < nodes && tree.are_apart(first, second) => {
            tree.marks_of(heap, Fact::Apart(first, second))
        }
        _ => Err(NoMemory),
    }
}

fn is_marked<A: Allocator + Copy>(
    heap: Global,
    tree: &Tree<A>,
    fact: Fact<u32>,
    has_join: bool,
    has_makers: bool,
) -> Result<bool, NoMemory> {
    let marks = marks_of(heap, tree, fact)?;
    Ok(marks.has(3) == has_join && marks.has(20) == has_makers && !marks.has(4))
}

fn are_marked<A: Allocator + Copy>(heap: Global, tree: &Tree<A>) -> Result<bool, NoMemory> {
    let mut are_so = true;
    for (fact, has_join, has_makers) in MARKED {
        are_so &= is_marked(heap, tree, *fact, *has_join, *has_makers)?;
    }
    Ok(are_so)
}

fn is_back<A: Allocator + Copy>(tree: &mut Tree<A>) -> bool {
    if 9 <= tree.len() {
        tree.back(Mark { len: 9 });
    }
    tree.len() == 9 && tree.nodes() == 4 && tree.label(1) == [0, 5].as_slice()
}

fn is_tree<A: Allocator + Copy>(heap: Global, tree: &mut Tree<A>) -> Result<bool, NoMemory> {
    let is_made = is_made(heap, tree)?;
    let are_read = are_joined(tree) && are_nodes(tree) && are_labels_and_entries(tree);
    Ok(is_made && are_read && are_marked(heap, tree)? && is_back(tree))
}

fn is_tree_in<A: Allocator + Copy>(heap: Global, alloc: A) -> Result<bool, NoMemory> {
    let mut tree = Tree::new_in(alloc, 1)?;
    is_tree(heap, &mut tree)
}

// Puts a fact last, where it may be put.
fn add<A: Allocator + Copy>(
    heap: Global,
    tree: &mut Tree<A>,
    fact: Fact<u32>,
    mark: u32,
) -> Result<(), NoMemory> {
    if is_fit(tree.nodes(), fact) {
        tree.add(fact, by(heap, 2, mark)?)?;
    }
    Ok(())
}

// Whether an edge of role 7 leads from the node to node 0.
fn leads<A: Allocator + Copy>(tree: &Tree<A>, from: u32) -> bool
    ensures { IsTrue result → is_so_in (facts_in tree.now.entries) (Edge 7 from 0) ≡ true }
{
    let nodes = tree.nodes();
    from < nodes && 0 < nodes && is_so(&TreeState::new(tree), Fact::Edge(7, from, 0))
}

// Whether the edge to node 0 is there, and rests on what gave it, and on the join where that is said.
fn is_edge_marked<A: Allocator + Copy>(
    heap: Global,
    tree: &Tree<A>,
    from: u32,
    has_join: bool,
) -> Result<bool, NoMemory> {
    if !leads(tree, from) {
        return Ok(false);
    }
    let marks = tree.marks_of(heap, Fact::Edge(7, from, 0))?;
    Ok(marks.has(20) && marks.has(3) == has_join)
}

fn has_members<A: Allocator + Copy>(tree: &Tree<A>, node: u32, count: usize) -> bool {
    node < tree.nodes() && tree.members(node).len() == count
}

/// Three first nodes: an edge leads from node 1 to node 0, and then nodes 1 and 2 are one.
fn is_given<A: Allocator + Copy>(heap: Global, tree: &mut Tree<A>) -> Result<bool, NoMemory> {
    add(heap, tree, Fact::Edge(7, 1, 0), 20)?;
    let is_alone = !leads(tree, 2) && has_members(tree, 2, 1);
    add(heap, tree, Fact::Same(2, 1), 3)?;
    let are_marked = is_edge_marked(heap, tree, 1, false)? && is_edge_marked(heap, tree, 2, true)?;
    let is_joined = tree.representative(2) == 1 && has_members(tree, 2, 2);
    if 1 <= tree.len() {
        tree.back(Mark { len: 1 });
    }
    let is_back = tree.representative(2) == 2 && !leads(tree, 2) && has_members(tree, 2, 1);
    Ok(is_alone && are_marked && is_joined && is_back && tree.nodes() == tree.first())
}

fn is_given_in<A: Allocator + Copy>(heap: Global, alloc: A) -> Result<bool, NoMemory> {
    let mut tree = Tree::new_in(alloc, 3)?;
    is_given(heap, &mut tree)
}

fn is_tree_in_arena(heap: Global) -> Result<bool, NoMemory> {
    let bump = Bump::new(heap);
    is_tree_in(heap, &bump)
}

#[test]
fn trees_over_the_heap_and_in_an_arena(rt: HostRuntime) -> Result<(), Fail> {
    assert!(rt; are_joined_in_orders(rt.alloc(), true)?, "new nodes");
    assert!(rt; are_joined_in_orders(rt.alloc(), false)?, "first nodes");
    assert!(rt; is_tree_in(rt.alloc(), rt.alloc())?, "over the heap");
    assert!(rt; is_tree_in_arena(rt.alloc())?, "in an arena");
    assert!(rt; is_given_in(rt.alloc(), rt.alloc())?, "of first nodes");
    Ok(())
}
