// The members of classes and the edges of the elements of a tree.
ghost use Rattle.std.specs.Prelude.{◌≡◌, ◌++◌, None, length, map, slice_index_or, OnOk, IfOk};
ghost use Rattle.std.specs.List.{range_with_len};
ghost use Rattle.calculus_specs.specs.Shape.{shape_of};
ghost use Rattle.search_laws.specs.Shapes.{form_of};
ghost use Rattle.calculus_specs.specs.Joins.{rep};
ghost use Rattle.calculus_specs.specs.State.{node_count_from};
ghost use Rattle.blocking.specs.Trail.{facts_in};
ghost use Rattle.model_builder.specs.Numbered.{number_of};
ghost use Rattle.model_builder.specs.Collected.{class_in, member_of, members_by, edge_to, edges_by, AreMembers};
ghost use Rattle.model_builder.specs.Collected.{AreElementEdges};

use crate::{Edge, Member, NoMemory};
use blocking::Tree;
use search_laws::{Concepts, Shape};
use std::alloc::{Allocator, Global};

/// Each element in the classes of the node that it is like. There are `size` elements.
pub(crate) fn members_of<A: Allocator + Copy>(
    alloc: Global,
    tree: &Tree<A>,
    concepts: &Concepts,
    originals: &[u32],
    size: u32,
) -> Result<Vec<Member>, NoMemory>
    requires { size ≡ length originals.now }
    ensures { IfOk result
        (λ members. AreMembers concepts.now (facts_in tree.now.entries) originals.now size members.items) }
{
    let mut members = Vec::new(alloc);
    for element in 0..size {
        let label = tree.label(originals[element as usize]);
        put_members(&mut members, concepts, element, label)?;
    }
    Ok(members)
}

/// Puts an element into the classes that the concepts name.
fn put_members(
    members: &mut Vec<Member>,
    concepts: &Concepts,
    element: u32,
    label: &[u32],
) -> Result<(), NoMemory>
    ensures { OnOk result (members.new.items ≡ members.old.items ++ members_by concepts.now element label.now) }
{
    for concept in label {
        put_member(members, element, class_of(concepts, *concept))?;
    }
    Ok(())
}

/// Puts an element into a class, if there is one.
fn put_member(members: &mut Vec<Member>, element: u32, class: Option<u32>) -> Result<(), NoMemory>
    ensures { OnOk result (members.new.items ≡ members.old.items ++ member_of element class) }
{
    if let Some(class) = class {
        members.push(Member { class, element })?;
    }
    Ok(())
}

/// The class that a concept names, if it is a name.
fn class_of(concepts: &Concepts, concept: u32) -> Option<u32>
    ensures { result ≡ class_in (shape_of concepts.now concept) }
{
    if concept >= concepts.len() {
        return None;
    }
    class_named(concepts.shape(concept))
}

/// The class that a shape names, if it is a name.
fn class_named(shape: Shape<'_>) -> Option<u32>
    ensures { result ≡ class_in (form_of shape.entry) }
{
    match shape {
        Shape::Name(class) => Some(class),
        _ => None,
    }
}

/// The edges of the node that each element is like, between elements. There are `size` elements.
pub(crate) fn edges_of<A: Allocator + Copy>(
    alloc: Global,
    tree: &Tree<A>,
    numbers: &[Option<u32>],
    originals: &[u32],
    size: u32,
) -> Result<Vec<Edge>, NoMemory>
    requires size { size ≡ length originals.now }
    requires numbers { numbers.now
        ≡ map (number_of tree.now.first (facts_in tree.now.entries))
        (range_with_len 0 (node_count_from tree.now.first (facts_in tree.now.entries))) }
    ensures { IfOk result
        (λ edges. AreElementEdges tree.now.first (facts_in tree.now.entries) originals.now size edges.items) }
{
    let mut edges = Vec::new(alloc);
    for element in 0..size {
        let begun = tree.edges(originals[element as usize]);
        put_edges(&mut edges, tree, numbers, element, begun)?;
    }
    Ok(edges)
}

/// Puts edges from an element.
fn put_edges<A: Allocator + Copy>(
    edges: &mut Vec<Edge>,
    tree: &Tree<A>,
    numbers: &[Option<u32>],
    element: u32,
    begun: &[(u32, u32)],
) -> Result<(), NoMemory>
    ensures { OnOk result
        (edges.new.items
        ≡ edges.old.items ++ edges_by (rep (facts_in tree.now.entries)) numbers.now element begun.now) }
{
    for edge in begun {
        let end = number_at(numbers, tree.representative(edge.1));
        put_edge(edges, element, edge.0, end)?;
    }
    Ok(())
}

/// Puts an edge from one element to another, if it ends at an element.
fn put_edge(edges: &mut Vec<Edge>, from: u32, role: u32, end: Option<u32>) -> Result<(), NoMemory>
    ensures { OnOk result (edges.new.items ≡ edges.old.items ++ edge_to from role end) }
{
    if let Some(to) = end {
        edges.push(Edge { role, from, to })?;
    }
    Ok(())
}

/// The number of a node as an element, if it is one.
pub(crate) fn number_at(numbers: &[Option<u32>], node: u32) -> Option<u32>
    ensures { result ≡ slice_index_or numbers.now node None }
{
    match numbers.get(node as usize) {
        Some(number) => *number,
        None => None,
    }
}
