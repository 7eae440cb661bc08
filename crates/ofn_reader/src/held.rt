// What the axioms of an ontology come to in the counts of a reader.
//
// Counts stop at the limits of documents: each function answers what is left of the room that there was.
ghost use Rattle.std.specs.Prelude.{◌≡◌, ◌-◌, ◌≤◌, min, length, IsTrue};
ghost use Rattle.shq_terms.specs.Uses.{all_use_listed};
ghost use Rattle.shq_terms.specs.Concept.{parts_of};
ghost use Rattle.ofn_reader.specs.Held.{expressions, all_expressions, axiom_expressions, expression_count, kind_of};
ghost use Rattle.ofn_reader.specs.Held.{items_in, parts_in, parts_held, counts_of};

use crate::keywords::AxiomKind;
use crate::parts::{MANY, parts_by_item_count};
use ofn_expressions::{MAX_NODES, Reading};
use shq_terms::{Axiom, Concept, Node, Numbered, Ontology};

const MAX_PARTS: u32 = 500_000;

// The room behind a class expression.
#[cycle(expressions)]
fn room_behind(room: u32, class: &Concept) -> u32
    ensures { result ≡ room - expressions class.now }
{
    let inner = room.saturating_sub(1);
    match &class.node {
        Node::Top | Node::Bottom | Node::Name(_) => inner,
        Node::Not(class) => room_behind(inner, class),
        Node::And(parts) | Node::Or(parts) => room_behind_all(inner, parts),
        Node::SomeOf(_, filler) | Node::AllOf(_, filler) => room_behind(inner, filler),
        Node::Min(_, _, filler) | Node::Max(_, _, filler) | Node::Exact(_, _, filler) => {
            room_behind(inner, filler)
        }
    }
}

// The room behind some class expressions.
#[cycle(expressions)]
fn room_behind_all(room: u32, classes: &[Concept]) -> u32
    ensures { result ≡ room - all_expressions (parts_of classes.now) }
{
    let mut left = room;
    for class in classes {
        left = room_behind(left, class);
    }
    left
}

// The room behind the class expressions of an axiom.
fn room_behind_axiom(room: u32, axiom: &Axiom) -> u32
    ensures { result ≡ room - axiom_expressions «axiom».now }
{
    match axiom {
        Axiom::SubClassOf(sub, sup) => room_behind(room_behind(room, sub), sup),
        Axiom::EquivalentClasses(classes) | Axiom::DisjointClasses(classes) => {
            room_behind_all(room, classes.items())
        }
        Axiom::DisjointUnion(_, classes) => {
            room_behind_all(room.saturating_sub(1), classes.items())
        }
        Axiom::Domain(_, class) | Axiom::Range(_, class) | Axiom::Member(class, _) => {
            room_behind(room, class)
        }
        Axiom::SubRole(_, _)
        | Axiom::EquivalentRoles(_)
        | Axiom::Functional(_)
        | Axiom::Transitive(_)
        | Axiom::Pair(_, _, _)
        | Axiom::SameAll(_)
        | Axiom::Different(_) => room,
    }
}

// How many class expressions the axioms have together, or as many as a document may have.
fn expressions_held(axioms: &[Numbered]) -> u32
    ensures { result ≡ min (expression_count axioms.now) MAX_NODES }
{
    let mut left = MAX_NODES;
    for numbered in axioms {
        left = room_behind_axiom(left, &numbered.axiom);
    }
    MAX_NODES - left
}

fn kind_of(axiom: &Axiom) -> AxiomKind
    ensures { result ≡ kind_of «axiom».now }
{
    match axiom {
        Axiom::SubClassOf(_, _) => AxiomKind::SubClassOf,
        Axiom::EquivalentClasses(_) => AxiomKind::EquivalentClasses,
        Axiom::DisjointClasses(_) => AxiomKind::DisjointClasses,
        Axiom::DisjointUnion(_, _) => AxiomKind::DisjointUnion,
        Axiom::SubRole(_, _) => AxiomKind::SubRole,
        Axiom::EquivalentRoles(_) => AxiomKind::EquivalentRoles,
        Axiom::Domain(_, _) => AxiomKind::Domain,
        Axiom::Range(_, _) => AxiomKind::Range,
        Axiom::Functional(_) => AxiomKind::Functional,
        Axiom::Transitive(_) => AxiomKind::Transitive,
        Axiom::Member(_, _) => AxiomKind::Member,
        Axiom::Pair(_, _, _) => AxiomKind::Pair,
        Axiom::SameAll(_) => AxiomKind::SameAll,
        Axiom::Different(_) => AxiomKind::Different,
    }
}

// How many items an axiom is written with, or as many as give too many parts.
fn item_count(axiom: &Axiom) -> usize
    ensures { result ≡ min (items_in «axiom».now) MANY }
{
    match axiom {
        Axiom::EquivalentClasses(classes) | Axiom::DisjointClasses(classes) => {
            classes.items().len().min(MANY)
        }
        Axiom::DisjointUnion(_, classes) => classes.items().len().min(MANY - 1) + 1,
        Axiom::EquivalentRoles(numbers) | Axiom::SameAll(numbers) | Axiom::Different(numbers) => {
            numbers.items().len().min(MANY)
        }
        Axiom::SubClassOf(_, _)
        | Axiom::SubRole(_, _)
        | Axiom::Domain(_, _)
        | Axiom::Range(_, _)
        | Axiom::Member(_, _) => 2,
        Axiom::Pair(_, _, _) => 3,
        Axiom::Functional(_) | Axiom::Transitive(_) => 1,
    }
}

// The room behind the parts of an axiom.
fn room_behind_parts(room: u32, axiom: &Axiom) -> u32
    requires { room ≤ MAX_PARTS }
    ensures { result ≡ room - parts_in «axiom».now }
{
    let parts = parts_by_item_count(kind_of(axiom), item_count(axiom) as u64);
    u64::from(room).saturating_sub(parts) as u32
}

// How many parts were counted for the axioms together, or as many as a document may have.
fn parts_held(axioms: &[Numbered]) -> u32
    ensures { result ≡ min (parts_held axioms.now) MAX_PARTS }
{
    let mut left = MAX_PARTS;
    for numbered in axioms {
        left = room_behind_parts(left, &numbered.axiom);
    }
    MAX_PARTS - left
}

/// Goes on from all that the ontology holds.
pub(crate) fn reading_of(ontology: Ontology) -> Reading
    ensures state { result ≡ record { counts = counts_of ontology; read = ontology.axioms } }
    ensures listed { IsTrue
        (all_use_listed (length ontology.classes) (length ontology.roles) (length ontology.individuals)
        ontology.axioms) }
{
    let axioms = ontology.axiom_count();
    let nodes = expressions_held(ontology.axioms());
    let parts = parts_held(ontology.axioms());
    let mut state = Reading::new(ontology, axioms, nodes);
    match state.count_parts(0, u64::from(parts)) {
        Ok(()) => state,
        Err(_) => unreachable!(),
    }
}
