// Class expressions and queries that are compared with each other.

use crate::checks::check;
use shq_terms::{Concept, ConceptList, NoMemory, Node, On, Query};
use std::alloc::Global;
use std::test::Fail;

/// Classes that are the parts of an intersection or a union: no two lists are equal.
const PARTS: &[&[u32]] = &[&[], &[0], &[0, 0], &[0, 1], &[1, 0], &[0, 1, 0], &[0, 1, 1]];

/// Roles and classes that are their fillers.
const RESTRICTIONS: &[(u32, u32)] = &[(0, 0), (1, 0), (0, 1)];

/// Cardinalities, roles and classes that are their fillers.
const CARDINALITIES: &[(u32, u32, u32)] = &[(1, 0, 0), (2, 0, 0), (1, 1, 0), (1, 0, 1)];

/// The elements that a query speaks of.
const ELEMENTS: &[On] = &[On::Any, On::Individual(0), On::Individual(1)];

fn class(number: u32) -> Concept {
    Concept {
        node: Node::Name(number),
    }
}

fn boxed(alloc: Global, number: u32) -> Result<Box<Concept>, NoMemory> {
    Ok(Box::new(alloc, class(number))?)
}

fn classes(alloc: Global, numbers: &[u32]) -> Result<Vec<Concept>, NoMemory> {
    let mut classes = Vec::new(alloc);
    for number in numbers {
        classes.push(class(*number))?;
    }
    Ok(classes)
}

fn put(concepts: &mut ConceptList, node: Node) -> Result<(), NoMemory> {
    concepts.push(Concept { node })
}

fn put_plain(alloc: Global, concepts: &mut ConceptList) -> Result<(), NoMemory> {
    put(concepts, Node::Top)?;
    put(concepts, Node::Bottom)?;
    for number in 0..2 {
        put(concepts, Node::Name(number))?;
        put(concepts, Node::Not(boxed(alloc, number)?))?;
    }
    Ok(())
}

fn put_combined(alloc: Global, concepts: &mut ConceptList) -> Result<(), NoMemory> {
    for numbers in PARTS {
        put(concepts, Node::And(classes(alloc, numbers)?))?;
        put(concepts, Node::Or(classes(alloc, numbers)?))?;
    }
    Ok(())
}

fn put_restrictions(alloc: Global, concepts: &mut ConceptList) -> Result<(), NoMemory> {
    for (role, filler) in RESTRICTIONS {
        put(concepts, Node::SomeOf(*role, boxed(alloc, *filler)?))?;
        put(concepts, Node::AllOf(*role, boxed(alloc, *filler)?))?;
    }
    Ok(())
}

fn put_cardinalities(alloc: Global, concepts: &mut ConceptList) -> Result<(), NoMemory> {
    for (count, role, filler) in CARDINALITIES {
        put(concepts, Node::Min(*count, *role, boxed(alloc, *filler)?))?;
        put(concepts, Node::Max(*count, *role, boxed(alloc, *filler)?))?;
        put(concepts, Node::Exact(*count, *role, boxed(alloc, *filler)?))?;
    }
    Ok(())
}

// Puts expressions of each kind, of which no two are the same.
fn put_all(alloc: Global, concepts: &mut ConceptList) -> Result<(), NoMemory> {
    put_plain(alloc, concepts)?;
    put_combined(alloc, concepts)?;
    put_restrictions(alloc, concepts)?;
    put_cardinalities(alloc, concepts)
}

// Whether an expression is that of the others which stands at its place, and no other one.
fn is_at(concept: &Concept, others: &[Concept], place: usize) -> bool {
    for (at, other) in others.iter().enumerate() {
        if concept.is_same(other) != (at == place) {
            return false;
        }
    }
    true
}

fn are_apart(concepts: &[Concept], others: &[Concept]) -> bool {
    for (place, concept) in concepts.iter().enumerate() {
        if !is_at(concept, others, place) {
            return false;
        }
    }
    true
}

fn are_put_apart(
    alloc: Global,
    concepts: &mut ConceptList,
    others: &mut ConceptList,
) -> Result<bool, NoMemory> {
    put_all(alloc, concepts)?;
    put_all(alloc, others)?;
    Ok(are_apart(concepts.items(), others.items()))
}

fn expressions_are_apart(alloc: Global) -> Result<bool, NoMemory> {
    let mut concepts = ConceptList::new(alloc);
    let mut others = ConceptList::new(alloc);
    are_put_apart(alloc, &mut concepts, &mut others)
}

fn query(sub: u32, sup: u32, on: On) -> Query {
    Query {
        sub: class(sub),
        sup: class(sup),
        on,
    }
}

fn is_asked(asked: &Query, sub: u32, sup: u32, on: On) -> bool {
    let other = query(sub, sup, on);
    asked.is_same(&other)
}

fn are_alike(asked: &Query, on: On, is_equal: bool) -> bool {
    is_asked(asked, 0, 1, on) == is_equal
        && !is_asked(asked, 1, 1, on)
        && !is_asked(asked, 0, 0, on)
}

// Whether queries of these elements are the same just where the elements are, and differ in each class.
fn are_asked_alike(on: On, other: On, is_equal: bool) -> bool {
    let asked = query(0, 1, on);
    are_alike(&asked, other, is_equal) & (on.is_same(other) == is_equal)
}

fn queries_are_apart() -> bool {
    for (place, on) in ELEMENTS.iter().enumerate() {
        for (at, other) in ELEMENTS.iter().enumerate() {
            if !are_asked_alike(*on, *other, at == place) {
                return false;
            }
        }
    }
    true
}

#[test]
fn expressions_and_queries(rt: HostRuntime) -> Result<(), Fail> {
    check(&rt, expressions_are_apart(rt.alloc())?, "expressions");
    check(&rt, queries_are_apart(), "queries");
    Ok(())
}
