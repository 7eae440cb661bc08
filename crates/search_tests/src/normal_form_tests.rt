// Normal forms and parts that were worked out by hand.
ghost use Rattle.std.specs.Prelude.{◌≡◌, ◌≤◌, IfOk, IsTrue, length};
ghost use Rattle.shq_nnf.specs.Counts.{has_counts_within};
ghost use Rattle.shq_nnf.specs.Parts.{axiom_parts, axiom_has_counts_within};

use crate::small_axioms::{class, three_classes};
use crate::small_tables::{is_shape, put};
use shq_nnf::{Concepts, NoMemory, Part, Shape, part_count};
use shq_terms::{Axiom, Concept, Node};
use std::alloc::Global;
use std::process::Abort;
use std::test::Fail;

/// What is tried of a table that has only number 0.
#[derive(Clone, Copy)]
enum Tried {
    Numbers,
    Cardinalities,
    ExactlyOne,
    AtLeastNone,
    Unions,
    Parts,
}

const EACH: &[Tried] = &[
    Tried::Numbers,
    Tried::Cardinalities,
    Tried::ExactlyOne,
    Tried::AtLeastNone,
    Tried::Unions,
    Tried::Parts,
];

/// Shapes that are put in turn, and their numbers.
const NUMBERED: &[(Shape<'static>, u32)] = &[
    (Shape::Name(5), 1),
    (Shape::Min(2, 0, 1), 2),
    (Shape::Name(5), 1),
    (Shape::Min(2, 1, 1), 3),
];

/// Shapes and their complements.
const OPPOSITES: &[(Shape<'static>, Shape<'static>)] = &[
    (Shape::Max(100, 0, 0), Shape::Min(101, 0, 0)),
    (Shape::Max(1, 0, 0), Shape::Min(2, 0, 0)),
    (Shape::Min(2, 0, 0), Shape::Max(1, 0, 0)),
    (Shape::Min(101, 0, 0), Shape::Max(100, 0, 0)),
    (Shape::NotName(5), Shape::Name(5)),
];

/// What unions are of, and two numbers with that of their union.
const NAMES: &[(Shape<'static>, u32)] = &[
    (Shape::Name(5), 1),
    (Shape::Name(6), 2),
    (Shape::Name(7), 3),
    (Shape::Bottom, 4),
];

const UNIONS: &[(u32, u32, u32)] = &[(1, 2, 5), (5, 3, 6), (4, 5, 5), (3, 0, 0), (4, 4, 4)];

/// The names of the disjoint union, and the two sides of some of its parts.
const SPLIT_NAMES: &[(Shape<'static>, u32)] = &[
    (Shape::Name(9), 1),
    (Shape::Name(0), 2),
    (Shape::Name(1), 3),
    (Shape::NotName(2), 4),
];

const SIDES: &[(u32, u32, u32)] = &[(2, 2, 1), (6, 2, 4), (7, 3, 4)];

fn complement(concepts: &mut Concepts, concept: u32) -> Result<u32, NoMemory> {
    if concept < concepts.len() {
        concepts.negated(concept)
    } else {
        Err(NoMemory)
    }
}

// The union of two numbers.
fn union(concepts: &mut Concepts, first: u32, second: u32) -> Result<u32, NoMemory> {
    let len = concepts.len();
    if first < len && second < len {
        concepts.union_of(&[first, second])
    } else {
        Err(NoMemory)
    }
}

// At least so many successors in role 0 are in class 5, or exactly so many.
fn successors(alloc: Global, exactly: bool, count: u32) -> Result<Concept, NoMemory>
    requires { count ≤ 100 }
    ensures { IfOk result (λ c. IsTrue (has_counts_within 100 c)) }
{
    let filler = Box::new(alloc, class(5))?;
    let node = if exactly {
        Node::Exact(count, 0, filler)
    } else {
        Node::Min(count, 0, filler)
    };
    Ok(Concept { node })
}

// The number of such successors.
fn interned(
    alloc: Global,
    concepts: &mut Concepts,
    exactly: bool,
    count: u32,
) -> Result<u32, NoMemory> {
    let concept = successors(alloc, exactly, count.min(100))?;
    concepts.intern(&concept)
}

fn are_put(concepts: &mut Concepts, table: &[(Shape<'_>, u32)]) -> Result<bool, NoMemory> {
    let mut are_so = true;
    for (shape, number) in table {
        are_so &= put(concepts, *shape)? == *number;
    }
    Ok(are_so)
}

fn are_opposites(concepts: &mut Concepts) -> Result<bool, NoMemory> {
    let mut are_so = true;
    for (shape, opposite) in OPPOSITES {
        let number = put(concepts, *shape)?;
        let other = complement(concepts, number)?;
        are_so &= put(concepts, *opposite)? == other;
    }
    Ok(are_so)
}

fn is_exactly_one(alloc: Global, concepts: &mut Concepts) -> Result<bool, NoMemory> {
    let not_class = put(concepts, Shape::NotName(5))?;
    let class = put(concepts, Shape::Name(5))?;
    let none = put(concepts, Shape::AllOf(0, not_class))?;
    let two = put(concepts, Shape::Min(2, 0, class))?;
    let one = interned(alloc, concepts, true, 1)?;
    let other = complement(concepts, one)?;
    Ok(is_shape(concepts, other, Shape::Or(&[none, two])))
}

fn is_at_least_none(alloc: Global, concepts: &mut Concepts) -> Result<bool, NoMemory> {
    let any = interned(alloc, concepts, false, 0)?;
    let none = complement(concepts, any)?;
    Ok(any == 0 && is_shape(concepts, none, Shape::Bottom))
}

fn are_unions(concepts: &mut Concepts) -> Result<bool, NoMemory> {
    let mut are_so = are_put(concepts, NAMES)?;
    for (first, second, number) in UNIONS {
        are_so &= union(concepts, *first, *second)? == *number;
    }
    let whole = union(concepts, 5, 3)?;
    Ok(are_so && is_shape(concepts, whole, Shape::Or(&[1, 2, 3])))
}

// The class 9 is the disjoint union of the classes 0, 1 and 2.
fn split(alloc: Global) -> Result<Axiom, NoMemory>
    ensures listed { IfOk result (λ a. length (axiom_parts a) ≡ 7) }
    ensures counts { IfOk result (λ a. IsTrue (axiom_has_counts_within 100 a)) }
{
    let classes = three_classes(alloc)?;
    Ok(Axiom::DisjointUnion(class(9), classes))
}

// Whether a part is the inclusion of the one concept in the other.
fn is_inclusion(part: &Part, left: u32, right: u32) -> bool {
    match part {
        Part::Inclusion(conjuncts, sup) => conjuncts.items() == [left].as_slice() && *sup == right,
        Part::Range(_, _) => false,
    }
}

// Whether a part of that axiom has these sides.
fn has_sides(
    concepts: &mut Concepts,
    whole: &Axiom,
    sides: (u32, u32, u32),
) -> Result<bool, NoMemory>
    requires listed { length (axiom_parts whole.now) ≡ 7 }
    requires counts { IsTrue (axiom_has_counts_within 100 whole.now) }
{
    let (number, left, right) = sides;
    if number == 0 || number > 7 {
        return Err(NoMemory);
    }
    let part = concepts.part(whole, number)?;
    Ok(is_inclusion(&part, left, right))
}

fn have_sides(concepts: &mut Concepts, whole: &Axiom) -> Result<bool, NoMemory>
    requires listed { length (axiom_parts whole.now) ≡ 7 }
    requires counts { IsTrue (axiom_has_counts_within 100 whole.now) }
{
    let mut are_so = part_count(whole) == 7;
    for sides in SIDES {
        are_so &= has_sides(concepts, whole, *sides)?;
    }
    Ok(are_so)
}

fn are_split(alloc: Global, concepts: &mut Concepts) -> Result<bool, NoMemory> {
    let whole = split(alloc)?;
    have_sides(concepts, &whole)
}

fn count_of(axiom: Axiom) -> u32
    requires { length (axiom_parts «axiom») ≤ 500000 }
{
    part_count(&axiom)
}

fn are_parts(alloc: Global, concepts: &mut Concepts) -> Result<bool, NoMemory> {
    let are_named = are_put(concepts, SPLIT_NAMES)?;
    let of_roles = count_of(Axiom::Transitive(0));
    let of_facts = count_of(Axiom::Pair(0, 0, 1));
    Ok(are_split(alloc, concepts)? && are_named && of_roles == 0 && of_facts == 0)
}

fn is_so_in(alloc: Global, concepts: &mut Concepts, tried: Tried) -> Result<bool, NoMemory> {
    match tried {
        Tried::Numbers => Ok(are_put(concepts, NUMBERED)? && concepts.len() == 4),
        Tried::Cardinalities => are_opposites(concepts),
        Tried::ExactlyOne => is_exactly_one(alloc, concepts),
        Tried::AtLeastNone => is_at_least_none(alloc, concepts),
        Tried::Unions => are_unions(concepts),
        Tried::Parts => are_parts(alloc, concepts),
    }
}

fn is_so(alloc: Global, tried: Tried) -> Result<bool, NoMemory> {
    let mut concepts = Concepts::new(alloc)?;
    is_so_in(alloc, &mut concepts, tried)
}

fn test_each(rt: &impl Abort, alloc: Global) -> Result<(), NoMemory> {
    for (place, tried) in EACH.iter().enumerate() {
        assert!(rt; is_so(alloc, *tried)?, "what is tried at {place}");
    }
    Ok(())
}

#[test]
fn numbers_complements_and_parts(rt: HostRuntime) -> Result<(), Fail> {
    test_each(&rt, rt.alloc())?;
    Ok(())
}
