// Small tables of concepts, and boxes of a few roles.

use crate::small_axioms::{add_names, list_of};
use role_box::RoleBox;
use shq_nnf::{Concepts, Shape};
use shq_terms::{AddFault, Axiom, NoMemory, Ontology};
use std::alloc::Global;

/// Puts a shape of the kinds that these tests use. One that may not be put counts as out of memory.
pub(crate) fn put(concepts: &mut Concepts, shape: Shape<'_>) -> Result<u32, NoMemory> {
    let len = concepts.len();
    match shape {
        Shape::Bottom | Shape::Name(_) | Shape::NotName(_) => concepts.put(shape),
        Shape::SomeOf(_, filler) | Shape::AllOf(_, filler) if filler < len => concepts.put(shape),
        Shape::Min(count, _, filler) if 2 <= count && count <= 101 && filler < len => {
            concepts.put(shape)
        }
        Shape::Max(count, _, filler) if 1 <= count && count <= 100 && filler < len => {
            concepts.put(shape)
        }
        _ => Err(NoMemory),
    }
}

fn put_each(concepts: &mut Concepts, shapes: &[Shape<'_>]) -> Result<(), NoMemory> {
    for shape in shapes {
        put(concepts, *shape)?;
    }
    Ok(())
}

pub(crate) fn table(alloc: Global, shapes: &[Shape<'_>]) -> Result<Concepts, NoMemory> {
    let mut concepts = Concepts::new(alloc)?;
    put_each(&mut concepts, shapes)?;
    Ok(concepts)
}

/// Whether the number is one of the table, and that of this shape.
pub(crate) fn is_shape(concepts: &Concepts, number: u32, shape: Shape<'_>) -> bool {
    number < concepts.len() && concepts.shape(number) == shape
}

/// What an axiom says of roles.
#[derive(Clone, Copy)]
pub(crate) enum Says {
    Below(u32, u32),
    Same(u32, u32),
    Transitive(u32),
    Functional(u32),
}

/// Role 0 is below role 1, which is transitive, and that below role 2. Of role 3 nothing is said.
pub(crate) const CHAIN: &[(Says, u32)] = &[
    (Says::Below(0, 1), 1),
    (Says::Below(1, 2), 1),
    (Says::Transitive(1), 1),
];

/// Adds an axiom of a line, if its roles are listed.
pub(crate) fn add(
    alloc: Global,
    ontology: &mut Ontology,
    says: Says,
    line: u32,
) -> Result<u32, AddFault> {
    let count = ontology.role_count();
    match says {
        Says::Below(lower, upper) if lower < count && upper < count => {
            ontology.add_axiom(Axiom::SubRole(lower, upper), line)
        }
        Says::Same(one, other) if one < count && other < count => {
            let roles = list_of(alloc, &[one, other])?;
            ontology.add_axiom(Axiom::EquivalentRoles(roles), line)
        }
        Says::Transitive(role) if role < count => {
            ontology.add_axiom(Axiom::Transitive(role), line)
        }
        Says::Functional(role) if role < count => {
            ontology.add_axiom(Axiom::Functional(role), line)
        }
        _ => Err(AddFault::Full),
    }
}

/// Lists roles, and adds axioms with their lines.
pub(crate) fn add_all(
    alloc: Global,
    ontology: &mut Ontology,
    roles: &[&str],
    all: &[(Says, u32)],
) -> Result<(), AddFault> {
    add_names(ontology, &[], roles, &[])?;
    for (says, line) in all {
        add(alloc, ontology, *says, *line)?;
    }
    Ok(())
}

/// The box of the axioms of these numbers. Where there is none of a number, that counts as out of memory.
pub(crate) fn made_box(
    alloc: Global,
    ontology: &Ontology,
    only: &[u32],
) -> Result<RoleBox, NoMemory> {
    let count = ontology.axiom_count();
    if only.iter().all(|number| 1 <= *number && *number <= count) {
        RoleBox::build(alloc, ontology, only)
    } else {
        Err(NoMemory)
    }
}

// The box of four roles, by the axioms of these numbers.
fn filled_box(
    alloc: Global,
    ontology: &mut Ontology,
    all: &[(Says, u32)],
    only: &[u32],
) -> Result<RoleBox, AddFault> {
    add_all(alloc, ontology, &["a", "b", "c", "d"], all)?;
    Ok(made_box(alloc, ontology, only)?)
}

pub(crate) fn role_box(
    alloc: Global,
    all: &[(Says, u32)],
    only: &[u32],
) -> Result<RoleBox, AddFault> {
    let mut ontology = Ontology::new(alloc);
    filled_box(alloc, &mut ontology, all, only)
}
