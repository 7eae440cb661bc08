// Role axioms on which no line rests.
//
// A line asks of roles whether one is below another, or transitive between two, and it asks this of those of which the
// lines speak. An axiom leads from a role to another. It has a part in an answer only if such a role is below the first
// of the two, and the second is below such a role.
ghost use Rattle.std.specs.Prelude.{◌≡◌, IfOk};

use crate::NoMemory;
use axiom_sets::AxiomSet;
use indexmap::IndexSet;
use refutation_truth::{Concepts, RoleBox, Shape};
use search_trace::Line;
use shq_terms::{Axiom, Numbered, Ontology};
use std::alloc::Global;

/// Those of the role axioms of a set that can be left out of a refutation with these lines, as far as the roles tell of
/// which the lines speak. `roles` is the role box of the set.
///
/// # Errors
///
/// Out of memory.
pub(crate) fn idle_role_axioms(
    alloc: Global,
    lines: &[Line],
    ontology: &Ontology,
    role_axioms: &AxiomSet,
    concepts: &Concepts,
    roles: &RoleBox,
) -> Result<AxiomSet, NoMemory>
    ensures { IfOk result (λ idle. idle.limit ≡ role_axioms.now.limit) }
{
    let mut spoken = IndexSet::new(alloc);
    put_roles(&mut spoken, lines, ontology.axioms(), concepts)?;
    let mut idle = AxiomSet::empty(alloc, role_axioms.limit())?;
    put_idle(&mut idle, role_axioms, ontology.axioms(), &spoken, roles);
    Ok(idle)
}

// Puts the roles in of which the lines speak.
fn put_roles(
    spoken: &mut IndexSet<u32>,
    lines: &[Line],
    axioms: &[Numbered],
    concepts: &Concepts,
) -> Result<(), NoMemory> {
    for line in lines {
        put_roles_of(spoken, line, axioms, concepts)?;
    }
    Ok(())
}

fn put_roles_of(
    spoken: &mut IndexSet<u32>,
    line: &Line,
    axioms: &[Numbered],
    concepts: &Concepts,
) -> Result<(), NoMemory> {
    match line {
        Line::All(_, _, concept) | Line::SomeOf(_, _, concept) | Line::Least(_, _, concept) => {
            put_restricted(spoken, *concept, concepts)
        }
        Line::Most(_, concept, _) => put_restricted(spoken, *concept, concepts),
        Line::Carry(_, _, role, concept) => {
            spoken.insert(*role)?;
            put_restricted(spoken, *concept, concepts)
        }
        Line::Range(_, _, axiom) | Line::Fact(axiom, _) => put_asserted(spoken, *axiom, axioms),
        Line::Start | Line::And(..) | Line::Or(..) | Line::Row(..) => Ok(()),
        Line::Choose(..) | Line::Pair(..) | Line::Differ(..) => Ok(()),
        Line::Bottom(..) | Line::Clash(..) => Ok(()),
    }
}

// The role of a restriction.
fn put_restricted(
    spoken: &mut IndexSet<u32>,
    concept: u32,
    concepts: &Concepts,
) -> Result<(), NoMemory> {
    if concept >= concepts.len() {
        return Ok(());
    }
    match concepts.shape(concept) {
        Shape::SomeOf(role, _) | Shape::AllOf(role, _) => put(spoken, role),
        Shape::Min(_, role, _) | Shape::Max(_, role, _) => put(spoken, role),
        Shape::Top | Shape::Bottom | Shape::Name(_) | Shape::NotName(_) => Ok(()),
        Shape::And(_) | Shape::Or(_) => Ok(()),
    }
}

// The role of an edge that is given, or of a range.
fn put_asserted(
    spoken: &mut IndexSet<u32>,
    axiom: u32,
    axioms: &[Numbered],
) -> Result<(), NoMemory> {
    match role_asserted(axioms, axiom) {
        Some(role) => put(spoken, role),
        None => Ok(()),
    }
}

// The role of an axiom that stands in a line by itself, and not by a part that is a concept.
fn role_asserted(axioms: &[Numbered], number: u32) -> Option<u32> {
    match axiom_at(axioms, number)? {
        Axiom::Pair(role, _, _) | Axiom::Range(role, _) => Some(*role),
        Axiom::SubClassOf(..) | Axiom::EquivalentClasses(_) | Axiom::DisjointClasses(_) => None,
        Axiom::DisjointUnion(..) | Axiom::SubRole(..) | Axiom::EquivalentRoles(_) => None,
        Axiom::Domain(..) | Axiom::Functional(_) | Axiom::Transitive(_) => None,
        Axiom::Member(..) | Axiom::SameAll(_) | Axiom::Different(_) => None,
    }
}

fn put(spoken: &mut IndexSet<u32>, role: u32) -> Result<(), NoMemory> {
    spoken.insert(role)?;
    Ok(())
}

// The axiom of a number, from 1.
fn axiom_at(axioms: &[Numbered], number: u32) -> Option<&Axiom> {
    match axioms.get(number.saturating_sub(1) as usize) {
        Some(numbered) => Some(&numbered.axiom),
        None => None,
    }
}

// Puts those of the role axioms in that are idle.
fn put_idle(
    idle: &mut AxiomSet,
    role_axioms: &AxiomSet,
    axioms: &[Numbered],
    spoken: &IndexSet<u32>,
    roles: &RoleBox,
)
    ensures { idle.new.limit ≡ idle.old.limit }
{
    for number in role_axioms.numbers() {
        if is_idle(axioms, number, spoken, roles) {
            put_number(idle, number);
        }
    }
}

fn put_number(idle: &mut AxiomSet, number: u32)
    ensures { idle.new.limit ≡ idle.old.limit }
{
    if 1 <= number && number <= idle.limit() {
        idle.put(number);
    }
}

fn is_idle(axioms: &[Numbered], number: u32, spoken: &IndexSet<u32>, roles: &RoleBox) -> bool {
    match ends_of(axioms, number) {
        Some((lower, upper)) => !leads_between(spoken, roles, lower, upper),
        None => false,
    }
}

// From which role to which the axiom leads, if it is a role axiom. One that makes a role transitive leads from it to
// itself, and so does, of each of its roles, one that makes roles equivalent.
fn ends_of(axioms: &[Numbered], number: u32) -> Option<(u32, u32)> {
    match axiom_at(axioms, number)? {
        Axiom::SubRole(lower, upper) => Some((*lower, *upper)),
        Axiom::EquivalentRoles(members) => match members.items().first() {
            Some(member) => Some((*member, *member)),
            None => None,
        },
        Axiom::Transitive(role) => Some((*role, *role)),
        Axiom::SubClassOf(..) | Axiom::EquivalentClasses(_) | Axiom::DisjointClasses(_) => None,
        Axiom::DisjointUnion(..) | Axiom::Domain(..) | Axiom::Range(..) => None,
        Axiom::Functional(_) | Axiom::Member(..) | Axiom::Pair(..) => None,
        Axiom::SameAll(_) | Axiom::Different(_) => None,
    }
}

// Whether one of the roles is below the first of two, and the second below one of them.
fn leads_between(spoken: &IndexSet<u32>, roles: &RoleBox, lower: u32, upper: u32) -> bool {
    let mut comes = false;
    let mut goes = false;
    for role in spoken.iter() {
        comes = comes || roles.below(*role, lower);
        goes = goes || roles.below(upper, *role);
    }
    comes && goes
}
