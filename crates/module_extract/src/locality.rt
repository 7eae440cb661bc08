// Whether axioms are local for the names that came in.
ghost use Rattle.std.specs.Prelude.{◌≡◌, ◌||◌, not};
ghost use Rattle.std.specs.List.{list_all};
ghost use Rattle.shq_terms.specs.Concept.{parts_of};
ghost use Rattle.pinpointing_specs.specs.declared.module_laws.Name.TheVariants as variants;
ghost use Rattle.pinpointing_specs.specs.Local.{is_void, is_whole, some_void, all_void, some_whole, all_whole};
ghost use Rattle.pinpointing_specs.specs.Local.{count_not_void, is_local};
ghost use Rattle.module_extract.specs.Marks.{is_marked};

use crate::marks::Marks;
use shq_terms::{Axiom, Concept, Node};

/// Whether no element is in the class expression where the names that did not come in are empty.
#[cycle(locality)]
fn is_void(marks: &Marks, concept: &Concept) -> bool
    ensures { result ≡ is_void (is_marked marks.now) concept.now }
{
    match &concept.node {
        Node::Top | Node::AllOf(_, _) | Node::Max(_, _, _) => false,
        Node::Bottom => true,
        Node::Name(class) => !marks.has_class(*class),
        Node::Not(inner) => is_whole(marks, inner),
        Node::And(parts) => some_void(marks, parts),
        Node::Or(parts) => all_void(marks, parts),
        Node::SomeOf(role, filler) => !marks.has_role(*role) || is_void(marks, filler),
        Node::Min(count, role, filler) | Node::Exact(count, role, filler) => {
            *count >= 1 && (!marks.has_role(*role) || is_void(marks, filler))
        }
    }
}

/// Whether each element is in the class expression where the names that did not come in are empty.
#[cycle(locality)]
fn is_whole(marks: &Marks, concept: &Concept) -> bool
    ensures { result ≡ is_whole (is_marked marks.now) concept.now }
{
    match &concept.node {
        Node::Top => true,
        Node::Bottom | Node::Name(_) | Node::SomeOf(_, _) => false,
        Node::Not(inner) => is_void(marks, inner),
        Node::And(parts) => all_whole(marks, parts),
        Node::Or(parts) => some_whole(marks, parts),
        Node::AllOf(role, filler) => !marks.has_role(*role) || is_whole(marks, filler),
        Node::Min(count, _, _) => *count == 0,
        Node::Max(_, role, filler) => !marks.has_role(*role) || is_void(marks, filler),
        Node::Exact(count, role, filler) => {
            *count == 0 && (!marks.has_role(*role) || is_void(marks, filler))
        }
    }
}

/// Whether one of the class expressions is void.
#[cycle(locality)]
fn some_void(marks: &Marks, concepts: &[Concept]) -> bool
    ensures { result ≡ some_void (is_marked marks.now) (parts_of concepts.now) }
{
    for concept in concepts {
        if is_void(marks, concept) {
            return true;
        }
    }
    false
}

/// Whether each of the class expressions is void.
#[cycle(locality)]
fn all_void(marks: &Marks, concepts: &[Concept]) -> bool
    ensures { result ≡ all_void (is_marked marks.now) (parts_of concepts.now) }
{
    for concept in concepts {
        if !is_void(marks, concept) {
            return false;
        }
    }
    true
}

/// Whether one of the class expressions is whole.
#[cycle(locality)]
fn some_whole(marks: &Marks, concepts: &[Concept]) -> bool
    ensures { result ≡ some_whole (is_marked marks.now) (parts_of concepts.now) }
{
    for concept in concepts {
        if is_whole(marks, concept) {
            return true;
        }
    }
    false
}

/// Whether each of the class expressions is whole.
#[cycle(locality)]
fn all_whole(marks: &Marks, concepts: &[Concept]) -> bool
    ensures { result ≡ all_whole (is_marked marks.now) (parts_of concepts.now) }
{
    for concept in concepts {
        if !is_whole(marks, concept) {
            return false;
        }
    }
    true
}

/// At how many places a class expression is not void.
fn count_not_void(marks: &Marks, concepts: &[Concept]) -> usize
    ensures { result ≡ count_not_void (is_marked marks.now) concepts.now }
{
    concepts
        .iter()
        .filter(|concept| !is_void(marks, concept))
        .count()
}

/// Whether the role did not come in, or the class expression is whole.
fn is_outside_or_whole(marks: &Marks, role: u32, class: &Concept) -> bool
    ensures { result ≡ (not (is_marked marks.now (variants.Role role)) || is_whole (is_marked marks.now) class.now) }
{
    !marks.has_role(role) || is_whole(marks, class)
}

/// Whether none of the roles came in.
fn are_outside(marks: &Marks, roles: &[u32]) -> bool
    ensures { result ≡ list_all (λ r. not (is_marked marks.now (variants.Role r))) roles.now }
{
    roles.iter().all(|role| !marks.has_role(*role))
}

/// Whether the axiom is met wherever the names that did not come in are empty, by its form.
pub(crate) fn is_local(marks: &Marks, axiom: &Axiom) -> bool
    ensures { result ≡ is_local (is_marked marks.now) «axiom».now }
{
    match axiom {
        Axiom::SubClassOf(sub, sup) => is_void(marks, sub) || is_whole(marks, sup),
        Axiom::EquivalentClasses(classes) => {
            all_void(marks, classes.items()) || all_whole(marks, classes.items())
        }
        Axiom::DisjointClasses(classes) => count_not_void(marks, classes.items()) <= 1,
        Axiom::DisjointUnion(class, parts) => {
            is_void(marks, class) && all_void(marks, parts.items())
        }
        Axiom::EquivalentRoles(roles) => are_outside(marks, roles.items()),
        Axiom::Domain(role, class) | Axiom::Range(role, class) => {
            is_outside_or_whole(marks, *role, class)
        }
        Axiom::SubRole(role, _) | Axiom::Functional(role) | Axiom::Transitive(role) => {
            !marks.has_role(*role)
        }
        Axiom::Member(_, _) | Axiom::Pair(_, _, _) | Axiom::SameAll(_) | Axiom::Different(_) => {
            false
        }
    }
}
