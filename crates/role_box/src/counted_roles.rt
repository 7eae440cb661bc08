// The roles that class expressions and axioms count.
ghost use Rattle.std.specs.Prelude.{◌≡◌, ◌++◌};
ghost use Rattle.shq_terms.specs.Concept.{parts_of};
ghost use Rattle.role_box.specs.Counted.{counted_roles, counted_in, counted_by};
ghost use Rattle.role_box.specs.Simple.{is_simple, are_simple};

use crate::RoleBox;
use shq_terms::{Axiom, Concept, Node};

/// Whether the role is simple.
fn is_simple(roles: &RoleBox, role: u32) -> bool
    ensures { result ≡ is_simple roles.now role }
{
    roles.simple(role)
}

/// Whether each role that the class expression counts is simple.
#[cycle(counted)]
pub(crate) fn class_counts_simple(roles: &RoleBox, concept: &Concept) -> bool
    ensures { result ≡ are_simple roles.now (counted_roles concept.now) }
{
    match &concept.node {
        Node::Top | Node::Bottom | Node::Name(_) => true,
        Node::Not(inner) => class_counts_simple(roles, inner),
        Node::And(parts) | Node::Or(parts) => all_count_simple(roles, parts),
        Node::SomeOf(_, filler) | Node::AllOf(_, filler) => class_counts_simple(roles, filler),
        Node::Min(_, role, filler) | Node::Max(_, role, filler) | Node::Exact(_, role, filler) => {
            is_simple(roles, *role) && class_counts_simple(roles, filler)
        }
    }
}

/// Whether each role that some of the class expressions count is simple.
#[cycle(counted)]
#[tactic(auto, using(crate::proofs::Lists::all_append))]
fn all_count_simple(roles: &RoleBox, concepts: &[Concept]) -> bool
    ensures { result ≡ are_simple roles.now (counted_in (parts_of concepts.now)) }
{
    for concept in concepts {
        if !class_counts_simple(roles, concept) {
            return false;
        }
    }
    true
}

/// Whether each role that one of the class expressions counts is simple.
#[tactic(auto, using(crate::proofs::Lists::all_append))]
pub(crate) fn both_count_simple(roles: &RoleBox, one: &Concept, other: &Concept) -> bool
    ensures { result ≡ are_simple roles.now (counted_roles one.now ++ counted_roles other.now) }
{
    class_counts_simple(roles, one) && class_counts_simple(roles, other)
}

/// Whether each role that the axiom counts is simple.
#[tactic(auto, using(crate::proofs::Lists::all_append))]
pub(crate) fn axiom_counts_simple(roles: &RoleBox, axiom: &Axiom) -> bool
    ensures { result ≡ are_simple roles.now (counted_by «axiom».now) }
{
    match axiom {
        Axiom::SubClassOf(sub, sup) => both_count_simple(roles, sub, sup),
        Axiom::EquivalentClasses(classes) => all_count_simple(roles, classes.items()),
        Axiom::DisjointClasses(classes) => all_count_simple(roles, classes.items()),
        Axiom::DisjointUnion(class, classes) => {
            class_counts_simple(roles, class) && all_count_simple(roles, classes.items())
        }
        Axiom::Domain(_, class) | Axiom::Range(_, class) | Axiom::Member(class, _) => {
            class_counts_simple(roles, class)
        }
        Axiom::Functional(role) => is_simple(roles, *role),
        Axiom::SubRole(_, _) | Axiom::EquivalentRoles(_) | Axiom::Transitive(_) => true,
        Axiom::Pair(_, _, _) | Axiom::SameAll(_) | Axiom::Different(_) => true,
    }
}
