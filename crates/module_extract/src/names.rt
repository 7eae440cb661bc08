// The names that class expressions, axioms and queries use, in lists.
ghost use Rattle.std.specs.Prelude.{◌≡◌, [], ◌∷◌, ◌++◌, IfOk, OnOk, map};
ghost use Rattle.shq_terms.specs.Concept.{parts_of};
ghost use Rattle.pinpointing_specs.specs.declared.module_laws.Name.TheVariants as variants;
ghost use Rattle.pinpointing_specs.specs.Signature.{concept_names, parts_names, axiom_names, query_names};

use pinpointing_specs::Name;
use shq_terms::{Axiom, Concept, NoMemory, Node, Query};
use std::alloc::Global;

/// Puts the name last.
fn push_name(names: &mut Vec<Name>, name: Name) -> Result<(), NoMemory>
    ensures { OnOk result (names.new.items ≡ names.old.items ++ name ∷ []) }
{
    names.push(name)?;
    Ok(())
}

/// Puts the names of the class expression last.
#[cycle(names)]
fn push_concept(names: &mut Vec<Name>, concept: &Concept) -> Result<(), NoMemory>
    ensures { OnOk result (names.new.items ≡ names.old.items ++ concept_names concept.now) }
{
    match &concept.node {
        Node::Top | Node::Bottom => Ok(()),
        Node::Name(class) => push_name(names, Name::Class(*class)),
        Node::Not(inner) => push_concept(names, inner),
        Node::And(parts) | Node::Or(parts) => push_concepts(names, parts),
        Node::SomeOf(role, filler)
        | Node::AllOf(role, filler)
        | Node::Min(_, role, filler)
        | Node::Max(_, role, filler)
        | Node::Exact(_, role, filler) => push_restriction(names, *role, filler),
    }
}

/// Puts the role last, and then the names of the filler.
#[cycle(names)]
fn push_restriction(names: &mut Vec<Name>, role: u32, filler: &Concept) -> Result<(), NoMemory>
    ensures { OnOk result (names.new.items ≡ names.old.items ++ variants.Role role ∷ concept_names filler.now) }
{
    push_name(names, Name::Role(role))?;
    push_concept(names, filler)
}

/// Puts the names of the class expressions last, in order.
#[cycle(names)]
fn push_concepts(names: &mut Vec<Name>, concepts: &[Concept]) -> Result<(), NoMemory>
    ensures { OnOk result (names.new.items ≡ names.old.items ++ parts_names (parts_of concepts.now)) }
{
    for concept in concepts {
        push_concept(names, concept)?;
    }
    Ok(())
}

/// Puts the names of two class expressions last.
fn push_both(names: &mut Vec<Name>, one: &Concept, other: &Concept) -> Result<(), NoMemory>
    ensures { OnOk result (names.new.items ≡ names.old.items ++ (concept_names one.now ++ concept_names other.now)) }
{
    push_concept(names, one)?;
    push_concept(names, other)
}

/// Puts the names of a class expression and of others last.
fn push_union(names: &mut Vec<Name>, class: &Concept, parts: &[Concept]) -> Result<(), NoMemory>
    ensures { OnOk result
        (names.new.items ≡ names.old.items ++ (concept_names class.now ++ parts_names (parts_of parts.now))) }
{
    push_concept(names, class)?;
    push_concepts(names, parts)
}

/// Puts the roles last.
fn push_roles(names: &mut Vec<Name>, roles: &[u32]) -> Result<(), NoMemory>
    ensures { OnOk result (names.new.items ≡ names.old.items ++ map variants.Role roles.now) }
{
    for role in roles {
        push_name(names, Name::Role(*role))?;
    }
    Ok(())
}

/// Puts the two roles last.
fn push_two_roles(names: &mut Vec<Name>, one: u32, other: u32) -> Result<(), NoMemory>
    ensures { OnOk result (names.new.items ≡ names.old.items ++ variants.Role one ∷ variants.Role other ∷ []) }
{
    push_name(names, Name::Role(one))?;
    push_name(names, Name::Role(other))
}

/// Puts the names of the axiom last.
fn push_axiom(names: &mut Vec<Name>, axiom: &Axiom) -> Result<(), NoMemory>
    ensures { OnOk result (names.new.items ≡ names.old.items ++ axiom_names «axiom».now) }
{
    match axiom {
        Axiom::SubClassOf(sub, sup) => push_both(names, sub, sup),
        Axiom::EquivalentClasses(classes) => push_concepts(names, classes.items()),
        Axiom::DisjointClasses(classes) => push_concepts(names, classes.items()),
        Axiom::DisjointUnion(class, parts) => push_union(names, class, parts.items()),
        Axiom::SubRole(lower, upper) => push_two_roles(names, *lower, *upper),
        Axiom::EquivalentRoles(roles) => push_roles(names, roles.items()),
        Axiom::Domain(role, class) | Axiom::Range(role, class) => {
            push_restriction(names, *role, class)
        }
        Axiom::Functional(role) | Axiom::Transitive(role) | Axiom::Pair(role, _, _) => {
            push_name(names, Name::Role(*role))
        }
        Axiom::Member(class, _) => push_concept(names, class),
        Axiom::SameAll(_) | Axiom::Different(_) => Ok(()),
    }
}

/// The names that the axiom uses.
pub(crate) fn axiom_names(alloc: Global, axiom: &Axiom) -> Result<Vec<Name>, NoMemory>
    ensures { IfOk result (λ names. names.items ≡ axiom_names «axiom».now) }
{
    let mut names = Vec::new(alloc);
    push_axiom(&mut names, axiom)?;
    Ok(names)
}

/// The names that the query uses.
pub(crate) fn query_names(alloc: Global, query: &Query) -> Result<Vec<Name>, NoMemory>
    ensures { IfOk result (λ names. names.items ≡ query_names query.now) }
{
    let mut names = Vec::new(alloc);
    push_both(&mut names, &query.sub, &query.sup)?;
    Ok(names)
}
