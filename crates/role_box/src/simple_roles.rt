// Whether an ontology and queries on it count simple roles alone.
ghost use Rattle.std.specs.Prelude.{◌≡◌, ◌≤◌, IfOk, length};
ghost use Rattle.std.specs.List.{list_any, range_with_len};
ghost use Rattle.role_box.specs.Counted.{counted_roles, counted_by_query};
ghost use Rattle.role_box.specs.Simple.{all_role_axioms, first_not_simple, line_not_simple, are_simple_by};
ghost use Rattle.role_box.specs.Simple.{is_transitivity, AreRolesOf, are_simple_in, line_in};

use crate::counted_roles::{axiom_counts_simple, both_count_simple, class_counts_simple};
use crate::{NoMemory, RoleBox};
use shq_terms::{Axiom, Concept, MAX_AXIOMS, Numbered, Ontology, Query};
use std::alloc::{AllocError, Global};

/// Whether the axiom makes a role transitive.
fn is_transitivity(axiom: &Axiom) -> bool
    ensures { result ≡ is_transitivity «axiom».now }
{
    match axiom {
        Axiom::Transitive(_) => true,
        Axiom::SubRole(_, _)
        | Axiom::EquivalentRoles(_)
        | Axiom::SubClassOf(_, _)
        | Axiom::EquivalentClasses(_)
        | Axiom::DisjointClasses(_)
        | Axiom::DisjointUnion(_, _)
        | Axiom::Domain(_, _)
        | Axiom::Range(_, _)
        | Axiom::Functional(_)
        | Axiom::Member(_, _)
        | Axiom::Pair(_, _, _)
        | Axiom::SameAll(_)
        | Axiom::Different(_) => false,
    }
}

/// Whether one of the axioms makes a role transitive.
fn has_transitivity(axioms: &[Numbered]) -> bool
    ensures { result ≡ list_any (λ n. is_transitivity n.axiom) axioms.now }
{
    axioms
        .iter()
        .any(|numbered| is_transitivity(&numbered.axiom))
}

/// The numbers from 1 to `count`.
fn numbers_to(alloc: Global, count: u32) -> Result<Vec<u32>, AllocError>
    requires { count ≤ MAX_AXIOMS }
    ensures { IfOk result (λ numbers. numbers.items ≡ range_with_len 1 count) }
{
    (1..count + 1).collect(alloc)
}

/// The role box of all axioms of the ontology.
#[tactic(auto, using(crate::proofs::Numbers::numbers_within))]
fn all_roles(alloc: Global, ontology: &Ontology) -> Result<RoleBox, NoMemory>
    ensures { IfOk result (λ roles. roles ≡ all_role_axioms ontology.now.axioms) }
{
    let numbers = numbers_to(alloc, ontology.axiom_count())?;
    RoleBox::build(alloc, ontology, &numbers)
}

/// The role box of all axioms of the ontology. None where they make no role transitive, since each role is simple then.
#[tactic(auto, using(crate::proofs::Plain::all_simple))]
fn roles_of(alloc: Global, ontology: &Ontology) -> Result<Option<RoleBox>, NoMemory>
    ensures { IfOk result (AreRolesOf ontology.now.axioms) }
{
    if !has_transitivity(ontology.axioms()) {
        return Ok(None);
    }
    let roles = all_roles(alloc, ontology)?;
    Ok(Some(roles))
}

/// The line of the first of the axioms that counts a role which is not simple.
fn find_not_simple(axioms: &[Numbered], roles: &RoleBox) -> Option<u32>
    ensures { result ≡ first_not_simple roles.now axioms.now }
{
    for numbered in axioms {
        if !axiom_counts_simple(roles, &numbered.axiom) {
            return Some(numbered.line);
        }
    }
    None
}

/// The line of the least numbered axiom that counts a role which is not simple by all axioms of the ontology: by a
/// number restriction, at any depth, or as a functional role.
///
/// # Errors
///
/// `NoMemory` where there is no room for the role box.
#[tactic(auto, using(crate::proofs::Plain::line_is))]
pub fn first_not_simple(alloc: Global, ontology: &Ontology) -> Result<Option<u32>, NoMemory>
    ensures { IfOk result (λ line. line ≡ line_not_simple ontology.now.axioms) }
{
    let roles = roles_of(alloc, ontology)?;
    Ok(line_in(&roles, ontology.axioms()))
}

/// The line of the first axiom that counts a role which is not simple by the role box; without one each role is simple.
fn line_in(roles: &Option<RoleBox>, axioms: &[Numbered]) -> Option<u32>
    ensures { result ≡ line_in roles.now axioms.now }
{
    match roles {
        Some(roles) => find_not_simple(axioms, roles),
        None => None,
    }
}

/// Whether each role that the query counts is simple by all axioms of the ontology.
///
/// # Errors
///
/// `NoMemory` where there is no room for the role box.
#[tactic(auto, using(crate::proofs::Plain::simple_is))]
pub fn query_is_simple(alloc: Global, ontology: &Ontology, query: &Query) -> Result<bool, NoMemory>
    ensures { IfOk result (λ simple. simple ≡ are_simple_by ontology.now.axioms (counted_by_query query.now)) }
{
    let roles = roles_of(alloc, ontology)?;
    Ok(query_simple_in(&roles, query))
}

/// Whether each role that the query counts is simple by the role box; without one each role is simple.
fn query_simple_in(roles: &Option<RoleBox>, query: &Query) -> bool
    ensures { result ≡ are_simple_in roles.now (counted_by_query query.now) }
{
    match roles {
        Some(roles) => both_count_simple(roles, &query.sub, &query.sup),
        None => true,
    }
}

/// Whether each role that the class expression counts is simple by all axioms of the ontology.
///
/// # Errors
///
/// `NoMemory` where there is no room for the role box.
#[tactic(auto, using(crate::proofs::Plain::simple_is))]
pub fn class_is_simple(
    alloc: Global,
    ontology: &Ontology,
    class: &Concept,
) -> Result<bool, NoMemory>
    ensures { IfOk result (λ simple. simple ≡ are_simple_by ontology.now.axioms (counted_roles class.now)) }
{
    let roles = roles_of(alloc, ontology)?;
    Ok(class_simple_in(&roles, class))
}

/// Whether each role that the class expression counts is simple by the role box; without one each role is simple.
fn class_simple_in(roles: &Option<RoleBox>, class: &Concept) -> bool
    ensures { result ≡ are_simple_in roles.now (counted_roles class.now) }
{
    match roles {
        Some(roles) => class_counts_simple(roles, class),
        None => true,
    }
}
