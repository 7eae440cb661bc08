// Whether the axioms of an ontology and one more count simple roles alone.
//
// By a role axiom more a role may be simple no more. That is told from the roles of the ontology: it is so where the
// axiom leads to the role from one that is not simple, or makes a role below it transitive.
ghost use Rattle.std.specs.Prelude.{◌≡◌, ◌≤◌, ◌||◌, ◌&&◌, ◌++◌, ◌∷◌, [], IfOk, not, length};
ghost use Rattle.std.specs.List.{list_all, list_any, range_with_len};
ghost use Rattle.shq_terms.specs.Concept.{parts_of};
ghost use Rattle.role_box.specs.Counted.{counted_roles, counted_in, counted_by};
ghost use Rattle.role_box.specs.Paths.{is_below};
ghost use Rattle.role_box.specs.Simple.{is_simple, are_simple, counts_simple, all_role_axioms};
ghost use Rattle.ofn_reader.specs.Additions.{all_count_simple, with_added};
ghost use Rattle.ofn_reader.specs.SimpleRoles.{simple_with, joins_simple};

use role_box::RoleBox;
use shq_terms::{Axiom, Concept, MAX_AXIOMS, NoMemory, Node, Numbered, Ontology};
use std::alloc::{AllocError, Global};
use std::marker::Model;

/// The tests of roles by all axioms of an ontology and one more.
#[derive(Drop)]
struct RolesWith<'a> {
    roles: RoleBox,
    added: &'a Axiom,
}

impl<'a> Model for RolesWith<'a> {
    ghost use Rattle.std.specs.Prelude.{List, ◌++◌};
    ghost use Rattle.role_box.specs.declared.role_axiom.RoleAxiom.{RoleAxiom};
    ghost use Rattle.role_box.specs.RoleAxioms.{role_part};

    ghost Value = { List RoleAxiom };

    ghost view = { λ r. r.roles ++ role_part r.added.now };
}

// Whether the role is simple without the axiom more.
fn was_simple(roles: &RoleBox, role: u32) -> bool
    ensures { result ≡ is_simple roles.now role }
{
    roles.simple(role)
}

fn were_simple(roles: &RoleBox, joined: &[u32]) -> bool
    ensures { result ≡ list_all (is_simple roles.now) joined.now }
{
    joined.iter().all(|one| was_simple(roles, *one))
}

fn one_is_below(roles: &RoleBox, joined: &[u32], role: u32) -> bool
    ensures { result ≡ list_any (λ r. is_below roles.now r role) joined.now }
{
    joined.iter().any(|one| roles.below(*one, role))
}

// Whether a role stays simple where these roles are made equivalent: all of them are simple, or none is below the role.
fn joins_simple(roles: &RoleBox, joined: &[u32], role: u32) -> bool
    ensures { result ≡ joins_simple roles.now joined.now role }
{
    were_simple(roles, joined) || !one_is_below(roles, joined, role)
}

// Whether a role is simple with this axiom more.
fn simple_with(roles: &RoleBox, axiom: &Axiom, role: u32) -> bool
    ensures { result ≡ simple_with roles.now «axiom».now role }
{
    was_simple(roles, role)
        && match axiom {
            Axiom::SubRole(lower, upper) => {
                was_simple(roles, *lower) || !roles.below(*upper, role)
            }
            Axiom::EquivalentRoles(joined) => joins_simple(roles, joined.items(), role),
            Axiom::Transitive(transitive) => !roles.below(*transitive, role),
            Axiom::SubClassOf(_, _)
            | Axiom::EquivalentClasses(_)
            | Axiom::DisjointClasses(_)
            | Axiom::DisjointUnion(_, _)
            | Axiom::Domain(_, _)
            | Axiom::Range(_, _)
            | Axiom::Functional(_)
            | Axiom::Member(_, _)
            | Axiom::Pair(_, _, _)
            | Axiom::SameAll(_)
            | Axiom::Different(_) => true,
        }
}

#[tactic(auto, using(crate::proofs::StillSimple::simple_with_is))]
fn is_simple(roles: &RolesWith<'_>, role: u32) -> bool
    ensures { result ≡ is_simple roles.now role }
{
    simple_with(&roles.roles, roles.added, role)
}

// Whether each role that the class expression counts is simple.
#[cycle(counted)]
fn class_counts_simple(roles: &RolesWith<'_>, class: &Concept) -> bool
    ensures { result ≡ are_simple roles.now (counted_roles class.now) }
{
    match &class.node {
        Node::Top | Node::Bottom | Node::Name(_) => true,
        Node::Not(class) => class_counts_simple(roles, class),
        Node::And(parts) | Node::Or(parts) => classes_count_simple(roles, parts),
        Node::SomeOf(_, filler) | Node::AllOf(_, filler) => class_counts_simple(roles, filler),
        Node::Min(_, role, filler) | Node::Max(_, role, filler) | Node::Exact(_, role, filler) => {
            is_simple(roles, *role) && class_counts_simple(roles, filler)
        }
    }
}

// Whether each role that some of the class expressions count is simple.
#[cycle(counted)]
#[tactic(auto, using(role_box::proofs::Lists::all_append))]
fn classes_count_simple(roles: &RolesWith<'_>, classes: &[Concept]) -> bool
    ensures { result ≡ are_simple roles.now (counted_in (parts_of classes.now)) }
{
    for class in classes {
        if !class_counts_simple(roles, class) {
            return false;
        }
    }
    true
}

// Whether each role that the axiom counts is simple.
#[tactic(auto, using(role_box::proofs::Lists::all_append))]
fn axiom_counts_simple(roles: &RolesWith<'_>, axiom: &Axiom) -> bool
    ensures { result ≡ are_simple roles.now (counted_by «axiom».now) }
{
    match axiom {
        Axiom::SubClassOf(sub, sup) => {
            class_counts_simple(roles, sub) && class_counts_simple(roles, sup)
        }
        Axiom::EquivalentClasses(classes) | Axiom::DisjointClasses(classes) => {
            classes_count_simple(roles, classes.items())
        }
        Axiom::DisjointUnion(class, classes) => {
            class_counts_simple(roles, class) && classes_count_simple(roles, classes.items())
        }
        Axiom::Domain(_, class) | Axiom::Range(_, class) | Axiom::Member(class, _) => {
            class_counts_simple(roles, class)
        }
        Axiom::Functional(role) => is_simple(roles, *role),
        Axiom::SubRole(_, _)
        | Axiom::EquivalentRoles(_)
        | Axiom::Transitive(_)
        | Axiom::Pair(_, _, _)
        | Axiom::SameAll(_)
        | Axiom::Different(_) => true,
    }
}

// Whether each role that one of the axioms counts is simple.
fn axioms_count_simple(roles: &RolesWith<'_>, axioms: &[Numbered]) -> bool
    ensures { result ≡ list_all (counts_simple roles.now) axioms.now }
{
    axioms
        .iter()
        .all(|numbered| axiom_counts_simple(roles, &numbered.axiom))
}

// Whether each role that one of the axioms or one more counts is simple.
fn all_count_simple(roles: &RolesWith<'_>, axioms: &[Numbered], axiom: &Axiom) -> bool
    ensures { result
        ≡ (list_all (counts_simple roles.now) axioms.now && are_simple roles.now (counted_by «axiom».now)) }
{
    axioms_count_simple(roles, axioms) && axiom_counts_simple(roles, axiom)
}

// The numbers from 1 to `count`.
fn numbers_to(alloc: Global, count: u32) -> Result<Vec<u32>, AllocError>
    requires { count ≤ MAX_AXIOMS }
    ensures { IfOk result (λ numbers. numbers.items ≡ range_with_len 1 count) }
{
    (1..count + 1).collect(alloc)
}

// The role box of all axioms of the ontology.
#[tactic(auto, using(role_box::proofs::Numbers::numbers_within))]
fn all_roles(alloc: Global, ontology: &Ontology) -> Result<RoleBox, NoMemory>
    ensures { IfOk result (λ roles. roles ≡ all_role_axioms ontology.now.axioms) }
{
    let numbers = numbers_to(alloc, ontology.axiom_count())?;
    RoleBox::build(alloc, ontology, &numbers)
}

/// Whether each role that the axioms of the ontology or one more count is simple by all of them.
///
/// # Errors
///
/// `NoMemory` where there is no room for the role box.
#[tactic(auto, using(crate::proofs::StillSimple::all_with))]
pub(crate) fn all_count_simple_with(
    alloc: Global,
    ontology: &Ontology,
    axiom: &Axiom,
) -> Result<bool, NoMemory>
    ensures { IfOk result (λ simple. simple ≡ all_count_simple (with_added ontology.now.axioms («axiom».now ∷ []))) }
{
    let roles = RolesWith {
        roles: all_roles(alloc, ontology)?,
        added: axiom,
    };
    Ok(all_count_simple(&roles, ontology.axioms(), axiom))
}
