// The role axioms among the axioms of an ontology.
ghost use Rattle.std.specs.Prelude.{◌≡◌, ◌≤◌, [], ◌∷◌, ◌++◌, IfOk, OnOk, length};
ghost use Rattle.std.specs.List.{All};
ghost use Rattle.role_box.specs.RoleAxioms.{role_part, role_axioms};
ghost use Rattle.role_box.specs.Paths.{role_limit};

use crate::NoMemory;
use shq_terms::{Axiom, NumberList, Ontology};
use std::alloc::Global;

/// An axiom that speaks of roles alone.
#[derive(Drop)]
pub enum RoleAxiom {
    /// The first role is below the second.
    Inclusion(u32, u32),
    /// Each of the roles is below each other one.
    Equivalence(NumberList),
    /// The role is transitive.
    Transitivity(u32),
}

/// The role axioms among the axioms of these numbers.
pub(crate) fn collect_role_axioms(
    alloc: Global,
    ontology: &Ontology,
    only: &[u32],
) -> Result<Vec<RoleAxiom>, NoMemory>
    requires { All (λ k. (1 ≤ k) × (k ≤ length ontology.now.axioms)) only.now }
    ensures found { IfOk result (λ found. found.items ≡ role_axioms ontology.now.axioms only.now) }
    ensures listed { IfOk result (λ found. role_limit found.items ≤ length ontology.now.roles) }
{
    let all = ontology.axioms();
    let mut found = Vec::new(alloc);
    for number in only {
        push_role_axiom(alloc, &mut found, &all[*number as usize - 1].axiom)?;
    }
    Ok(found)
}

/// Puts the axiom last where it is a role axiom.
fn push_role_axiom(alloc: Global, found: &mut Vec<RoleAxiom>, axiom: &Axiom) -> Result<(), NoMemory>
    ensures { OnOk result (found.new.items ≡ found.old.items ++ role_part «axiom».now) }
{
    match axiom {
        Axiom::SubRole(lower, upper) => push_item(found, RoleAxiom::Inclusion(*lower, *upper)),
        Axiom::EquivalentRoles(roles) => {
            push_item(
                found,
                RoleAxiom::Equivalence(copy_numbers(alloc, roles.items())?),
            )
        }
        Axiom::Transitive(role) => push_item(found, RoleAxiom::Transitivity(*role)),
        Axiom::SubClassOf(_, _)
        | Axiom::EquivalentClasses(_)
        | Axiom::DisjointClasses(_)
        | Axiom::DisjointUnion(_, _)
        | Axiom::Domain(_, _)
        | Axiom::Range(_, _)
        | Axiom::Functional(_)
        | Axiom::Member(_, _)
        | Axiom::Pair(_, _, _)
        | Axiom::SameAll(_)
        | Axiom::Different(_) => Ok(()),
    }
}

/// Puts the axiom last.
fn push_item(found: &mut Vec<RoleAxiom>, item: RoleAxiom) -> Result<(), NoMemory>
    ensures { OnOk result (found.new.items ≡ found.old.items ++ item ∷ []) }
{
    found.push(item)?;
    Ok(())
}

/// A list of the same numbers.
fn copy_numbers(alloc: Global, numbers: &[u32]) -> Result<NumberList, NoMemory>
    ensures { IfOk result (λ copy. copy ≡ numbers.now) }
{
    let mut copy = NumberList::new(alloc);
    for number in numbers {
        copy.push(*number)?;
    }
    Ok(copy)
}
