// The role axioms of a set.
//
// A refutation names role axioms of its set, and a classification makes thousands of refutations over one set. So the
// role axioms are found once, when the rules are made, and no refutation has to look through the other axioms.
ghost use Rattle.std.specs.Prelude.{◌≡◌, ℕ, ◌≤◌, ◌==◌, ◌&&◌, ◌||◌, IfOk};
ghost use Rattle.std.specs.FinSet as sets;
ghost use Rattle.axiom_sets.specs.Sets.{member_list};
ghost use Rattle.ontology_limits.specs.Meeting.{is_role_axiom as says_of_roles_alone, is_role_number};

use crate::NoMemory;
use axiom_sets::AxiomSet;
use shq_terms::{Axiom, Numbered, Ontology};
use std::alloc::Global;

/// The role axioms among the members of the set, which are listed in `only`.
///
/// # Errors
///
/// Out of memory.
pub(crate) fn role_axioms_of(
    alloc: Global,
    ontology: &Ontology,
    set: &AxiomSet,
    only: &[u32],
) -> Result<AxiomSet, NoMemory>
    requires { only.now ≡ member_list set.now }
    ensures limit { IfOk result (λ found. found.limit ≡ set.now.limit) }
    ensures members { IfOk result (λ found. (k : ℕ) → sets.contains found.members k
        ≡ (sets.contains set.now.members k && is_role_number ontology.now.axioms k)) }
{
    let mut found = AxiomSet::empty(alloc, set.limit())?;
    for number in only {
        put_role_axiom(&mut found, ontology.axioms(), *number);
    }
    Ok(found)
}

// Puts the axiom of this number in, if it is a role axiom.
fn put_role_axiom(found: &mut AxiomSet, axioms: &[Numbered], number: u32)
    requires low { 1 ≤ number }
    requires high { number ≤ found.old.limit }
    ensures limit { found.new.limit ≡ found.old.limit }
    ensures members { (k : ℕ) → sets.contains found.new.members k
        ≡ (sets.contains found.old.members k || (number == k && is_role_number axioms.now k)) }
{
    if is_role_axiom_at(axioms, number) {
        found.put(number);
    }
}

// Whether the axiom of this number is a role axiom. Numbers of axioms begin at 1.
fn is_role_axiom_at(axioms: &[Numbered], number: u32) -> bool
    ensures { result ≡ is_role_number axioms.now number }
{
    match axioms.get(number.saturating_sub(1) as usize) {
        Some(numbered) => is_role_axiom(&numbered.axiom),
        None => false,
    }
}

// Whether an axiom speaks of roles alone.
fn is_role_axiom(axiom: &Axiom) -> bool
    ensures { result ≡ says_of_roles_alone «axiom».now }
{
    match axiom {
        Axiom::SubRole(_, _) | Axiom::EquivalentRoles(_) | Axiom::Transitive(_) => true,
        Axiom::SubClassOf(_, _)
        | Axiom::EquivalentClasses(_)
        | Axiom::DisjointClasses(_)
        | Axiom::DisjointUnion(_, _)
        | Axiom::Domain(_, _)
        | Axiom::Range(_, _)
        | Axiom::Functional(_)
        | Axiom::Member(_, _)
        | Axiom::Pair(_, _, _)
        | Axiom::SameAll(_)
        | Axiom::Different(_) => false,
    }
}
