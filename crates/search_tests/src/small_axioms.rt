// Names of classes, small class expressions and lists, and axioms that are put into small ontologies.
ghost use Rattle.std.specs.Prelude.{◌≡◌, ◌≤◌, ◌∷◌, [], IfOk, OnOk, IsTrue, length};
ghost use Rattle.shq_terms.specs.Concept.{name, some_of};
ghost use Rattle.shq_terms.specs.Uses.{axiom_uses_listed};
ghost use Rattle.shq_nnf.specs.Parts.{axiom_parts, axiom_has_counts_within};
ghost use Rattle.row_cache.specs.Rows.{AreInLimit};

use shq_terms::{AddFault, Axiom, Concept, ConceptList, NoMemory, Node, NumberList, Ontology};
use std::alloc::Global;

pub(crate) fn class(number: u32) -> Concept
    ensures { result ≡ name number }
{
    Concept {
        node: Node::Name(number),
    }
}

/// What has a successor by the role in the class.
pub(crate) fn successor_in(alloc: Global, role: u32, number: u32) -> Result<Concept, NoMemory>
    ensures { IfOk result (λ c. c ≡ some_of role (name number)) }
{
    let filler = Box::new(alloc, class(number))?;
    Ok(Concept {
        node: Node::SomeOf(role, filler),
    })
}

/// Classes 0 to 2.
pub(crate) fn three_classes(alloc: Global) -> Result<ConceptList, NoMemory>
    ensures { IfOk result (λ l. l ≡ name 0 ∷ name 1 ∷ name 2 ∷ []) }
{
    let mut classes = ConceptList::new(alloc);
    classes.push(class(0))?;
    classes.push(class(1))?;
    classes.push(class(2))?;
    Ok(classes)
}

pub(crate) fn list_of(alloc: Global, numbers: &[u32]) -> Result<NumberList, NoMemory>
    ensures { IfOk result (λ l. l ≡ numbers.now) }
{
    let mut list = NumberList::new(alloc);
    for number in numbers {
        list.push(*number)?;
    }
    Ok(list)
}

pub(crate) fn add_names(
    ontology: &mut Ontology,
    classes: &[&str],
    roles: &[&str],
    individuals: &[&str],
) -> Result<(), AddFault> {
    for class in classes {
        ontology.add_class(class)?;
    }
    for role in roles {
        ontology.add_role(role)?;
    }
    for individual in individuals {
        ontology.add_individual(individual)?;
    }
    Ok(())
}

/// Whether so many classes, roles and individuals are listed.
pub(crate) fn has_names(ontology: &Ontology, classes: u32, roles: u32, individuals: u32) -> bool
    ensures classes { IsTrue result → length ontology.now.classes ≡ classes }
    ensures roles { IsTrue result → length ontology.now.roles ≡ roles }
    ensures individuals { IsTrue result → length ontology.now.individuals ≡ individuals }
{
    ontology.class_count() == classes
        && ontology.role_count() == roles
        && ontology.individual_count() == individuals
}

/// Puts an axiom last, where so many classes, roles and individuals are listed.
#[tactic(auto, using(crate::proofs::Limits::one_more))]
pub(crate) fn add(
    ontology: &mut Ontology,
    classes: u32,
    roles: u32,
    individuals: u32,
    axiom: Axiom,
) -> Result<(), AddFault>
    requires within { AreInLimit ontology.old.axioms }
    requires uses { IsTrue (axiom_uses_listed classes roles individuals «axiom») }
    requires counts { IsTrue (axiom_has_counts_within 100 «axiom») }
    requires parts { length (axiom_parts «axiom») ≤ 500000 }
    ensures { OnOk result (AreInLimit ontology.new.axioms) }
{
    if !has_names(ontology, classes, roles, individuals) {
        drop(axiom);
        return Err(AddFault::Full);
    }
    ontology.add_axiom(axiom, 1)?;
    Ok(())
}
