// The text of axioms (OWL 2 Structural Specification, sections 9.1, 9.2 and 9.6).
ghost use Rattle.std.specs.Prelude.{◌≡◌, ◌<◌, ◌++◌, ◌∷◌, [], OnOk, OnErr, IsTrue, length, nat_lt};
ghost use Rattle.std.specs.List.{list_all};
ghost use Rattle.shq_terms.specs.Uses.{axiom_uses_listed};
ghost use Rattle.ofn_writer.specs.Canonical.{concept_text, class_texts, role_text, role_texts, individual_text};
ghost use Rattle.ofn_writer.specs.Canonical.{individual_texts, spaced, items_text, axiom_text};
ghost use Rattle.ofn_writer.specs.Puts.{Puts, PutsGroup, UsesListed, PartsUseListed};

use crate::NoMemory;
use crate::concepts::{put_concept, put_parts, put_restriction, put_spaced};
use crate::pieces::{put, put_individual, put_role, put_whole};
use shq_terms::{Axiom, Concept, Ontology};

/// Puts the text of an axiom last.
pub(crate) fn put_axiom(
    out: &mut Vec<u8>,
    axiom: &Axiom,
    ontology: &Ontology,
) -> Result<(), NoMemory>
    requires { IsTrue
        (axiom_uses_listed (length ontology.now.classes) (length ontology.now.roles) (length ontology.now.individuals)
        «axiom».now) }
    ensures { OnOk result (Puts out.old out.new (axiom_text ontology.now «axiom».now)) }
{
    match axiom {
        Axiom::SubClassOf(sub, sup) => put_class_pair(out, b"SubClassOf", sub, sup, ontology),
        Axiom::EquivalentClasses(parts) => {
            put_parts(out, b"EquivalentClasses", parts.items(), ontology)
        }
        Axiom::DisjointClasses(parts) => {
            put_parts(out, b"DisjointClasses", parts.items(), ontology)
        }
        Axiom::DisjointUnion(whole, parts) => {
            put_class_and_parts(out, b"DisjointUnion", whole, parts.items(), ontology)
        }
        Axiom::SubRole(role, other) => {
            put_role_pair(out, b"SubObjectPropertyOf", *role, *other, ontology)
        }
        Axiom::EquivalentRoles(roles) => {
            put_role_list(out, b"EquivalentObjectProperties", roles.items(), ontology)
        }
        Axiom::Domain(role, class) => {
            put_restriction(out, b"ObjectPropertyDomain", *role, class, ontology)
        }
        Axiom::Range(role, class) => {
            put_restriction(out, b"ObjectPropertyRange", *role, class, ontology)
        }
        Axiom::Functional(role) => {
            put_role_group(out, b"FunctionalObjectProperty", *role, ontology)
        }
        Axiom::Transitive(role) => {
            put_role_group(out, b"TransitiveObjectProperty", *role, ontology)
        }
        Axiom::Member(class, individual) => {
            put_membership(out, b"ClassAssertion", class, *individual, ontology)
        }
        Axiom::Pair(role, from, to) => {
            put_role_assertion(out, b"ObjectPropertyAssertion", *role, *from, *to, ontology)
        }
        Axiom::SameAll(individuals) => {
            put_individual_list(out, b"SameIndividual", individuals.items(), ontology)
        }
        Axiom::Different(individuals) => {
            put_individual_list(out, b"DifferentIndividuals", individuals.items(), ontology)
        }
    }
}

fn put_class_pair(
    out: &mut Vec<u8>,
    keyword: &[u8],
    sub: &Concept,
    sup: &Concept,
    ontology: &Ontology,
) -> Result<(), NoMemory>
    requires sub { UsesListed ontology.now sub.now }
    requires sup { UsesListed ontology.now sup.now }
    ensures { OnOk result (PutsGroup out.old out.new keyword.now (class_texts ontology.now (sub.now ∷ sup.now ∷ []))) }
{
    put(out, keyword)?;
    put(out, b"(")?;
    put_concept(out, sub, ontology)?;
    put(out, b" ")?;
    put_concept(out, sup, ontology)?;
    put(out, b")")
}

fn put_class_and_parts(
    out: &mut Vec<u8>,
    keyword: &[u8],
    whole: &Concept,
    parts: &[Concept],
    ontology: &Ontology,
) -> Result<(), NoMemory>
    requires whole { UsesListed ontology.now whole.now }
    requires parts { PartsUseListed ontology.now parts.now }
    ensures { OnOk result (PutsGroup out.old out.new keyword.now (class_texts ontology.now (whole.now ∷ parts.now))) }
{
    put(out, keyword)?;
    put(out, b"(")?;
    put_concept(out, whole, ontology)?;
    put_spaced(out, parts, ontology)?;
    put(out, b")")
}

fn put_role_pair(
    out: &mut Vec<u8>,
    keyword: &[u8],
    role: u32,
    other: u32,
    ontology: &Ontology,
) -> Result<(), NoMemory>
    requires role { role < length ontology.now.roles }
    requires other { other < length ontology.now.roles }
    ensures { OnOk result (PutsGroup out.old out.new keyword.now (role_texts ontology.now (role ∷ other ∷ []))) }
{
    put(out, keyword)?;
    put(out, b"(")?;
    put_role(out, role, ontology)?;
    put(out, b" ")?;
    put_role(out, other, ontology)?;
    put(out, b")")
}

fn put_role_group(
    out: &mut Vec<u8>,
    keyword: &[u8],
    role: u32,
    ontology: &Ontology,
) -> Result<(), NoMemory>
    requires { role < length ontology.now.roles }
    ensures { OnOk result (PutsGroup out.old out.new keyword.now (role_texts ontology.now (role ∷ []))) }
{
    put(out, keyword)?;
    put(out, b"(")?;
    put_role(out, role, ontology)?;
    put(out, b")")
}

fn put_role_list(
    out: &mut Vec<u8>,
    keyword: &[u8],
    roles: &[u32],
    ontology: &Ontology,
) -> Result<(), NoMemory>
    requires { IsTrue (list_all (λ r. nat_lt r (length ontology.now.roles)) roles.now) }
    ensures { OnOk result (PutsGroup out.old out.new keyword.now (role_texts ontology.now roles.now)) }
{
    put(out, keyword)?;
    put(out, b"(")?;
    put_role_items(out, roles, ontology)?;
    put(out, b")")
}

fn put_role_items(out: &mut Vec<u8>, roles: &[u32], ontology: &Ontology) -> Result<(), NoMemory>
    requires { IsTrue (list_all (λ r. nat_lt r (length ontology.now.roles)) roles.now) }
    ensures { OnOk result (Puts out.old out.new (items_text (role_texts ontology.now roles.now))) }
{
    match roles {
        [] => Ok(()),
        [first, rest @ ..] => {
            put_role(out, *first, ontology)?;
            put_spaced_roles(out, rest, ontology)
        }
    }
}

// Puts roles last, each after one blank.
fn put_spaced_roles(out: &mut Vec<u8>, roles: &[u32], ontology: &Ontology) -> Result<(), NoMemory>
    requires { IsTrue (list_all (λ r. nat_lt r (length ontology.now.roles)) roles.now) }
    ensures { OnOk result (Puts out.old out.new (spaced (role_texts ontology.now roles.now))) }
{
    for role in roles {
        put(out, b" ")?;
        put_role(out, *role, ontology)?;
    }
    Ok(())
}

fn put_membership(
    out: &mut Vec<u8>,
    keyword: &[u8],
    class: &Concept,
    individual: u32,
    ontology: &Ontology,
) -> Result<(), NoMemory>
    requires class { UsesListed ontology.now class.now }
    requires individual { individual < length ontology.now.individuals }
    ensures { OnOk result
        (PutsGroup out.old out.new keyword.now
        (concept_text ontology.now class.now ∷ individual_text ontology.now individual ∷ [])) }
{
    put(out, keyword)?;
    put(out, b"(")?;
    put_concept(out, class, ontology)?;
    put(out, b" ")?;
    put_individual(out, individual, ontology)?;
    put(out, b")")
}

fn put_role_assertion(
    out: &mut Vec<u8>,
    keyword: &[u8],
    role: u32,
    from: u32,
    to: u32,
    ontology: &Ontology,
) -> Result<(), NoMemory>
    requires role { role < length ontology.now.roles }
    requires from { from < length ontology.now.individuals }
    requires to { to < length ontology.now.individuals }
    ensures { OnOk result
        (PutsGroup out.old out.new keyword.now
        (role_text ontology.now role ∷ individual_text ontology.now from ∷ individual_text ontology.now to ∷ [])) }
{
    put(out, keyword)?;
    put(out, b"(")?;
    put_role(out, role, ontology)?;
    put_spaced_individuals(out, &[from, to], ontology)?;
    put(out, b")")
}

fn put_individual_list(
    out: &mut Vec<u8>,
    keyword: &[u8],
    individuals: &[u32],
    ontology: &Ontology,
) -> Result<(), NoMemory>
    requires { IsTrue (list_all (λ a. nat_lt a (length ontology.now.individuals)) individuals.now) }
    ensures { OnOk result (PutsGroup out.old out.new keyword.now (individual_texts ontology.now individuals.now)) }
{
    put(out, keyword)?;
    put(out, b"(")?;
    put_individual_items(out, individuals, ontology)?;
    put(out, b")")
}

fn put_individual_items(
    out: &mut Vec<u8>,
    individuals: &[u32],
    ontology: &Ontology,
) -> Result<(), NoMemory>
    requires { IsTrue (list_all (λ a. nat_lt a (length ontology.now.individuals)) individuals.now) }
    ensures { OnOk result (Puts out.old out.new (items_text (individual_texts ontology.now individuals.now))) }
{
    match individuals {
        [] => Ok(()),
        [first, rest @ ..] => {
            put_individual(out, *first, ontology)?;
            put_spaced_individuals(out, rest, ontology)
        }
    }
}

// Puts individuals last, each after one blank.
fn put_spaced_individuals(
    out: &mut Vec<u8>,
    individuals: &[u32],
    ontology: &Ontology,
) -> Result<(), NoMemory>
    requires { IsTrue (list_all (λ a. nat_lt a (length ontology.now.individuals)) individuals.now) }
    ensures { OnOk result (Puts out.old out.new (spaced (individual_texts ontology.now individuals.now))) }
{
    for individual in individuals {
        put(out, b" ")?;
        put_individual(out, *individual, ontology)?;
    }
    Ok(())
}

/// Appends the text of an axiom, whose classes, roles and individuals are listed. The forms of its class expressions
/// are those of [`concept_text`](crate::concept_text).
///
/// # Errors
///
/// `NoMemory`. Nothing is appended then.
pub fn axiom_text(out: &mut Vec<u8>, axiom: &Axiom, ontology: &Ontology) -> Result<(), NoMemory>
    requires { IsTrue
        (axiom_uses_listed (length ontology.now.classes) (length ontology.now.roles) (length ontology.now.individuals)
        «axiom».now) }
    ensures text { OnOk result (out.new.items ≡ out.old.items ++ axiom_text ontology.now «axiom».now) }
    ensures unchanged { OnErr result (out.new.items ≡ out.old.items) }
{
    let alloc = *out.allocator();
    let mut text = Vec::new(alloc);
    put_axiom(&mut text, axiom, ontology)?;
    put_whole(out, &text)
}
