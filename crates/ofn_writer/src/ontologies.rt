// The text of ontologies (OWL 2 Structural Specification, section 3.7).
ghost use Rattle.std.specs.Prelude.{◌≡◌, ◌++◌, ◌∷◌, [], OnOk, OnErr, IsTrue, length, codes};
ghost use Rattle.shq_terms.specs.Uses.{axiom_uses_listed};
ghost use Rattle.ofn_writer.specs.Canonical.{iri_text, group_text, line, declaration_text, declaration_lines};
ghost use Rattle.ofn_writer.specs.Canonical.{axiom_text, axiom_lines, ontology_text};
ghost use Rattle.ofn_writer.specs.Puts.{Puts};

use crate::NoMemory;
use crate::axioms::put_axiom;
use crate::pieces::{put, put_iri, put_whole};
use shq_terms::{Axiom, Ontology};

fn put_declaration(out: &mut Vec<u8>, kind: &[u8], iri: &str) -> Result<(), NoMemory>
    ensures { OnOk result (Puts out.old out.new (line (declaration_text kind.now iri.now))) }
{
    put(out, b"Declaration(")?;
    put_entity(out, kind, iri)?;
    put(out, b")\n")
}

fn put_entity(out: &mut Vec<u8>, kind: &[u8], iri: &str) -> Result<(), NoMemory>
    ensures { OnOk result (Puts out.old out.new (group_text kind.now (iri_text iri.now ∷ []))) }
{
    put(out, kind)?;
    put(out, b"(")?;
    put_iri(out, iri)?;
    put(out, b")")
}

fn put_classes(out: &mut Vec<u8>, ontology: &Ontology) -> Result<(), NoMemory>
    ensures { OnOk result (Puts out.old out.new (declaration_lines (codes "Class") ontology.now.classes)) }
{
    for class in 0..ontology.class_count() {
        put_declaration(out, b"Class", ontology.class_name(class))?;
    }
    Ok(())
}

fn put_roles(out: &mut Vec<u8>, ontology: &Ontology) -> Result<(), NoMemory>
    ensures { OnOk result (Puts out.old out.new (declaration_lines (codes "ObjectProperty") ontology.now.roles)) }
{
    for role in 0..ontology.role_count() {
        put_declaration(out, b"ObjectProperty", ontology.role_name(role))?;
    }
    Ok(())
}

fn put_individuals(out: &mut Vec<u8>, ontology: &Ontology) -> Result<(), NoMemory>
    ensures { OnOk result
        (Puts out.old out.new (declaration_lines (codes "NamedIndividual") ontology.now.individuals)) }
{
    for individual in 0..ontology.individual_count() {
        put_declaration(
            out,
            b"NamedIndividual",
            ontology.individual_name(individual),
        )?;
    }
    Ok(())
}

fn put_axiom_line(out: &mut Vec<u8>, axiom: &Axiom, ontology: &Ontology) -> Result<(), NoMemory>
    requires { IsTrue
        (axiom_uses_listed (length ontology.now.classes) (length ontology.now.roles) (length ontology.now.individuals)
        «axiom».now) }
    ensures { OnOk result (Puts out.old out.new (line (axiom_text ontology.now «axiom».now))) }
{
    put_axiom(out, axiom, ontology)?;
    put(out, b"\n")
}

fn put_axioms(out: &mut Vec<u8>, ontology: &Ontology) -> Result<(), NoMemory>
    ensures { OnOk result (Puts out.old out.new (axiom_lines ontology.now ontology.now.axioms)) }
{
    for numbered in ontology.axioms() {
        put_axiom_line(out, &numbered.axiom, ontology)?;
    }
    Ok(())
}

fn put_ontology(out: &mut Vec<u8>, ontology: &Ontology) -> Result<(), NoMemory>
    ensures { OnOk result (Puts out.old out.new (ontology_text ontology.now)) }
{
    put(out, b"Ontology(\n")?;
    put_classes(out, ontology)?;
    put_roles(out, ontology)?;
    put_individuals(out, ontology)?;
    put_axioms(out, ontology)?;
    put(out, b")\n")
}

/// Appends the text of an ontology: a document whose lines are `Ontology(`, a declaration of each class, then of each
/// role and then of each individual in list order, each axiom in the order of the numbers, and `)`. Each line ends with
/// a line feed.
///
/// # Errors
///
/// `NoMemory`. Nothing is appended then.
pub fn ontology_text(out: &mut Vec<u8>, ontology: &Ontology) -> Result<(), NoMemory>
    ensures text { OnOk result (out.new.items ≡ out.old.items ++ ontology_text ontology.now) }
    ensures unchanged { OnErr result (out.new.items ≡ out.old.items) }
{
    let alloc = *out.allocator();
    let mut text = Vec::new(alloc);
    put_ontology(&mut text, ontology)?;
    put_whole(out, &text)
}
