// Pieces of text, put last.
ghost use Rattle.std.specs.Prelude.{◌≡◌, ◌<◌, ◌++◌, ◌∷◌, [], OnOk, OnErr, length, decimal};
ghost use Rattle.ofn_writer.specs.Canonical.{iri_text, class_text, role_text, individual_text};

use crate::NoMemory;
use shq_terms::Ontology;

/// Puts bytes last.
pub(crate) fn put(out: &mut Vec<u8>, bytes: &[u8]) -> Result<(), NoMemory>
    ensures { OnOk result (out.new.items ≡ out.old.items ++ bytes.now) }
{
    out.extend_from_slice(bytes)?;
    Ok(())
}

/// Puts a number in decimal last.
pub(crate) fn put_number(out: &mut Vec<u8>, number: u32) -> Result<(), NoMemory>
    ensures { OnOk result (out.new.items ≡ out.old.items ++ decimal number) }
{
    let alloc = *out.allocator();
    let digits = format!(in alloc; "{number}")?;
    put(out, digits.as_bytes())
}

/// Puts an IRI between `<` and `>` last.
pub(crate) fn put_iri(out: &mut Vec<u8>, iri: &str) -> Result<(), NoMemory>
    ensures { OnOk result (out.new.items ≡ out.old.items ++ iri_text iri.now) }
{
    put(out, b"<")?;
    put(out, iri.as_bytes())?;
    put(out, b">")
}

/// Puts the IRI of a class last.
pub(crate) fn put_class(out: &mut Vec<u8>, class: u32, ontology: &Ontology) -> Result<(), NoMemory>
    requires { class < length ontology.now.classes }
    ensures { OnOk result (out.new.items ≡ out.old.items ++ class_text ontology.now class) }
{
    put_iri(out, ontology.class_name(class))
}

/// Puts the IRI of a role last.
pub(crate) fn put_role(out: &mut Vec<u8>, role: u32, ontology: &Ontology) -> Result<(), NoMemory>
    requires { role < length ontology.now.roles }
    ensures { OnOk result (out.new.items ≡ out.old.items ++ role_text ontology.now role) }
{
    put_iri(out, ontology.role_name(role))
}

/// Puts the IRI of an individual last.
pub(crate) fn put_individual(
    out: &mut Vec<u8>,
    individual: u32,
    ontology: &Ontology,
) -> Result<(), NoMemory>
    requires { individual < length ontology.now.individuals }
    ensures { OnOk result (out.new.items ≡ out.old.items ++ individual_text ontology.now individual) }
{
    put_iri(out, ontology.individual_name(individual))
}

/// Puts a whole text last, or changes nothing.
pub(crate) fn put_whole(out: &mut Vec<u8>, text: &[u8]) -> Result<(), NoMemory>
    ensures put { OnOk result (out.new.items ≡ out.old.items ++ text.now) }
    ensures unchanged { OnErr result (out.new.items ≡ out.old.items) }
{
    out.extend_from_slice(text)?;
    Ok(())
}
