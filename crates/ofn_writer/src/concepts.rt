// The text of class expressions (OWL 2 Structural Specification, section 8).
ghost use Rattle.std.specs.Prelude.{◌≡◌, ◌<◌, ◌++◌, ◌∷◌, [], OnOk, OnErr, IsTrue, length};
ghost use Rattle.shq_terms.specs.Uses.{uses_listed};
ghost use Rattle.ofn_writer.specs.Canonical.{spaced, items_text, concept_text, class_texts, restriction_items};
ghost use Rattle.ofn_writer.specs.Canonical.{bounded_items};
ghost use Rattle.ofn_writer.specs.Puts.{Puts, PutsGroup, UsesListed, PartsUseListed};

use crate::NoMemory;
use crate::pieces::{put, put_class, put_number, put_role, put_whole};
use shq_terms::{Concept, Node, Ontology};

/// Puts the text of a class expression last.
#[cycle(concepts)]
pub(crate) fn put_concept(
    out: &mut Vec<u8>,
    concept: &Concept,
    ontology: &Ontology,
) -> Result<(), NoMemory>
    requires { UsesListed ontology.now concept.now }
    ensures { OnOk result (Puts out.old out.new (concept_text ontology.now concept.now)) }
{
    match &concept.node {
        Node::Top => put(out, b"owl:Thing"),
        Node::Bottom => put(out, b"owl:Nothing"),
        Node::Name(class) => put_class(out, *class, ontology),
        Node::Not(inner) => put_complement(out, b"ObjectComplementOf", inner, ontology),
        Node::And(parts) => put_parts(out, b"ObjectIntersectionOf", parts, ontology),
        Node::Or(parts) => put_parts(out, b"ObjectUnionOf", parts, ontology),
        Node::SomeOf(role, filler) => {
            put_restriction(out, b"ObjectSomeValuesFrom", *role, filler, ontology)
        }
        Node::AllOf(role, filler) => {
            put_restriction(out, b"ObjectAllValuesFrom", *role, filler, ontology)
        }
        Node::Min(number, role, filler) => {
            put_cardinality(
                out,
                b"ObjectMinCardinality",
                *number,
                *role,
                filler,
                ontology,
            )
        }
        Node::Max(number, role, filler) => {
            put_cardinality(
                out,
                b"ObjectMaxCardinality",
                *number,
                *role,
                filler,
                ontology,
            )
        }
        Node::Exact(number, role, filler) => {
            put_cardinality(
                out,
                b"ObjectExactCardinality",
                *number,
                *role,
                filler,
                ontology,
            )
        }
    }
}

#[cycle(concepts)]
fn put_complement(
    out: &mut Vec<u8>,
    keyword: &[u8],
    inner: &Concept,
    ontology: &Ontology,
) -> Result<(), NoMemory>
    requires { UsesListed ontology.now inner.now }
    ensures { OnOk result (PutsGroup out.old out.new keyword.now (class_texts ontology.now (inner.now ∷ []))) }
{
    put(out, keyword)?;
    put(out, b"(")?;
    put_concept(out, inner, ontology)?;
    put(out, b")")
}

/// Puts a group of a role and a class expression last.
#[cycle(concepts)]
pub(crate) fn put_restriction(
    out: &mut Vec<u8>,
    keyword: &[u8],
    role: u32,
    filler: &Concept,
    ontology: &Ontology,
) -> Result<(), NoMemory>
    requires role { role < length ontology.now.roles }
    requires filler { UsesListed ontology.now filler.now }
    ensures { OnOk result (PutsGroup out.old out.new keyword.now (restriction_items ontology.now role filler.now)) }
{
    put(out, keyword)?;
    put(out, b"(")?;
    put_role_and_filler(out, role, filler, ontology)?;
    put(out, b")")
}

#[cycle(concepts)]
fn put_cardinality(
    out: &mut Vec<u8>,
    keyword: &[u8],
    number: u32,
    role: u32,
    filler: &Concept,
    ontology: &Ontology,
) -> Result<(), NoMemory>
    requires role { role < length ontology.now.roles }
    requires filler { UsesListed ontology.now filler.now }
    ensures { OnOk result (PutsGroup out.old out.new keyword.now (bounded_items ontology.now number role filler.now)) }
{
    put(out, keyword)?;
    put(out, b"(")?;
    put_number(out, number)?;
    put(out, b" ")?;
    put_role_and_filler(out, role, filler, ontology)?;
    put(out, b")")
}

#[cycle(concepts)]
fn put_role_and_filler(
    out: &mut Vec<u8>,
    role: u32,
    filler: &Concept,
    ontology: &Ontology,
) -> Result<(), NoMemory>
    requires role { role < length ontology.now.roles }
    requires filler { UsesListed ontology.now filler.now }
    ensures { OnOk result (Puts out.old out.new (items_text (restriction_items ontology.now role filler.now))) }
{
    put_role(out, role, ontology)?;
    put(out, b" ")?;
    put_concept(out, filler, ontology)
}

/// Puts a group of class expressions last.
#[cycle(concepts)]
pub(crate) fn put_parts(
    out: &mut Vec<u8>,
    keyword: &[u8],
    parts: &[Concept],
    ontology: &Ontology,
) -> Result<(), NoMemory>
    requires { PartsUseListed ontology.now parts.now }
    ensures { OnOk result (PutsGroup out.old out.new keyword.now (class_texts ontology.now parts.now)) }
{
    put(out, keyword)?;
    put(out, b"(")?;
    put_items(out, parts, ontology)?;
    put(out, b")")
}

#[cycle(concepts)]
fn put_items(out: &mut Vec<u8>, parts: &[Concept], ontology: &Ontology) -> Result<(), NoMemory>
    requires { PartsUseListed ontology.now parts.now }
    ensures { OnOk result (Puts out.old out.new (items_text (class_texts ontology.now parts.now))) }
{
    match parts {
        [] => Ok(()),
        [first, rest @ ..] => {
            put_concept(out, first, ontology)?;
            put_spaced(out, rest, ontology)
        }
    }
}

/// Puts class expressions last, each after one blank.
#[cycle(concepts)]
pub(crate) fn put_spaced(
    out: &mut Vec<u8>,
    parts: &[Concept],
    ontology: &Ontology,
) -> Result<(), NoMemory>
    requires { PartsUseListed ontology.now parts.now }
    ensures { OnOk result (Puts out.old out.new (spaced (class_texts ontology.now parts.now))) }
{
    for part in parts {
        put(out, b" ")?;
        put_concept(out, part, ontology)?;
    }
    Ok(())
}

/// Appends the text of a class expression, whose classes and roles are listed.
///
/// Names are written as full IRIs between `<` and `>`, but for `owl:Thing` and `owl:Nothing`. One blank stands between
/// two items of a group, and the filler of a cardinality is always written.
///
/// # Errors
///
/// `NoMemory`. Nothing is appended then.
pub fn concept_text(
    out: &mut Vec<u8>,
    concept: &Concept,
    ontology: &Ontology,
) -> Result<(), NoMemory>
    requires { IsTrue (uses_listed (length ontology.now.classes) (length ontology.now.roles) concept.now) }
    ensures text { OnOk result (out.new.items ≡ out.old.items ++ concept_text ontology.now concept.now) }
    ensures unchanged { OnErr result (out.new.items ≡ out.old.items) }
{
    let alloc = *out.allocator();
    let mut text = Vec::new(alloc);
    put_concept(&mut text, concept, ontology)?;
    put_whole(out, &text)
}
