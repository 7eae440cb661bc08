// The text of a refutation, as it is written.
ghost use Rattle.std.specs.Prelude.{◌≡◌, ◌+◌, ◌<◌, ◌++◌, ◌∷◌, [], codes, decimal, length, map, IsTrue, IfOk, OnOk};
ghost use Rattle.std.specs.Prelude.{OnErr};
ghost use Rattle.std.specs.List.{list_all};
ghost use Rattle.shq_nnf.specs.Shapes.{form_of};
ghost use Rattle.certificate_lines.specs.Written.{spaced, fed, line_of};
ghost use Rattle.refutation_tree.specs.RuleLine.{line_of as plain_line};
ghost use Rattle.refutation_tree.specs.Written.{class_words, role_words, restriction_text, cardinality_text};
ghost use Rattle.refutation_tree.specs.Written.{shape_words, concept_row, concepts_text, rule_text, rules_text};
ghost use Rattle.refutation_tree.specs.Written.{axioms_text, refutation_text, shape_is_listed, line_is_listed};
ghost use Rattle.refutation_tree.specs.Written.{names_are_listed};

use crate::{Line, NoMemory, Refutation};
use axiom_sets::AxiomSet;
use certificate_lines::Ontology;
use shq_nnf::Shape;
use std::alloc::Global;

impl Refutation {
    /// Appends the text of the refutation, or nothing: `refutation`, `axioms K ..` with its axioms, a line `concept K
    /// ..` for each concept, its lines in order, and `end`, each with a line feed after it. The classes and roles that
    /// it names are listed. The memory is `alloc`'s.
    ///
    /// # Errors
    ///
    /// `NoMemory`.
    pub fn text(
        &self,
        alloc: Global,
        out: &mut Vec<u8>,
        ontology: &Ontology,
    ) -> Result<(), NoMemory>
        requires { IsTrue (names_are_listed ontology.now self.now) }
        ensures text { OnOk result (out.new.items ≡ out.old.items ++ refutation_text ontology.now self.now) }
        ensures unchanged { OnErr result (out.new.items ≡ out.old.items) }
    {
        let text = self.whole_text(alloc, ontology)?;
        out.extend_from_slice(&text)?;
        Ok(())
    }

    fn whole_text(&self, alloc: Global, ontology: &Ontology) -> Result<Vec<u8>, NoMemory>
        requires { IsTrue (names_are_listed ontology.now self.now) }
        ensures { IfOk result (λ text. text.items ≡ refutation_text ontology.now self.now) }
    {
        let mut text = Vec::from_slice(alloc, b"refutation")?;
        text.push(b'\n')?;
        push_axioms(alloc, &mut text, self.axioms_used())?;
        self.push_concepts(alloc, &mut text, ontology)?;
        self.push_lines(alloc, &mut text, ontology)?;
        text.extend_from_slice(b"end")?;
        text.push(b'\n')?;
        Ok(text)
    }

    fn push_concepts(
        &self,
        alloc: Global,
        text: &mut Vec<u8>,
        ontology: &Ontology,
    ) -> Result<(), NoMemory>
        requires { IsTrue (list_all (shape_is_listed ontology.now) self.now.shapes) }
        ensures { OnOk result (text.new.items ≡ text.old.items ++ concepts_text ontology.now self.now.shapes) }
    {
        for index in 0..self.shape_count() {
            let number = index + 1;
            push_concept(alloc, text, number, self.shape(number), ontology)?;
        }
        Ok(())
    }

    fn push_lines(
        &self,
        alloc: Global,
        text: &mut Vec<u8>,
        ontology: &Ontology,
    ) -> Result<(), NoMemory>
        requires { IsTrue (list_all (line_is_listed ontology.now) self.now.lines) }
        ensures { OnOk result (text.new.items ≡ text.old.items ++ rules_text ontology.now self.now.lines) }
    {
        push_rules(alloc, text, self.lines(), ontology)
    }
}

fn push_axioms(alloc: Global, text: &mut Vec<u8>, axioms: &AxiomSet) -> Result<(), NoMemory>
    ensures { OnOk result (text.new.items ≡ text.old.items ++ fed (axioms_text axioms.now)) }
{
    text.extend_from_slice(b"axioms")?;
    for number in axioms.numbers() {
        push_number(alloc, text, number)?;
    }
    text.push(b'\n')?;
    Ok(())
}

fn push_concept(
    alloc: Global,
    text: &mut Vec<u8>,
    number: u32,
    shape: Shape<'_>,
    ontology: &Ontology,
) -> Result<(), NoMemory>
    requires { IsTrue (shape_is_listed ontology.now (form_of shape)) }
    ensures { OnOk result (text.new.items ≡ text.old.items ++ concept_row ontology.now number (form_of shape.entry)) }
{
    text.extend_from_slice(b"concept")?;
    push_number(alloc, text, number)?;
    push_shape(alloc, text, shape, ontology)?;
    text.push(b'\n')?;
    Ok(())
}

// Appends the keyword of a shape and what follows it, each word after a blank.
fn push_shape(
    alloc: Global,
    text: &mut Vec<u8>,
    shape: Shape<'_>,
    ontology: &Ontology,
) -> Result<(), NoMemory>
    requires { IsTrue (shape_is_listed ontology.now (form_of shape)) }
    ensures { OnOk result (text.new.items ≡ text.old.items ++ spaced (shape_words ontology.now (form_of shape.entry))) }
{
    match shape {
        Shape::Top => push_word(text, b"top"),
        Shape::Bottom => push_word(text, b"bottom"),
        Shape::Name(class) => push_class(text, b"name", class, ontology),
        Shape::NotName(class) => push_class(text, b"not", class, ontology),
        Shape::And(parts) => push_parts(alloc, text, b"and", parts),
        Shape::Or(parts) => push_parts(alloc, text, b"or", parts),
        Shape::SomeOf(role, filler) => {
            push_restriction(alloc, text, b"some", role, filler, ontology)
        }
        Shape::AllOf(role, filler) => {
            push_restriction(alloc, text, b"all", role, filler, ontology)
        }
        Shape::Min(count, role, filler) => {
            push_cardinality(alloc, text, b"least", count, role, filler, ontology)
        }
        Shape::Max(count, role, filler) => {
            push_cardinality(alloc, text, b"most", count, role, filler, ontology)
        }
    }
}

fn push_class(
    text: &mut Vec<u8>,
    keyword: &[u8],
    class: u32,
    ontology: &Ontology,
) -> Result<(), NoMemory>
    requires { class < length ontology.now.classes }
    ensures { OnOk result (text.new.items ≡ text.old.items ++ spaced (class_words ontology.now keyword.now class)) }
{
    push_word(text, keyword)?;
    push_iri(text, ontology.class_name(class))
}

fn push_parts(
    alloc: Global,
    text: &mut Vec<u8>,
    keyword: &[u8],
    parts: &[u32],
) -> Result<(), NoMemory>
    ensures { OnOk result (text.new.items ≡ text.old.items ++ spaced (keyword.now ∷ map decimal parts.now)) }
{
    push_word(text, keyword)?;
    push_numbers(alloc, text, parts)
}

fn push_restriction(
    alloc: Global,
    text: &mut Vec<u8>,
    keyword: &[u8],
    role: u32,
    filler: u32,
    ontology: &Ontology,
) -> Result<(), NoMemory>
    requires { role < length ontology.now.roles }
    ensures { OnOk result (text.new.items ≡ text.old.items ++ restriction_text ontology.now keyword.now role filler) }
{
    push_word(text, keyword)?;
    push_role_and_concept(alloc, text, role, filler, ontology)
}

fn push_cardinality(
    alloc: Global,
    out: &mut Vec<u8>,
    word: &[u8],
    count: u32,
    role: u32,
    filler: u32,
    ontology: &Ontology,
) -> Result<(), NoMemory>
    requires { role < length ontology.now.roles }
    ensures { OnOk result (out.new.items ≡ out.old.items ++ cardinality_text ontology.now word.now count role filler) }
{
    push_word(out, word)?;
    push_number(alloc, out, count)?;
    push_role_and_concept(alloc, out, role, filler, ontology)
}

fn push_role_and_concept(
    alloc: Global,
    text: &mut Vec<u8>,
    role: u32,
    concept: u32,
    ontology: &Ontology,
) -> Result<(), NoMemory>
    requires { role < length ontology.now.roles }
    ensures { OnOk result (text.new.items ≡ text.old.items ++ spaced (role_words ontology.now role concept)) }
{
    push_iri(text, ontology.role_name(role))?;
    push_number(alloc, text, concept)
}

fn push_rules(
    alloc: Global,
    text: &mut Vec<u8>,
    lines: &[Line],
    ontology: &Ontology,
) -> Result<(), NoMemory>
    requires { IsTrue (list_all (line_is_listed ontology.now) (map plain_line lines.now)) }
    ensures { OnOk result (text.new.items ≡ text.old.items ++ rules_text ontology.now (map plain_line lines.now)) }
{
    for line in lines {
        push_rule(alloc, text, line, ontology)?;
        text.push(b'\n')?;
    }
    Ok(())
}

fn push_rule(
    alloc: Global,
    text: &mut Vec<u8>,
    line: &Line,
    ontology: &Ontology,
) -> Result<(), NoMemory>
    requires { IsTrue (line_is_listed ontology.now (plain_line line.now)) }
    ensures { OnOk result (text.new.items ≡ text.old.items ++ rule_text ontology.now (plain_line line.now)) }
{
    match line {
        Line::Start => push_fields(alloc, text, b"start", &[]),
        Line::And(x, c) => push_fields(alloc, text, b"and", &[*x, *c]),
        Line::Or(x, c) => push_fields(alloc, text, b"or", &[*x, *c]),
        Line::All(x, y, c) => push_fields(alloc, text, b"all", &[*x, *y, *c]),
        Line::Carry(x, y, role, c) => {
            push_fields(alloc, text, b"carry", &[*x, *y])?;
            push_role_and_concept(alloc, text, *role, *c, ontology)
        }
        Line::Row(x, axiom, part, positions) => {
            push_fields(alloc, text, b"row", &[*x, *axiom, *part])?;
            push_numbers(alloc, text, positions.items())
        }
        Line::Range(x, y, axiom) => push_fields(alloc, text, b"range", &[*x, *y, *axiom]),
        Line::SomeOf(x, y, c) => push_fields(alloc, text, b"some", &[*x, *y, *c]),
        Line::Least(x, y, c) => push_fields(alloc, text, b"least", &[*x, *y, *c]),
        Line::Choose(y, c) => push_fields(alloc, text, b"choose", &[*y, *c]),
        Line::Pair(y, z) => push_fields(alloc, text, b"pair", &[*y, *z]),
        Line::Bottom(x) => push_fields(alloc, text, b"bottom", &[*x]),
        Line::Clash(x, c) => push_fields(alloc, text, b"clash", &[*x, *c]),
        Line::Most(x, c, nodes) => {
            push_fields(alloc, text, b"most", &[*x, *c])?;
            push_numbers(alloc, text, nodes.items())
        }
        Line::Fact(axiom, place) => push_fields(alloc, text, b"fact", &[*axiom, *place]),
        Line::Differ(y, z) => push_fields(alloc, text, b"differ", &[*y, *z]),
    }
}

// Appends a keyword, and numbers after a blank each.
fn push_fields(
    alloc: Global,
    text: &mut Vec<u8>,
    keyword: &[u8],
    numbers: &[u32],
) -> Result<(), NoMemory>
    ensures { OnOk result (text.new.items ≡ text.old.items ++ line_of keyword.now (map decimal numbers.now)) }
{
    text.extend_from_slice(keyword)?;
    push_numbers(alloc, text, numbers)
}

fn push_numbers(alloc: Global, text: &mut Vec<u8>, numbers: &[u32]) -> Result<(), NoMemory>
    ensures { OnOk result (text.new.items ≡ text.old.items ++ spaced (map decimal numbers.now)) }
{
    for number in numbers {
        push_number(alloc, text, *number)?;
    }
    Ok(())
}

fn push_number(alloc: Global, text: &mut Vec<u8>, number: u32) -> Result<(), NoMemory>
    ensures { OnOk result (text.new.items ≡ text.old.items ++ 32 ∷ decimal number) }
{
    let digits = format!(in alloc; "{number}")?;
    push_word(text, digits.as_bytes())
}

fn push_iri(text: &mut Vec<u8>, name: &str) -> Result<(), NoMemory>
    ensures { OnOk result (text.new.items ≡ text.old.items ++ 32 ∷ (codes "<" ++ name.now ++ codes ">")) }
{
    push_word(text, b"<")?;
    text.extend_from_slice(name.as_bytes())?;
    text.extend_from_slice(b">")?;
    Ok(())
}

// Appends a word after a blank.
fn push_word(text: &mut Vec<u8>, word: &[u8]) -> Result<(), NoMemory>
    ensures { OnOk result (text.new.items ≡ text.old.items ++ 32 ∷ word.now) }
{
    text.push(b' ')?;
    text.extend_from_slice(word)?;
    Ok(())
}
