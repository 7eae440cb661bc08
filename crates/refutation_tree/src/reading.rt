// The text of a refutation is read.
ghost use Rattle.std.specs.Prelude.{◌≡◌, ◌<◌, ◌≤◌, ◌+◌, ◌^◌, nat_lt, nat_le, ◌&&◌, IsTrue, [], map, length, All, Some};
ghost use Rattle.std.specs.Prelude.{IfOk, IfErr, OnOk, IfSome, codes, option_map};
ghost use Rattle.std.specs.List.{list_all};
ghost use Rattle.certificate_lines.specs.Lines.{bytes_of, words};
ghost use Rattle.certificate_lines.specs.Malformed.{IsFaultOf, IsFaultAt, IsFaultOfLine};
ghost use Rattle.shq_nnf.specs.TheoryRows.{is_ascending};
ghost use Rattle.shq_nnf.specs.Shapes.{form_of_owned};
ghost use Rattle.refutation_tree.specs.RuleLine.{line_of};
ghost use Rattle.refutation_tree.specs.RefutationText.{are_axiom_numbers, axiom_set, axioms_numbered, axioms_line};
ghost use Rattle.refutation_tree.specs.RefutationText.{with_shape, with_line, concept_added, rule_added};
ghost use Rattle.refutation_tree.specs.RefutationText.{is_concept_line, refutation_line_read, refutation_body};
ghost use Rattle.refutation_tree.specs.RefutationText.{refutation_of};
ghost use Rattle.refutation_tree.specs.ReadBack.{IsWritable};
ghost use Rattle.refutation_tree.specs.Malformed.{malformed_refutation_line, malformed_in_refutation};

use crate::concept_lines::read_concept_line;
use crate::fields::read_numbers;
use crate::rule_lines::read_rule_line;
use crate::{CertFault, Line, NoMemory, Refutation};
use axiom_sets::AxiomSet;
use certificate_lines::{Ontology, clamped_line, first_unblank, words};
use shq_nnf::OwnedShape;
use std::alloc::Global;

/// The refutation whose text these lines are: `refutation`, `axioms K ..`, concept lines, rule lines, the line `end`,
/// and blank lines.
///
/// The numbers of axioms are those of the ontology and ascend strictly. Concept lines are numbered from 1. Each is
/// `concept K` and then `top`, `bottom`, `name NAME`, `not NAME`, `and I J ..`, `or I J ..`, `some ROLE I`, `all ROLE
/// I`, `least N ROLE I` or `most N ROLE I`, in normal form, with parts of smaller numbers, and none stands twice. A
/// name is the full IRI of a listed class or role between `<` and `>`. A number of a concept on a rule line is that of
/// a concept line. There may be no axioms, no concept lines and no rule lines: whether the lines refute anything is no
/// matter of the format.
///
/// # Errors
///
/// `Malformed` exactly where the lines are no such text, and `NoMemory`. The first of the lines has the number 2. The
/// malformed line is the first with which no text begins, or the line after the last where a text begins with them all.
/// After an error nothing of what was read is left, and the ontology and the lines are as they were.
pub fn read_text(
    alloc: Global,
    lines: &[&[u8]],
    ontology: &Ontology,
) -> Result<Refutation, CertFault>
    ensures refutation { IfOk result (λ k. refutation_of ontology.now (bytes_of lines.now) ≡ Some k) }
    ensures writable { IfOk result (λ k. IsWritable ontology.now k) }
    ensures lines { IfOk result (λ k. length k.lines ≤ length lines.now) }
    ensures fault { IfErr result (IsFaultOf (refutation_of ontology.now (bytes_of lines.now))) }
    ensures line { IfErr result (IsFaultOfLine (malformed_refutation_line ontology.now (bytes_of lines.now))) }
{
    if lines.is_empty() || lines[0] != b"refutation".as_slice() {
        return Err(CertFault::Malformed(2));
    }
    if lines.len() == 1 {
        return Err(CertFault::Malformed(3));
    }
    let axioms = read_axioms(alloc, lines[1], ontology)?;
    let refutation = Refutation::new(alloc, axioms);
    read_body(alloc, &lines[2..], ontology, refutation)
}

// Reads the lines after that of the axioms.
fn read_body(
    alloc: Global,
    lines: &[&[u8]],
    ontology: &Ontology,
    mut refutation: Refutation,
) -> Result<Refutation, CertFault>
    ensures refutation { IfOk result (λ k. refutation_body ontology.now refutation (bytes_of lines.now) ≡ Some k) }
    ensures fault { IfErr result (IsFaultOf (refutation_body ontology.now refutation (bytes_of lines.now))) }
    ensures line { IfErr result (IsFaultOfLine (malformed_in_refutation ontology.now refutation (bytes_of lines.now))) }
{
    for index in 0..lines.len() {
        if lines[index] == b"end".as_slice() {
            return match first_unblank(&lines[index + 1..], index + 5) {
                None => Ok(refutation),
                Some(number) => Err(CertFault::Malformed(clamped_line(number))),
            };
        }
        read_line(
            alloc,
            lines[index],
            clamped_line(index + 4),
            ontology,
            &mut refutation,
        )?;
    }
    Err(CertFault::Malformed(clamped_line(lines.len() + 4)))
}

// Reads one line more, whose number is given.
fn read_line(
    alloc: Global,
    line: &[u8],
    number: u32,
    ontology: &Ontology,
    refutation: &mut Refutation,
) -> Result<(), CertFault>
    ensures read { OnOk result (refutation_line_read ontology.now refutation.old line.now ≡ Some refutation.new) }
    ensures fault { IfErr result (IsFaultAt number (refutation_line_read ontology.now refutation.old line.now)) }
{
    let words = words(alloc, line)?;
    if is_concept_line(&words) {
        add_concept(alloc, &words, number, ontology, refutation)
    } else {
        add_line(alloc, &words, number, ontology, refutation)
    }
}

fn is_concept_line(words: &[&[u8]]) -> bool
    ensures { result ≡ is_concept_line (bytes_of words.now) }
{
    !words.is_empty() && words[0] == b"concept".as_slice()
}

// Concept lines stand before all rule lines.
fn add_concept(
    alloc: Global,
    words: &[&[u8]],
    number: u32,
    ontology: &Ontology,
    refutation: &mut Refutation,
) -> Result<(), CertFault>
    ensures read { OnOk result (concept_added ontology.now refutation.old (bytes_of words.now) ≡ Some refutation.new) }
    ensures fault { IfErr result (IsFaultAt number (concept_added ontology.now refutation.old (bytes_of words.now))) }
{
    if !refutation.lines().is_empty() {
        return Err(CertFault::Malformed(number));
    }
    let shape = read_concept_line(alloc, words, number, ontology, refutation.shape_count())?;
    add_shape(refutation, number, shape)
}

fn add_shape(refutation: &mut Refutation, number: u32, shape: OwnedShape) -> Result<(), CertFault>
    requires room { length refutation.old.shapes + 1 < 2 ^ 32 }
    requires lines { refutation.old.lines ≡ [] }
    ensures read { OnOk result (with_shape refutation.old (form_of_owned shape) ≡ Some refutation.new) }
    ensures fault { IfErr result (IsFaultAt number (with_shape refutation.old (form_of_owned shape))) }
{
    if !refutation.admits(&shape) {
        drop(shape);
        return Err(CertFault::Malformed(number));
    }
    refutation.put_shape(shape)?;
    Ok(())
}

fn add_line(
    alloc: Global,
    words: &[&[u8]],
    number: u32,
    ontology: &Ontology,
    refutation: &mut Refutation,
) -> Result<(), CertFault>
    ensures read { OnOk result (rule_added ontology.now refutation.old (bytes_of words.now) ≡ Some refutation.new) }
    ensures fault { IfErr result (IsFaultAt number (rule_added ontology.now refutation.old (bytes_of words.now))) }
{
    let line = read_rule_line(alloc, words, number, ontology)?;
    add_rule(refutation, number, line)
}

fn add_rule(refutation: &mut Refutation, number: u32, line: Line) -> Result<(), CertFault>
    ensures read { OnOk result (with_line refutation.old (line_of line) ≡ Some refutation.new) }
    ensures fault { IfErr result (IsFaultAt number (with_line refutation.old (line_of line))) }
{
    if !refutation.names_concepts(&line) {
        drop(line);
        return Err(CertFault::Malformed(number));
    }
    refutation.put_line(line)?;
    Ok(())
}

fn read_axioms(alloc: Global, line: &[u8], ontology: &Ontology) -> Result<AxiomSet, CertFault>
    ensures axioms { IfOk result (λ a. axioms_line (length ontology.now.axioms) (words line.now) ≡ Some a) }
    ensures few { IfOk result (λ _. length ontology.now.axioms < 2 ^ 32) }
    ensures fault { IfErr result (IsFaultAt 3 (axioms_line (length ontology.now.axioms) (words line.now))) }
{
    let words = words(alloc, line)?;
    match words.as_slice() {
        [keyword, fields @ ..] if *keyword == b"axioms".as_slice() => {
            let numbers = read_numbers(alloc, fields, 3)?;
            axioms_numbered(alloc, &numbers, ontology.axiom_count())
        }
        _ => Err(CertFault::Malformed(3)),
    }
}

// The set of these numbers, where they are numbers of axioms and ascend strictly.
fn axioms_numbered(alloc: Global, numbers: &[u32], count: u32) -> Result<AxiomSet, CertFault>
    ensures axioms { IfOk result (λ a. axioms_numbered count numbers.now ≡ Some a) }
    ensures fault { IfErr result (IsFaultAt 3 (axioms_numbered count numbers.now)) }
{
    if !are_axiom_numbers(count, numbers) {
        return Err(CertFault::Malformed(3));
    }
    Ok(axiom_set(alloc, count, numbers)?)
}

fn are_axiom_numbers(count: u32, numbers: &[u32]) -> bool
    ensures { result ≡ are_axiom_numbers count numbers.now }
{
    are_within(count, numbers) && is_ascending(numbers)
}

fn are_within(count: u32, numbers: &[u32]) -> bool
    ensures { result ≡ list_all (λ n. nat_lt 0 n && nat_le n count) numbers.now }
{
    numbers.iter().all(|n| 0 < *n && *n <= count)
}

fn is_ascending(numbers: &[u32]) -> bool
    ensures { result ≡ is_ascending numbers.now }
{
    for index in 1..numbers.len() {
        if numbers[index - 1] >= numbers[index] {
            return false;
        }
    }
    true
}

fn axiom_set(alloc: Global, count: u32, numbers: &[u32]) -> Result<AxiomSet, NoMemory>
    requires { IsTrue (list_all (λ n. nat_lt 0 n && nat_le n count) numbers.now) }
    ensures { IfOk result (λ a. a ≡ axiom_set count numbers.now) }
{
    let mut axioms = AxiomSet::empty(alloc, count)?;
    for number in numbers {
        axioms.put(*number);
    }
    Ok(axioms)
}
