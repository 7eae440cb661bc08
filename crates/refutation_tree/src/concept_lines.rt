// Concept lines are read.
ghost use Rattle.std.specs.Prelude.{◌≡◌, IsTrue, ◌+◌, ◌<◌, ◌^◌, map, Some, IfOk, IfErr, length, option_map};
ghost use Rattle.shq_nnf.specs.Shape.Shape.{top, bottom};
ghost use Rattle.shq_nnf.specs.Shapes.{form_of_owned};
ghost use Rattle.certificate_lines.specs.Lines.{bytes_of, number_in};
ghost use Rattle.refutation_tree.specs.RefutationText.{is_number, when_none, short_shape, shape_in, next_concept_in};
ghost use Rattle.certificate_lines.specs.Malformed.{IsFaultAt};

use crate::CertFault;
use crate::fields::{class_in, counted_in, read_numbers, restriction_in};
use crate::keywords::{ShapeKind, shape_kind};
use certificate_lines::{Ontology, number};
use shq_nnf::OwnedShape;
use std::alloc::Global;

/// The shape that the words of a concept line say, where the line's concept is to have the number after `count`.
#[tactic(auto, using(certificate_lines::proofs::Borrowed::lines_drop))]
pub(crate) fn read_concept_line(
    alloc: Global,
    words: &[&[u8]],
    line: u32,
    ontology: &Ontology,
    count: u32,
) -> Result<OwnedShape, CertFault>
    ensures read { IfOk result (λ s. next_concept_in ontology.now count (bytes_of words.now) ≡ Some (form_of_owned s)) }
    ensures room { IfOk result (λ s. count + 1 < 2 ^ 32) }
    ensures fault { IfErr result (IsFaultAt line (next_concept_in ontology.now count (bytes_of words.now))) }
{
    if words.len() < 3 || !is_next(count, words[1]) {
        return Err(CertFault::Malformed(line));
    }
    match shape_kind(words[2]) {
        Some(kind) => read_shape(alloc, kind, words.split_at(3).1, line, ontology),
        None => Err(CertFault::Malformed(line)),
    }
}

// Whether the word is the number after the one that is given.
fn is_next(count: u32, word: &[u8]) -> bool
    ensures value { result ≡ is_number (count + 1) (number_in word.now) }
    ensures room { IsTrue result → count + 1 < 2 ^ 32 }
{
    match number(word) {
        Some(n) => n > count && n - count == 1,
        None => false,
    }
}

fn read_shape(
    alloc: Global,
    kind: ShapeKind,
    fields: &[&[u8]],
    line: u32,
    ontology: &Ontology,
) -> Result<OwnedShape, CertFault>
    ensures value { IfOk result (λ s. shape_in ontology.now kind (bytes_of fields.now) ≡ Some (form_of_owned s)) }
    ensures fault { IfErr result (IsFaultAt line (shape_in ontology.now kind (bytes_of fields.now))) }
{
    match kind {
        ShapeKind::And => Ok(OwnedShape::And(read_numbers(alloc, fields, line)?)),
        ShapeKind::Or => Ok(OwnedShape::Or(read_numbers(alloc, fields, line)?)),
        _ => match short_shape(kind, fields, ontology) {
            Some(shape) => Ok(shape),
            None => Err(CertFault::Malformed(line)),
        },
    }
}

// The shape of a kind with as many fields as each of its kind has.
fn short_shape(kind: ShapeKind, fields: &[&[u8]], ontology: &Ontology) -> Option<OwnedShape>
    ensures { option_map form_of_owned result ≡ short_shape ontology.now kind (bytes_of fields.now) }
{
    match kind {
        ShapeKind::Top => top_in(fields),
        ShapeKind::Bottom => bottom_in(fields),
        ShapeKind::Name => class_in(fields, ontology).map(|a| OwnedShape::Name(a)),
        ShapeKind::NotName => class_in(fields, ontology).map(|a| OwnedShape::NotName(a)),
        ShapeKind::SomeOf => {
            restriction_in(fields, ontology).map(|q| OwnedShape::SomeOf(q.role, q.filler))
        }
        ShapeKind::AllOf => {
            restriction_in(fields, ontology).map(|q| OwnedShape::AllOf(q.role, q.filler))
        }
        ShapeKind::Least => counted_in(fields, ontology).map(|q| OwnedShape::Min(
            q.count,
            q.rest.role,
            q.rest.filler,
        )),
        ShapeKind::Most => counted_in(fields, ontology).map(|q| OwnedShape::Max(
            q.count,
            q.rest.role,
            q.rest.filler,
        )),
        ShapeKind::And | ShapeKind::Or => None,
    }
}

fn top_in(fields: &[&[u8]]) -> Option<OwnedShape>
    ensures { option_map form_of_owned result ≡ when_none (bytes_of fields.now) top }
{
    match fields {
        [] => Some(OwnedShape::Top),
        _ => None,
    }
}

fn bottom_in(fields: &[&[u8]]) -> Option<OwnedShape>
    ensures { option_map form_of_owned result ≡ when_none (bytes_of fields.now) bottom }
{
    match fields {
        [] => Some(OwnedShape::Bottom),
        _ => None,
    }
}
