// Refutations as they are kept.
ghost use Rattle.std.specs.Prelude.{◌≡◌, ◌+◌, ◌^◌, ◌<◌, ◌≤◌, [], ◌∷◌, ◌++◌, IsTrue, OnOk, OnErr, length, map};
ghost use Rattle.std.specs.List.{list_all};
ghost use Rattle.shq_nnf.specs.Shape.{is_conjunct, is_disjunct, is_normal};
ghost use Rattle.shq_nnf.specs.Shape.Shape.{top as plain_top};
ghost use Rattle.shq_nnf.specs.Shapes.{form_of, form_of_owned};
ghost use Rattle.refutation_tree.specs.Shapes.{shape_at, is_concept, part_numbers, fits, admits};
ghost use Rattle.refutation_tree.specs.RuleLine.{line_of, names_concepts};
ghost use Rattle.refutation_tree.specs.RefutationLists.{IsKept, IsKeptAt};
ghost use Rattle.refutation_tree.specs.RefutationText.{begun};

use crate::{Line, NoMemory};
use axiom_sets::AxiomSet;
use indexmap::IndexSet;
use shq_nnf::{OwnedShape, Shape};
use std::alloc::Global;
use std::marker::Model;

/// The axioms that a refutation rests on, the concepts that it names by number, and its lines in preorder.
///
/// Concepts are numbered from 1. Each is in normal form, has its parts among those before it, and stands once, and each
/// number of a concept on a line is one of theirs.
#[derive(Drop)]
pub struct Refutation {
    pub(crate) axioms: AxiomSet,
    pub(crate) shapes: IndexSet<OwnedShape>,
    pub(crate) lines: Vec<Line>,
}

impl Model for Refutation {
    ghost use Rattle.std.specs.Prelude.{map};
    ghost use Rattle.std.specs.Coded.{codes};
    ghost use Rattle.axiom_sets.specs.Sets.{limited_code};
    ghost use Rattle.shq_nnf.specs.Shapes.{form_of_owned};
    ghost use Rattle.refutation_tree.specs.RuleLine.{line_of};
    ghost use Rattle.refutation_tree.specs.RefutationLists.{RefutationLists, IsKept};

    ghost Value = { RefutationLists };

    ghost coded = { Prim.hlevel (codes, limited_code) };

    ghost view = { λ r. record {
      axioms = r.axioms;
      shapes = map form_of_owned r.shapes.keys;
      lines = map line_of r.lines.items;
    } };

    ghost invariant = { λ r. IsKept (map form_of_owned r.shapes.keys) (map line_of r.lines.items) };
}

impl Refutation {
    /// A refutation with these axioms, and without concepts and lines.
    pub fn new(alloc: Global, axioms: AxiomSet) -> Refutation
        ensures { result ≡ begun axioms }
    {
        Refutation {
            axioms,
            shapes: IndexSet::new(alloc),
            lines: Vec::new(alloc),
        }
    }

    /// The axioms that the refutation names. Its lines may use these alone.
    pub fn axioms_used(&self) -> &AxiomSet
        ensures { result.now ≡ self.now.axioms }
    {
        &self.axioms
    }

    /// The lines in preorder.
    pub fn lines(&self) -> &[Line]
        ensures lines { map line_of result.now ≡ self.now.lines }
        ensures kept { IsKept self.now.shapes self.now.lines }
    {
        &self.lines
    }

    /// How many concepts the refutation names. Their numbers are those from 1 to this count.
    pub fn shape_count(&self) -> u32
        ensures count { result ≡ length self.now.shapes }
        ensures kept { IsKept self.now.shapes self.now.lines }
    {
        self.shapes.len() as u32
    }

    /// The shape of a concept, from 1.
    pub fn shape(&self, concept: u32) -> Shape<'_>
        requires low { 1 ≤ concept }
        requires high { concept ≤ length self.now.shapes }
        ensures shape { form_of result ≡ shape_at self.now.shapes concept }
        ensures kept { IsKept self.now.shapes self.now.lines }
    {
        match self.shapes.get_index(concept as usize - 1) {
            Some(kept) => kept.shape(),
            None => unreachable!(),
        }
    }

    /// Whether the shape may have the next number.
    pub(crate) fn admits(&self, shape: &OwnedShape) -> bool
        ensures { result ≡ admits self.now.shapes (form_of_owned shape.now) }
    {
        self.fits(shape) && !self.shapes.contains(shape)
    }

    fn fits(&self, shape: &OwnedShape) -> bool
        ensures { result ≡ fits self.now.shapes (form_of_owned shape.now) }
    {
        self.has_parts(shape) && self.is_normal(shape)
    }

    /// Whether the number is that of a concept.
    fn has_concept(&self, concept: u32) -> bool
        ensures { result ≡ is_concept self.now.shapes concept }
    {
        0 < concept && concept as usize <= self.shapes.len()
    }

    fn has_parts(&self, shape: &OwnedShape) -> bool
        ensures { result ≡ list_all (is_concept self.now.shapes) (part_numbers (form_of_owned shape.now)) }
    {
        match shape {
            OwnedShape::And(parts) | OwnedShape::Or(parts) => {
                parts.iter().all(|part| self.has_concept(*part))
            }
            OwnedShape::SomeOf(_, filler) | OwnedShape::AllOf(_, filler) => self.has_concept(
                *filler,
            ),
            OwnedShape::Min(_, _, filler) | OwnedShape::Max(_, _, filler) => {
                self.has_concept(*filler)
            }
            _ => true,
        }
    }

    fn is_normal(&self, shape: &OwnedShape) -> bool
        ensures { result ≡ is_normal (plain_top ∷ self.now.shapes) (form_of_owned shape.now) }
    {
        match shape {
            OwnedShape::And(parts) => { 2 <= parts.len() && self.are_conjuncts(parts) }
            OwnedShape::Or(parts) => { 2 <= parts.len() && self.are_disjuncts(parts) }
            OwnedShape::Min(count, _, _) => 2 <= *count && *count <= 101,
            OwnedShape::Max(count, _, _) => 1 <= *count && *count <= 100,
            _ => true,
        }
    }

    fn are_conjuncts(&self, parts: &[u32]) -> bool
        ensures { result ≡ list_all (λ c. is_conjunct (shape_at self.now.shapes c)) parts.now }
    {
        parts.iter().all(|part| self.is_conjunct(*part))
    }

    fn are_disjuncts(&self, parts: &[u32]) -> bool
        ensures { result ≡ list_all (λ c. is_disjunct (shape_at self.now.shapes c)) parts.now }
    {
        parts.iter().all(|part| self.is_disjunct(*part))
    }

    // Whether the concept may be a part of an intersection.
    fn is_conjunct(&self, concept: u32) -> bool
        ensures { result ≡ is_conjunct (shape_at self.now.shapes concept) }
    {
        match self.kept(concept) {
            None => false,
            Some(OwnedShape::Top) | Some(OwnedShape::Bottom) | Some(OwnedShape::And(_)) => false,
            Some(_) => true,
        }
    }

    // Whether the concept may be a part of a union.
    fn is_disjunct(&self, concept: u32) -> bool
        ensures { result ≡ is_disjunct (shape_at self.now.shapes concept) }
    {
        match self.kept(concept) {
            None => false,
            Some(OwnedShape::Top) | Some(OwnedShape::Bottom) | Some(OwnedShape::Or(_)) => false,
            Some(_) => true,
        }
    }

    // The shape of the number, if there is one.
    fn kept(&self, concept: u32) -> Option<&OwnedShape>
        ensures { IsKeptAt self.now.shapes concept result }
    {
        if concept == 0 {
            return None;
        }
        self.shapes.get_index(concept as usize - 1)
    }

    /// Whether each number of a concept on the line is that of a concept.
    pub(crate) fn names_concepts(&self, line: &Line) -> bool
        ensures { result ≡ names_concepts self.now.shapes (line_of line.now) }
    {
        match line.concept() {
            Some(concept) => self.has_concept(concept),
            None => true,
        }
    }

    /// Gives the shape the next number, or changes nothing.
    pub fn put_shape(&mut self, shape: OwnedShape) -> Result<(), NoMemory>
        requires room { length self.old.shapes + 1 < 2 ^ 32 }
        requires admitted { IsTrue (admits self.old.shapes (form_of_owned shape)) }
        requires lines { self.old.lines ≡ [] }
        ensures ok { OnOk result (self.new ≡ record self.old { shapes = self.old.shapes ++ form_of_owned shape ∷ [] }) }
        ensures unchanged { OnErr result (self.new ≡ self.old) }
    {
        self.shapes.insert(shape)?;
        Ok(())
    }

    /// Puts the line last, or changes nothing.
    pub fn put_line(&mut self, line: Line) -> Result<(), NoMemory>
        requires { IsTrue (names_concepts self.old.shapes (line_of line)) }
        ensures put { OnOk result (self.new ≡ record self.old { lines = self.old.lines ++ line_of line ∷ [] }) }
        ensures unchanged { OnErr result (self.new ≡ self.old) }
    {
        self.lines.push(line)?;
        Ok(())
    }
}
