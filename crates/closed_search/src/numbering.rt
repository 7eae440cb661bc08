// The concepts that a refutation names, by numbers of its own.
ghost use Rattle.std.specs.Prelude.{◌≡◌, ◌+◌, ◌<◌, ◌≤◌, [], false, nat_lt, IsTrue, IfOk, IfSome, IsNone, length};
ghost use Rattle.std.specs.List.{list_all};
ghost use Rattle.calculus_specs.specs.Shape.{shape_of};
ghost use Rattle.refutation_truth.specs.Shapes.{form_of, form_of_owned};
ghost use Rattle.search_trace.specs.RefutationText.{begun};
ghost use Rattle.search_trace.specs.Shapes.{part_numbers, admits};
ghost use Rattle.closed_search.specs.Numbers.{is_used};
ghost use Rattle.closed_search.specs.Naming.{IsNaming, IsNumberOf, IsPut, IsNamed, IsRenamed, AreRenamed};

use crate::NoMemory;
use axiom_sets::AxiomSet;
use indexmap::IndexSet;
use refutation_truth::{Concepts, OwnedShape, Shape};
use search_trace::Refutation;
use std::alloc::Global;

/// The concepts of a table that are named so far, in the order of their numbers, and the refutation that has their
/// shapes.
#[derive(Drop)]
pub(crate) struct Naming {
    pub(crate) used: IndexSet<u32>,
    pub(crate) refutation: Refutation,
    alloc: Global,
}

impl Naming {
    /// No concept is named.
    pub(crate) fn new(alloc: Global, axioms: AxiomSet) -> Naming
        ensures used { result.used.keys ≡ [] }
        ensures refutation { result.refutation ≡ begun axioms }
    {
        Naming {
            used: IndexSet::new(alloc),
            refutation: Refutation::new(alloc, axioms),
            alloc,
        }
    }

    /// The number of the concept, if it is named.
    pub(crate) fn number(&self, concept: u32) -> Option<u32>
        requires { length self.now.refutation.shapes ≡ length self.now.used.keys }
        ensures some { IfSome result (IsNumberOf self.now concept) }
        ensures none { IsNone result → is_used self.now.used.keys concept ≡ false }
    {
        let _ = self.refutation.shape_count();
        match self.used.get_index_of(&concept) {
            Some(place) => Some(place as u32 + 1),
            None => None,
        }
    }

    // Gives the concept the next number, by this shape.
    fn put(&mut self, concept: u32, shape: OwnedShape) -> Result<u32, NoMemory>
        requires new { is_used self.old.used.keys concept ≡ false }
        requires admitted { IsTrue (admits self.old.refutation.shapes (form_of_owned shape)) }
        requires lines { self.old.refutation.lines ≡ [] }
        ensures { IfOk result (IsPut self.old self.new concept (form_of_owned shape)) }
    {
        let count = self.refutation.shape_count();
        if count >= u32::MAX - 1 {
            return Err(NoMemory);
        }
        self.refutation.put_shape(shape)?;
        self.used.insert_full(concept)?;
        Ok(count + 1)
    }

    /// Names the concept and its parts, and answers its number.
    ///
    /// # Errors
    ///
    /// Out of memory. What is named then serves no more.
    #[cycle(naming)]
    pub(crate) fn name(&mut self, concepts: &Concepts, concept: u32) -> Result<u32, NoMemory>
        requires listed { concept < length concepts.now }
        requires naming { IsNaming concepts.now self.old }
        ensures { IfOk result (IsNamed concepts.now self.old self.new concept) }
    {
        match self.number(concept) {
            Some(number) => Ok(number),
            None => self.name_new(concepts, concept),
        }
    }

    // Names a concept that has no number, and its parts.
    #[cycle(naming)]
    fn name_new(&mut self, concepts: &Concepts, concept: u32) -> Result<u32, NoMemory>
        requires listed { concept < length concepts.now }
        requires naming { IsNaming concepts.now self.old }
        requires new { is_used self.old.used.keys concept ≡ false }
        ensures { IfOk result (IsNamed concepts.now self.old self.new concept) }
    {
        let shape = self.renamed(concepts, concepts.shape(concept), concept)?;
        self.put(concept, shape)
    }

    // The shape with the refutation's numbers in place of the table's, which are below a bound.
    #[cycle(naming)]
    fn renamed(
        &mut self,
        concepts: &Concepts,
        shape: Shape<'_>,
        above: u32,
    ) -> Result<OwnedShape, NoMemory>
        requires listed { above ≤ length concepts.now }
        requires below { IsTrue (list_all (λ c. nat_lt c above) (part_numbers (form_of shape))) }
        requires naming { IsNaming concepts.now self.old }
        ensures { IfOk result (λ s.
            IsRenamed concepts.now self.old self.new above (form_of shape.entry) (form_of_owned s)) }
    {
        match shape {
            Shape::Top => Ok(OwnedShape::Top),
            Shape::Bottom => Ok(OwnedShape::Bottom),
            Shape::Name(class) => Ok(OwnedShape::Name(class)),
            Shape::NotName(class) => Ok(OwnedShape::NotName(class)),
            Shape::And(parts) => Ok(OwnedShape::And(self.named_parts(concepts, parts, above)?)),
            Shape::Or(parts) => Ok(OwnedShape::Or(self.named_parts(concepts, parts, above)?)),
            Shape::SomeOf(role, filler) => {
                Ok(OwnedShape::SomeOf(role, self.name(concepts, filler)?))
            }
            Shape::AllOf(role, filler) => {
                Ok(OwnedShape::AllOf(role, self.name(concepts, filler)?))
            }
            Shape::Min(count, role, filler) => {
                Ok(OwnedShape::Min(count, role, self.name(concepts, filler)?))
            }
            Shape::Max(count, role, filler) => {
                Ok(OwnedShape::Max(count, role, self.name(concepts, filler)?))
            }
        }
    }

    // The numbers of parts that are below a bound.
    #[cycle(naming)]
    fn named_parts(
        &mut self,
        concepts: &Concepts,
        parts: &[u32],
        above: u32,
    ) -> Result<Vec<u32>, NoMemory>
        requires listed { above ≤ length concepts.now }
        requires below { IsTrue (list_all (λ c. nat_lt c above) parts.now) }
        requires naming { IsNaming concepts.now self.old }
        ensures { IfOk result (λ ns. AreRenamed concepts.now self.old self.new above parts.now ns.items) }
    {
        let mut numbers = Vec::new(self.alloc);
        for part in parts {
            let number = self.name(concepts, *part)?;
            numbers.push(number)?;
        }
        Ok(numbers)
    }
}
