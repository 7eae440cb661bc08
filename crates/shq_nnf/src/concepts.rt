// The table itself: what it holds, and how a shape is put into it.
ghost use Rattle.std.specs.Prelude.{◌≡◌, ℕ, ◌+◌, ◌<◌, ◌≤◌, [], ◌∷◌, ◌++◌, IsTrue, IfOk, OnOk, OnErr, MatchOption};
ghost use Rattle.std.specs.Prelude.{length, take};
ghost use Rattle.calculus_specs.specs.Shape.{shape_of, has_parts_below, is_normal, IsTable};
ghost use Rattle.calculus_specs.specs.Shape.Shape.{top as plain_top};
ghost use Rattle.shq_nnf.specs.Shapes.{form_of, form_of_owned, concept_of};
ghost use Rattle.shq_nnf.specs.Numbers.{Extends, IsPut, IsNumber};

use crate::NoMemory;
use crate::shapes::{OwnedShape, Shape, owned};
use indexmap::IndexSet;
use std::alloc::Global;
use std::marker::Model;

/// A table of concepts in normal form by number. Equal concepts have equal numbers, a number keeps its concept for
/// good, and number 0 is `Top`.
#[derive(Drop)]
pub struct Concepts {
    pub(crate) alloc: Global,
    kept: IndexSet<OwnedShape>,
}

impl Model for Concepts {
    ghost use Rattle.std.specs.Prelude.{List, map, length, ◌<◌, ◌^◌};
    ghost use Rattle.calculus_specs.specs.Shape.{Shape as Form, IsTable};
    ghost use Rattle.shq_nnf.specs.Shapes.{form_of_owned};

    ghost Value = { List Form };

    ghost view = { λ c. map form_of_owned c.kept.keys };

    ghost invariant = { λ c. (length c.kept.keys < 2 ^ 32) × IsTable (map form_of_owned c.kept.keys) };
}

impl Concepts {
    /// The table that holds `Top` alone, as number 0.
    ///
    /// # Errors
    ///
    /// Out of memory.
    pub fn new(alloc: Global) -> Result<Concepts, NoMemory>
        ensures { IfOk result (λ table. table ≡ plain_top ∷ []) }
    {
        let mut kept = IndexSet::new(alloc);
        kept.insert_full(OwnedShape::Top)?;
        Ok(Concepts { alloc, kept })
    }

    /// How many numbers there are. They are exactly those below it.
    pub fn len(&self) -> u32
        ensures count { result ≡ length self.now }
        ensures table { IsTable self.now }
    {
        self.kept.len() as u32
    }

    /// The shape of a number.
    pub fn shape(&self, concept: u32) -> Shape<'_>
        requires { concept < length self.now }
        ensures shape { form_of result ≡ shape_of self.now concept }
        ensures table { IsTable self.now }
    {
        match self.kept.get_index(concept as usize) {
            Some(kept) => kept.shape(),
            None => unreachable!(),
        }
    }

    /// The number of a shape that is normal and has its parts in the table.
    ///
    /// # Errors
    ///
    /// Out of memory, or out of numbers: a table has fewer than 2^32 of them.
    pub fn put(&mut self, shape: Shape<'_>) -> Result<u32, NoMemory>
        requires parts { IsTrue (has_parts_below (length self.old) (form_of shape)) }
        requires normal { IsTrue (is_normal self.old (form_of shape)) }
        ensures put { IfOk result (λ n. IsPut self.old (form_of shape.entry) self.new n) }
        ensures number { IfOk result (λ n. IsNumber self.new n (concept_of self.old shape.entry)) }
        ensures kept { Extends self.old self.new }
        ensures table { IsTable self.new }
        ensures unchanged { OnErr result (self.new ≡ self.old) }
    {
        let _count = self.len();
        let number = self.put_shape(shape)?;
        Ok(number)
    }

    fn put_shape(&mut self, shape: Shape<'_>) -> Result<u32, NoMemory>
        requires parts { IsTrue (has_parts_below (length self.old) (form_of shape)) }
        requires normal { IsTrue (is_normal self.old (form_of shape)) }
        ensures put { IfOk result (λ n. IsPut self.old (form_of shape.entry) self.new n) }
        ensures table { IsTable self.new }
        ensures unchanged { OnErr result (self.new ≡ self.old) }
    {
        let kept = owned(self.alloc, shape)?;
        self.keep(kept)
    }

    fn keep(&mut self, shape: OwnedShape) -> Result<u32, NoMemory>
        requires parts { IsTrue (has_parts_below (length self.old) (form_of_owned shape)) }
        requires normal { IsTrue (is_normal self.old (form_of_owned shape)) }
        ensures number { IfOk result (λ n. IsPut self.old (form_of_owned shape) self.new n) }
        ensures table { IsTable self.new }
        ensures unchanged { OnErr result (self.new ≡ self.old) }
    {
        if self.kept.len() >= u32::MAX as usize {
            return Err(NoMemory);
        }
        let (number, _) = self.kept.insert_full(shape)?;
        Ok(number as u32)
    }

    /// The number that has a shape, if one has it.
    pub fn find(&self, shape: &OwnedShape) -> Option<u32>
        ensures { MatchOption result ((n : ℕ) → n < length self.now → ¬ (shape_of self.now n ≡ form_of_owned shape.now))
            (λ n. (n < length self.now) × (shape_of self.now n ≡ form_of_owned shape.now)) }
    {
        match self.kept.get_index_of(shape) {
            Some(number) => Some(number as u32),
            None => None,
        }
    }

    /// Takes out all numbers but the first `len`, which keep their trees. For a caller that has put concepts and gives
    /// them up before anything names their numbers, as where a later step is refused: a number that is handed on keeps
    /// its tree for good.
    pub fn truncate(&mut self, len: u32)
        requires { 0 < len }
        ensures { self.new ≡ take len self.old }
    {
        self.kept.truncate(len as usize);
    }
}
