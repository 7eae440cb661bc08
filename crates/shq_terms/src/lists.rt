// Lists of class expressions and of numbers, which contracts see as lists.
ghost use Rattle.std.specs.Prelude.{◌≡◌, [], ◌∷◌, ◌++◌, OnOk, OnErr};

use crate::{Concept, NoMemory};
use smallvec::SmallVec;
use std::alloc::Global;
use std::marker::Model;

/// Puts an item last, or changes nothing and drops the item.
pub(crate) fn push_item<T: Drop>(items: &mut Vec<T>, item: T) -> Result<(), NoMemory>
    ensures pushed { OnOk result (items.new.items ≡ items.old.items ++ item ∷ []) }
    ensures unchanged { OnErr result (items.new.items ≡ items.old.items) }
{
    items.push(item)?;
    Ok(())
}

/// Class expressions in order.
#[derive(Drop)]
pub struct ConceptList {
    concepts: Vec<Concept>,
}

impl Model for ConceptList {
    ghost use Rattle.std.specs.Prelude.{List};
    ghost use Rattle.std.specs.Coded.{coded_list};
    ghost use Rattle.shq_base.specs.Concept.{Concept as Tree};
    ghost use Rattle.shq_base.specs.Code.{concept_code};

    ghost Value = { List Tree };

    ghost coded = { coded_list concept_code };

    ghost view = { λ l. l.concepts.items };
}

impl ConceptList {
    /// No class expressions.
    pub fn new(alloc: Global) -> ConceptList
        ensures { result ≡ [] }
    {
        ConceptList {
            concepts: Vec::new(alloc),
        }
    }

    /// Puts the item last. Out of memory, it changes nothing.
    pub fn push(&mut self, item: Concept) -> Result<(), NoMemory>
        ensures pushed { OnOk result (self.new ≡ self.old ++ item ∷ []) }
        ensures unchanged { OnErr result (self.new ≡ self.old) }
    {
        self.concepts.push(item)?;
        Ok(())
    }

    /// The class expressions, in order.
    pub fn items(&self) -> &[Concept]
        ensures { result.now ≡ self.now }
    {
        &self.concepts
    }
}

/// Numbers in order. Up to four take no memory of their own.
#[derive(Drop)]
pub struct NumberList {
    numbers: SmallVec<u32, 4>,
}

impl Model for NumberList {
    ghost use Rattle.std.specs.Prelude.{List, ℕ};

    ghost Value = { List ℕ };

    ghost view = { λ l. l.numbers.items };
}

impl NumberList {
    /// No numbers.
    pub fn new(alloc: Global) -> NumberList
        ensures { result ≡ [] }
    {
        NumberList {
            numbers: SmallVec::new(alloc),
        }
    }

    /// Puts the item last. Out of memory, it changes nothing.
    pub fn push(&mut self, item: u32) -> Result<(), NoMemory>
        ensures pushed { OnOk result (self.new ≡ self.old ++ item ∷ []) }
        ensures unchanged { OnErr result (self.new ≡ self.old) }
    {
        self.numbers.push(item)?;
        Ok(())
    }

    /// The numbers, in order.
    pub fn items(&self) -> &[u32]
        ensures { result.now ≡ self.now }
    {
        &self.numbers
    }
}
