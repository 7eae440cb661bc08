// A set of axioms that entries keep.
ghost use Rattle.std.specs.Prelude.{◌≡◌, IfOk};

use crate::NoMemory;
use pinpointing_specs::AxiomSet;
use std::alloc::Global;
use std::marker::Model;
use std::rc::Rc;

/// A set of axioms that an entry keeps. Several entries may share it, so that it takes its memory once. Contracts see
/// the set.
#[derive(Drop)]
pub struct KeptSet {
    set: Rc<AxiomSet>,
}

impl Model for KeptSet {
    ghost use Rattle.pinpointing_specs.specs.Sets.{Limited, limited_code};

    ghost Value = { Limited };

    ghost coded = { limited_code };

    ghost view = { λ s. s.set.value };
}

impl KeptSet {
    /// Keeps this set, which nothing shares yet.
    ///
    /// # Errors
    ///
    /// Out of memory.
    pub fn new(alloc: Global, set: AxiomSet) -> Result<KeptSet, NoMemory>
        ensures { IfOk result (λ kept. kept ≡ set) }
    {
        Ok(KeptSet {
            set: Rc::new(alloc, set)?,
        })
    }

    /// The set.
    pub fn set(&self) -> &AxiomSet
        ensures { result.now ≡ self.now }
    {
        &self.set
    }

    /// A copy of the set.
    ///
    /// # Errors
    ///
    /// Out of memory.
    pub fn copied(&self) -> Result<AxiomSet, NoMemory>
        ensures { IfOk result (λ set. set ≡ self.now) }
    {
        self.set().try_clone()
    }

    // Keeps the other set: it shares this one if they are equal, and is copied otherwise.
    pub(crate) fn shared_or_copied(
        &self,
        alloc: Global,
        other: &AxiomSet,
    ) -> Result<KeptSet, NoMemory>
        ensures { IfOk result (λ kept. kept ≡ other.now) }
    {
        if *self.set() == *other {
            self.shared()
        } else {
            KeptSet::new(alloc, other.try_clone()?)
        }
    }

    // The same set once more, shared. How often it is shared is counted; if the count has no room, this fails.
    fn shared(&self) -> Result<KeptSet, NoMemory>
        ensures { IfOk result (λ kept. kept ≡ self.now) }
    {
        Ok(KeptSet {
            set: self.set.clone()?,
        })
    }
}
