// Which concepts a search has met.

use crate::NoMemory;
use std::alloc::Global;

/// Concepts that a search has met, by their numbers.
#[derive(Drop)]
pub(crate) struct MetConcepts {
    is_met: Vec<bool>,
}

impl MetConcepts {
    /// No concept was met.
    pub(crate) fn none(heap: Global) -> MetConcepts {
        MetConcepts {
            is_met: Vec::new(heap),
        }
    }

    /// Whether a concept was met.
    pub(crate) fn has(&self, concept: u32) -> bool {
        match self.is_met.get(concept as usize) {
            Some(is_met) => *is_met,
            None => false,
        }
    }

    /// Puts a concept in.
    ///
    /// # Errors
    ///
    /// Out of memory.
    pub(crate) fn put(&mut self, concept: u32) -> Result<(), NoMemory> {
        let place = concept as usize;
        for _ in self.is_met.len()..place + 1 {
            self.is_met.push(false)?;
        }
        if place < self.is_met.len() {
            self.is_met[place] = true;
        }
        Ok(())
    }
}
