// Rows that wait for a name and are filed under another one.

use crate::NoMemory;
use crate::met::MetConcepts;
use blocking::Item;
use calculus_specs::Fact;
use std::alloc::Global;
use step_finders::{NamedRow, Rules};

/// For each name, under which other names rows are filed that wait for it too. A row that waits for several names is
/// filed under one of them. Only those names are here that some entry of the search has given to a node: these are met.
#[derive(Drop)]
pub(crate) struct WaitingRows {
    heap: Global,
    met: MetConcepts,
    // By the number of a name, the met names under which rows are filed that wait for it too.
    files: Vec<Vec<u32>>,
}

impl WaitingRows {
    /// No concept was met.
    pub(crate) fn new(heap: Global) -> WaitingRows {
        WaitingRows {
            heap,
            met: MetConcepts::none(heap),
            files: Vec::new(heap),
        }
    }

    /// The met names under which rows are filed that wait for this name too.
    pub(crate) fn files(&self, name: u32) -> &[u32] {
        match self.files.get(name as usize) {
            Some(files) => files.as_slice(),
            None => &[],
        }
    }

    /// Meets the concept that an entry gives, if it gives one.
    ///
    /// # Errors
    ///
    /// Out of memory.
    pub(crate) fn meet<R: Rules>(&mut self, rules: &R, item: Item) -> Result<(), NoMemory> {
        match item {
            Item::Fact(Fact::Has(_, concept)) => self.meet_concept(rules, concept),
            Item::Fact(Fact::Edge(_, _, _)) => Ok(()),
            Item::Fact(Fact::Apart(_, _)) => Ok(()),
            Item::Fact(Fact::Same(_, _)) => Ok(()),
            Item::Mark(_) => Ok(()),
        }
    }

    fn meet_concept<R: Rules>(&mut self, rules: &R, concept: u32) -> Result<(), NoMemory> {
        if self.met.has(concept) {
            return Ok(());
        }
        for row in rules.named(concept) {
            self.put_row(concept, row)?;
        }
        self.met.put(concept)
    }

    // Puts where the row is filed, for each other name that it waits for.
    fn put_row(&mut self, file: u32, row: &NamedRow) -> Result<(), NoMemory> {
        for name in row.waits.items() {
            if *name != file && self.files(*name).last() != Some(&file) {
                self.put_file(*name, file)?;
            }
        }
        Ok(())
    }

    fn put_file(&mut self, name: u32, file: u32) -> Result<(), NoMemory> {
        let place = name as usize;
        for _ in self.files.len()..place + 1 {
            self.files.push(Vec::new(self.heap))?;
        }
        if place < self.files.len() {
            self.files[place].push(file)?;
        }
        Ok(())
    }
}
