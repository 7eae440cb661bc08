// The way from the first line of a refutation to the one that is read.
use crate::NoMemory;
use refutation_rules::Fact;
use std::alloc::Global;

// A branch that waits: how many entries lead to it, and the fact that it has of its own.
#[derive(Clone, Copy, Debug)]
struct Pending {
    depth: usize,
    fact: Fact<u32>,
}

/// Which entries stand above the next line in the tree. An entry is a line, or the beginning of a branch.
#[derive(Drop)]
pub(crate) struct Path {
    entries: Vec<u32>,
    // How many entries stand above each one that there was.
    depths: Vec<usize>,
    pending: Vec<Pending>,
}

impl Path {
    pub(crate) fn new(alloc: Global) -> Path {
        Path {
            entries: Vec::new(alloc),
            depths: Vec::new(alloc),
            pending: Vec::new(alloc),
        }
    }

    /// Whether the entry stands above the next line.
    pub(crate) fn has(&self, entry: u32) -> bool {
        match self.depths.get(entry as usize) {
            Some(depth) => self.entries.get(*depth) == Some(&entry),
            None => false,
        }
    }

    /// Goes on with one entry more, and answers its number. Out of memory where there are no numbers left.
    pub(crate) fn put(&mut self) -> Result<u32, NoMemory> {
        let count = self.depths.len();
        if count > u32::MAX as usize {
            return Err(NoMemory);
        }
        let entry = count as u32;
        self.depths.push(self.entries.len())?;
        self.entries.push(entry)?;
        Ok(entry)
    }

    /// Lets a branch wait for each fact, the first of them to come first.
    pub(crate) fn branch_out(&mut self, facts: &[Fact<u32>]) -> Result<(), NoMemory> {
        let depth = self.entries.len();
        for place in 0..facts.len() {
            let fact = facts[facts.len() - 1 - place];
            self.pending.push(Pending { depth, fact })?;
        }
        Ok(())
    }

    /// Goes to where the next branch begins that waits, and answers the fact that it has of its own.
    pub(crate) fn turn(&mut self) -> Option<Fact<u32>> {
        match self.pending.pop() {
            Some(next) => {
                self.entries.truncate(next.depth);
                Some(next.fact)
            }
            None => None,
        }
    }
}
