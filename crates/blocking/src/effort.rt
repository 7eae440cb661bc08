// What was done to find blocks.

/// How many blocks of nodes were found, and how often the sieve was looked through for one. No contract speaks of these
/// counts.
#[derive(Clone, Copy, Debug, PartialEq, Eq)]
pub struct BlockEffort {
    /// Blocks of nodes that were found, those of a node each time anew.
    pub blocks: u64,
    /// Looks through the prints of all nodes before one.
    pub sieves: u64,
}

impl BlockEffort {
    /// Where none was found.
    pub(crate) fn new() -> BlockEffort {
        BlockEffort {
            blocks: 0,
            sieves: 0,
        }
    }

    /// With one block more.
    pub(crate) fn with_block(self) -> BlockEffort {
        BlockEffort {
            blocks: self.blocks.wrapping_add(1),
            ..self
        }
    }

    /// With one look through the prints more.
    pub(crate) fn with_sieve(self) -> BlockEffort {
        BlockEffort {
            sieves: self.sieves.wrapping_add(1),
            ..self
        }
    }
}
