// What a search did beside its steps.

use search_trace::Trace;
use step_agenda::BlockEffort;

/// How often a search looked for a step at a fact and in its whole state, how often it went back, how many choices and
/// lines of its trace it lost by that, and how many blocks of nodes it found. No contract speaks of these counts, and
/// no answer rests on them: they tell whether a next step is looked for in the right place, and blocks not too often.
#[derive(Clone, Copy, Debug, PartialEq, Eq)]
pub struct Effort {
    /// Looks at a fact for a step of one kind.
    pub looks: u64,
    /// Looks through a whole state for a step, where none was seen at the latest facts.
    pub scans: u64,
    /// Closed ways from which the search went on at another alternative.
    pub backs: u64,
    /// Choices that were made after the one to which the search went back.
    pub lost: u64,
    /// Lines that rested on a branching that was taken out with them.
    pub stripped: u64,
    /// Blocks of nodes that were found, those of a node each time anew.
    pub blocks: u64,
    /// Looks through the prints of all nodes before one, for what may block it.
    pub sieves: u64,
}

impl Effort {
    /// Of a search that begins.
    pub(crate) fn new() -> Effort {
        Effort {
            looks: 0,
            scans: 0,
            backs: 0,
            lost: 0,
            stripped: 0,
            blocks: 0,
            sieves: 0,
        }
    }

    /// With one look through the whole state more.
    pub(crate) fn with_scan(self) -> Effort {
        Effort {
            scans: self.scans.wrapping_add(1),
            ..self
        }
    }

    /// With one way back more, by which so many choices are lost.
    pub(crate) fn with_back(self, lost: usize) -> Effort {
        Effort {
            backs: self.backs.wrapping_add(1),
            lost: self.lost.wrapping_add(lost as u64),
            ..self
        }
    }

    /// With so many looks at facts.
    pub(crate) fn with_looks(self, looks: u64) -> Effort {
        Effort { looks, ..self }
    }

    /// With what was done to find blocks.
    pub(crate) fn with_blocks(self, effort: BlockEffort) -> Effort {
        Effort {
            blocks: effort.blocks,
            sieves: effort.sieves,
            ..self
        }
    }

    /// With the lines that were put into a trace and are no longer there.
    pub(crate) fn with_trace(self, trace: &Trace) -> Effort {
        let gone = u64::from(trace.next_number()).saturating_sub(trace.line_count() as u64);
        Effort {
            stripped: self.stripped.wrapping_add(gone),
            ..self
        }
    }
}
