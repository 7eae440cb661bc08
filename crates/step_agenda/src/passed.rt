// Entries of a trail that an agenda passes over.

// With how many entries a search begins.
const START: u32 = 2;

/// The entries at which an agenda never looks for a step: none, or those of a trail that its search was given, behind
/// the start.
#[derive(Clone, Copy, Debug, PartialEq, Eq)]
pub(crate) struct Passed {
    from: u32,
    to: u32,
}

impl Passed {
    /// No entry.
    pub(crate) fn none() -> Passed {
        Passed { from: 0, to: 0 }
    }

    /// Those behind the start of a trail of `len` entries.
    pub(crate) fn behind_start(len: u32) -> Passed {
        Passed {
            from: START,
            to: len,
        }
    }

    /// Whether the entry at a place is one.
    pub(crate) fn has(&self, place: u32) -> bool {
        self.from <= place && place < self.to
    }
}
