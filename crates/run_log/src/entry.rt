// The entries of a log.

use crate::{KeptQuery, KeptSet, KeptTrail};
use pinpointing_specs::AxiomSet;

/// How a test ended.
#[derive(Drop)]
pub enum TestEnd {
    /// The query follows from these axioms of the set.
    Yes(KeptSet),
    /// The query does not follow from the set.
    No,
    /// The budget was spent, and the search had reached this trail.
    Spent(KeptTrail),
}

/// One piece of work.
#[derive(Drop)]
pub enum Entry {
    /// It was tested whether the query follows from the set of axioms, by so many steps of a search.
    Test(KeptSet, KeptQuery, u64, TestEnd),
    /// The node of a hitting-set tree that stands for this set was taken.
    Node(AxiomSet),
}
