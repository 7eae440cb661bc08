//! The nodes of a hitting-set tree that are still to be looked at, and what they stand for.
//!
//! A node of the tree (Raymond Reiter, "A Theory of Diagnosis from First Principles", Artificial Intelligence 32, 1987)
//! is a set of numbers that are hit. It is kept beside the numbers that are barred below it, and stands for all sets
//! that have what it hits and nothing that it bars. Each child of a node hits one number of its label more, and bars
//! the numbers whose children are still to come: so the children share the node's sets that meet the label, and no set
//! is looked at twice.
// The nodes whose children are still to be looked at.

use axiom_sets::AxiomSet;

/// A set that is still to be looked at, and with it each greater set without a barred number.
#[derive(Drop)]
pub struct Node {
    pub hit: AxiomSet,
    pub barred: AxiomSet,
}

/// A node with a label, some of whose children are still to be looked at: one for each number of the label that is
/// ahead. The numbers ahead are barred too, for the next child.
#[derive(Drop)]
pub struct Frame {
    pub hit: AxiomSet,
    pub barred: AxiomSet,
    pub ahead: AxiomSet,
    pub label: AxiomSet,
}

/// What the look for a child finds.
#[derive(Drop)]
pub enum Look {
    /// No child is left.
    Done,
    /// The next child.
    Child(Node),
}
