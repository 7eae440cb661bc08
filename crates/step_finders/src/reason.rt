// Why a node gets a concept.
use crate::PlainRow;

/// Why a node gets a concept.
#[derive(Clone, Copy, Debug, PartialEq, Eq)]
pub enum Reason {
    /// The node has this intersection, of which the concept is a part.
    And {
        /// The number of the intersection.
        concept: u32,
    },
    /// An edge leads to the node from one with a universal restriction, whose filler the concept is.
    All {
        /// Where the edge begins.
        from: u32,
        /// The edge's own role.
        role: u32,
        /// The number of the universal restriction.
        concept: u32,
    },
    /// An edge leads to the node from one with a universal restriction, and a transitive role carries it on.
    Carry {
        /// Where the edge begins.
        from: u32,
        /// The edge's own role.
        role: u32,
        /// The transitive role, which is above the edge's.
        over: u32,
        /// The number of the universal restriction.
        concept: u32,
    },
    /// The node has all that a row waits for.
    Named {
        /// One of the concepts that the row waits for.
        concept: u32,
        /// The place of the row in the list for that concept, from 0.
        place: usize,
    },
    /// A row is used at each node.
    General {
        /// The row.
        row: PlainRow,
    },
    /// A row is used where an edge begins, and one begins at the node.
    Begin {
        /// The edge's own role.
        role: u32,
        /// Where the edge ends.
        end: u32,
        /// The row.
        row: PlainRow,
    },
    /// A row is used where an edge ends, and one ends at the node.
    End {
        /// Where the edge begins.
        from: u32,
        /// The edge's own role.
        role: u32,
        /// The row.
        row: PlainRow,
    },
}

/// A concept that a node is to get by a rule without branches.
#[derive(Clone, Copy, Debug, PartialEq, Eq)]
pub struct Addition {
    /// The node, a representative where the finders of this crate found it.
    pub node: u32,
    /// The number of the concept.
    pub concept: u32,
    /// Why the node gets it.
    pub reason: Reason,
}
