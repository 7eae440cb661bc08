// What there is to choose, and why.
ghost use Rattle.std.specs.Prelude.{◌≡◌};
ghost use Rattle.step_finders.specs.Choosing.{branch_of};

use tableau_specs::Branch;

/// What there is to choose, and why.
#[derive(Clone, Copy, Debug, PartialEq, Eq)]
pub enum Choosing {
    /// A part of a union that a node has.
    Union {
        /// The node.
        node: u32,
        /// The number of the union.
        concept: u32,
    },
    /// A concept or its complement, at a successor of a node with an 'at most'.
    Filler {
        /// The successor.
        node: u32,
        /// The number of the concept, which is the filler of the 'at most'.
        filler: u32,
        /// The node with the 'at most', where the edge to the successor begins.
        from: u32,
        /// The edge's own role.
        role: u32,
        /// The number of the 'at most'.
        concept: u32,
    },
    /// That two successors of a node with an 'at most' are one, or different.
    Pair {
        /// A successor.
        first: u32,
        /// Another.
        second: u32,
        /// The node with the 'at most', where the edges to them begin.
        from: u32,
        /// The role of the edge to the first.
        first_role: u32,
        /// The role of the edge to the second.
        second_role: u32,
        /// The number of the 'at most'.
        concept: u32,
    },
}

impl Choosing {
    /// What a mark of the choice chooses between.
    pub fn branch(&self) -> Branch
        ensures { result ≡ branch_of self.now }
    {
        match self {
            Choosing::Union { node, concept } => Branch::Or(*node, *concept),
            Choosing::Filler { node, filler, .. } => Branch::Choose(*node, *filler),
            Choosing::Pair { first, second, .. } => Branch::Pair(*first, *second),
        }
    }
}
