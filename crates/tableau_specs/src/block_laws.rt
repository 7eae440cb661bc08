//! Which blocks stay when a search goes on: what lets the blocks of a tree be found again from the least node that
//! changed.
//!
//! The block of a node depends on the nodes up to it alone: on their parents, representatives and labels (anywhere
//! blocking by earlier nodes; F. Baader, M. Buchheit and B. Hollunder, *Cardinality Restrictions on Concepts*,
//! Artificial Intelligence 88, 1996). So a new fact leaves the blocks of all nodes below those of which it says
//! something new.
ghost use Rattle.tableau_specs.specs.BlockLaws.{BlocksFollowWhatStandsBelow, OneFactLeavesBlocksBelow};
ghost use Rattle.tableau_specs.specs.BlockLaws.{FactsLeaveBlocksBelow, FactsLeaveNodesBelow, NewNodesLeaveBlocks};
ghost use Rattle.tableau_specs.specs.BlockLaws.{EdgesToFirstLeaveBlocks};

/// Where two lists of facts agree on the nodes below a bound, these nodes have the same blocks by both.
pub fn blocks_follow_what_stands_below()
    ensures { BlocksFollowWhatStandsBelow }
{}

/// A fact leaves the blocks below the least node whose label, parent or representative it may change.
pub fn one_fact_leaves_blocks_below()
    ensures { OneFactLeavesBlocksBelow }
{}

/// So do facts that are put one after another.
pub fn facts_leave_blocks_below()
    ensures { FactsLeaveBlocksBelow }
{}

/// They also leave what the nodes below have, and which of them are one.
pub fn facts_leave_nodes_below()
    ensures { FactsLeaveNodesBelow }
{}

/// New nodes, with their edges, their concept and that they are apart, leave the blocks of the nodes before them.
pub fn new_nodes_leave_blocks()
    ensures { NewNodesLeaveBlocks }
{}

/// An edge to a first node leaves all blocks.
pub fn edges_to_first_nodes_leave_blocks()
    ensures { EdgesToFirstLeaveBlocks }
{}
