//! The tableau calculus for SHQ with general inclusions: trails, their clashes and blocked nodes, the legal steps, and
//! what holds of every trail that legal steps reach.
//!
//! A search whether one class is part of another begins with one node that is in the first and not in the second. It
//! adds what the axioms and the concepts of its nodes demand, makes successors where a concept asks for them, and
//! chooses where there are several ways on. A clash closes the way that was chosen, and the search goes back to a
//! choice. It ends where a trail is saturated, which describes a finite model, or where each way is closed, which is a
//! refutation.
//!
//! Such calculi are those of Horrocks, Sattler and Tobies ("Practical Reasoning for Expressive Description Logics",
//! 1999). What differs here:
//!
//! - A state is a flat list of facts and marks, the trail. Joining two successors adds the fact that they are one, and
//!   facts are read through such joins, so that nothing is renamed and going back is cutting the list.
//! - A node is blocked by the least clear node, at any place in the tree and not only above it, whose label contains
//!   its own (subset blocking; by earlier nodes anywhere in Baader, Buchheit and Hollunder's "Cardinality restrictions
//!   on concepts", 1996). That is enough since there are no inverse roles: what the successors of a node have to be
//!   depends on its label alone.
//! - General inclusions are used by rows: an inclusion waits at nodes that have all of some class names, or at nodes
//!   with an edge of some role (absorption; Horrocks and Tobies, "Reasoning with Axioms: Theory and Practice", 2000).
//! - The steps fix no strategy. Every order of steps is a legal search, and the laws hold for each.
//! - Each clash and each step is a rule line of a refutation (`line_laws`), so that a closed search can be checked.
//! - `clash_laws` say where a step can make a plain clash, so that a search looks near what has changed alone;
//!   `block_laws` which nodes keep their blocks when a fact is put.
#![tactic(auto)]

mod block_laws;
mod clash_laws;
pub mod line_laws;
pub mod state_laws;
pub mod step_laws;

pub use block_laws::{
    blocks_follow_what_stands_below, edges_to_first_nodes_leave_blocks, facts_leave_blocks_below,
    facts_leave_nodes_below, new_nodes_leave_blocks, one_fact_leaves_blocks_below,
};
use calculus_specs::Fact;
pub use clash_laws::{
    a_concept_clashes_at_its_node, edges_clash_where_they_begin, joined_nodes_are_apart_as_before,
    joined_nodes_clash_there_or_above, new_nodes_clash_below_their_parent,
    no_plain_clash_stands_before_a_mark, nodes_apart_clash_where_both_are_counted,
    reached_facts_speak_of_nodes,
};

/// What a mark chooses between.
#[derive(Clone, Copy, Debug, PartialEq, Eq)]
pub enum Branch {
    /// The parts of a union that a node has: the node and the union.
    Or(u32, u32),
    /// A concept and its complement at a node: the node and the concept.
    Choose(u32, u32),
    /// That two nodes are one, or different.
    Pair(u32, u32),
}

/// A choice that was made.
#[derive(Clone, Copy, Debug, PartialEq, Eq)]
pub struct Choice {
    /// The number of the branching line in the trace of the search.
    pub line: u32,
    /// What there was to choose.
    pub branch: Branch,
    /// The number, from 1, of the alternative that was taken.
    pub alternative: u32,
}

/// One item of a trail.
#[derive(Clone, Copy, Debug, PartialEq, Eq)]
pub enum Item {
    /// A fact, whose concepts are numbers of the search's table.
    Fact(Fact<u32>),
    /// A mark, which stands before the facts that rest on its choice.
    Mark(Choice),
}

/// Whether the search goes on below a representative.
#[derive(Clone, Copy, Debug, PartialEq, Eq)]
pub enum Block {
    /// It does.
    Clear,
    /// It need not, since this clear node has all that the node has.
    By(u32),
    /// It need not, since the parent is not clear.
    Under,
}
