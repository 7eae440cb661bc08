//! Which nodes of a completion tree are blocked, found again from the least node that changed.
//!
//! A node is blocked by the least clear node before it, anywhere in the tree, that has all that it has (blocking by
//! earlier nodes; F. Baader, M. Buchheit and B. Hollunder, *Cardinality Restrictions on Concepts*, Artificial
//! Intelligence 88, 1996). [`Blocks`] keeps the block of each node, and for each node that may block others a print of
//! 256 bits of what it has: a node whose label is part of another's has a print that is part of the other's (N. Eén
//! and A. Biere, *Effective Preprocessing in SAT through Variable and Clause Elimination*, SAT 2005, look for clauses
//! that contain others so). So few nodes are tested exactly. The first nodes, with which a tree begins, are never
//! blocked.
//!
//! The block of a node rests on the nodes up to it alone, and on no edge that leads to a first node. So
//! [`Blocks::follow`] looks at those nodes alone from which on something changed: [`still_current`] says from which on
//! where facts were put, and [`current_before`] where they will be taken back.
#![tactic(auto)]

mod block_list;
mod changed;
mod effort;
mod hints;
mod laws;
mod print;

pub use block_list::{Blocks, is_clear, state};
pub use changed::{current_before, least_changed, still_current};
pub use completion_tree::{By, Choice, Deps, Item, Mark, Tree};
pub use effort::BlockEffort;
pub use laws::blocks_stay;
pub use tableau_specs::Block;
