//! All smallest yes-sets, and the leaves of a tree of sets that hit them.
//!
//! The tree is a hitting-set tree (Raymond Reiter, "A Theory of Diagnosis from First Principles", Artificial
//! Intelligence 32, 1987) in which no set is looked at twice. The nodes that are still to be looked at, and what they
//! stand for, are kept in `frames`.
#![tactic(auto)]

mod frames;
mod law;
mod steps;
mod tree;

pub use frames::{Frame, Look, Node};
pub use law::explored_lists_are_all;
pub use set_questions::{Entail, put_in_order};
pub use steps::{frame_of, next_child};
pub use tree::{Found, enumerate};
