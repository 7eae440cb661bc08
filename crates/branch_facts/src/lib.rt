//! What a branch of a refutation knows: nodes, and facts on them, which are undone when the branch is closed.
//!
//! A [`BranchFacts`] is seen as a list of nodes and a list of facts. Each question is answered by a few looks into a
//! hash table, and is read through the nodes that are joined.
//!
//! Joined nodes have the least of them as their representative, which links lead to, as in the disjoint-set forests of
//! B. A. Galler and M. J. Fischer (*An Improved Equivalence Algorithm*, Communications of the ACM 7, 1964). Links are
//! not shortened: each stays as it was made, so that undoing cuts the last ones off.
#![tactic(auto)]

mod branch_facts;
mod index;
mod seen;

pub use branch_facts::{BranchFacts, Mark};
pub use calculus_specs::{Fact, NoMemory};
