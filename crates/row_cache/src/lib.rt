//! Rows of axioms, as lines of refutations use them, made once each.
//!
//! The parts of an axiom are inclusions of an intersection in a concept. For some conjuncts that are names, a part has
//! a row: what is in these conjuncts is in the union of the other conjuncts' complements and the right side. This is
//! how absorption reads an inclusion, in any of the ways that its names admit (I. Horrocks and S. Tobies, *Reasoning
//! with Axioms: Theory and Practice*, Principles of Knowledge Representation and Reasoning, 2000), and not in one way
//! that is fixed beforehand.
//!
//! A [`RowCache`] keeps the table of concepts in whose numbers rows are made, and the last row that was made of each
//! part: a refutation mostly uses a part in one way.
#![tactic(auto)]

mod cache_entry;
mod cached_row;
mod row_cache;

pub use axiom_sets::AxiomSet;
pub use cached_row::{CachedRange, CachedRow, is_name, part_row};
pub use refutation_truth::{Concepts, NoMemory, Part, RoleBox, Shape, part_count};
pub use row_cache::RowCache;
