//! The limits of an ontology and of a query on it: what is read is within them, and what is computed from it may rely
//! on them.
//!
//! Beside the numbers of items that the grammar asks for (OWL 2 Structural Specification, sections 8 and 9) they are
//! the restriction to simple roles (section 11.2) and bounds of this product on cardinalities and sizes.
#![tactic(auto)]

mod laws;

pub use laws::{
    counts_stay_simple, each_axiom_is_in_limit, query_counts_stay_simple, simple_roles_stay_simple,
};
pub use role_box::RoleBox;
pub use shq_nnf::{Concepts, OwnedShape, Shape};
