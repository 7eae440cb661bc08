//! The finite interpretation of a saturated tree, as a structure.
//!
//! The elements of a counter-model are numbered in the order of their nodes. Its structure has for each of them the
//! classes and the edges of the node that it is like; the role axioms make an interpretation of it (`structure_model`).
//! This is the interpretation by which a saturated search refutes its query (`search_laws`).
//!
//! - A blocked node is an element of its own: it has the classes and the successors of its blocker (Horrocks, Sattler
//!   and Tobies, "Practical Reasoning for Expressive Description Logics", 1999). So two nodes that one node blocks stay
//!   two elements, as 'at least 2' asks.
//! - Each end of an edge is found by its number, in a list with a place for each node, so that all edges together cost
//!   what they are.
//! - An individual is the element that its node is one with (`places`). First nodes are never blocked, so that there is
//!   one.
//!
//! The role axioms make an interpretation of a structure in `structure_model`, with the chains of transitive roles
//! (`chains`).
#![tactic(auto)]

mod chains;
mod elements;
mod laws;
mod links;
mod model;
mod places;
mod structure;
mod structure_model;
mod successors;
mod walk;

pub use blocking::Tree;
pub use finite_model::Interp;
pub use laws::structures_are_built;
pub use model::{build, interpretation_of_elements};
pub use shq_terms::NoMemory;
pub use structure_model::{Edge, Member, interpretation};
