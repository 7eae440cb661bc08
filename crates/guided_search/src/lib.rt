//! Closed tableaux, and searches that are guided to an end: a question has a closed tableau wherever no finite
//! counter-model is found, and what has one holds in every world, finite or not.
//!
//! - **A closed tableau** (`specs/ClosedTableau.antt`) is the standard one of the field (Horrocks, Sattler and Tobies,
//!   "Practical Reasoning for Expressive Description Logics", 1999): a tree of legal steps in which a choice has a
//!   branch for each of its alternatives, and each branch ends in a clash. A search walks through such a tree with one
//!   trail, on which it goes back. A written refutation has the lines of such a tree, and numbers for its nodes.
//! - **It is sound.** Each step from a trail of which a world is a model leaves a trail of which it is one, and of a
//!   trail with a clash no world is.
//! - **It is complete, where a search can begin.** From a trail without a closed tableau a legal step leads to another
//!   one, and a choice to such an alternative: those before it have closed tableaux, so that a search can go back to
//!   it. A clash stands in no such trail. So a run that is guided by this never ends in a clash; it ends, since legal
//!   runs are bounded, and what it ends in is saturated and describes a finite counter-model (`search_laws`).
//! - So a query that has no counter-model follows in every world: the finite model property of the language, from right
//!   to left.
#![tactic(auto)]

mod examples;
mod laws;

pub use all_worlds::World;
pub use examples::examples_hold;
pub use laws::{
    closed_tableaux_entail, closed_tableaux_exclude_counter_models,
    closed_tableaux_hold_everywhere, entailed_follows_everywhere,
};
