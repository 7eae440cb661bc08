//! The completion tree of a search: its trail of facts and choices, and what the facts say of their nodes.
//!
//! The tree is seen as its first nodes and its trail, a list of entries: a fact with what it rests on (the line of the
//! trace that gave it, and the choices behind it), or a mark where a choice was made. Each answer is what the
//! definitions say of the trail's facts, after any calls; [`Tree::back`] leaves exactly the entries before a mark, and
//! with them every answer of that time, as solvers for propositional logic do it (Eén and Sörensson, *An Extensible
//! SAT-solver*, SAT 2003). A fact that rests on the choices of one premise shares their set.
//!
//! The tree keeps no roles and no concepts: what it answers is read with those of the search.
#![tactic(auto)]

mod mark;
mod marks;
mod trail;
mod tree;

pub use axiom_sets::Deps;
pub use mark::Mark;
pub use tableau_specs::{Choice, Item};
pub use tree::{By, Entry, Tree};
