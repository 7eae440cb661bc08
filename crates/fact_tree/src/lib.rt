//! The facts of a search over their nodes: what they say of each node, found by a few looks, and undone item by item.
//!
//! Solvers keep what they derived on a trail and undo it from its end. A [`FactTree`] is seen as its list of facts, and
//! each answer is what the definitions of `calculus_specs` say of that list, whatever facts came and went. For each
//! node it keeps the representative (the least of the nodes that are one with it) and, for a representative, these
//! nodes, its concepts, its edges and what it is apart from, as lists. All lies in the memory of one allocator, as an
//! arena.
//!
//! Besides, a node has a print, the bits of its concepts modulo 256, by which most look-ups for a concept that it lacks
//! end; a bit for each of its concepts, once they are many; and places where to look first for a fact that says
//! something of it. No answer rests on such a place alone: [`FactTree::ground`] looks at the fact that stands there,
//! and else among all facts.
//!
//! What is kept is a fold over the facts (`specs/Kept.antt`). Each fact makes the lists of one node longer, so its
//! entry has the lengths that lead back to what was kept before (`specs/Entries.antt`): undoing is the same for every
//! fact.
#![tactic(auto)]

mod bits;
mod laws;
mod node;
mod store;
mod tree;

pub use laws::facts_stay;
pub use tree::FactTree;
