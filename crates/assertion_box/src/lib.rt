//! What the assertions of an ontology state of its individuals, as facts in order.
//!
//! The assertions among a set's axioms are what the literature calls an ABox (F. Baader, I. Horrocks, C. Lutz and U.
//! Sattler, *An Introduction to Description Logic*, Cambridge University Press, 2017). Each is a list of facts: that an
//! individual is in a class, that a role leads from one to another, that two are the same, or that they are different.
//! [`Facts`] lists those of some axioms, in the order of the axioms and then of each axiom's own facts, and finds the
//! ones that name an individual without a look at the others.
//!
//! A fact is known by the number of its axiom and by its place among that axiom's facts, which is how a refutation
//! names it.
#![tactic(auto)]

mod facts;
mod given;
mod place_lists;
mod stated_list;

ghost use Rattle.assertion_box.specs.Laws.{StatedFactsAreGiven};

pub use facts::Facts;
pub use given::Given;
pub use place_lists::Places;
pub use refutation_truth::NoMemory;

/// What axioms state is what they give to a refutation, with class expressions in negation normal form.
pub fn stated_facts_are_given()
    ensures { StatedFactsAreGiven }
{}
