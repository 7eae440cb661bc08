//! What class expressions, axioms and queries mean: OWL 2 Direct Semantics (Second Edition), section 2, as computable
//! functions over finite interpretations.
//!
//! The domain is the numbers below a size, a class is a test of one number and a role a test of two, so that truth at
//! an element is a `Bool` that a program can compute. An axiom is met or not, and a query follows from axioms where no
//! finite interpretation of at least one element that meets them has a counter-example to it. Individuals are elements
//! of the domain, and several may be the same. Data ranges, keys and annotations have no part here; roles are object
//! properties without inverses.
#![tactic(auto)]

mod examples;
mod laws;

pub use examples::examples_hold;
pub use laws::{
    assertions_follow, counter_models_refute, empty_classes_have_no_member, entailment_is_monotone,
};
pub use shq_terms::{Axiom, Concept, NoMemory, Node, NumberList};
