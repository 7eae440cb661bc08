//! Finite interpretations, what they meet and refute, and their text (OWL 2 Direct Semantics (Second Edition), section
//! 2).
//!
//! An interpretation of a finite domain is a counter-model of each query that it refutes while it meets the axioms.
//! Whether it does is computed by the definitions: truth at an element by recursion over the class expression, an axiom
//! element by element, an assertion at the elements that its individuals are. The members of classes and the pairs of
//! roles are kept in ordered sets, and only elements at which an axiom can fail are visited: those in its left side, or
//! with which a pair of its role begins. Individuals are kept in an ordered map, but for those that are the element 0.
//! So an interpretation of billions of elements costs what its members, pairs and individuals cost, unless an axiom
//! speaks of all elements.
#![tactic(auto)]

mod axioms;
mod interp;
mod laws;
mod reading;
mod truth;
mod writing;

/// Why lines are not the text of a model, whose line `model N` has the number 2.
pub use certificate_lines::LineFault as ModelFault;
pub use interp::Interp;
pub use laws::{malformed_line_is_the_first, models_are_read_back, old_models_are_read_alike};
pub use reading::read_text;
pub use shq_terms::NoMemory;
