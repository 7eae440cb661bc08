//! The canonical text of class expressions, axioms and ontologies, in the functional-style syntax of OWL 2 (Structural
//! Specification, sections 3.7, 5, 8 and 9).
//!
//! Each value has one text: full IRIs without prefixes, one blank between items, no annotations, and the filler of a
//! cardinality always written. So equal texts are equal values, and what is written of a document that was read is read
//! again as the same ontology. A text is put after what the caller's bytes hold, or nothing is.
#![tactic(auto)]

mod axioms;
mod concepts;
mod laws;
mod ontologies;
mod pieces;

pub use axioms::axiom_text;
pub use concepts::concept_text;
pub use laws::examples_hold;
pub use ontologies::ontology_text;
pub use shq_terms::NoMemory;
