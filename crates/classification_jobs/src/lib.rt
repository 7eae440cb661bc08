//! The job `classify`: which class of a document is included in which.
//!
//! The answer is the taxonomy of the document's classes, or that the budget of the search was spent. Whatever was asked
//! stands in the log, and each line of the taxonomy follows from it: so a reader of the log has no need to trust the
//! order in which the questions were chosen (Glimm, Horrocks, Motik, Shearer and Stoilos, "A novel approach to ontology
//! classification", Journal of Web Semantics 14, 2012, give such an order).
//!
//! A [`Taxonomy`] says the relation in short: groups of equal classes, each with the groups directly above it.
#![tactic(auto)]

mod answering;
mod deciding;
mod grouping;
mod groups;
mod laws;
mod taxonomy_laws;
mod taxonomy_text;

pub use answering::Classify;
pub use groups::{Group, Hierarchy, Taxonomy};
pub use job_inputs::{Status, Text, WrittenQuestion};
pub use laws::taxonomies_are_answered_alike;
pub use shq_terms::NoMemory;
pub use taxonomy_laws::taxonomies_are_unique;
