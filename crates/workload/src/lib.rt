//! Ontologies of any size with a query whose answer is known, as work to be measured.
//!
//! The query [`QUERY`] has eight justifications, which take one axiom of each of three pairs, and three repairs, which
//! are the pairs, in the text of any size: the axioms that make the text long have nothing to do with it. So the time
//! for an answer tells what axioms cost that a query does not need.
//!
//! `document_laws` say what the text is: a document of known names and axioms for each size, and its query one on it.
#![tactic(auto)]

mod document_laws;
mod groups;
mod workload_text;

pub use document_laws::{workload_queries_are_read, workloads_are_documents};
pub use ofn_reader::Context;
pub use shq_terms::NoMemory;
pub use workload_text::{QUERY, generate};
