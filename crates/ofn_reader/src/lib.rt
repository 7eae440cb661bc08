//! Documents in the functional-style syntax of OWL 2, and queries on them.
//!
//! The groups of a text are read as axioms (OWL 2 Structural Specification, sections 3.7, 5 and 9), in one pass and
//! with no tree of axioms in between. What a text says is defined apart from that pass: a document has a list of tests
//! in the order of its text, of shapes, prefixes, excluded constructs and limits, and after these the tests for simple
//! roles, on which the decidability of SHQ rests (Horrocks, Sattler and Tobies, "Practical Reasoning for Expressive
//! Description Logics", 1999). A document is refused for the first test that fails.
//!
//! A text says one thing at most, has one reason at most to be refused, and not both. A query on a document goes on
//! from the document's counts of names and nodes, and leaves the ontology as it was where it is refused.
//!
//! So is an axiom read that is put into an ontology later. It has the tests that it would have in a document after all
//! axioms of the ontology: counts go on from what these hold, and in the end all axioms count simple roles alone.
#![tactic(auto)]

mod additions;
mod axioms;
mod declarations;
mod documents;
mod groups;
mod held;
mod keywords;
mod laws;
mod operands;
mod parts;
mod prefix_groups;
mod queries;
mod simple_roles;
mod texts;

pub use additions::read_axiom;
pub use documents::{Context, read_ontology};
pub use keywords::AxiomKind;
pub use laws::{
    addition_refusals_are_unique, additions_are_not_refused, additions_are_unique,
    class_refusals_are_unique, classes_are_not_refused, classes_are_unique,
    document_refusals_are_unique, documents_are_not_refused, documents_are_unique,
    queries_are_not_refused, queries_are_unique, query_refusals_are_unique,
};
pub use ofn_expressions::{Construct, Prefixes, Refusal, Which};
pub use queries::{read_class, read_query};
