//! The jobs `realize`, `instances` and `why`: the most specific classes of each individual of a document, the
//! individuals that are instances of a class expression, and for each of these all justifications of its being one.
//!
//! The first two are decided by one oracle with few tests, of all axioms, as `realizer` says. A justification is a
//! smallest set of axioms from which the individual's being an instance follows. Those of one individual are found as
//! those of any query, by a hitting-set tree (Raymond Reiter, "A Theory of Diagnosis from First Principles", Artificial
//! Intelligence 32, 1987); an individual that is no instance has none, which one test of the whole local module shows.
//! The individuals are gone through in the order of their list, one search after another by one oracle over one log, so
//! that the log has a block for each; and since the signature of a query has no individuals, all of them ask within one
//! local module, whose rules the oracle keeps from one test to the next.
#![tactic(auto)]

mod answering;
mod laws;
mod queries;
mod realizing;
mod reasons;
mod retrieval;
mod searching;
mod writing;

pub use answering::Why;
pub use job_inputs::{Status, Text};
pub use laws::{instances_are_unique, realizations_are_unique, reasons_are_unique};
pub use realizing::Realize;
pub use retrieval::Instances;
pub use shq_terms::NoMemory;
