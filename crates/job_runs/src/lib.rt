//! Runs of jobs over sources and sinks in memory, for cases and tests: documents of a few axioms, what is answered,
//! and what `check` says of a certificate, and `audit` of an audit.
#![tactic(auto)]

mod checks;
mod runs;
mod texts;

pub use checks::{audited, checked};
pub use ontology_jobs::Status;
pub use runs::{Answer, Failing, run_on, run_through};
pub use shq_base::NoMemory;
pub use texts::{document, query_of};
