//! The jobs `audit` and `evidence`: an audit of a query is checked, and made.
//!
//! `audit` checks the audit of a query that follows a document, without a search. The document and the query are read,
//! then the lines behind the document, and then the audit is judged. Where it is accepted, its lists are exactly all
//! justifications of the query and all its repairs.
//!
//! `evidence` makes such an audit: all justifications of a query and all its repairs, each with what shows it. The same
//! hitting-set tree is grown as for lists of justifications and repairs (Raymond Reiter, "A Theory of Diagnosis from
//! First Principles", Artificial Intelligence 32, 1987), but each test of the reasoner is one with evidence, which is
//! kept: a refutation over just the axioms that it names, or an interpretation in which these axioms hold and the query
//! does not. No other test is made at the end. A justification is a smallest set from which the query follows, so a
//! refutation over a part of it names all of it, and some yes of the log has one; and the interpretation that showed a
//! leaf of the tree shows the repair that it is.
//!
//! The search for evidence asks about all axioms, and not within the local module of the query: what it prints is
//! checked against all of them.
#![tactic(auto)]

mod answering;
mod auditing;
mod evidence;
mod law;
mod listing;
mod reading;
mod reply;
mod searching;
mod taking;
mod witness;

pub use answering::FindEvidence;
pub use auditing::verify_audit;
pub use decision_jobs::{Decide, verify};
pub use job_inputs::{Status, Text};
pub use law::{evidence_is_accepted, printed_evidence_is_accepted};
pub use pinpointing_jobs::{Pinpoint, Wanted, run_workload};
