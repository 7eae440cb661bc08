//! Edit sessions: a document is held, axioms are added and removed, and queries are asked in between.
//!
//! Whoever mends an ontology removes an axiom, asks again, and adds another one. A [`Session`] keeps the document
//! between these lines, so that it is read once, and the log of all tests, so that no question is asked whose answer an
//! earlier test gives. A yes names axioms from which the query follows, as a justification does; it stands until one of
//! them is removed, and is asked again then. A no stands as long as each live axiom was live when it was found. So
//! whether a query follows, yes or no, is as a new run on the live axioms alone would find it. (On reasoning that keeps
//! what edits leave as it was: Cuenca Grau, Halaschek-Wiener, Kazakov and Suntisrivaraporn, "Incremental Classification
//! of Description Logics Ontologies", Journal of Automated Reasoning 44, 2010.)
//!
//! Axioms that were removed keep their numbers, and no number is given twice. Limits, and the restriction to simple
//! roles, speak of all axioms that were ever held, so a text may be refused that a new run would read.
//!
//! The job `session` reads a document and the lines of the script behind it ([`answer_script`]).
#![tactic(auto)]

mod answering;
mod asking;
mod editing;
mod inclusion;
mod laws;
mod noted_places;
mod prints;
mod requests;
mod said;
mod script;
mod session;
mod texts;

pub use answering::answer_script;
pub use job_inputs::{Status, Text};
pub use laws::{
    answers_are_from_scratch, empty_logs_serve, entries_stay_honest, new_sessions_may_go_on,
};
pub use said::Said;
pub use script::run_script;
pub use session::Session;
pub use shq_oracle::RunLog;
pub use shq_terms::NoMemory;
