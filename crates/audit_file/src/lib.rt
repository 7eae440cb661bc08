//! Audit files: all justifications and all repairs of a query, each with the evidence for it, and their text.
//!
//! Whoever is told that a statement follows from an ontology may ask why, and whether that is all. An audit answers
//! both: it lists sets of axioms with a refutation over each, which shows that the statement follows from that set
//! alone, and sets without which it does not follow, each with a finite interpretation that shows it. That no reason
//! is missing is told by the two lists themselves, since the latter are the smallest sets that meet each of the former
//! (Raymond Reiter, "A Theory of Diagnosis from First Principles", Artificial Intelligence 32, 1987). So a small
//! program can check the whole, without a search: a certifying answer in the sense of McConnell, Mehlhorn, Näher and
//! Schweitzer ("Certifying algorithms", Computer Science Review 5, 2011).
//!
//! Here is what an audit keeps, and its text, written and read.
#![tactic(auto)]

mod audit;
mod entries;
mod laws;
mod reader;
mod reading;
mod writing;

pub use audit::Audit;
/// Why lines are not the text of an audit, whose line `audit` has the number 1.
pub use certificate_lines::LineFault as AuditFault;
pub use entries::{Justification, Repair};
pub use laws::{audits_are_read_back, malformed_line_is_the_first, what_is_written_is_read};
pub use reading::read_text;
pub use shq_terms::NoMemory;
