//! The check of an audit, which searches for no refutation and no model, and why nothing is missing from an audit that
//! passes it.
//!
//! Of an audit it is looked at whether no justification contains another one and each refutation is valid over its set;
//! whether each model meets the axioms outside of its repair and refutes the query; and whether the repairs are exactly
//! the smallest sets that meet each justification. Where all of that is so, the justifications are exactly the smallest
//! sets of axioms from which the query follows, and the repairs exactly the smallest ones without which it does not:
//! none can be missing, by the duality of a family of sets and its transversals (Claude Berge, "Hypergraphs", 1989;
//! Raymond Reiter, "A Theory of Diagnosis from First Principles", Artificial Intelligence 32, 1987). Those smallest
//! sets are searched for; [`transversals`] gives them all, and [`are_transversals`] ends its search where it has found
//! more sets than are listed.
#![tactic(auto)]

mod choices;
mod duality;
mod laws;
mod listed;
mod lists;
mod search;
mod shown;
mod verdict;

pub use audit_file::{Audit, read_text};
pub use duality::{
    audited_are_minimal_removals, audited_are_minimal_yes, none_contains_another,
    transversals_hit_alone,
};
pub use laws::{sound_audits_list_all, verdicts_are_unique};
pub use listed::{are_transversals, contains_another};
pub use search::transversals;
pub use shq_terms::NoMemory;
pub use verdict::{AuditVerdict, verify};
