//! Classification: the hierarchy of all classes of an ontology, as a relation that says of each two whether the one is
//! included in the other, with a log that shows each pair (Franz Baader, Bernhard Hollunder, Bernhard Nebel,
//! Hans-Jürgen Profitlich and Enrico Franconi, "An Empirical Analysis of Optimization Techniques for Terminological
//! Representation Systems", Applied Intelligence 4, 1994).
//!
//! The questions are those of `subsumption`, which asks until each pair is settled. A reader of the log needs to trust
//! neither their order nor the relation: for each two different classes, a chain of answers leads from the one to the
//! other, or some answer rules that out. `classification_laws` say what the tests of a classification lead to.
#![tactic(auto)]

mod classification_laws;
mod classifying;

pub use classification_laws::{exclusions_are_true, questions_are_in_limit, settled_is_classified};
pub use classifying::classify;
pub use shq_terms::NoMemory;
pub use subsumption::{
    BitMatrix, Oracle, Relation, RunLog, Stop, classes_between, classes_of, equal_classes,
    first_classes, first_is_order, keep, lowest, push_if, put, put_names, put_names_or_thing,
    relating_keeps_order, subsumption_is_one,
};
