//! What a run writes down of its work, and what it is for such a log to be honest.
//!
//! A job asks whether axioms entail queries. Each question is one test: a search of some legal steps that ends with a
//! yes, with a no, or with its budget spent. A job that looks for justifications takes nodes of a hitting-set tree
//! besides. The log has these tests and nodes in their order, so that it shows on which work an answer rests. Where a
//! test spent the budget, the log keeps the trail that its search had reached. Tests that follow each other share their
//! set of axioms, and the class expression that they ask about, where these are the same.
//!
//! What an honest log is, is said by definitions over the log alone, for each kind of job: no more was spent than the
//! budget; each test found what is so, by as many legal steps as it says; and no question was asked whose answer an
//! earlier entry gives.
#![tactic(auto)]

mod entry;
mod kept_query;
mod kept_set;
mod kept_trail;
mod laws;
mod log;

pub use entry::{Entry, TestEnd};
pub use kept_query::KeptQuery;
pub use kept_set::KeptSet;
pub use kept_trail::KeptTrail;
pub use laws::{answers_are_true, chains_are_true, follows_in_more, sets_are_named, whole_is_all};
pub use log::RunLog;
pub use shq_terms::NoMemory;
