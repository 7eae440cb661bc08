//! Answers whether a query follows from a set of an ontology's axioms, within a budget of steps, and logs each answer.
//!
//! An [`Oracle`] holds an ontology, a budget and a log. It answers a query by one test: a tableau search that makes at
//! most as many steps as are left of the budget. A test ends in one of three ways. If the query follows, the answer is
//! a refutation. If it does not follow, the answer is a finite interpretation in which the axioms hold and the query
//! fails; there always is one, since SHQ has the finite model property. If the search has spent what was left of the
//! budget before either was found, the answer is [`Answer::Undecided`]. A caller who needs no evidence calls
//! [`Oracle::test`], which builds no interpretation, and may go on from what an earlier search did.
//!
//! Each test appends one entry to the log: the set, the query, the number of steps, and how the test ended. The
//! contracts say that each entry is honest: the query follows from the set, or does not, as the entry says, and that
//! many legal steps of the calculus decide it. [`Oracle::take_node`] takes one unit of the budget for a node of a
//! hitting-set tree, and logs that too.
//!
//! A search that finds a member of a class expression mostly shows as well that the expression is not included in many
//! of the named classes. [`Oracle::test_apart`] returns these classes as an [`Apart`]. For each of them
//! [`Oracle::note_apart`] appends the entry of a test without searching again, and charges the budget the steps of the
//! search that showed it (the pseudo-models of Haarslev, Möller and Turhan, "Exploiting Pseudo Models for TBox and ABox
//! Reasoning in Expressive Description Logics", 2001).
//!
//! What a search derives from the axioms alone is computed once and kept until a query about another set is asked. If
//! axioms speak of individuals, the beginning that many tests on any element have in common is kept with it
//! (`beginning`).
#![tactic(auto)]

mod answer;
mod apart;
mod beginning;
mod found;
mod kept;
mod oracle;
mod tested;

pub use answer::{Answer, Outcome, Shown};
pub use apart::Apart;
pub use model_builder::Interp;
pub use oracle::Oracle;
pub use run_log::{Entry, KeptQuery, KeptSet, KeptTrail, RunLog, TestEnd};
pub use shq_terms::NoMemory;
pub use tableau::{Verdict, check};
