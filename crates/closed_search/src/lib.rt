//! The refutation of a search that has closed.
//!
//! It names what its lines rest on, of the axioms of the set: those that stand in a line, and role axioms, by which
//! lines test roles. So it tells which axioms an entailment was found to follow from. Lines on which nothing rests are
//! left out (Heule, Hunt and Wetzler, "Trimming while Checking Clausal Proofs", FMCAD 2013), and role axioms that lead
//! between no two roles of which the lines speak.
//!
//! Its concepts are numbered anew (`finished`), so that it costs what its lines name, and not what the search's table
//! holds.
#![tactic(auto)]

mod copying;
mod finished;
mod gathering;
mod idle_roles;
mod naming;
mod numbering;
mod refuting;
mod shortening;
mod small;

pub use finished::numbered_refutation;
pub use refutation_check::{Verdict, check};
pub use refuting::refutation_of;
pub use search_trace::{Line, Refutation, Trace};
pub use shq_terms::NoMemory;
