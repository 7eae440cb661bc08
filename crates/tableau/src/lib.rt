//! A search whether a query follows from a set of axioms, by a tableau (Horrocks, Sattler and Tobies, "Practical
//! Reasoning for Expressive Description Logics", 1999).
//!
//! Going back takes facts out of a trail. But what one run shows of other queries depends on all that it ever put
//! (`search_laws`). So it is noted beside the trail with which classes a run has had to do (`seen`), as sets of bits
//! over the classes of an ontology and over the concepts of the search. A new fact costs a look at its concept, a union
//! of the node in question a look at each part, and the complement of a class at another node a look through the label
//! of that node. A search of which nothing will be asked is given sets without room, which keep nothing.
//!
//! Where axioms speak of many individuals, each search would give all that they say, and follow it up. One search can
//! do it for many (`beginning`, `behind`): it asks whether anything is in top and not in bottom, and others go on from
//! where it turned to the node in question.
#![tactic(auto)]

mod advancing;
mod beginning;
mod behind;
mod closing;
mod search;
mod seen;

pub use beginning::Beginning;
pub use closed_search::{Refutation, Verdict, check};
pub use search::{End, Event, Search};
pub use search_laws::legal_runs_are_bounded;
pub use search_rules::SearchRules;
pub use search_state::Effort;
pub use shq_terms::NoMemory;
