//! Which class of an ontology is included in which: an oracle that answers one question at a time is asked until each
//! pair of classes is settled.
//!
//! Only questions that no earlier answer settles are asked. If a class is included in another one, all inclusions that
//! follow from that are settled too. If it is not, each pair that would imply it is ruled out. The first question is
//! whether `owl:Thing` is included in `owl:Nothing`; the next ones are whether the inclusions hold that axioms state.
//! Then come the classes below which no class is known, and then the others: what is ruled out for a class is ruled out
//! for all classes above it.
//!
//! Of each class it is first asked whether it is included in `owl:Nothing`. The search for that answers for many other
//! classes too: it shows that the class is not included in those with which the search had nothing to do ([`Oracle`]'s
//! `test_apart`). When one of these is asked about, its answer is put into the log (`note_apart`), and no search is
//! made.
//!
//! The next question of a class is about a most general one of the classes that are open, so that whole parts of the
//! hierarchy are ruled out by one answer, as in "An Empirical Analysis of Optimization Techniques for Terminological
//! Representation Systems" (Franz Baader, Bernhard Hollunder, Bernhard Nebel, Hans-Jürgen Profitlich and Enrico
//! Franconi, Applied Intelligence 4, 1994), and "A Novel Approach to Ontology Classification" (Birte Glimm, Ian
//! Horrocks, Boris Motik, Rob Shearer and Giorgos Stoilos, Journal of Web Semantics 14, 2012).
//!
//! No contract speaks of the order of the questions. What is promised is the relation itself, that the log of the
//! oracle shows each of its pairs, and that no question was asked whose answer followed from the answers before.
//!
//! What is known is kept as one row of bits for each class ([`Relation`]), and so is what is ruled out ([`BitMatrix`]).
//!
//! A taxonomy and a realization name classes in short: those that are equal stand together, as one group that goes by
//! its first class, and of several groups only the lowest are named, from which the others follow (`grouping`, by the
//! first of these papers). Classes that are equal to `owl:Nothing` or to `owl:Thing` are in no group. Sets of classes
//! are sets of numbers, in which a class has its number plus one, so that one step over words of bits compares a class
//! with many.
#![tactic(auto)]

mod class_names;
mod class_sets;
mod finding;
mod grouping;
mod matrix;
mod progress;
mod relation;
mod relation_laws;
mod settling;
mod stop;
mod testing;
mod told;

pub use class_names::{put, put_names, put_names_or_thing};
pub use class_sets::{classes_of, has_none_before, keep, push_if, put_if};
pub use finding::{most_general, most_specific};
pub use grouping::{classes_between, equal_classes, first_classes, lowest};
pub use matrix::BitMatrix;
pub use relation::Relation;
pub use relation_laws::{first_is_order, relating_keeps_order, subsumption_is_one};
pub use settling::settle;
pub use shq_oracle::{Answer, Oracle, RunLog};
pub use shq_terms::NoMemory;
pub use stop::Stop;
