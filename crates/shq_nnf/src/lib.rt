//! Class expressions in negation normal form, by number, and axioms as inclusions of such numbers.
//!
//! In negation normal form a complement stands on class names alone (F. Baader, I. Horrocks, C. Lutz and U. Sattler,
//! *An Introduction to Description Logic*, Cambridge University Press, 2017). [`Concepts`] keeps each form once, as a
//! [`Shape`] whose parts are earlier numbers, which is known as hash-consing: equal forms have equal numbers, and
//! whoever compares two concepts compares two numbers. The complement of a number is made from the table, without its
//! class expression.
//!
//! Forms here are also free of what says nothing: an intersection or a union has no part of its own kind, no
//! `owl:Thing` and no `owl:Nothing`, and a cardinality that an existential or a universal restriction says is that
//! restriction.
//!
//! A [`Part`] of an axiom is an inclusion of an intersection in a concept, or a range. An axiom on classes, or on the
//! domain or range of a role, means all of its parts together, and a role axiom has none. An assertion means all of its
//! facts together.
#![tactic(auto)]

mod complements;
mod concepts;
mod connectives;
mod counts;
mod forms;
mod laws;
mod parts;
mod shapes;

pub use concepts::Concepts;
pub use laws::{
    assertions_are_their_facts, axioms_are_their_parts, individuals_bear_on_assertions_alone,
    normal_forms_keep_truth, numbers_are_normal,
};
pub use parts::{Part, part_count};
pub use shapes::{OwnedShape, Shape};
pub use shq_meaning::{NoMemory, NumberList};
