//! Realization: the most specific classes of each individual of an ontology, and the individuals of a class expression.
//!
//! Both are instance checking, the question whether an individual is in a class expression in each model of the axioms
//! (OWL 2 Direct Semantics, section 2.5; Franz Baader, Ian Horrocks, Carsten Lutz and Uli Sattler, "An Introduction to
//! Description Logic", 2017). It is decided by an oracle, one question at a time, and few are asked:
//!
//! - All that is still possible is kept: of each individual the classes, or of the class expression the individuals.
//!   Where an individual is not an instance, the oracle answers with a counter-model, and this shows of each other
//!   individual too where it need not be an instance. So one answer mostly leaves little more than what is true.
//! - How the classes lie in one another is settled first (`subsumption`). That an individual is in a class says that it
//!   is in each class above. Of the classes that are possible a most specific one is asked about next.
//!
//! The order of the questions is no part of any contract. What is promised are the instances and the direct types
//! themselves, and that the log of the oracle is honest: no question was asked twice, and none to which a chain of
//! answers before leads.
#![tactic(auto)]

mod asking;
mod direct_types;
mod instance_lines;
mod realization_laws;
mod realizing;
mod retrieval;
mod types;
mod types_text;
mod typing;

pub use instance_lines::instances_text;
pub use realization_laws::{instance_questions_are_in_limit, instances_are_one, types_are_one};
pub use realizing::realize;
pub use retrieval::instances;
pub use shq_terms::{NoMemory, NumberList};
pub use subsumption::{Oracle, RunLog, Stop as Halt};
pub use types::{TypeLine, TypeLines, Types};
