//! Whatever is read, what the answers say of entailment they say of every world.
//!
//! The clauses of the jobs speak of the document and the question that were read, and of what the document's axioms, or
//! those of a set of their numbers, entail: verdicts, justifications and repairs, taxonomies, types and instances
//! alike. Entailment is said of finite interpretations. What is read is within the limits of ontologies (`text_laws`),
//! and within these a query is entailed exactly where it follows in every world, finite or not (`search_starts`).
#![tactic(auto)]

mod laws;

pub use all_worlds::World;
pub use laws::{
    instances_are_of_every_world, names_are_of_every_world, questions_are_of_every_world,
};
