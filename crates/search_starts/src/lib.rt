//! Each question is decided, by a closed tableau or a finite counter-model, and what is entailed is what follows in
//! every world, finite or not: the completeness of the calculus and the finite model property of the language, of each
//! ontology and query within the limits, with any number of individuals.
//!
//! Entailment speaks of finite interpretations alone. A search for a counter-example to a query can begin: there is a
//! table of the concepts that it may need, those of the closure (`search_laws`), with a row for each part of an axiom.
//! So a question without a finite counter-model has a closed tableau, which holds in every world (`guided_search`).
//! That there is the one or the other is said as "not neither", since the logic of the proofs has no law of the
//! excluded middle.
//!
//! The table is filled concept by concept, each after its parts. It is a table of normal trees, so each concept of the
//! closure is shown to be one (`specs/Normal.antt`), from the limits of an ontology. That it is there is said as "it is
//! not so that none is", as all that is said of worlds.
#![tactic(auto)]

mod laws;

pub use all_worlds::World;
pub use laws::{
    each_question_is_decided, entailed_follows_in_every_world, entailed_is_what_closes,
    entailed_is_what_follows_in_every_world, searches_can_begin,
};
