//! Worlds over any domain, finite or not, as the OWL 2 Direct Semantics (section 2) has them: what a refutation proves
//! holds in each of them.
//!
//! Elsewhere an axiom is met or not by a finite interpretation, and what follows is so in all of these (`Entails`).
//! Here the domain is any type. A finite interpretation is a world in which all means the same, so that what follows in
//! every world follows in all finite ones, and a finite counter-model refutes a query in every sense; and where lines
//! are a valid refutation, its query follows in every world.
//!
//! A clause cannot say "for every domain". A law that is generic over `World` says it: it is proved once, of any domain
//! and of any world over it.
#![tactic(auto)]

mod examples;
mod finite;
mod laws;
mod worlds;

pub use examples::examples_hold;
pub use finite::{
    counter_models_refute_in_a_world, entailment_is_of_finite_worlds,
    finite_interpretations_are_worlds,
};
pub use laws::{
    class_expressions_are_stable, refutations_hold_by_all_everywhere, refutations_hold_everywhere,
    refutations_on_any_hold_everywhere,
};
pub use worlds::{EndlessChain, World};
