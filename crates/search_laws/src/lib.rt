//! Laws of every search, whatever the order of its steps: what holds of trails that legal steps reach.
//!
//! - `trail_laws`: what bounds and counter-models both need of reached trails.
//! - `bound_laws`: how many nodes, marks and kept steps a trail has, and that every legal search ends, and after how
//!   many steps.
//! - `counter_model_laws`: a saturated trail describes a finite interpretation that meets the axioms and refutes the
//!   query.
//! - `reuse_laws`: what the run of one search shows of other queries (Haarslev, Möller and Turhan, 2001).
//! - `beginning_laws`: one run over what axioms assert begins the searches for many queries.
#![tactic(auto)]

mod beginning_laws;
mod bound_laws;
mod counter_model_laws;
mod reuse_laws;
mod trail_laws;

pub use beginning_laws::{
    one_beginning_runs_on, one_beginning_serves_many, parents_have_what_asked_for_nodes,
    runs_say_nothing_there,
};
pub use bound_laws::{
    concepts_are_in_the_closure, few_children, few_marks, few_nodes, few_of_each_kind, few_steps,
    few_steps_without_going_back, legal_runs_are_bounded, paths_are_short, the_closure_is_computed,
    the_closure_of_axioms_is_computed, trails_keep_steps,
};
pub use counter_model_laws::{
    assertions_are_met, chains_stay_within, computed_interpretations_are_built, elements_are_few,
    elements_differ, first_nodes_are_elements, labels_are_part, labels_are_true,
    labels_count_simple, node_in_question_refutes, parts_are_met, roles_are_met,
    saturated_does_not_entail, saturated_is_counter_model, successors_are_elements,
};
pub use ontology_limits::{Concepts, Shape};
pub use reuse_laws::{
    any_is_unnamed, one_run_answers_more, one_run_answers_of_individuals, steps_put_last,
};
pub use trail_laws::{few_successors_fit, the_start_stays, theories_are_their_axioms};
