//! The trace of a search: its rule lines with the choices that they rest on, and how it goes back from a clash.
//!
//! A tableau search that has closed a child of its latest open branching goes back to a branching that the clash
//! depends on: dependency-directed backtracking (Richard Stallman and Gerald Sussman, Artificial Intelligence 9, 1977).
//! A branching on which closing does not rest is taken out of the trace, together with the lines that rest on it; one
//! whose alternatives are all closed stays, and what it rests on is what its children rest on. So the lines are at each
//! time a refutation that lacks only what the open alternatives still need.
//!
//! A line has a number, by which a branching's choice is named: its mark.
//!
//! `closing_laws` are the laws behind that: which lines may be taken out of a trace, and that lines which close
//! everything are a refutation.
#![tactic(auto)]

mod closing_laws;
mod laws;
mod lines;
mod opens;
mod trace;

pub use calculus_specs::NoMemory;
pub use closing_laws::{
    alternatives_are_put, closed_traces_refute, closing_ends, closing_goes_back,
    grounded_facts_know, lines_hold_by_all, more_marks_hold, named_parts_serve, numbers_take_out,
    premises_stay, rules_follow_shapes, rules_say_children, start_is_traced, steps_are_traced,
    stripped_lines_close, trails_rest_on_choices,
};
pub use laws::{going_back_keeps_kinds, traces_begin, traces_go_back, traces_go_on};
pub use opens::Back;
pub use refutation_tree::{Deps, Line, Refutation};
pub use trace::Trace;
