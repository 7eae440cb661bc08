//! The rule line of each step of a search, and the facts on which its premises rest.
//!
//! A search with marks notes for each line the choices that its premises rest on. These are the marks of the facts that
//! are given here as grounds: wherever they hold by facts that rest on some marks alone, the line's premises hold by
//! such facts.
#![tactic(auto)]

mod addition;
mod choice;
mod clash;
mod given;
mod grounded;
mod most;
mod nodes;
mod rows;

pub use addition::line_of_addition;
pub use choice::line_of_choice;
pub use clash::line_of_clash;
pub use given::line_of_given;
pub use grounded::{
    GroundedLine, alternatives_speak_of_nodes, facts_stay_grounded, new_nodes_stay_grounded,
};
pub use nodes::line_of_new_nodes;
pub use shq_terms::NoMemory;
