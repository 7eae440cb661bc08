//! What both a search and the checker of its refutations speak of: concepts in tables, facts on nodes, and rule lines.
//!
//! - `shapes`: concepts in normal form and the shapes by which a table keeps them, the parts of an axiom and the rows
//!   of a part, roles below others.
//! - `facts`: facts on nodes, and what a list of facts says of representatives, labels and successors.
//! - `refutations`: rule lines, what each adds to what is known, and when a tree of them shuts every branch.
//!
//! There is no code here that runs, but the type of facts.
#![tactic(auto)]

mod facts;
mod refutations;
mod shapes;

pub use facts::{
    Fact, apart_is_symmetric, labels_list_what_nodes_have, numbers_read_as_trees,
    reading_keeps_what_facts_say, representatives_are_least,
};
pub use refutations::{
    a_stack_of_open_branches_finds_shut_trees, lines_are_valid_or_broken_at_one_place,
};
pub use shapes::{
    equal_trees_are_found_equal, normal_forms_are_not_deeper, numbers_are_unique,
    numbers_keep_their_trees, trees_follow_shapes,
};
pub use shq_base::NoMemory;
