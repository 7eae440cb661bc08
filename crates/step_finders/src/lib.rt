//! Looks through the state of a search for a legal step: each finds one, or there is none. The steps are those of a
//! completion tree for number restrictions and role hierarchies (I. Horrocks, U. Sattler and S. Tobies, *Practical
//! Reasoning for Expressive Description Logics*, LPAR 1999).
//!
//! What is found says why it may be done: the concepts and the edges on which the step's rule line rests. The looks at
//! one node, or at one concept of a node, are public too, so that a search can look where something has changed alone.
#![tactic(auto)]

mod add;
mod choose;
mod choosing;
mod clash;
mod counted;
mod give;
mod make;
mod nodes;
mod overrun;
mod parts;
mod reason;
mod rows;
mod state;
mod step;
mod unapart;
mod with_rules;

pub use add::{find_add, find_from};
pub use choose::{
    find_choice, find_most, find_most_at, find_most_by, find_pair_by, find_union, find_union_at,
    find_union_by, role_to,
};
pub use choosing::Choosing;
pub use clash::{
    Clash, find_clash, find_clash_of_apart, find_clash_of_edge, find_clash_of_join,
    find_clash_of_new_nodes, find_plain_clash, shown_clashes_are_plain,
};
pub use counted::filled_successors;
pub use give::{find_giving, is_so};
pub use make::{NewNodes, find_making, find_making_at, find_making_by};
pub use nodes::{count_of, members_of};
pub use parts::{find_at_node, find_by_concept};
pub use reason::{Addition, Reason};
pub use rows::{
    find_at_begin, find_at_end, find_by_edge, find_by_edges, find_by_name, find_by_names,
    find_by_rows, find_general,
};
pub use shq_nnf::{NoMemory, Shape};
pub use state::{Given, NamedRow, PlainRow, Rules, State, StateWithBlocks};
pub use step::{Step, find_step, no_step_is_saturated};
pub use with_rules::StateWithRules;
