//! The jobs `explain`, `repair` and `workload`: all justifications of a query, all its repairs, and the numbers of both
//! for a generated document.
//!
//! Justifications and repairs are found at once, by a hitting-set tree (Raymond Reiter, "A Theory of Diagnosis from
//! First Principles", Artificial Intelligence 32, 1987) that asks the reasoner about sets of axioms inside the local
//! module of the query. Each test and each node is logged, and the log shows that a finished list is whole. Where the
//! budget does not suffice, the lists have what was found until then.
//!
//! What is printed of the sets that were found is made in `listing`, the text of sets and their axioms in `whole_text`.
#![tactic(auto)]

mod asking;
mod axiom_lines;
mod counting;
mod laws;
mod list_laws;
mod listing;
mod pinpointing;
mod searching;
mod set_lines;
mod wanted;
mod whole_text;
mod workload_laws;
mod workloads;

pub use asking::read_input;
pub use axiom_lines::unite_with;
pub use counting::count_answer;
pub use laws::{lists_are_unique, workloads_are_questions};
pub use list_laws::{counts_are_right, lists_are_right, whole_lists_are_done};
pub use listing::list_answer;
pub use module_extract::module;
pub use pinpointing::Pinpoint;
pub use query_asker::{Answer, Asker, Known, Oracle};
pub use repair_list::{Found, enumerate, repairs};
pub use searching::search_with;
pub use shq_terms::NoMemory;
pub use wanted::Wanted;
pub use whole_text::{sets_text, text_of_axioms, text_of_sets};
pub use workload_laws::{workload_queries_follow_by_pairs, workloads_have_eight_and_three};
pub use workloads::run_workload;
