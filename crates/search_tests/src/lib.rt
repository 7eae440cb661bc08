//! Tests of the calculus and of the parts of the search: roles, normal forms and the facts of assertions; what the
//! checker of refutations stands on, that is facts of a branch, cached rows and rule lines; completion trees and their
//! blocks, models, tables of rows and their closing, and the traces of a search with the refutations that are made of
//! them.
#![tactic(auto)]

#[cfg(test)]
mod block_tests;
#[cfg(test)]
mod branch_tests;
#[cfg(test)]
mod closed_tests;
#[cfg(test)]
mod closing_tests;
#[cfg(test)]
mod finder_tests;
#[cfg(test)]
mod following;
#[cfg(test)]
mod model_tests;
#[cfg(test)]
mod normal_form_tests;
#[cfg(test)]
mod plain;
#[cfg(test)]
mod random_tests;
#[cfg(test)]
mod role_tests;
#[cfg(test)]
mod room_tests;
#[cfg(test)]
mod small_axioms;
#[cfg(test)]
mod small_tables;
#[cfg(test)]
mod step_tests;
#[cfg(test)]
mod structure_tests;
#[cfg(test)]
mod trace_tests;
#[cfg(test)]
mod tree_tests;
