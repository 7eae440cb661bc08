//! The rows by which a search uses the axioms of a set, filed by what they wait for.
//!
//! Each part of each axiom has one [`Row`]. One that waits for class names is filed under one of these classes, that
//! which the fewest rows wait for, so that a node looks at few rows in vain. One that waits for an edge is filed under
//! the role, and one that waits for nothing stands apart. This is the lazy unfolding of absorbed axioms (I. Horrocks
//! and S. Tobies, *Reasoning with Axioms: Theory and Practice*, Principles of Knowledge Representation and Reasoning,
//! 2000), with several names on a left side as in binary absorption (A. Hudek and G. Weddell, *Binary Absorption in
//! Tableaux-Based Reasoning for Description Logics*, Description Logics, 2006).
//!
//! A [`RowTable`] is made for each set of axioms that is asked about, and costs what these axioms cost, whatever the
//! ontology has besides.
//!
//! `trigger_laws` say why rows that wait say all that the axioms say. [`close`] puts into a table of concepts each
//! number that a search over these rows can need, before it starts.
#![tactic(auto)]

mod closing;
mod closure_laws;
mod laws;
mod name_uses;
mod place;
mod row;
mod row_list;
mod row_table;
mod rows;
mod trigger_laws;

pub use closing::close;
pub use closure_laws::{closed_tables_lack_nothing, no_step_over_a_closed_table_is_an_end};
pub use laws::{each_row_is_found, found_rows_wait};
pub use row::{Row, Trigger};
pub use row_cache::AxiomSet;
pub use row_table::RowTable;
pub use shq_terms::NoMemory;
pub use trigger_laws::{axioms_are_their_rows, each_part_has_its_row, rows_are_their_parts};
