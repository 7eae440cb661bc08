//! Names, roles, individuals and class expressions of a document in the functional-style syntax of OWL 2 (Structural
//! Specification, sections 2, 5 and 8), for the description logic SHQ.
//!
//! What is read has two definitions. One lists the tests that a text has to pass, in the order of the text: the shapes
//! of its items, declared prefixes, constructs outside of the profile, and limits, each of which is judged by what the
//! tests before it counted. The other says which expression an item stands for, by the names that were listed in the
//! end. Each reader is proved to be refused for the first test that fails, or to give that expression, whatever names
//! come later.
#![tactic(auto)]

mod classes;
mod construct;
mod individuals;
mod keywords;
mod names;
mod numbers;
mod prefixes;
mod reading;
mod refusal;
mod roles;

pub use classes::{declare_class, read_class, read_class_name, read_classes};
pub use construct::{Construct, excluded_axiom};
pub use individuals::{read_individual, read_individuals};
pub use names::item_line;
pub use prefixes::Prefixes;
pub use reading::{MAX_NODES, Reading};
pub use refusal::{Refusal, Which};
pub use roles::{declare_role, read_role, read_roles};
