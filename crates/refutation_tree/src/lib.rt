//! Refutations: closed tableaux as lists of lines, and their text.
//!
//! A tableau for SHQ (Horrocks, Sattler and Tobies, Practical Reasoning for Very Expressive Description Logics, Logic
//! Journal of the IGPL 8(3), 2000) refutes a query when each of its branches ends in a clash. A refutation keeps of it
//! what a checker needs and nothing of how it was found: the axioms that it uses, the concepts that it names, each once
//! and by number, and the rules that were applied, in preorder of the tree of branches. There is no blocking in it,
//! since a closed branch is finite. A refutation without rule lines can be written and read; that it refutes nothing is
//! for its checker to say.
#![tactic(auto)]

mod concept_lines;
mod fields;
mod keywords;
mod laws;
mod line;
mod reading;
mod refutation;
mod rule_lines;
mod writing;

pub use axiom_sets::Deps;
/// Why lines are not the text of a refutation, whose line `refutation` has the number 2.
pub use certificate_lines::{LineFault as CertFault, NoMemory};
pub use laws::{
    concepts_are_normal, malformed_line_is_the_first, refutations_are_read_back,
    what_is_read_can_be_written,
};
pub use line::Line;
pub use reading::read_text;
pub use refutation::Refutation;
