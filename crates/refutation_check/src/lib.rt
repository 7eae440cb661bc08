//! The checker of refutations: it accepts exactly those that are valid, and tells where any other breaks the rules.
//!
//! A reasoner need not be trusted where what it answers comes with a certificate that a simpler program checks (R. M.
//! McConnell, K. Mehlhorn, S. Näher and P. Schweitzer, *Certifying Algorithms*, Computer Science Review 5, 2011). The
//! certificate here is a closed tableau, written line by line in preorder. [`check`] reads the lines once and searches
//! nothing. It keeps the branch that it is in, and of each branch that waits only a mark and the fact that this one
//! begins with, so that a branch costs what it adds.
#![tactic(auto)]

mod chains;
mod checking;
mod joined;
mod laws;
mod lines;
mod needed;
mod open_branches;
mod path;
mod resting;
mod support;
mod supporters;

pub use checking::{Verdict, check};
pub use laws::what_is_in_limit_is_checkable;
pub use needed::needed_lines;
pub use shq_terms::NoMemory;
