//! How far a tableau search is: its tree with the blocks, its trace with the open branchings, and the next step.
//!
//! Each step puts what it gives into the tree, and its rule line into the trace. A clash rests on some of the choices
//! that are open; the search goes back to the latest of these at once, in tree, blocks, trace and agenda together, and
//! takes the next alternative there (dependency-directed backtracking: Richard Stallman and Gerald Sussman, Artificial
//! Intelligence 9, 1977).
//!
//! A search may also go on behind a trail that is known to be reached. It has no lines for that trail, so that it finds
//! a saturated trail as any other, and no refutation.
#![tactic(auto)]

mod advance;
mod alternatives;
mod backing;
mod beginning;
mod behind;
mod effort;
mod elsewhere;
mod looking;
mod next_alternative;
mod progress;
mod resting;
mod stepping;

pub use effort::Effort;
pub use progress::Progress;
pub use shq_terms::NoMemory;
pub use step_agenda::{Blocks, Item, Tree};
pub use stepping::{Rested, Stepped};
