//! Yes-no questions about sets of axiom numbers, over any object that answers them.
//!
//! Pinpointing needs nothing of a logic but a test whether a set of axioms entails a statement, and that each superset
//! of a set that does so does so too: it is a black box, as in "Finding All Justifications of OWL DL Entailments"
//! (Aditya Kalyanpur, Bijan Parsia, Matthew Horridge and Evren Sirin, ISWC 2007). [`Entail`] is that box, with what its
//! calls may change said by one member, its meaning: which sets are yes-sets, the budget that is left, how many asks
//! were answered, which nodes were taken, what was shown, and whether a test ended because the budget was spent. What
//! no call changes is another one, its origin.
//! [`SetOracle`] is the box over a list of sets in memory.
//!
//! Besides there is what the algorithms over any such object share: the first listed set that is part of a set or apart
//! from it, what a set lacks, and lists in the order of sets.
//!
//! Of all sets that were put, an [`Antichain`] keeps those that contain no other one, or those that no other one
//! contains.
#![tactic(auto)]

mod antichain;
mod complement;
mod entail;
mod places;
mod set_lists;
mod set_oracle;

pub use antichain::{Antichain, Kind};
pub use complement::rest_of;
pub use entail::{Entail, Reply};
pub use places::{place_apart, place_of_part};
pub use set_lists::put_in_order;
pub use set_oracle::SetOracle;
