//! Sets of the axioms of an ontology, by number from 1 to a limit, as one bit each.
//!
//! Justifications, repairs and modules are sets of axioms. Contracts see an [`AxiomSet`] as its limit and a finite set
//! of numbers; inclusion, meeting and the order of sets are proved against the members, not against the bits. The order
//! is that of the ascending lists of members, lexicographic with a proper prefix first, so that sets sorted by it stand
//! as their lists would in a dictionary. It is decided at the lowest bit in which two sets differ, and no list is made.
//!
//! Beside them stand the sets of marks that a fact of a search rests on: [`Deps`] in `deps`, as shared ascending lists.
#![tactic(auto)]

mod axiom_set;
mod comparing;
mod deps;

pub use axiom_set::AxiomSet;
pub use deps::Deps;
pub use lane_sieve::Numbers;
