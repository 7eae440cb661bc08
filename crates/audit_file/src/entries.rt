// What an audit lists.

use axiom_sets::AxiomSet;
use finite_model::Interp;
use refutation_tree::Refutation;

/// A set of axioms from which the query follows, and a refutation that shows it.
#[derive(Drop)]
pub struct Justification {
    pub set: AxiomSet,
    pub refutation: Refutation,
}

/// A set of axioms without which the query does not follow, and an interpretation that shows it.
#[derive(Drop)]
pub struct Repair {
    pub set: AxiomSet,
    pub model: Interp,
}
