// How the oracle answers.

use crate::Apart;
use axiom_sets::AxiomSet;
use model_builder::Interp;
use tableau::Refutation;

/// Whether a query follows from a set of axioms, and why.
#[derive(Drop)]
pub enum Answer {
    /// It follows: this refutes that an element of which the query speaks is in its subclass and not in its superclass.
    Entailed(Refutation),
    /// It does not follow: the axioms hold in this interpretation, and it has such an element.
    NotEntailed(Interp),
    /// The budget was spent.
    Undecided,
}

/// Whether a query follows from a set of axioms, without evidence.
#[derive(Drop)]
pub enum Outcome {
    /// It follows, from these axioms of the set.
    Yes(AxiomSet),
    /// It does not follow.
    No,
    /// The budget was spent.
    Undecided,
}

/// An outcome, and what the search shows of further classes if the outcome is a no.
#[derive(Drop)]
pub struct Shown<'a> {
    /// Whether the query follows.
    pub outcome: Outcome,
    /// Further classes in which the query's subclass is not included either.
    pub apart: Option<Apart<'a>>,
}
