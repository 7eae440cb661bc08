//! Local modules: the axioms of an ontology that a query can depend on, found by their form alone.
//!
//! An axiom is local for a signature where its form shows that it is met wherever all names outside the signature are
//! empty. The local module of a query is the least set of axioms such that each axiom that is not local for the names
//! of the query and of the set is in the set (B. Cuenca Grau, I. Horrocks, Y. Kazakov and U. Sattler, "Modular Reuse of
//! Ontologies: Theory and Practice", Journal of Artificial Intelligence Research 31, 2008). An interpretation that
//! meets the module and refutes the query does so too when the names outside are emptied, and then it meets all axioms.
//! So the query has its justifications inside the module, however large the ontology is.
ghost use Rattle.pinpointing_specs.specs.ModuleLaws.{FollowingGrows, ModulesAreUnique, ModulesKeepEntailment};
ghost use Rattle.pinpointing_specs.specs.ModuleLaws.{ModulesHoldJustifications};

/// The name of a class or a role, by its number.
#[derive(Clone, Copy, Debug, PartialEq, Eq)]
pub enum Name {
    Class(u32),
    Role(u32),
}

/// What follows from some axioms of an ontology follows from more of them.
pub fn following_grows()
    ensures { FollowingGrows }
{}

/// A query has one local module at most.
pub fn modules_are_unique()
    ensures { ModulesAreUnique }
{}

/// A query follows from some axioms of an ontology just where it follows from those of them that are in its local
/// module, in all finite interpretations.
pub fn modules_keep_entailment()
    ensures { ModulesKeepEntailment }
{}

/// The local module of a query holds each of its justifications.
pub fn modules_hold_justifications()
    ensures { ModulesHoldJustifications }
{}
