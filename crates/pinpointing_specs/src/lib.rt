//! What pinpointing looks for, said of any claim about sets of numbers.
//!
//! A claim that each superset of a set of which it holds keeps has smallest sets of which it holds, and smallest sets
//! whose removal leaves none: the justifications and the repairs (also diagnoses, or minimal hitting sets) of the
//! literature, where the claim is that a set of axioms entails a statement. The two are related by Raymond Reiter's
//! theorem ("A Theory of Diagnosis from First Principles", Artificial Intelligence 32, 1987): the smallest removals are
//! the smallest sets that meet every smallest yes-set.
//!
//! The laws here say what two lists are that come from a hitting-set tree, whatever order it was built in: where each
//! set that meets all listed yes-sets contains a leaf, the listed sets are all of the smallest ones, and the leaves in
//! which each member is hit alone are all of the smallest removals.
//!
//! `module_laws` speak of the part of an ontology in which it is enough to look: its local module has every
//! justification.
#![tactic(auto)]

mod module_laws;

ghost use Rattle.pinpointing_specs.specs.Laws.{ListedAreMinimalYes, HitAloneAreMinimalRemovals};

pub use axiom_sets::AxiomSet;
pub use module_laws::{
    Name, following_grows, modules_are_unique, modules_hold_justifications, modules_keep_entailment,
};

/// A claim about sets of numbers.
pub trait Claim {
    ghost use Rattle.axiom_sets.specs.NumberSets.{NumberSet};

    ghost holds: { NumberSet → Type 0 };
}

/// Where each set that meets all listed sets contains a leaf, the listed sets are exactly the smallest yes-sets.
pub fn listed_are_minimal_yes<C: Claim>()
    ensures { ListedAreMinimalYes C.holds }
{}

/// And the leaves in which each member is hit alone are exactly the smallest sets whose removal leaves no yes-set.
pub fn hit_alone_are_minimal_removals<C: Claim>()
    ensures { HitAloneAreMinimalRemovals C.holds }
{}
