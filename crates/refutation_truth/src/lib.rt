//! What a refutation proves: where its lines are valid, the axioms that it names entail its query.
//!
//! This is the soundness of the tableau's rules (I. Horrocks, U. Sattler and S. Tobies, *Practical Reasoning for Very
//! Expressive Description Logics*, Logic Journal of the IGPL 8, 2000), over the theory of those axioms: their parts and
//! their roles, and the facts of those among them that are assertions. A finite interpretation that meets the axioms
//! and has an element in the one class and not in the other would be a model of some branch after each line, in which
//! the node of an individual stands for it, and a closed branch has none.
#![tactic(auto)]

ghost use Rattle.refutation_truth.specs.Laws.{PartsAreNumbered, TheoriesHaveRoles, NamedAxiomsGiveFacts};
ghost use Rattle.refutation_truth.specs.Laws.{RefutationsEntail, RefutationsEntailByAll, RefutationsOnAnyEntail};
ghost use Rattle.refutation_truth.specs.Laws.{UnlistedAreNotRefuted, OldRefutationsStand};

pub use role_box::{Axiom, Concept, NoMemory, NumberList, Numbered, Ontology, RoleBox};
pub use shq_nnf::{Concepts, OwnedShape, Part, Shape, part_count};

/// A number of an axiom and one of a part find that part of the axiom, if it is named, and nothing else.
pub fn parts_are_numbered()
    ensures { PartsAreNumbered }
{}

/// One role is below another exactly where a chain of the named role axioms leads from the one to the other, and a role
/// is transitive exactly where one of them says so.
pub fn theories_have_roles()
    ensures { TheoriesHaveRoles }
{}

/// A named axiom gives each of its facts, where all individuals of axioms are listed.
pub fn named_axioms_give_facts()
    ensures { NamedAxiomsGiveFacts }
{}

/// Where lines are a refutation of a query over the axioms of some numbers, these axioms entail the query: in each
/// finite interpretation that meets them, each element of the one class that the query speaks of is in the other (OWL 2
/// Direct Semantics, section 2.5).
pub fn refutations_entail()
    ensures { RefutationsEntail }
{}

/// What the named axioms of an ontology refute is entailed by the whole ontology.
pub fn refutations_entail_by_all()
    ensures { RefutationsEntailByAll }
{}

/// Where lines are a refutation without any individual, the axioms of these numbers entail that each element of the one
/// class is in the other, whatever they assert of individuals.
pub fn refutations_on_any_entail()
    ensures { RefutationsOnAnyEntail }
{}

/// A query on an individual that is not listed has no refutation.
pub fn unlisted_are_not_refuted()
    ensures { UnlistedAreNotRefuted }
{}

/// Over an ontology without individuals, lines are judged as they were before there were any.
pub fn old_refutations_stand()
    ensures { OldRefutationsStand }
{}
