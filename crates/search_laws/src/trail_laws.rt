//! What reached and saturated trails say that both the bounds of a search and its counter-models need.
//!
//! - **The start stays.** No step takes the concepts of the start from the node in question: a step back cuts the trail
//!   at a mark, and the start has none.
//! - **At most n successors fit.** In a saturated trail an 'at most n' counts n successors at most: of more, two are
//!   apart no further, and could be joined, or all are apart, which is a clash (the rules for 'at most' of Horrocks,
//!   Sattler and Tobies, "Practical Reasoning for Expressive Description Logics", 1999).
//! - **A theory says what its axioms say.** An interpretation meets axioms exactly where it meets the parts and roles
//!   that a search reads of them, and the facts that they give are true of the individuals.
ghost use Rattle.search_laws.specs.TrailLaws.{StartStays, FewSuccessorsFit, TheoriesAreTheirAxioms};

/// The node in question keeps the concepts of the start in each reached trail.
pub fn the_start_stays()
    ensures { StartStays }
{}

/// In a saturated trail at most n successors with the filler are counted for an 'at most n'.
pub fn few_successors_fit()
    ensures { FewSuccessorsFit }
{}

/// Where all names that axioms use are listed, an interpretation meets the named axioms exactly where it meets their
/// theory and the facts that they give.
pub fn theories_are_their_axioms()
    ensures { TheoriesAreTheirAxioms }
{}
