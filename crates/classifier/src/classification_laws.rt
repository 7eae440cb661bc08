//! What the tests of a classification lead to: which pairs of classes they settle, and what they leave to ask.
//!
//! Subsumption is reflexive and transitive, so a test that found one class included in another settles more pairs than
//! its own, and so does one that found that it is not. A classification keeps both sets of pairs beside the log of its
//! tests; this says when they mirror the log, and that they do so after each test.
// Laws of the tests of a classification.
ghost use Rattle.classifier.specs.ClassificationLaws.{ExclusionsAreTrue, SettledIsClassified, QuestionsAreInLimit};

/// What the log of a classification rules out does not follow from the axioms.
pub fn exclusions_are_true()
    ensures { ExclusionsAreTrue }
{}

/// If each pair of classes is known or ruled out, what is known is which class is included in which by the axioms (OWL
/// 2 Direct Semantics, section 2.5), and the log shows it.
pub fn settled_is_classified()
    ensures { SettledIsClassified }
{}

/// Each question between two classes is within the limits of its ontology.
pub fn questions_are_in_limit()
    ensures { QuestionsAreInLimit }
{}
