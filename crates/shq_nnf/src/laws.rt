// What the definitions entail about one another.
ghost use Rattle.shq_nnf.specs.Laws.{NormalFormsKeepTruth, NumbersAreNormal};
ghost use Rattle.shq_nnf.specs.Laws.{AxiomsAreTheirParts, AssertionsAreTheirFacts};
ghost use Rattle.shq_nnf.specs.Laws.{IndividualsBearOnAssertionsAlone};

/// A normal form has the truth of its class expression, and the normal form of the complement the opposite truth.
pub fn normal_forms_keep_truth()
    ensures { NormalFormsKeepTruth }
{}

/// A finite interpretation meets an axiom exactly where it meets all of its parts, unless the axiom is one of roles
/// alone or an assertion.
pub fn axioms_are_their_parts()
    ensures { AxiomsAreTheirParts }
{}

/// A finite interpretation meets an assertion exactly where all of its facts are true of the individuals (OWL 2 Direct
/// Semantics, section 2.3.6).
pub fn assertions_are_their_facts()
    ensures { AssertionsAreTheirFacts }
{}

/// Which elements the individuals are decides of assertions alone: any other axiom is met all the same, and a query
/// that speaks of each element is refuted at the same ones. So a counter-model from before there were individuals still
/// is one.
pub fn individuals_bear_on_assertions_alone()
    ensures { IndividualsBearOnAssertionsAlone }
{}

/// The class expression that a number of a table stands for is its own normal form.
pub fn numbers_are_normal()
    ensures { NumbersAreNormal }
{}
