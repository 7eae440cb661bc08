// What the definitions entail about one another.
ghost use Rattle.shq_meaning.specs.Laws.{EntailmentIsMonotone, CounterModelsRefute};
ghost use Rattle.shq_meaning.specs.Laws.{EmptyClassesHaveNoMember, AssertionsFollow};

/// What follows from some axioms follows from more.
pub fn entailment_is_monotone()
    ensures { EntailmentIsMonotone }
{}

/// Where a finite interpretation meets the axioms and some element is a counter-example, the query does not follow.
pub fn counter_models_refute()
    ensures { CounterModelsRefute }
{}

/// Each individual is an element of the domain (OWL 2 Direct Semantics, section 2.2), so that axioms by which one is in
/// a class without elements have no model, and entail every query.
pub fn empty_classes_have_no_member()
    ensures { EmptyClassesHaveNoMember }
{}

/// Where an individual is asserted to be in a class expression, the query whether it is follows.
pub fn assertions_follow()
    ensures { AssertionsFollow }
{}
