// Finite interpretations among the worlds.
ghost use Rattle.all_worlds.specs.Laws.{FiniteInterpretationsAreWorlds, EntailmentIsOfFiniteWorlds};
ghost use Rattle.all_worlds.specs.Laws.{CounterModelsRefuteInAWorld};

/// A finite interpretation is a world over the numbers below its size, in which class expressions, axioms and queries
/// mean what they mean in it.
pub fn finite_interpretations_are_worlds()
    ensures { FiniteInterpretationsAreWorlds }
{}

/// Axioms entail a query exactly where it follows from them in the world of each finite interpretation. So what follows
/// in every world is entailed.
pub fn entailment_is_of_finite_worlds()
    ensures { EntailmentIsOfFiniteWorlds }
{}

/// Where a finite interpretation meets the axioms and some element of it is a counter-example, there is a world in
/// which the query does not follow.
pub fn counter_models_refute_in_a_world()
    ensures { CounterModelsRefuteInAWorld }
{}
