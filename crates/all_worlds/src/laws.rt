// What is so in every world.
ghost use Rattle.all_worlds.specs.Laws.{IsStable, RefutationsHoldIn, RefutationsHoldByAllIn, RefutationsOnAnyHoldIn};

use crate::World;

/// In every world, what is not outside of a class expression is in it.
pub fn class_expressions_are_stable<W: World>()
    ensures { IsStable W.world }
{}

/// In every world, where lines are a refutation of a query over the axioms of some numbers, the query follows from
/// these axioms.
pub fn refutations_hold_everywhere<W: World>()
    ensures { RefutationsHoldIn W.world }
{}

/// In every world, what the named axioms of an ontology refute follows from the whole ontology.
pub fn refutations_hold_by_all_everywhere<W: World>()
    ensures { RefutationsHoldByAllIn W.world }
{}

/// In every world, where lines are a refutation without any individual, it follows from the axioms of these numbers
/// that each member of the one class is in the other, whatever they assert of individuals.
pub fn refutations_on_any_hold_everywhere<W: World>()
    ensures { RefutationsOnAnyHoldIn W.world }
{}
