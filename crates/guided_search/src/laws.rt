// What closed tableaux show, and what follows in every world.
ghost use Rattle.guided_search.specs.Laws.{ClosedTableauxHoldIn, ClosedTableauxEntail, EntailedFollowsIn};
ghost use Rattle.guided_search.specs.Laws.{ClosedTableauxExcludeCounterModels};

use crate::World;

/// In every world, a query whose question has a closed tableau follows from the axioms of these numbers.
pub fn closed_tableaux_hold_everywhere<W: World>()
    ensures { ClosedTableauxHoldIn W.world }
{}

/// The named axioms entail a query whose question has a closed tableau.
pub fn closed_tableaux_entail()
    ensures { ClosedTableauxEntail }
{}

/// A query whose question has a closed tableau has no finite counter-model.
pub fn closed_tableaux_exclude_counter_models()
    ensures { ClosedTableauxExcludeCounterModels }
{}

/// In every world, what axioms entail follows from them, where a search for a counter-example can begin.
pub fn entailed_follows_everywhere<W: World>()
    ensures { EntailedFollowsIn W.world }
{}
