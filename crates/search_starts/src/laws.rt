// Where a search can begin, and what follows from it.
ghost use Rattle.search_starts.specs.Laws.{SearchesCanBegin, EachQuestionIsDecided, EntailedIsWhatCloses};
ghost use Rattle.search_starts.specs.Laws.{EntailedFollowsIn, EntailedIsWhatFollowsIn};

use crate::World;

/// A search for a counter-example to a query in limit can begin, whatever axioms of the ontology it is over.
pub fn searches_can_begin()
    ensures { SearchesCanBegin }
{}

/// Each question in limit is decided: it is not so that it has neither a closed tableau nor a finite counter-model.
pub fn each_question_is_decided()
    ensures { EachQuestionIsDecided }
{}

/// Axioms of an ontology in limit entail just the queries of which it is not so that there is no closed tableau.
pub fn entailed_is_what_closes()
    ensures { EntailedIsWhatCloses }
{}

/// In every world, what axioms of an ontology in limit entail follows from them.
pub fn entailed_follows_in_every_world<W: World>()
    ensures { EntailedFollowsIn W.world }
{}

/// What they entail is just what follows from them in every world: in the one at hand, and in the finite ones.
pub fn entailed_is_what_follows_in_every_world<W: World>()
    ensures { EntailedIsWhatFollowsIn W.world }
{}
