// What follows from honest logs.
ghost use Rattle.run_log.specs.Laws.{SetsAreNamed, WholeIsAll, FollowsInMore, AnswersAreTrue, ChainsAreTrue};

/// A query follows from the axioms of a set of numbers exactly where it follows from those axioms of the ontology whose
/// numbers are in the set.
pub fn sets_are_named()
    ensures { SetsAreNamed }
{}

/// The axioms of the set of all numbers are all axioms.
pub fn whole_is_all()
    ensures { WholeIsAll }
{}

/// What follows from a set of axioms follows from each set that has it as a part.
pub fn follows_in_more()
    ensures { FollowsInMore }
{}

/// If an entry of an honest log answers whether the query of its test follows from another set, the answer is true.
pub fn answers_are_true()
    ensures { AnswersAreTrue }
{}

/// If steps of an honest classification lead from one class to another, the former is included in the latter by all
/// axioms.
pub fn chains_are_true()
    ensures { ChainsAreTrue }
{}
