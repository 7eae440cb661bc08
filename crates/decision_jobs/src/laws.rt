// What is decided is so.
ghost use Rattle.decision_jobs.specs.Laws.{YesFollows, NoDoesNotFollow, VerdictsExclude};

/// A query that is answered by `entailed` or `unsatisfiable` follows from the axioms of the document, in all finite
/// interpretations.
pub fn a_yes_follows()
    ensures { YesFollows }
{}

/// One that is answered by `not entailed` or `satisfiable` does not.
pub fn a_no_does_not_follow()
    ensures { NoDoesNotFollow }
{}

/// Two verdicts for one question on one document are never both answered, whatever the budgets.
pub fn verdicts_exclude_each_other()
    ensures { VerdictsExclude }
{}
