// The words and the input decide the answer, and what is accepted is true.
ghost use Rattle.ontology_jobs.specs.Laws.{AnswersAreUnique, BadWordsAskForNothing, RefusalsAreAnsweredAlike};
ghost use Rattle.ontology_jobs.specs.Laws.{UndecidedSpendsAll, NoMemorySpendsNoTest, AcceptedQueriesDoNotFollow};
ghost use Rattle.ontology_jobs.specs.Laws.{AcceptedQueriesFollow, AcceptedAuditsListAll};
ghost use Rattle.ontology_jobs.specs.Complete.{JobsAreDone, WorkloadsAreDone};
ghost use Rattle.ontology_jobs.specs.Shown.{DoneAnswersAreShown};

/// Words that ask for no search have one answer to an input, unless something fails or memory is refused.
pub fn answers_are_unique()
    ensures { AnswersAreUnique }
{}

/// Bad words are answered to the words of no job alone.
pub fn bad_words_ask_for_nothing()
    ensures { BadWordsAskForNothing }
{}

/// Where a document or a question is refused, each run on the same words and input refuses it alike, unless something
/// fails or memory is refused: so it is refused exactly where a run says so, whatever the job.
pub fn refusals_are_answered_alike()
    ensures { RefusalsAreAnsweredAlike }
{}

/// A run whose document and question are read, and which has something of its budget left, is done, unless something
/// fails or memory is refused; a verification is judged. A workload reads nothing.
pub fn runs_are_complete()
    ensures jobs { JobsAreDone }
    ensures workloads { WorkloadsAreDone }
{}

/// An answer is undecided only where the whole budget was spent, on what the log says. So a run that spent less, and
/// whose document and question are read, is done, but for faults and out of memory.
pub fn undecided_spends_all()
    ensures { UndecidedSpendsAll }
{}

/// An answer is out of memory only where no test of the log ended with the budget spent, if the words ask to decide, to
/// classify, to realize, for instances, for evidence or for a workload, or for a verification.
pub fn no_memory_spends_no_test()
    ensures { NoMemorySpendsNoTest }
{}

/// An answer that is done is shown by the log. The one test of a question ended as is printed. For each two classes,
/// each individual and class, each justification and each repair, a test in the log found what is answered of it, or
/// chains of such tests lead to it, or a counter-model to one shows it. Each printed answer to a query of a script is
/// that of a test up to then. A verification tests nothing.
pub fn done_answers_are_shown()
    ensures { DoneAnswersAreShown }
{}

/// What is answered by `accepted not entailed` is a query on a document that does not follow from its axioms in all
/// finite interpretations.
pub fn accepted_queries_do_not_follow()
    ensures { AcceptedQueriesDoNotFollow }
{}

/// What is answered by `accepted entailed` is a query on a document that follows from its axioms in all finite
/// interpretations.
pub fn accepted_queries_follow()
    ensures { AcceptedQueriesFollow }
{}

/// What is answered by `accepted audit` is an audit whose lists are exactly all justifications of the query, the
/// smallest sets of axioms from which it follows, and all its repairs, the smallest ones without which it does not.
pub fn accepted_audits_list_all()
    ensures { AcceptedAuditsListAll }
{}
