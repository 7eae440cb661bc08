// What is listed is so.
ghost use Rattle.pinpointing_jobs.specs.Laws.{ListsAreUnique, WorkloadsAreQuestions};

/// Two finished answers to one question on one document are the same text, whatever the budgets.
pub fn lists_are_unique()
    ensures { ListsAreUnique }
{}

/// The text of a workload is a document with nothing behind it, and the query of workloads is one on it: neither is
/// refused.
pub fn workloads_are_questions()
    ensures { WorkloadsAreQuestions }
{}
