// What follows of answers.
ghost use Rattle.classification_jobs.specs.Laws.{AnsweredAlike};

/// Two taxonomies that are answered to the same bytes are the same text, whatever the budgets.
pub fn taxonomies_are_answered_alike()
    ensures { AnsweredAlike }
{}
