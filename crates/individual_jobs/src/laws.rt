// What follows of answers.
ghost use Rattle.individual_jobs.specs.Laws.{RealizationsAreUnique, InstancesAreUnique, ReasonsAreUnique};

/// Two realizations of the same bytes that are done are the same text, whatever the budgets.
pub fn realizations_are_unique()
    ensures { RealizationsAreUnique }
{}

/// Two lists of instances of the same class expression on the same bytes that are done are the same text, whatever the
/// budgets.
pub fn instances_are_unique()
    ensures { InstancesAreUnique }
{}

/// Two answers to the same class expression and the same bytes that are done are the same text, whatever the budgets.
pub fn reasons_are_unique()
    ensures { ReasonsAreUnique }
{}
