// What can be checked.
ghost use Rattle.refutation_check.specs.Checkable.{LimitsAreCheckable};

/// An ontology and a query within the limits can be checked: [`check`](crate::check) asks for less.
pub fn what_is_in_limit_is_checkable()
    ensures { LimitsAreCheckable }
{}
