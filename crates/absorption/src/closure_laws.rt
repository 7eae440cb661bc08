// What a closed table is for.
ghost use Rattle.absorption.specs.ClosureLaws.{ClosedTablesLackNothing, NoStepIsAnEnd};

/// Over a closed table each concept that is to be carried has a number, and each choice all of its alternatives.
pub fn closed_tables_lack_nothing()
    ensures { ClosedTablesLackNothing }
{}

/// A reached trail over a closed table is saturated where it has no plain clash and no step is legal.
pub fn no_step_over_a_closed_table_is_an_end()
    ensures { NoStepIsAnEnd }
{}
