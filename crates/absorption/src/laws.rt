// How the rows of a table are found.
ghost use Rattle.absorption.specs.Laws.{FoundRowsWait, EachRowIsFound};

/// The rows that are found at a class or a role, or without either, are rows of the table that wait for this.
pub fn found_rows_wait()
    ensures { FoundRowsWait }
{}

/// Each row of a table is found by what it waits for.
pub fn each_row_is_found()
    ensures { EachRowIsFound }
{}
