// What is written of a search is right.
ghost use Rattle.pinpointing_jobs.specs.ListLaws.{ListsAreRight, CountsAreRight, WholeListsAreDone, WholeCountsAreDone};

/// The list that is written of what a search found has exactly the wanted sets, where it was finished; else wanted sets
/// alone, with all that the nodes of the log make known.
pub fn lists_are_right()
    ensures { ListsAreRight }
{}

/// The numbers that are written of what a finished search found are those of all justifications and of all repairs.
pub fn counts_are_right()
    ensures { CountsAreRight }
{}

/// Where the log shows each justification, and in each set that meets all of them a node that is a leaf, the run is
/// done: a list that is whole when the last unit of the budget goes is not told as partial.
pub fn whole_lists_are_done()
    ensures lists { WholeListsAreDone }
    ensures counts { WholeCountsAreDone }
{}
