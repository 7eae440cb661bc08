// Justifications and repairs.
ghost use Rattle.runs_everywhere.specs.Laws.{ListsAreWholeIn, PartialListsHoldIn, AcceptedAuditsListAllIn};
ghost use Rattle.runs_everywhere.specs.Laws.{EvidenceListsAllIn};

use crate::World;

/// A list of `explain` or `repair` that is done has exactly the smallest sets of axioms from which the query follows in
/// every world, or without which it does not.
pub fn lists_are_whole_everywhere<W: World>()
    ensures { ListsAreWholeIn W.world }
{}

/// One that is undecided has such sets alone.
pub fn partial_lists_hold_everywhere<W: World>()
    ensures { PartialListsHoldIn W.world }
{}

/// What `audit` answers by `accepted audit` lists exactly all these sets of both kinds.
pub fn accepted_audits_list_all_everywhere<W: World>()
    ensures { AcceptedAuditsListAllIn W.world }
{}

/// So does what `evidence` prints when it is done, in at most 4,294,967,293 lines.
pub fn evidence_lists_all_everywhere<W: World>()
    ensures { EvidenceListsAllIn W.world }
{}
