// Verdicts and certificates.
ghost use Rattle.runs_everywhere.specs.Laws.{YesFollowsIn, NoFailsInAFiniteWorld, AcceptedQueriesFollowIn};
ghost use Rattle.runs_everywhere.specs.Laws.{AcceptedQueriesFailInAFiniteWorld, SessionsHoldIn};

use crate::World;

/// Where a run of `entails` prints `entailed` as its first line, or one of `sat` prints `unsatisfiable`, the query
/// follows from the axioms of the document in every world.
pub fn a_yes_follows_everywhere<W: World>()
    ensures { YesFollowsIn W.world }
{}

/// Where it prints `not entailed` or `satisfiable`, the query does not follow in every world, nor in every finite one.
pub fn a_no_fails_in_a_finite_world()
    ensures { NoFailsInAFiniteWorld }
{}

/// What `check` answers by `accepted entailed` is a query that follows from the axioms of the document in every world.
pub fn accepted_queries_follow_everywhere<W: World>()
    ensures { AcceptedQueriesFollowIn W.world }
{}

/// What it answers by `accepted not entailed` is one that does not follow in every finite world.
pub fn accepted_queries_fail_in_a_finite_world()
    ensures { AcceptedQueriesFailInAFiniteWorld }
{}

/// A session that is done answers a query with no where it does not follow from the axioms that are live then, and else
/// with yes and live axioms from which it follows, in every world.
pub fn sessions_hold_everywhere<W: World>()
    ensures { SessionsHoldIn W.world }
{}
