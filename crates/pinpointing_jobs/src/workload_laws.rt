// From which axioms of a workload its query follows.
ghost use Rattle.pinpointing_jobs.specs.WorkloadSets.{OfWorkloads, FollowsByPairs, HasEightAndThree};
ghost use Rattle.pinpointing_jobs.specs.WorkloadSets.{WorkloadsCountEightAndThree};

/// From a set of a workload's axioms, of whatever size, the query follows exactly where the set has an axiom of each of
/// the pairs 1 and 2, 3 and 4, 5 and 6.
pub fn workload_queries_follow_by_pairs()
    ensures { OfWorkloads FollowsByPairs }
{}

/// The query of a workload, of whatever size, has exactly eight justifications, those with one axiom of each pair, and
/// exactly three repairs, the pairs; and a run on it that is done prints these numbers.
pub fn workloads_have_eight_and_three()
    ensures sets { OfWorkloads HasEightAndThree }
    ensures numbers { WorkloadsCountEightAndThree }
{}
