// The search for justifications and repairs, with the evidence of its tests.
ghost use Rattle.std.specs.Prelude.{◌≡◌, [], IfOk, OnErr};
ghost use Rattle.std.specs.Result.{result_map_both};
ghost use Rattle.audit_check.specs.Limits.{IsInLimit};
ghost use Rattle.audit_jobs.specs.Witnessed.{IsSearched, HasAsked};

use crate::evidence::Evidence;
use crate::witness::Witness;
use pinpointing_jobs::{Found, Oracle, enumerate};
use run_log::RunLog;
use shq_terms::{NoMemory, Ontology, Query};
use std::alloc::Global;
use std::mem;

/// What a search found, and the evidence of its tests.
#[derive(Drop)]
pub(crate) struct Searched {
    pub(crate) found: Found,
    pub(crate) evidence: Evidence,
}

/// Searches for the justifications of a query and for leaves among which its repairs are, within a budget of steps and
/// nodes. The log gets what was asked, also where memory is refused.
///
/// # Errors
///
/// Out of memory. The log is empty then, or honest all the same, and no test ended because the budget was spent.
pub(crate) fn search(
    alloc: Global,
    ontology: &Ontology,
    query: &Query,
    budget: u32,
    log: &mut RunLog,
) -> Result<Searched, NoMemory>
    requires in_limit { IsInLimit ontology.now query.now }
    requires unlogged { log.old ≡ [] }
    ensures searched { IfOk result (IsSearched ontology.now query.now budget log.new) }
    ensures begun { OnErr result (HasAsked ontology.now query.now budget log.new) }
{
    let begun = mem::replace(log, RunLog::new(alloc));
    let oracle = Oracle::new(alloc, ontology, budget, begun);
    let mut witness = Witness::new(alloc, oracle, query);
    let outcome = enumerate(alloc, &mut witness);
    let (oracle, evidence) = witness.into_parts();
    *log = oracle.into_log();
    with_evidence(outcome, evidence)
}

fn with_evidence(outcome: Result<Found, NoMemory>, evidence: Evidence) -> Result<Searched, NoMemory>
    ensures { result ≡ result_map_both (λ f. record { found = f; evidence = evidence }) (λ e. e) outcome }
{
    match outcome {
        Ok(found) => Ok(Searched { found, evidence }),
        Err(refused) => {
            drop(evidence);
            Err(refused)
        }
    }
}
