// The search for justifications and repairs.
ghost use Rattle.std.specs.Prelude.{◌≡◌, [], false, length, IfOk, OnErr};
ghost use Rattle.std.specs.List.{list_any};
ghost use Rattle.job_inputs.specs.Limits.{IsInLimit};
ghost use Rattle.pinpointing_specs.specs.LocalModule.{IsLocalModule};
ghost use Rattle.query_asker.specs.Entries.{is_spent};
ghost use Rattle.query_asker.specs.Told.{AreTestsOfOthers};
ghost use Rattle.pinpointing_jobs.specs.Searched.{IsSearched};
ghost use Rattle.pinpointing_jobs.specs.Begun.{HasSearched};
ghost use Rattle.pinpointing_jobs.specs.Gained.{GainsSearch, GainsBegun};

use axiom_sets::AxiomSet;
use module_extract::module;
use query_asker::{Asker, Oracle, RunLog};
use repair_list::{Found, enumerate};
use shq_terms::{NoMemory, Ontology, Query};
use std::alloc::Global;
use std::mem;

/// Searches for the justifications of a query and for leaves among which its repairs are, within a budget of steps and
/// nodes. The log gets what was asked, also where memory is refused.
///
/// # Errors
///
/// Out of memory. The log is empty then, or honest all the same, and no test ended because the budget was spent.
pub(crate) fn search<'a>(
    alloc: Global,
    ontology: &'a Ontology,
    query: &'a Query,
    budget: u32,
    log: &mut RunLog,
) -> Result<Found, NoMemory>
    requires in_limit { IsInLimit ontology.now query.now }
    requires unlogged { log.old ≡ [] }
    ensures found { IfOk result (IsSearched ontology.now query.now budget log.new) }
    ensures begun { OnErr result (HasSearched ontology.now query.now budget log.new) }
    ensures unspent { OnErr result (list_any is_spent log.new ≡ false) }
{
    let module = module(alloc, ontology, query)?;
    let begun = mem::replace(log, RunLog::new(alloc));
    let mut oracle = Oracle::new(alloc, ontology, budget, begun);
    let outcome = search_with(alloc, &mut oracle, query, module);
    *log = oracle.into_log();
    outcome
}

/// The same search by an oracle: it goes on with the oracle's log, within what that has left of the budget, and asks
/// about the axioms of the query's local module. No test of the log is one of the query, and none spent the budget.
/// What is asked is put last in the log, also where memory is refused.
///
/// # Errors
///
/// Out of memory. What the log gained is honest all the same, and no test ended because the budget was spent.
pub fn search_with<'a>(
    alloc: Global,
    oracle: &mut Oracle<'a>,
    query: &'a Query,
    local_module: AxiomSet,
) -> Result<Found, NoMemory>
    requires in_limit { IsInLimit oracle.old.ontology query.now }
    requires goes_on { list_any is_spent oracle.old.log ≡ false }
    requires others { AreTestsOfOthers query.now oracle.old.log }
    requires limit { local_module.limit ≡ length oracle.old.ontology.axioms }
    requires local_module { IsLocalModule oracle.old.ontology.axioms query.now local_module.members }
    ensures ontology { oracle.new.ontology ≡ oracle.old.ontology }
    ensures budget { oracle.new.budget ≡ oracle.old.budget }
    ensures found { IfOk result
        (GainsSearch oracle.old.ontology query.now oracle.old.budget oracle.old.log oracle.new.log) }
    ensures begun { OnErr result
        (GainsBegun oracle.old.ontology query.now oracle.old.budget oracle.old.log oracle.new.log) }
    ensures unspent { OnErr result (list_any is_spent oracle.new.log ≡ false) }
{
    let _left = oracle.left();
    let none = Oracle::new(alloc, oracle.ontology(), 0, RunLog::new(alloc));
    let begun = mem::replace(oracle, none);
    let mut asker = Asker::within(alloc, begun, query, local_module);
    let outcome = enumerate(alloc, &mut asker);
    *oracle = asker.into_oracle();
    outcome
}
