// The searches for the justifications of all individuals.
ghost use Rattle.std.specs.Prelude.{◌≡◌, ◌+◌, ◌<◌, [], ◌++◌, length, IfOk, OnOk, OnErr};
ghost use Rattle.std.specs.Result.{result_map_both};
ghost use Rattle.job_inputs.specs.Limits.{IsInLimit};
ghost use Rattle.pinpointing_specs.specs.LocalModule.{IsLocalModule};
ghost use Rattle.realizer.specs.Instances.{instance_query};
ghost use Rattle.individual_jobs.specs.Searching.{instance_queries, AreInLimit, IsModuleOfEach, reasons_by};
ghost use Rattle.individual_jobs.specs.Searching.{HasExplained, ExplainsTo, ExplainsAll};
ghost use Rattle.individual_jobs.specs.Answers.{HasBlocks};

use crate::queries::{instance_queries, module_of_each};
use crate::reasons::Reasons;
use axiom_sets::AxiomSet;
use pinpointing_jobs::{Found, Oracle, search_with};
use realizer::RunLog;
use shq_terms::{Concept, NoMemory, Ontology, Query};
use std::alloc::Global;
use std::mem;

/// The instances of a class expression with all their justifications, and whether the budget sufficed for all
/// individuals. Where it did not, the instances are those that were found until then.
#[derive(Drop)]
pub(crate) struct Explained {
    pub(crate) reasons: Vec<Reasons>,
    pub(crate) finished: bool,
}

/// Searches for all justifications of each individual's being an instance of the class expression, within a budget of
/// steps and nodes for all of them together. The log gets what was asked, also where memory is refused.
///
/// # Errors
///
/// Out of memory. The log is honest all the same.
pub(crate) fn explain_all(
    alloc: Global,
    ontology: &Ontology,
    class: &Concept,
    budget: u32,
    log: &mut RunLog,
) -> Result<Explained, NoMemory>
    requires in_limit { AreInLimit ontology.now class.now }
    requires unlogged { log.old ≡ [] }
    ensures explained { IfOk result (ExplainsAll ontology.now class.now budget log.new) }
    ensures begun { OnErr result (HasBlocks ontology.now class.now budget log.new) }
{
    let queries = instance_queries(alloc, class, ontology.individual_count())?;
    let local_module = module_of_each(alloc, ontology, class)?;
    explain_by(alloc, ontology, class, &queries, &local_module, budget, log)
}

// The same by these questions, within this local module of each of them.
fn explain_by<'a>(
    alloc: Global,
    ontology: &'a Ontology,
    class: &Concept,
    queries: &'a [Query],
    local_module: &AxiomSet,
    budget: u32,
    log: &mut RunLog,
) -> Result<Explained, NoMemory>
    requires in_limit { AreInLimit ontology.now class.now }
    requires queries { queries.now ≡ instance_queries class.now (length ontology.now.individuals) }
    requires limit { local_module.now.limit ≡ length ontology.now.axioms }
    requires local_module { IsModuleOfEach ontology.now class.now local_module.now.members }
    requires unlogged { log.old ≡ [] }
    ensures explained { IfOk result (ExplainsAll ontology.now class.now budget log.new) }
    ensures begun { OnErr result (HasBlocks ontology.now class.now budget log.new) }
{
    let mut reasons = Vec::new(alloc);
    let begun = mem::replace(log, RunLog::new(alloc));
    let mut oracle = Oracle::new(alloc, ontology, budget, begun);
    let outcome = explain_each(
        alloc,
        &mut oracle,
        class,
        queries,
        local_module,
        &mut reasons,
    );
    *log = oracle.into_log();
    with_reasons(reasons, outcome)
}

fn with_reasons(
    reasons: Vec<Reasons>,
    outcome: Result<bool, NoMemory>,
) -> Result<Explained, NoMemory>
    ensures { result
        ≡ result_map_both (λ finished. record { reasons = reasons; finished = finished }) (λ e. e) outcome }
{
    match outcome {
        Ok(finished) => Ok(Explained { reasons, finished }),
        Err(refused) => {
            drop(reasons);
            Err(refused)
        }
    }
}

// Asks why each individual is an instance, and keeps the reasons. Answers whether the budget sufficed.
fn explain_each<'a>(
    alloc: Global,
    oracle: &mut Oracle<'a>,
    class: &Concept,
    queries: &'a [Query],
    local_module: &AxiomSet,
    reasons: &mut Vec<Reasons>,
) -> Result<bool, NoMemory>
    requires in_limit { AreInLimit oracle.old.ontology class.now }
    requires queries { queries.now ≡ instance_queries class.now (length oracle.old.ontology.individuals) }
    requires limit { local_module.now.limit ≡ length oracle.old.ontology.axioms }
    requires local_module { IsModuleOfEach oracle.old.ontology class.now local_module.now.members }
    requires unlogged { oracle.old.log ≡ [] }
    requires none { reasons.old.items ≡ [] }
    ensures explained { IfOk result
        (ExplainsTo oracle.old.ontology class.now oracle.old.budget (length oracle.old.ontology.individuals)
        reasons.new.items oracle.new.log) }
    ensures begun { OnErr result (HasBlocks oracle.old.ontology class.now oracle.old.budget oracle.new.log) }
{
    let _class = class;
    for individual in 0..oracle.ontology().individual_count() {
        let query = &queries[individual as usize];
        if !explain_next(alloc, oracle, query, individual, local_module, reasons)? {
            return Ok(false);
        }
    }
    Ok(true)
}

// Asks why the next individual is an instance, and keeps the reasons. Answers whether the budget sufficed.
fn explain_next<'a>(
    alloc: Global,
    oracle: &mut Oracle<'a>,
    query: &'a Query,
    individual: u32,
    local_module: &AxiomSet,
    reasons: &mut Vec<Reasons>,
) -> Result<bool, NoMemory>
    requires in_limit { IsInLimit oracle.old.ontology query.now }
    requires query { query.now ≡ instance_query query.now.sup individual }
    requires listed { individual < length oracle.old.ontology.individuals }
    requires limit { local_module.now.limit ≡ length oracle.old.ontology.axioms }
    requires local_module { IsLocalModule oracle.old.ontology.axioms query.now local_module.now.members }
    requires explained { HasExplained oracle.old.ontology query.now.sup oracle.old.budget individual
        reasons.old.items oracle.old.log }
    ensures ontology { oracle.new.ontology ≡ oracle.old.ontology }
    ensures budget { oracle.new.budget ≡ oracle.old.budget }
    ensures explained { IfOk result
        (ExplainsTo oracle.old.ontology query.now.sup oracle.old.budget (individual + 1) reasons.new.items
        oracle.new.log) }
    ensures begun { OnErr result (HasBlocks oracle.old.ontology query.now.sup oracle.old.budget oracle.new.log) }
{
    if oracle.left() == 0 {
        return Ok(false);
    }
    let found = search_with(alloc, oracle, query, local_module.try_clone()?)?;
    keep(reasons, individual, found)
}

// Keeps the justifications that a search found of an individual, where there are some. Answers whether it was
// finished.
fn keep(reasons: &mut Vec<Reasons>, individual: u32, found: Found) -> Result<bool, NoMemory>
    ensures finished { IfOk result (λ finished. finished ≡ found.finished) }
    ensures kept { OnOk result
        (reasons.new.items ≡ reasons.old.items ++ reasons_by individual found.justifications.items) }
    ensures unchanged { OnErr result (reasons.new.items ≡ reasons.old.items) }
{
    let Found {
        justifications,
        leaves: _,
        finished,
    } = found;
    if justifications.is_empty() {
        return Ok(finished);
    }
    reasons.push(Reasons::new(individual, justifications))?;
    Ok(finished)
}
