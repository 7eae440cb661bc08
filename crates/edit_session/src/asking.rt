// Queries, read and answered.
ghost use Rattle.std.specs.Prelude.{◌≡◌, ◌≤◌, false, IfOk, IfErr, OnErr, length};
ghost use Rattle.std.specs.List.{list_any};
ghost use Rattle.job_inputs.specs.Limits.{IsOntologyInLimit, IsInLimit};
ghost use Rattle.shq_oracle.specs.Entries.{spent_of, is_spent, IsAnswered};
ghost use Rattle.edit_session.specs.Places.{IsNotedOf, MayBeNotedOf, plain_noted};
ghost use Rattle.edit_session.specs.Asking.{AnswersOnce, GrowsLog};
ghost use Rattle.edit_session.specs.Asked.{IsAsked, IsUnasked, IsCutTo};

use crate::noted_places::NotedPlaces;
use axiom_sets::AxiomSet;
use ofn_reader::{Context, Refusal, read_query};
use shq_oracle::{Oracle, Outcome, RunLog};
use shq_terms::{NoMemory, Ontology, Query};
use std::alloc::Global;
use std::mem;

/// Reads a query, and answers whether it follows from the live axioms. The names that it alone brings are cut again.
///
/// # Errors
/// Why the text is no query; `NoMemory` among it.
pub(crate) fn ask(
    alloc: Global,
    text: &str,
    ontology: &mut Ontology,
    context: &Context,
    live: &AxiomSet,
    noted: &mut NotedPlaces,
    budget: u32,
    log: &mut RunLog,
) -> Result<Outcome, Refusal>
    requires in_limit { IsOntologyInLimit ontology.old }
    requires limit { live.now.limit ≡ length ontology.old.axioms }
    requires within { spent_of log.old ≤ budget }
    requires goes_on { list_any is_spent log.old ≡ false }
    requires noted { MayBeNotedOf (plain_noted noted.old) live.now.members log.old }
    ensures asked { IfOk result (IsAsked context.now ontology.old live.now text.now budget log.old log.new) }
    ensures unasked { IfErr result (IsUnasked context.now ontology.old text.now) }
    ensures unlogged { OnErr result (log.new ≡ log.old) }
    ensures same { ontology.new ≡ ontology.old }
    ensures within { spent_of log.new ≤ budget }
    ensures noted { MayBeNotedOf (plain_noted noted.new) live.now.members log.new }
{
    let classes = ontology.class_count();
    let roles = ontology.role_count();
    let individuals = ontology.individual_count();
    let asked = ask_on(alloc, text, ontology, context, live, noted, budget, log);
    ontology.cut_names(classes, roles, individuals);
    asked
}

// The same, and the names stay.
#[tactic(auto, using(crate::proofs::Deciding::noted_may))]
fn ask_on(
    alloc: Global,
    text: &str,
    ontology: &mut Ontology,
    context: &Context,
    live: &AxiomSet,
    noted: &mut NotedPlaces,
    budget: u32,
    log: &mut RunLog,
) -> Result<Outcome, Refusal>
    requires in_limit { IsOntologyInLimit ontology.old }
    requires limit { live.now.limit ≡ length ontology.old.axioms }
    requires within { spent_of log.old ≤ budget }
    requires goes_on { list_any is_spent log.old ≡ false }
    requires noted { MayBeNotedOf (plain_noted noted.old) live.now.members log.old }
    ensures asked { IfOk result (IsAsked context.now ontology.old live.now text.now budget log.old log.new) }
    ensures unasked { IfErr result (IsUnasked context.now ontology.old text.now) }
    ensures unlogged { OnErr result (log.new ≡ log.old) }
    ensures cut { IsCutTo ontology.old ontology.new }
    ensures within { spent_of log.new ≤ budget }
    ensures noted { MayBeNotedOf (plain_noted noted.new) live.now.members log.new }
{
    let query = read_query(alloc, text, ontology, context)?;
    let outcome = decide(alloc, ontology, live, noted, &query, budget, log);
    drop(query);
    Ok(outcome?)
}

// Whether the query follows from the live axioms: by the log, else by a test. Of another log than was seen nothing is
// known.
fn decide(
    alloc: Global,
    ontology: &Ontology,
    live: &AxiomSet,
    noted: &mut NotedPlaces,
    query: &Query,
    budget: u32,
    log: &mut RunLog,
) -> Result<Outcome, NoMemory>
    requires limit { live.now.limit ≡ length ontology.now.axioms }
    requires in_limit { IsInLimit ontology.now query.now }
    requires within { spent_of log.old ≤ budget }
    requires goes_on { list_any is_spent log.old ≡ false }
    requires noted { MayBeNotedOf (plain_noted noted.old) live.now.members log.old }
    ensures decided { IfOk result (AnswersOnce ontology.now live.now query.now budget log.old log.new) }
    ensures unlogged { OnErr result (log.new ≡ log.old) }
    ensures within { spent_of log.new ≤ budget }
    ensures noted { IsNotedOf (plain_noted noted.new) live.now.members log.new }
{
    noted.forget_other(log.entries());
    decide_noted(alloc, ontology, live, noted, query, budget, log)
}

// The same by a log of which something is known.
fn decide_noted(
    alloc: Global,
    ontology: &Ontology,
    live: &AxiomSet,
    noted: &mut NotedPlaces,
    query: &Query,
    budget: u32,
    log: &mut RunLog,
) -> Result<Outcome, NoMemory>
    requires limit { live.now.limit ≡ length ontology.now.axioms }
    requires in_limit { IsInLimit ontology.now query.now }
    requires within { spent_of log.old ≤ budget }
    requires goes_on { list_any is_spent log.old ≡ false }
    requires noted { IsNotedOf (plain_noted noted.old) live.now.members log.old }
    ensures decided { IfOk result (AnswersOnce ontology.now live.now query.now budget log.old log.new) }
    ensures unlogged { OnErr result (log.new ≡ log.old) }
    ensures within { spent_of log.new ≤ budget }
    ensures noted { IsNotedOf (plain_noted noted.new) live.now.members log.new }
{
    noted.see_all(log.entries())?;
    if let Some(told) = noted.recall(log.entries(), query, live)? {
        return Ok(told);
    }
    noted.forget_yes(log.entries(), query)?;
    test(alloc, ontology, live, query, budget, log)
}

// Tests whether the query follows from the live axioms, for which no entry of the log answers. The log goes into an
// oracle and comes back.
fn test(
    alloc: Global,
    ontology: &Ontology,
    live: &AxiomSet,
    query: &Query,
    budget: u32,
    log: &mut RunLog,
) -> Result<Outcome, NoMemory>
    requires limit { live.now.limit ≡ length ontology.now.axioms }
    requires in_limit { IsInLimit ontology.now query.now }
    requires within { spent_of log.old ≤ budget }
    requires goes_on { list_any is_spent log.old ≡ false }
    requires new { ¬ IsAnswered log.old live.now query.now }
    ensures decided { IfOk result (AnswersOnce ontology.now live.now query.now budget log.old log.new) }
    ensures longer { GrowsLog log.old log.new }
    ensures unlogged { OnErr result (log.new ≡ log.old) }
    ensures within { spent_of log.new ≤ budget }
{
    let begun = mem::replace(log, RunLog::new(alloc));
    let mut oracle = Oracle::new(alloc, ontology, budget, begun);
    let outcome = test_by(&mut oracle, live, query);
    *log = oracle.into_log();
    outcome
}

// Lets an oracle test it.
fn test_by(oracle: &mut Oracle<'_>, live: &AxiomSet, query: &Query) -> Result<Outcome, NoMemory>
    requires limit { live.now.limit ≡ length oracle.old.ontology.axioms }
    requires in_limit { IsInLimit oracle.old.ontology query.now }
    requires goes_on { list_any is_spent oracle.old.log ≡ false }
    requires new { ¬ IsAnswered oracle.old.log live.now query.now }
    ensures decided { IfOk result
        (AnswersOnce oracle.old.ontology live.now query.now oracle.old.budget oracle.old.log oracle.new.log) }
    ensures longer { GrowsLog oracle.old.log oracle.new.log }
    ensures unlogged { OnErr result (oracle.new.log ≡ oracle.old.log) }
    ensures within { spent_of oracle.new.log ≤ oracle.old.budget }
{
    oracle.test(live, query)
}
