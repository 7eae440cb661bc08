// One search over objects of different kinds that answer about the same sets.
ghost use Rattle.std.specs.Prelude.{◌≡◌, []};
ghost use Rattle.ontology_limits.specs.Limits.{IsInLimit};

use crate::reading::{are_sets, read, sets_of};
use axiom_sets::AxiomSet;
use hitting_set_tree::{Found, enumerate};
use module_extract::module;
use ofn_reader::Refusal;
use query_asker::Asker;
use repair_list::repairs;
use run_log::RunLog;
use set_questions::{Entail, SetOracle};
use shq_oracle::Oracle;
use shq_terms::{NoMemory, Ontology, Query};
use std::alloc::Global;
use std::test::Fail;

const DOCUMENT: &[u8] = b"Prefix(:=<e:>)Ontology(
SubClassOf(:A :B1)SubClassOf(:B1 :D)SubClassOf(:A :B2)SubClassOf(:B2 :D)
SubClassOf(:A :B3)SubClassOf(:B3 :D)SubClassOf(:D :C))";

// The smallest sets of its seven axioms from which the query follows, and those without which it does not.
const SETS: &[&[u32]] = &[&[1, 2, 7], &[3, 4, 7], &[5, 6, 7]];

const REPAIRS: &[&[u32]] = &[
    &[1, 3, 5],
    &[1, 3, 6],
    &[1, 4, 5],
    &[1, 4, 6],
    &[2, 3, 5],
    &[2, 3, 6],
    &[2, 4, 5],
    &[2, 4, 6],
    &[7],
];

fn are_lists(found: &Found, cuts: &[AxiomSet]) -> bool {
    found.finished && are_sets(&found.justifications, SETS) && are_sets(cuts, REPAIRS)
}

// Whether these are found over an object.
fn are_found<E: Entail>(alloc: Global, entail: &mut E) -> Result<bool, NoMemory>
    requires { (E.meaning entail.old).taken ≡ [] }
{
    let found = enumerate(alloc, entail)?;
    let cuts = repairs(alloc, &found)?;
    Ok(are_lists(&found, &cuts))
}

// The same, where the object is let go.
fn are_found_over<E: Entail + Drop>(alloc: Global, mut entail: E) -> Result<bool, NoMemory>
    requires { (E.meaning entail).taken ≡ [] }
{
    are_found(alloc, &mut entail)
}

// Over sets in memory.
fn by_sets(alloc: Global) -> Result<bool, NoMemory> {
    let sets = sets_of(alloc, 7, SETS)?;
    are_found_over(alloc, SetOracle::new(alloc, 7, sets, 1000))
}

// Over an asker among all axioms.
fn by_all(alloc: Global, ontology: &Ontology, query: &Query) -> Result<bool, NoMemory>
    requires in_limit { IsInLimit ontology.now query.now }
{
    let oracle = Oracle::new(alloc, ontology, 1000, RunLog::new(alloc));
    are_found_over(alloc, Asker::new(alloc, oracle, query))
}

// Over an asker among the axioms of the local module.
fn by_module(alloc: Global, ontology: &Ontology, query: &Query) -> Result<bool, NoMemory>
    requires in_limit { IsInLimit ontology.now query.now }
{
    let module = module(alloc, ontology, query)?;
    let oracle = Oracle::new(alloc, ontology, 1000, RunLog::new(alloc));
    let asker = Asker::within(alloc, oracle, query, module);
    are_found_over(alloc, asker)
}

fn by_askers(alloc: Global, ontology: &Ontology, query: &Query) -> Result<bool, Refusal>
    requires in_limit { IsInLimit ontology.now query.now }
{
    let are_all = by_all(alloc, ontology, query)?;
    Ok(by_module(alloc, ontology, query)? && are_all)
}

fn by_askers_on(alloc: Global, document: &[u8]) -> Result<bool, Refusal> {
    let (ontology, query) = read(alloc, document, "SubClassOf(:A :C)")?;
    by_askers(alloc, &ontology, &query)
}

#[test]
fn objects_of_one_meaning_have_equal_lists(rt: HostRuntime) -> Result<(), Fail> {
    assert!(rt; by_sets(rt.alloc())?, "by sets in memory");
    assert!(rt; by_askers_on(rt.alloc(), DOCUMENT)?, "by askers");
    Ok(())
}
