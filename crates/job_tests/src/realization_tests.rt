// Realizations and lists of instances: the calls below the jobs.

ghost use Rattle.std.specs.Prelude.{◌≡◌, ℕ, ◌<◌, [], IsTrue, length};
ghost use Rattle.ontology_limits.specs.Limits.{IsOntologyInLimit, IsInLimit};
ghost use Rattle.realizer.specs.ClassNames.{are_listed};
ghost use Rattle.realizer.specs.Instances.{instance_query};
ghost use Rattle.realizer.specs.Listing.{is_listed};

use crate::reading::read;
use ofn_reader::Refusal;
use realizer::{Halt, Oracle, RunLog, Types, instances, instances_text, realize};
use shq_terms::{Concept, Ontology, Query};
use std::alloc::Global;
use std::test::Fail;

// Of the first individual is told that it is in the lower class, of the second that it is in the upper one, and of the
// third nothing.
const FEW: &[u8] = b"Prefix(:=<http://e.org/>)Ontology(
SubClassOf(:A :B)
ClassAssertion(:A :x)
ClassAssertion(:B :y)
Declaration(NamedIndividual(:z)))";

const TYPES_OF_FEW: &str = "consistent
individual <http://e.org/x> types <http://e.org/A>
individual <http://e.org/y> types <http://e.org/B>
individual <http://e.org/z> types owl:Thing
";

// Those of them that are in the upper class.
const MEMBERS_OF_FEW: &str = "instances 2\n<http://e.org/x>\n<http://e.org/y>\n";

// Whether the text of the types is this one.
fn is_text(alloc: Global, types: &Types, ontology: &Ontology, wanted: &str) -> Result<bool, Halt>
    requires { IsTrue (is_listed (length ontology.now.classes) (length ontology.now.individuals) types.now) }
{
    let mut text = Vec::new(alloc);
    types.text(&mut text, ontology)?;
    Ok(text.as_slice() == wanted.as_bytes())
}

fn has_types_by(
    alloc: Global,
    oracle: &mut Oracle<'_>,
    ontology: &Ontology,
    wanted: &str,
) -> Result<bool, Halt>
    requires same { oracle.old.ontology ≡ ontology.now }
    requires unlogged { oracle.old.log ≡ [] }
    requires in_limit { IsOntologyInLimit ontology.now }
{
    let types = realize(alloc, oracle, ontology)?;
    is_text(alloc, &types, ontology, wanted)
}

// Whether the text of the types that a budget gives is this one.
fn has_types_within(
    alloc: Global,
    ontology: &Ontology,
    budget: u32,
    wanted: &str,
) -> Result<bool, Halt>
    requires { IsOntologyInLimit ontology.now }
{
    let mut oracle = Oracle::new(alloc, ontology, budget, RunLog::new(alloc));
    has_types_by(alloc, &mut oracle, ontology, wanted)
}

// Whether the text of the individuals is this one.
fn are_lines(alloc: Global, found: &[u32], ontology: &Ontology, wanted: &str) -> Result<bool, Halt>
    requires { IsTrue (are_listed (length ontology.now.individuals) found.now) }
{
    let mut text = Vec::new(alloc);
    instances_text(alloc, &mut text, found, ontology)?;
    Ok(text.as_slice() == wanted.as_bytes())
}

fn are_members_by(
    alloc: Global,
    oracle: &mut Oracle<'_>,
    ontology: &Ontology,
    class: &Concept,
    wanted: &str,
) -> Result<bool, Halt>
    requires same { oracle.old.ontology ≡ ontology.now }
    requires unlogged { oracle.old.log ≡ [] }
    requires in_limit { (a : ℕ) → a < length ontology.now.individuals
        → IsInLimit ontology.now (instance_query class.now a) }
{
    let found = instances(alloc, oracle, ontology, class)?;
    are_lines(alloc, found.items(), ontology, wanted)
}

// Whether the text of the individuals that a budget gives for the subclass of the query is this one.
fn are_members_within(
    alloc: Global,
    ontology: &Ontology,
    query: &Query,
    budget: u32,
    wanted: &str,
) -> Result<bool, Halt>
    requires { IsInLimit ontology.now query.now }
{
    let mut oracle = Oracle::new(alloc, ontology, budget, RunLog::new(alloc));
    are_members_by(alloc, &mut oracle, ontology, &query.sub, wanted)
}

// Budgets, and what both calls answer within them.
const BUDGETS: &[(u32, Result<bool, Halt>)] = &[(1000, Ok(true)), (1, Err(Halt::Spent))];

fn are_answered(alloc: Global, ontology: &Ontology, query: &Query) -> bool
    requires { IsInLimit ontology.now query.now }
{
    let mut are_so = true;
    for (budget, wanted) in BUDGETS {
        let types = has_types_within(alloc, ontology, *budget, TYPES_OF_FEW);
        let members = are_members_within(alloc, ontology, query, *budget, MEMBERS_OF_FEW);
        are_so &= types == *wanted && members == *wanted;
    }
    are_so
}

fn are_answered_on(alloc: Global, document: &[u8]) -> Result<bool, Refusal> {
    let (ontology, query) = read(alloc, document, "SubClassOf(:B owl:Thing)")?;
    Ok(are_answered(alloc, &ontology, &query))
}

#[test]
fn calls_answer_as_the_jobs(rt: HostRuntime) -> Result<(), Fail> {
    assert!(rt; are_answered_on(rt.alloc(), FEW)?);
    Ok(())
}
