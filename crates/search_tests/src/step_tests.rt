// Searches step by step. The end of each was found by hand; as many steps lead to it as `run` makes; and a search that
// was refused memory has ended.
ghost use Rattle.std.specs.Prelude.{◌≡◌, false, IfOk, length};
ghost use Rattle.axiom_sets.specs.Sets.{IsWithin};
ghost use Rattle.search_rules.specs.Limits.{IsInLimit};
ghost use Rattle.search_rules.specs.RuleLists.{AreNumbersOf};

use axiom_sets::AxiomSet;
use bumpalo::Bump;
use ofn_reader::{Refusal, read_ontology, read_query};
use shq_terms::{NoMemory, Ontology, Query};
use std::alloc::{Allocator, Global};
use std::test::Fail;
use tableau::{End, Event, Search, SearchRules};

/// More steps than any search here makes.
const MANY: u64 = 1_000;

/// How a search ended.
#[derive(Clone, Copy, Debug, PartialEq, Eq)]
enum Ending {
    Saturated,
    Closed,
    Lost,
}

/// What one search came to.
#[derive(Clone, Copy, Debug, PartialEq, Eq)]
struct Course {
    ending: Ending,
    steps: u64,
    has_ended: bool,
}

/// A document, a query on it, and how the search for the query ends. Over all of them, the search makes steps of each
/// kind and goes back.
const CASES: &[(&[u8], &str, Ending)] = &[
    // No step at all.
    (
        b"Ontology(SubClassOf(<B> <C>))",
        "SubClassOf(<A> <B>)",
        Ending::Saturated,
    ),
    // A row of a name, and the parts of an intersection.
    (
        b"Ontology(SubClassOf(<A> ObjectIntersectionOf(<B> <C>)))",
        "SubClassOf(<A> <C>)",
        Ending::Closed,
    ),
    // A union, and the way back from its first part.
    (
        b"Ontology(SubClassOf(<A> ObjectUnionOf(<B> <C>)) SubClassOf(<B> <D>) SubClassOf(<C> <D>))",
        "SubClassOf(<A> <D>)",
        Ending::Closed,
    ),
    // A new node, and a universal restriction.
    (
        b"Ontology(SubClassOf(<A> ObjectSomeValuesFrom(<r> <B>)) SubClassOf(<A> ObjectAllValuesFrom(<r> <C>)))",
        "SubClassOf(<A> <B>)",
        Ending::Saturated,
    ),
    // A universal restriction that is carried on.
    (
        b"Ontology(TransitiveObjectProperty(<r>)
            SubClassOf(<A> ObjectSomeValuesFrom(<r> ObjectSomeValuesFrom(<r> <B>)))
            SubClassOf(<A> ObjectAllValuesFrom(<r> ObjectComplementOf(<B>))))",
        "SubClassOf(<A> owl:Nothing)",
        Ending::Closed,
    ),
    // A row of a range.
    (
        b"Ontology(ObjectPropertyRange(<r> <C>) SubClassOf(<A> ObjectSomeValuesFrom(<r> <B>)))",
        "SubClassOf(<A> ObjectSomeValuesFrom(<r> <C>))",
        Ending::Closed,
    ),
    // Several new nodes at once, of which there are too many.
    (
        b"Ontology(SubClassOf(<A> ObjectMinCardinality(2 <r> <B>)) SubClassOf(<A> ObjectMaxCardinality(1 <r> <B>)))",
        "SubClassOf(<A> owl:Nothing)",
        Ending::Closed,
    ),
    // Two nodes that may be one.
    (
        b"Ontology(SubClassOf(<A> ObjectSomeValuesFrom(<r> <B>)) SubClassOf(<A> ObjectSomeValuesFrom(<r> <C>))
            SubClassOf(<A> ObjectMaxCardinality(1 <r>)))",
        "SubClassOf(<A> ObjectSomeValuesFrom(<r> ObjectIntersectionOf(<B> <C>)))",
        Ending::Closed,
    ),
    // Choices between a filler and its complement.
    (
        b"Ontology(SubClassOf(<A> ObjectMinCardinality(2 <r> <B>)) SubClassOf(<A> ObjectMaxCardinality(1 <r> <C>)))",
        "SubClassOf(<A> <B>)",
        Ending::Saturated,
    ),
    // Facts that are given, of each kind.
    (
        b"Ontology(ClassAssertion(ObjectAllValuesFrom(<r> <B>) <a>) ObjectPropertyAssertion(<r> <a> <b>))",
        "ClassAssertion(<B> <b>)",
        Ending::Closed,
    ),
    (
        b"Ontology(SameIndividual(<a> <b>) DifferentIndividuals(<a> <b>))",
        "SubClassOf(owl:Thing owl:Nothing)",
        Ending::Closed,
    ),
    // A node that is blocked.
    (
        b"Ontology(SubClassOf(<A> ObjectSomeValuesFrom(<r> <A>)))",
        "SubClassOf(<A> <B>)",
        Ending::Saturated,
    ),
];

/// The rules of all axioms, with the numbers of what the query asks.
#[derive(Drop)]
struct Asked<'a> {
    rules: SearchRules<'a>,
    sub: u32,
    not_sup: u32,
}

fn ask<'a>(alloc: Global, ontology: &'a Ontology, query: &Query) -> Result<Asked<'a>, NoMemory>
    requires { IsInLimit ontology.now query.now }
    ensures numbers { IfOk result (λ a. AreNumbersOf a.rules query.now a.sub a.not_sup) }
    ensures set { IfOk result (λ a. a.rules.set.limit ≡ length a.rules.ontology.axioms) }
    ensures ontology { IfOk result (λ a. a.rules.ontology ≡ ontology.entry.now) }
{
    let set = AxiomSet::full(alloc, ontology.axiom_count())?;
    let _limit = set.limit();
    ask_over(alloc, ontology, &set, query)
}

fn ask_over<'a>(
    alloc: Global,
    ontology: &'a Ontology,
    set: &AxiomSet,
    query: &Query,
) -> Result<Asked<'a>, NoMemory>
    requires in_limit { IsInLimit ontology.now query.now }
    requires limit { set.now.limit ≡ length ontology.now.axioms }
    requires within { IsWithin (length ontology.now.axioms) set.now.members }
    ensures numbers { IfOk result (λ a. AreNumbersOf a.rules query.now a.sub a.not_sup) }
    ensures set { IfOk result (λ a. a.rules.set.limit ≡ length a.rules.ontology.axioms) }
    ensures ontology { IfOk result (λ a. a.rules.ontology ≡ ontology.entry.now) }
{
    let mut rules = SearchRules::build(alloc, ontology, set)?;
    let (sub, not_sup) = rules.numbers_of(alloc, query)?;
    Ok(Asked {
        rules,
        sub,
        not_sup,
    })
}

// Makes steps one at a time until the search ends, if it does soon.
fn step_on<A: Allocator + Copy>(search: &mut Search<'_, A>) -> Result<Option<Ending>, NoMemory>
    requires goes_on { search.old.ended ≡ false }
    requires whole { search.old.failed ≡ false }
    requires begun { search.old.steps ≡ 0 }
{
    for _made in 0..MANY {
        match search.step()? {
            Event::Moved => {}
            Event::Saturated => return Ok(Some(Ending::Saturated)),
            Event::Closed(_) => return Ok(Some(Ending::Closed)),
            Event::Lost => return Ok(Some(Ending::Lost)),
        }
    }
    Ok(None)
}

// Makes all steps in one call.
fn run_on<A: Allocator + Copy>(search: &mut Search<'_, A>) -> Result<Option<Ending>, NoMemory>
    requires goes_on { search.old.ended ≡ false }
    requires whole { search.old.failed ≡ false }
    requires begun { search.old.steps ≡ 0 }
{
    match search.run(MANY)? {
        End::Saturated => Ok(Some(Ending::Saturated)),
        End::Closed(_) => Ok(Some(Ending::Closed)),
        End::Lost => Ok(Some(Ending::Lost)),
        End::Spent => Ok(None),
    }
}

// What the search came to, if it ended.
fn course_of<A: Allocator + Copy>(
    search: &Search<'_, A>,
    ending: Option<Ending>,
) -> Option<Course> {
    match ending {
        Some(ending) => Some(Course {
            ending,
            steps: search.steps(),
            has_ended: search.ended(),
        }),
        None => None,
    }
}

// A search in an arena of its own, by one way of making steps or the other.
fn search(
    alloc: Global,
    asked: &Asked<'_>,
    query: &Query,
    by_step: bool,
) -> Result<Option<Course>, NoMemory>
    requires numbers { AreNumbersOf asked.now.rules query.now asked.now.sub asked.now.not_sup }
    requires set { asked.now.rules.set.limit ≡ length asked.now.rules.ontology.axioms }
    requires in_limit { IsInLimit asked.now.rules.ontology query.now }
{
    let arena = Bump::new(alloc);
    let mut search = Search::new_in(&arena, alloc, &asked.rules, query, asked.sub, asked.not_sup)?;
    let ending = if by_step {
        step_on(&mut search)?
    } else {
        run_on(&mut search)?
    };
    Ok(course_of(&search, ending))
}

// Whether both ways lead to this end, by as many steps.
fn ends_so(
    alloc: Global,
    asked: &Asked<'_>,
    query: &Query,
    wanted: Ending,
) -> Result<bool, NoMemory>
    requires numbers { AreNumbersOf asked.now.rules query.now asked.now.sub asked.now.not_sup }
    requires set { asked.now.rules.set.limit ≡ length asked.now.rules.ontology.axioms }
    requires in_limit { IsInLimit asked.now.rules.ontology query.now }
{
    let stepped = search(alloc, asked, query, true)?;
    let run = search(alloc, asked, query, false)?;
    match stepped {
        Some(course) => Ok(course.ending == wanted && course.has_ended && run == stepped),
        None => Ok(false),
    }
}

// A document of at most 1,000 bytes, and a query on it.
fn read(alloc: Global, document: &[u8], query: &str) -> Result<(Ontology, Query), Refusal>
    ensures in_limit { IfOk result (λ r. IsInLimit r.0 r.1) }
{
    if document.len() > 1000 {
        return Err(Refusal::NoMemory);
    }
    let (mut ontology, context, _) = read_ontology(alloc, document)?;
    let query = read_query(alloc, query, &mut ontology, &context)?;
    drop(context);
    Ok((ontology, query))
}

fn is_case(alloc: Global, document: &[u8], query: &str, wanted: Ending) -> Result<bool, Refusal> {
    let (ontology, query) = read(alloc, document, query)?;
    Ok(is_asked(alloc, &ontology, &query, wanted)?)
}

fn is_asked(
    alloc: Global,
    ontology: &Ontology,
    query: &Query,
    wanted: Ending,
) -> Result<bool, NoMemory>
    requires { IsInLimit ontology.now query.now }
{
    let asked = ask(alloc, ontology, query)?;
    ends_so(alloc, &asked, query, wanted)
}

#[test]
fn as_many_steps_end_a_search_as_a_run(rt: HostRuntime) -> Result<(), Fail> {
    for (place, (document, query, wanted)) in CASES.iter().enumerate() {
        assert!(rt;
            is_case(rt.alloc(), document, query, *wanted)?,
            "case {place}"
        );
    }
    Ok(())
}

// Ninety nodes at once.
const MANY_NODES: &[u8] = b"Ontology(SubClassOf(<A> ObjectMinCardinality(90 <r> <B>)))";

// Whether the search is refused memory, and has ended then.
fn is_refused<A: Allocator + Copy>(search: &mut Search<'_, A>) -> bool
    requires goes_on { search.old.ended ≡ false }
    requires whole { search.old.failed ≡ false }
    requires begun { search.old.steps ≡ 0 }
{
    step_on(search).is_err() && search.ended()
}

// The same in an arena that may not grow.
fn is_refused_in(alloc: Global, asked: &Asked<'_>, query: &Query) -> Result<bool, NoMemory>
    requires numbers { AreNumbersOf asked.now.rules query.now asked.now.sub asked.now.not_sup }
    requires set { asked.now.rules.set.limit ≡ length asked.now.rules.ontology.axioms }
    requires in_limit { IsInLimit asked.now.rules.ontology query.now }
{
    let arena = Bump::new(alloc);
    let mut search = Search::new_in(&arena, alloc, &asked.rules, query, asked.sub, asked.not_sup)?;
    arena.set_allocation_limit(Some(0));
    Ok(is_refused(&mut search))
}

fn refused(alloc: Global, ontology: &Ontology, query: &Query) -> Result<bool, NoMemory>
    requires { IsInLimit ontology.now query.now }
{
    let asked = ask(alloc, ontology, query)?;
    is_refused_in(alloc, &asked, query)
}

#[test]
fn a_search_that_was_refused_memory_has_ended(rt: HostRuntime) -> Result<(), Fail> {
    let (ontology, query) = read(rt.alloc(), MANY_NODES, "SubClassOf(<A> <C>)")?;
    assert!(rt; refused(rt.alloc(), &ontology, &query)?, "ended");
    Ok(())
}
