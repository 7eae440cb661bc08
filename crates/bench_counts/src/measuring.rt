// What a search over the axioms of a document did, and how long it took.
ghost use Rattle.std.specs.Prelude.{◌≡◌, ◌+◌, ◌<◌, ◌≤◌, ◌^◌, false, IfOk, length};
ghost use Rattle.axiom_sets.specs.Sets.{IsWithin};
ghost use Rattle.search_rules.specs.Limits.{IsInLimit};
ghost use Rattle.search_rules.specs.RuleLists.{AreNumbersOf};

use crate::printing::{print_number, print_text};
use axiom_sets::AxiomSet;
use bumpalo::Bump;
use pinpointing_jobs::read_input;
use search_rules::SearchRules;
use shq_io::{Source, read_all};
use shq_terms::{NoMemory, Ontology, Query};
use std::alloc::{Allocator, Global};
use std::io;
use std::num::nearest_u64_to_f64;
use std::rt::Clock;
use std::time::Instant;
use tableau::{Effort, End, Search};

/// The most bytes of a document.
const MOST: u32 = 1 << 24;

/// The rules of all axioms of an ontology, with the numbers of what the query asks.
#[derive(Drop)]
struct Asked<'a> {
    rules: SearchRules<'a>,
    sub: u32,
    not_sup: u32,
}

/// What a search did, how it ended, and how many lines its refutation has.
#[derive(Clone, Copy)]
struct Outcome {
    end: &'static str,
    lines: usize,
    steps: u64,
    effort: Effort,
}

/// Reads a document to its end, and prints what the search whether the axiom follows does within so many steps; or why
/// there is none.
pub(crate) fn report<S: Source>(
    rt: &(impl Print + Clock),
    alloc: Global,
    axiom: &str,
    fuel: u64,
    source: &mut S,
) -> io::Result<()> {
    match read_all(alloc, source, MOST) {
        Ok(document) => report_document(rt, alloc, axiom, fuel, &document),
        Err(end) => println!(rt; "{end}"),
    }
}

fn report_document(
    rt: &(impl Print + Clock),
    alloc: Global,
    axiom: &str,
    fuel: u64,
    document: &[u8],
) -> io::Result<()>
    requires { length document.now ≤ 4294967293 }
{
    match read_input(alloc, axiom, document) {
        Ok(input) => report_query(rt, alloc, &input.ontology, &input.query, fuel),
        Err(_) => print_text(rt, "the document or the axiom is not read\n"),
    }
}

fn report_query(
    rt: &(impl Print + Clock),
    alloc: Global,
    ontology: &Ontology,
    query: &Query,
    fuel: u64,
) -> io::Result<()>
    requires { IsInLimit ontology.now query.now }
{
    match ask(alloc, ontology, query) {
        Ok(asked) => report_search(rt, alloc, &asked, query, fuel),
        Err(_) => print_text(rt, "out of memory\n"),
    }
}

fn report_search(
    rt: &(impl Print + Clock),
    alloc: Global,
    asked: &Asked<'_>,
    query: &Query,
    fuel: u64,
) -> io::Result<()>
    requires numbers { AreNumbersOf asked.now.rules query.now asked.now.sub asked.now.not_sup }
    requires set { asked.now.rules.set.limit ≡ length asked.now.rules.ontology.axioms }
    requires in_limit { IsInLimit asked.now.rules.ontology query.now }
{
    let start = Instant::now(rt)?;
    let found = search(alloc, asked, query, fuel);
    let seconds = start.elapsed(rt)?.as_secs_f64();
    match found {
        Ok(outcome) => print(rt, outcome, seconds),
        Err(_) => print_text(rt, "out of memory\n"),
    }
}

fn print(rt: &impl Print, outcome: Outcome, seconds: f64) -> io::Result<()> {
    print_text(rt, outcome.end)?;
    print_text(rt, ", ")?;
    print_number(rt, outcome.steps, " steps, ")?;
    print_effort(rt, outcome.effort)?;
    print_number(rt, outcome.lines as u64, " lines, ")?;
    let pace = nearest_u64_to_f64(outcome.steps) / seconds;
    println!(rt; "{seconds:.6} s, {pace:.0} steps a second")
}

fn print_effort(rt: &impl Print, effort: Effort) -> io::Result<()> {
    print_number(rt, effort.looks, " looks, ")?;
    print_number(rt, effort.scans, " scans, ")?;
    print_number(rt, effort.blocks, " blocks, ")?;
    print_number(rt, effort.sieves, " sieves, ")?;
    print_number(rt, effort.backs, " ways back, ")?;
    print_number(rt, effort.lost, " choices lost, ")?;
    print_number(rt, effort.stripped, " lines taken out, ")
}

/// The rules of all axioms, with which the query is asked.
fn ask<'a>(alloc: Global, ontology: &'a Ontology, query: &Query) -> Result<Asked<'a>, NoMemory>
    requires { IsInLimit ontology.now query.now }
    ensures numbers { IfOk result (λ a. AreNumbersOf a.rules query.now a.sub a.not_sup) }
    ensures set { IfOk result (λ a. a.rules.set.limit ≡ length a.rules.ontology.axioms) }
    ensures ontology { IfOk result (λ a. a.rules.ontology ≡ ontology.entry.now) }
{
    let set = AxiomSet::full(alloc, ontology.axiom_count())?;
    let _limit = set.limit();
    ask_over(alloc, ontology, &set, query)
}

fn ask_over<'a>(
    alloc: Global,
    ontology: &'a Ontology,
    set: &AxiomSet,
    query: &Query,
) -> Result<Asked<'a>, NoMemory>
    requires in_limit { IsInLimit ontology.now query.now }
    requires limit { set.now.limit ≡ length ontology.now.axioms }
    requires within { IsWithin (length ontology.now.axioms) set.now.members }
    ensures numbers { IfOk result (λ a. AreNumbersOf a.rules query.now a.sub a.not_sup) }
    ensures set { IfOk result (λ a. a.rules.set.limit ≡ length a.rules.ontology.axioms) }
    ensures ontology { IfOk result (λ a. a.rules.ontology ≡ ontology.entry.now) }
{
    let mut rules = SearchRules::build(alloc, ontology, set)?;
    let (sub, not_sup) = rules.numbers_of(alloc, query)?;
    Ok(Asked {
        rules,
        sub,
        not_sup,
    })
}

/// Searches, in an arena of its own.
fn search(alloc: Global, asked: &Asked<'_>, query: &Query, fuel: u64) -> Result<Outcome, NoMemory>
    requires numbers { AreNumbersOf asked.now.rules query.now asked.now.sub asked.now.not_sup }
    requires set { asked.now.rules.set.limit ≡ length asked.now.rules.ontology.axioms }
    requires in_limit { IsInLimit asked.now.rules.ontology query.now }
{
    let arena = Bump::new(alloc);
    search_in(&arena, alloc, asked, query, fuel)
}

fn search_in<A: Allocator + Copy>(
    arena: A,
    alloc: Global,
    asked: &Asked<'_>,
    query: &Query,
    fuel: u64,
) -> Result<Outcome, NoMemory>
    requires numbers { AreNumbersOf asked.now.rules query.now asked.now.sub asked.now.not_sup }
    requires set { asked.now.rules.set.limit ≡ length asked.now.rules.ontology.axioms }
    requires in_limit { IsInLimit asked.now.rules.ontology query.now }
{
    let mut search = Search::new_in(arena, alloc, &asked.rules, query, asked.sub, asked.not_sup)?;
    run(&mut search, fuel)
}

fn run<A: Allocator + Copy>(search: &mut Search<'_, A>, fuel: u64) -> Result<Outcome, NoMemory>
    requires goes_on { search.old.ended ≡ false }
    requires whole { search.old.failed ≡ false }
    requires countable { search.old.steps + fuel < 2 ^ 64 }
{
    let end = search.run(fuel)?;
    Ok(outcome_of(search, &end))
}

fn outcome_of<A: Allocator + Copy>(search: &Search<'_, A>, end: &End) -> Outcome {
    let (end, lines) = match end {
        End::Saturated => ("saturated", 0),
        End::Closed(refutation) => ("closed", refutation.lines().len()),
        End::Lost => ("lost", 0),
        End::Spent => ("spent", 0),
    };
    Outcome {
        end,
        lines,
        steps: search.steps(),
        effort: search.effort(),
    }
}
