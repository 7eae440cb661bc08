// Each call over sets in memory once.

ghost use Rattle.std.specs.Prelude.{◌≡◌, []};
ghost use Rattle.std.specs.List.{All};
ghost use Rattle.set_questions.specs.Kept.{kept_sets};

use crate::checks::check;
use crate::written_sets::{are_sets, mask_of, set_of, sets_of};
use axiom_sets::AxiomSet;
use justification_shrink::{Shrunk, shrink};
use set_questions::{
    Antichain, Entail, Reply, SetOracle, place_apart, place_of_part, put_in_order, rest_of,
};
use shq_terms::NoMemory;
use std::alloc::Global;
use std::process::Abort;
use std::test::Fail;

/// What is told: the bits of a set, or that there is none.
#[derive(Clone, Copy)]
enum Told {
    Set(u64),
    No,
    Spent,
}

fn told_by(answer: &Reply) -> Told {
    match answer {
        Reply::Yes(part) => Told::Set(mask_of(part)),
        Reply::No => Told::No,
        Reply::Spent => Told::Spent,
    }
}

/// Asks about a set.
fn ask(oracle: &mut SetOracle, set: &AxiomSet) -> Result<Told, NoMemory>
    requires { set.now.limit ≡ (⟦<SetOracle as Entail>⟧.meaning oracle.old).size }
    ensures { (⟦<SetOracle as Entail>⟧.meaning oracle.new).size
        ≡ (⟦<SetOracle as Entail>⟧.meaning oracle.old).size }
{
    let answer = oracle.ask(set)?;
    Ok(told_by(&answer))
}

fn told_of(shrunk: &Shrunk) -> Told {
    match shrunk {
        Shrunk::Smallest(smallest) => Told::Set(mask_of(smallest)),
        Shrunk::Spent => Told::Spent,
    }
}

/// Shrinks a set.
fn smallest_in<E: Entail>(oracle: &mut E, part: &AxiomSet) -> Result<Told, NoMemory>
    requires limit { part.now.limit ≡ (E.meaning oracle.old).size }
    requires yes_set { (E.meaning oracle.old).holds part.now.members }
{
    let shrunk = shrink(oracle, part)?;
    Ok(told_of(&shrunk))
}

/// Asks about a set, and shrinks what is named.
fn shrunk_in<E: Entail>(oracle: &mut E, set: &AxiomSet) -> Result<Told, NoMemory>
    requires { set.now.limit ≡ (E.meaning oracle.old).size }
{
    match oracle.ask(set)? {
        Reply::Yes(part) => smallest_in(oracle, &part),
        Reply::No => Ok(Told::No),
        Reply::Spent => Ok(Told::Spent),
    }
}

/// The first listed part is told, and is shrunk with three asks more.
fn is_shrunk(oracle: &mut SetOracle, full: &AxiomSet) -> Result<bool, NoMemory>
    requires size { (⟦<SetOracle as Entail>⟧.meaning oracle.old).size ≡ 4 }
    requires limit { full.now.limit ≡ 4 }
{
    let part = ask(oracle, full)?;
    let smallest = shrunk_in(oracle, full)?;
    let counts = oracle.asks() == 5 && oracle.count() == 4;
    Ok(matches!(part, Told::Set(0b1110)) && matches!(smallest, Told::Set(0b110)) && counts)
}

/// A node is taken, and then all numbers are asked about.
fn answers(oracle: &mut SetOracle, node: &AxiomSet, full: &AxiomSet) -> Result<bool, NoMemory>
    requires size { (⟦<SetOracle as Entail>⟧.meaning oracle.old).size ≡ 4 }
    requires none { (⟦<SetOracle as Entail>⟧.meaning oracle.old).taken ≡ [] }
    requires node { node.now.limit ≡ 4 }
    requires full { full.now.limit ≡ 4 }
{
    let is_taken = oracle.take_node(node)? && oracle.nodes() == 1;
    Ok(is_shrunk(oracle, full)? && is_taken)
}

/// Without a budget no node is taken, and nothing is answered.
fn is_idle(oracle: &mut SetOracle, set: &AxiomSet) -> Result<bool, NoMemory>
    requires size { (⟦<SetOracle as Entail>⟧.meaning oracle.old).size ≡ 4 }
    requires none { (⟦<SetOracle as Entail>⟧.meaning oracle.old).taken ≡ [] }
    requires limit { set.now.limit ≡ 4 }
{
    let is_taken = oracle.take_node(set)?;
    let told = ask(oracle, set)?;
    Ok(!is_taken && matches!(told, Told::Spent))
}

fn answers_by_sets(alloc: Global, node: &AxiomSet, full: &AxiomSet) -> Result<bool, NoMemory>
    requires node { node.now.limit ≡ 4 }
    requires full { full.now.limit ≡ 4 }
{
    let sets = sets_of(alloc, 4, &["123", "12"])?;
    let mut oracle = SetOracle::new(alloc, 4, sets, 6);
    answers(&mut oracle, node, full)
}

fn is_idle_without(alloc: Global, set: &AxiomSet) -> Result<bool, NoMemory>
    requires { set.now.limit ≡ 4 }
{
    let mut oracle = SetOracle::new(alloc, 4, Vec::new(alloc), 0);
    is_idle(&mut oracle, set)
}

/// What a set lacks.
fn is_rest(alloc: Global, set: &AxiomSet) -> Result<bool, NoMemory> {
    let rest = rest_of(alloc, set)?;
    Ok(mask_of(&rest) == 0b11100)
}

/// With a budget and without, and what the node lacks.
fn are_answered(alloc: Global, node: &AxiomSet, full: &AxiomSet) -> Result<bool, NoMemory>
    requires node { node.now.limit ≡ 4 }
    requires full { full.now.limit ≡ 4 }
{
    let are_so = answers_by_sets(alloc, node, full)? && is_idle_without(alloc, full)?;
    Ok(is_rest(alloc, node)? && are_so)
}

fn are_answered_at(alloc: Global, node: &AxiomSet) -> Result<bool, NoMemory>
    requires { node.now.limit ≡ 4 }
{
    let full = AxiomSet::full(alloc, 4)?;
    are_answered(alloc, node, &full)
}

fn are_all_answered(alloc: Global) -> Result<bool, NoMemory> {
    let node = set_of(alloc, 4, "1")?;
    are_answered_at(alloc, &node)
}

/// A part of a set, and that all sets meet it.
fn are_placed(sets: &[AxiomSet], set: &AxiomSet) -> bool
    requires { All (λ s. s.limit ≡ set.now.limit) sets.now }
{
    place_of_part(sets, set) == Some(0) && place_apart(sets, set).is_none()
}

fn are_found(alloc: Global, sets: &[AxiomSet]) -> Result<bool, NoMemory>
    requires { All (λ s. s.limit ≡ 4) sets.now }
{
    let set = set_of(alloc, 4, "13")?;
    Ok(are_placed(sets, &set))
}

fn are_places_found(alloc: Global) -> Result<bool, NoMemory> {
    let sets = sets_of(alloc, 4, &["3", "12", "1", "3"])?;
    are_found(alloc, &sets)
}

fn is_put_in(alloc: Global, sets: &mut Vec<AxiomSet>) -> Result<bool, NoMemory>
    requires { sets.old.items ≡ [] }
{
    let set = set_of(alloc, 4, "13")?;
    put_in_order(sets, set)?;
    Ok(are_sets(sets, &["13"]))
}

fn is_put(alloc: Global) -> Result<bool, NoMemory> {
    let mut sets = Vec::new(alloc);
    is_put_in(alloc, &mut sets)
}

/// Puts sets into an antichain.
fn put_each(alloc: Global, chain: &mut Antichain, words: &[&str]) -> Result<(), NoMemory>
    requires { kept_sets chain.old ≡ [] }
{
    for word in words {
        let set = set_of(alloc, 4, word)?;
        chain.put(set)?;
    }
    Ok(())
}

/// The sets that are put into each antichain.
const PUT: &[&str] = &["13", "12", "123", "2", "13"];

fn keeps(alloc: Global, chain: &mut Antichain, kept: &[&str]) -> Result<bool, NoMemory>
    requires { kept_sets chain.old ≡ [] }
{
    put_each(alloc, chain, PUT)?;
    Ok(are_sets(chain.sets(), kept))
}

fn keeps_smallest(alloc: Global) -> Result<bool, NoMemory> {
    let mut chain = Antichain::minimal(alloc);
    keeps(alloc, &mut chain, &["13", "2"])
}

fn keeps_greatest(alloc: Global) -> Result<bool, NoMemory> {
    let mut chain = Antichain::maximal(alloc);
    keeps(alloc, &mut chain, &["123"])
}

fn test_calls(rt: &impl Abort, alloc: Global) -> Result<(), NoMemory> {
    check(rt, are_all_answered(alloc)?, "budgets, and a rest");
    check(rt, are_places_found(alloc)?, "places");
    check(rt, is_put(alloc)?, "one more");
    check(rt, keeps_smallest(alloc)?, "the smallest");
    check(rt, keeps_greatest(alloc)?, "the greatest");
    Ok(())
}

#[test]
fn calls_over_sets(rt: HostRuntime) -> Result<(), Fail> {
    test_calls(&rt, rt.alloc())?;
    Ok(())
}
