// What a fact of the state rests on: a fact that says it, and the joins of its nodes.
ghost use Rattle.std.specs.Prelude.{◌≡◌, ◌==◌, ◌&&◌, ◌||◌, not, ◌∷◌, [], true, false, IfOk, IfSome, filter};
ghost use Rattle.std.specs.FinSet as set;
ghost use Rattle.calculus_specs.specs.Joins.{rep};
ghost use Rattle.calculus_specs.specs.State.{is_so};
ghost use Rattle.fact_tree.specs.Told.{gives, IsGround};
ghost use Rattle.completion_tree.specs.Trail.{facts_in, is_same, places};
ghost use Rattle.completion_tree.specs.Marks.{facts_within, is_top, is_joining, first_node, second_node, is_join};
ghost use Rattle.completion_tree.specs.Marks.{passes, marks_at, AreWithin, SomeWithin, IsGroundedBy};

use crate::trail::{Trail, copied_marks};
use crate::tree::Entry;
use axiom_sets::Deps;
use calculus_specs::{Fact, NoMemory};
use fact_tree::FactTree;
use std::alloc::{Allocator, Global};

/// Marks such that the fact holds in the state of the facts that rest on these marks alone.
pub(crate) fn marks_behind<A: Allocator + Copy>(
    alloc: Global,
    trail: &Trail<A>,
    facts: &FactTree<A>,
    asked: Fact<u32>,
) -> Result<Deps, NoMemory>
    requires same { facts.now.facts ≡ facts_in trail.now }
    requires holds { is_so facts.now.facts asked ≡ true }
    ensures { IfOk result (λ u. is_so (facts_within u trail.now) asked ≡ true) }
{
    if is_top(asked) {
        return Ok(Deps::none());
    }
    match own_marks(trail, facts, asked)? {
        Some(marks) => Ok(marks),
        None => marks_through_joins(alloc, trail, facts, asked),
    }
}

// The marks of the very fact, where it is found among the facts. It holds in the state of those that rest on its marks,
// whatever nodes are one there.
fn own_marks<A: Allocator + Copy>(
    trail: &Trail<A>,
    facts: &FactTree<A>,
    asked: Fact<u32>,
) -> Result<Option<Deps>, NoMemory>
    requires { facts.now.facts ≡ facts_in trail.now }
    ensures { IfOk result (λ found. IfSome found (λ u. is_so (facts_within u trail.now) asked ≡ true)) }
{
    match facts.ground(asked) {
        Some(index) => own_marks_at(trail, facts, asked, index),
        None => Ok(None),
    }
}

fn own_marks_at<A: Allocator + Copy>(
    trail: &Trail<A>,
    facts: &FactTree<A>,
    asked: Fact<u32>,
    index: usize,
) -> Result<Option<Deps>, NoMemory>
    requires same { facts.now.facts ≡ facts_in trail.now }
    requires ground { IsGround facts.now.facts asked index }
    ensures { IfOk result (λ found. IfSome found (λ u. is_so (facts_within u trail.now) asked ≡ true)) }
{
    if !are_one(facts.fact(index), asked) {
        return Ok(None);
    }
    let marks = trail.marks_of_fact(index)?;
    Ok(Some(marks))
}

// Whether the two are one fact, which says something of one node or of two.
fn are_one(fact: Fact<u32>, other: Fact<u32>) -> bool
    ensures { result ≡ true → fact ≡ other }
{
    match (fact, other) {
        (Fact::Has(node, concept), Fact::Has(end, part)) => node == end && concept == part,
        (Fact::Edge(role, from, to), Fact::Edge(by, first, second)) => {
            role == by && from == first && to == second
        }
        (Fact::Apart(first, second), Fact::Apart(node, end)) => first == node && second == end,
        (Fact::Has(_, _), _) => false,
        (Fact::Edge(_, _, _), _) => false,
        (Fact::Apart(_, _), _) => false,
        (Fact::Same(_, _), _) => false,
    }
}

// The marks of a fact that says what is asked, and of the joins by which it speaks of the nodes that are asked about.
fn marks_through_joins<A: Allocator + Copy>(
    alloc: Global,
    trail: &Trail<A>,
    facts: &FactTree<A>,
    asked: Fact<u32>,
) -> Result<Deps, NoMemory>
    requires same { facts.now.facts ≡ facts_in trail.now }
    requires holds { is_so facts.now.facts asked ≡ true }
    ensures { IfOk result (λ u. is_so (facts_within u trail.now) asked ≡ true) }
{
    let (first, second) = ends(facts, asked);
    let ground = ground_marks(trail, facts, asked)?;
    with_joins(alloc, trail, facts, ground, first, second)
}

// Whether it is asked for a concept that each node has.
fn is_top(asked: Fact<u32>) -> bool
    ensures { result ≡ is_top asked }
{
    match asked {
        Fact::Has(_, concept) => concept == 0,
        Fact::Edge(_, _, _) => false,
        Fact::Apart(_, _) => false,
        Fact::Same(_, _) => false,
    }
}

// The representatives of the nodes that are asked about.
fn ends<A: Allocator + Copy>(facts: &FactTree<A>, asked: Fact<u32>) -> (u32, u32)
    ensures first { result.0 ≡ rep facts.now.facts (first_node asked) }
    ensures second { result.1 ≡ rep facts.now.facts (second_node asked) }
{
    match asked {
        Fact::Has(node, _) => (facts.representative(node), facts.representative(node)),
        Fact::Edge(_, first, second) => (facts.representative(first), facts.representative(second)),
        Fact::Apart(first, second) => (facts.representative(first), facts.representative(second)),
        Fact::Same(first, second) => (facts.representative(first), facts.representative(second)),
    }
}

// The marks of a fact that says what is asked; none where there is none.
fn ground_marks<A: Allocator + Copy>(
    trail: &Trail<A>,
    facts: &FactTree<A>,
    asked: Fact<u32>,
) -> Result<Deps, NoMemory>
    requires { facts.now.facts ≡ facts_in trail.now }
    ensures { IfOk result (λ u. SomeWithin (gives (rep facts.now.facts) asked) u trail.now) }
{
    if is_joining(asked) {
        return Ok(Deps::none());
    }
    match facts.ground(asked) {
        Some(index) => trail.marks_of_fact(index),
        None => Ok(Deps::none()),
    }
}

// Whether it is asked whether two nodes are one, which joins alone say.
fn is_joining(asked: Fact<u32>) -> bool
    ensures { result ≡ is_joining asked }
{
    match asked {
        Fact::Same(_, _) => true,
        Fact::Has(_, _) => false,
        Fact::Edge(_, _, _) => false,
        Fact::Apart(_, _) => false,
    }
}

// The marks, with those of the joins of nodes with these representatives.
fn with_joins<A: Allocator + Copy>(
    alloc: Global,
    trail: &Trail<A>,
    facts: &FactTree<A>,
    ground: Deps,
    first: u32,
    second: u32,
) -> Result<Deps, NoMemory>
    requires same { facts.now.facts ≡ facts_in trail.now }
    requires first { rep facts.now.facts first ≡ first }
    requires second { rep facts.now.facts second ≡ second }
    ensures more { IfOk result (λ u. set.is_subset ground u ≡ true) }
    ensures joins { IfOk result (λ u. AreWithin (is_join (rep facts.now.facts) first second) u trail.now) }
{
    if facts.is_alone(first) && facts.is_alone(second) {
        return Ok(ground);
    }
    with_all_joins(alloc, trail, facts, ground, first, second)
}

fn with_all_joins<A: Allocator + Copy>(
    alloc: Global,
    trail: &Trail<A>,
    facts: &FactTree<A>,
    ground: Deps,
    first: u32,
    second: u32,
) -> Result<Deps, NoMemory>
    ensures more { IfOk result (λ u. set.is_subset ground u ≡ true) }
    ensures joins { IfOk result (λ u. AreWithin (is_join (rep facts.now.facts) first second) u trail.now) }
{
    let mut used = ground;
    for place in trail.joins() {
        used = with_join(alloc, trail.entry(*place), facts, used, first, second)?;
    }
    Ok(used)
}

fn with_join<A: Allocator + Copy>(
    alloc: Global,
    entry: &Entry,
    facts: &FactTree<A>,
    used: Deps,
    first: u32,
    second: u32,
) -> Result<Deps, NoMemory>
    ensures more { IfOk result (λ u. set.is_subset used u ≡ true) }
    ensures joins { IfOk result (λ u. AreWithin (is_join (rep facts.now.facts) first second) u (entry.now ∷ [])) }
{
    if !is_join_of(entry, facts, first, second) {
        return Ok(used);
    }
    let marks = copied_marks(entry)?;
    used.union(alloc, &marks)
}

// Whether the entry is a join of nodes with one of these representatives.
fn is_join_of<A: Allocator + Copy>(
    entry: &Entry,
    facts: &FactTree<A>,
    first: u32,
    second: u32,
) -> bool
    ensures { result ≡ passes (is_join (rep facts.now.facts) first second) entry.now }
{
    match entry {
        Entry::Fact(fact, _) => joins(facts, *fact, first, second),
        Entry::Mark(_) => false,
    }
}

fn joins<A: Allocator + Copy>(facts: &FactTree<A>, fact: Fact<u32>, first: u32, second: u32) -> bool
    ensures { result ≡ is_join (rep facts.now.facts) first second fact }
{
    match fact {
        Fact::Same(node, other) => {
            let representative = facts.representative(node);
            (representative == first || representative == second) && node != other
        }
        Fact::Has(_, _) => false,
        Fact::Edge(_, _, _) => false,
        Fact::Apart(_, _) => false,
    }
}
