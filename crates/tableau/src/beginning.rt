// Beginnings: what one search did that serves others.
//
// A search whether anything is in top and not in bottom gives all that axioms say of individuals, and follows it up. As
// long as it has said nothing of the node in question but that it has top, its steps are legal behind the start of
// another query on any element, too (`one_beginning_runs_on`). So that search need not make them again: it puts the
// whole trail behind its own start, counts the steps, and goes on. Each step that it owes is counted.
//
// It looks at the two concepts of its start first. A node with a label inside the start may be blocked by the node in
// question, and then it is not legal to make a node below it. Where neither concept asks for nodes, none was made below
// such a node, but for one that is one with a first node, which nothing blocks (`parents_have_what_asked_for_nodes`).
// Nor may the two concepts clash.
ghost use Rattle.std.specs.Prelude.{◌≡◌, ◌==◌, ◌||◌, true, false, ◌∷◌, [], drop, length, IfOk};
ghost use Rattle.calculus_specs.specs.Shape.{shape_of};
ghost use Rattle.calculus_specs.specs.declared.facts.Fact.TheVariants.{Has};
ghost use Rattle.search_laws.specs.BeginningLaws.{asks_for_nodes};
ghost use Rattle.search_state.specs.Trail.{items_of};
ghost use Rattle.tableau.specs.Beginning.{do_clash, can_go_on, meets_other, speaks_of_other};
ghost use Rattle.tableau.specs.Beginning.{is_other_first, is_bottom, are_opposite, IsSeenBehind};
ghost use Rattle.tableau.specs.Seen.{nothing_known, is_one};

use crate::NoMemory;
use crate::search::is_on_any;
use crate::seen::{SeenClasses, class_of, complement_of};
use calculus_specs::Fact;
use search_laws::Shape;
use search_rules::{Rules, SearchRules};
use search_state::{Item, Tree};
use shq_terms::Query;
use std::alloc::{Allocator, Global};
use std::marker::Model;

/// What a search whether anything is in top and not in bottom did, for others to go on from: the items of its trail
/// behind the two facts of its start, how many steps it made, and the classes with which its run had to do.
#[derive(Drop)]
pub struct Beginning {
    pub(crate) rest: Vec<Item>,
    pub(crate) steps: u64,
    pub(crate) seen: SeenClasses,
}

impl Model for Beginning {
    ghost use Rattle.std.specs.Coded.{codes};
    ghost use Rattle.axiom_sets.specs.Sets.{limited_code};
    ghost use Rattle.tableau.specs.Beginning.{BeginningLists};

    ghost Value = { BeginningLists };

    ghost coded = { Prim.hlevel (codes, limited_code) };

    ghost view = { λ b. record { rest = b.rest.items; steps = b.steps; seen = b.seen } };
}

impl Beginning {
    /// How many steps the search made: a search that goes on from here owes them.
    pub fn steps(&self) -> u64
        ensures { result ≡ self.now.steps }
    {
        self.steps
    }

    // What is noted of a search that goes on from here. Where it asks for more than whether anything is in its
    // subclass, nothing is.
    pub(crate) fn seen_behind(
        &self,
        heap: Global,
        rules: &SearchRules<'_>,
        at: u32,
        sub: u32,
        not_sup: u32,
    ) -> Result<SeenClasses, NoMemory>
        ensures { IfOk result (IsSeenBehind rules.now.table at sub not_sup self.now.seen) }
    {
        if not_sup == 0 {
            self.seen.behind(rules, at, sub, not_sup)
        } else {
            SeenClasses::unknown(heap)
        }
    }
}

/// How many facts each search starts with: the two concepts of the node in question.
const START: u32 = 2;

/// The items of a trail behind the facts of its start.
pub(crate) fn rest_of<A: Allocator + Copy>(
    heap: Global,
    tree: &Tree<A>,
) -> Result<Vec<Item>, NoMemory>
    ensures { IfOk result (λ v. v.items ≡ drop 2 (items_of tree.now.entries)) }
{
    let mut rest = Vec::new(heap);
    for place in START..tree.len() {
        rest.push(tree.item(place))?;
    }
    Ok(rest)
}

/// Whether a search for the query can go on from a beginning.
pub(crate) fn can_go_on(rules: &SearchRules<'_>, query: &Query, sub: u32, not_sup: u32) -> bool
    ensures { result ≡ can_go_on rules.now query.now sub not_sup }
{
    is_on_any(query)
        && (!asks_for_nodes(rules, sub) && !asks_for_nodes(rules, not_sup))
        && !do_clash(rules, sub, not_sup)
}

// Whether a concept asks for nodes below its node.
fn asks_for_nodes<R: Rules>(rules: &R, concept: u32) -> bool
    ensures { result ≡ asks_for_nodes (shape_of (R.context rules.now).table concept) }
{
    match rules.shape(concept) {
        Shape::SomeOf(..) | Shape::Min(..) => true,
        Shape::Top
        | Shape::Bottom
        | Shape::Name(_)
        | Shape::NotName(_)
        | Shape::And(_)
        | Shape::Or(_)
        | Shape::AllOf(..)
        | Shape::Max(..) => false,
    }
}

// Whether a node with two concepts, and no edge, has a plain clash.
fn do_clash<R: Rules>(rules: &R, one: u32, other: u32) -> bool
    ensures { result
        ≡ do_clash (shape_of (R.context rules.now).table one) (shape_of (R.context rules.now).table other) }
{
    (is_bottom(rules, one) || is_bottom(rules, other))
        || (are_opposite(rules, one, other) || are_opposite(rules, other, one))
}

// Whether a concept is bottom.
fn is_bottom<R: Rules>(rules: &R, concept: u32) -> bool
    ensures { result ≡ is_bottom (shape_of (R.context rules.now).table concept) }
{
    matches!(rules.shape(concept), Shape::Bottom)
}

// Whether two concepts are a class and its complement.
fn are_opposite<R: Rules>(rules: &R, one: u32, other: u32) -> bool
    ensures { result
        ≡ are_opposite (shape_of (R.context rules.now).table one) (shape_of (R.context rules.now).table other) }
{
    match class_of(rules, one) {
        Some(class) => is_one(class, complement_of(rules, other)),
        None => false,
    }
}

// Whether a class is the one that was found.
fn is_one(class: u32, found: Option<u32>) -> bool
    ensures { result ≡ is_one class found }
{
    match found {
        Some(other) => other == class,
        None => false,
    }
}

/// Whether an item is a fact that speaks of another first node than the one in question.
pub(crate) fn meets_other(item: Item, first: u32, at: u32) -> bool
    ensures { result ≡ meets_other first at item }
{
    match item {
        Item::Fact(fact) => speaks_of_other(fact, first, at),
        Item::Mark(_) => false,
    }
}

// Whether a fact speaks of another first node than the one in question.
fn speaks_of_other(fact: Fact<u32>, first: u32, at: u32) -> bool
    ensures { result ≡ speaks_of_other first at fact }
{
    match fact {
        Fact::Has(node, _) => is_other_first(node, first, at),
        Fact::Edge(_, one, other) => is_either(one, other, first, at),
        Fact::Apart(one, other) => is_either(one, other, first, at),
        Fact::Same(one, other) => is_either(one, other, first, at),
    }
}

// Whether one of two nodes is a first one, and not the one in question.
fn is_either(one: u32, other: u32, first: u32, at: u32) -> bool
    ensures { result ≡ (is_other_first first at one || is_other_first first at other) }
{
    is_other_first(one, first, at) || is_other_first(other, first, at)
}

// Whether a node is a first one, and not the one in question.
fn is_other_first(node: u32, first: u32, at: u32) -> bool
    ensures { result ≡ is_other_first first at node }
{
    node < first && node != at
}
