// Given facts in the order of their axioms, what they bring, and the clashes that they make.
ghost use Rattle.std.specs.Prelude.{◌≡◌, IsTrue, OnOk, length};
ghost use Rattle.search_rules.specs.Limits.{IsOntologyInLimit};
ghost use Rattle.shq_terms.specs.Listed.{with_axiom};
ghost use Rattle.shq_terms.specs.Uses.{axiom_uses_listed};

use crate::following::is_fit;
use crate::small_axioms::{add_names, has_names, list_of};
use axiom_sets::AxiomSet;
use calculus_specs::{Fact, NoMemory};
use completion_tree::{By, Deps, Tree};
use refutation_tree::Line;
use search_rules::SearchRules;
use shq_terms::{AddFault, Axiom, Ontology};
use std::alloc::Global;
use std::test::Fail;
use step_agenda::{Agenda, TreeState};
use step_finders::{
    Clash, Given, Rules, StateWithRules, Step, find_clash_of_edge, find_giving, find_plain_clash,
};
use step_lines::line_of_given;

// ---- the axioms

/// A walk of the tests.
#[derive(Clone, Copy)]
enum Walk {
    /// Edges between individuals, and two that are different.
    Edges,
    /// Two individuals that are one, and different.
    One,
}

fn push(ontology: &mut Ontology, axiom: Axiom) -> Result<(), AddFault>
    requires classes { length ontology.old.classes ≡ 0 }
    requires roles { length ontology.old.roles ≡ 1 }
    requires individuals { length ontology.old.individuals ≡ 4 }
    requires uses { IsTrue (axiom_uses_listed 0 1 4 «axiom») }
    ensures { OnOk result (ontology.new ≡ with_axiom ontology.old «axiom» 1) }
{
    ontology.add_axiom(axiom, 1)?;
    Ok(())
}

// The ontology of a walk, where none is there yet. An edge leads from individual 0 to 1 and one to 3, which are
// different; or individuals 0 and 2 are one, and different.
fn fill(alloc: Global, ontology: &mut Ontology, walk: Walk) -> Result<(), AddFault>
    ensures { OnOk result (IsOntologyInLimit ontology.new) }
{
    add_names(ontology, &[], &["R"], &["a", "b", "c", "d"])?;
    if !has_names(ontology, 0, 1, 4) || ontology.axiom_count() != 0 {
        return Err(AddFault::Full);
    }
    match walk {
        Walk::Edges => {
            push(ontology, Axiom::Pair(0, 0, 1))?;
            push(ontology, Axiom::Pair(0, 0, 3))?;
            push(ontology, Axiom::Different(list_of(alloc, &[1, 3])?))
        }
        Walk::One => {
            push(ontology, Axiom::SameAll(list_of(alloc, &[0, 2])?))?;
            push(ontology, Axiom::Different(list_of(alloc, &[2, 0])?))
        }
    }
}

// ---- a search

// The next step that the agenda proposes, and the line of a given fact that it is, as its axiom and its place.
fn next(
    heap: Global,
    agenda: &mut Agenda,
    tree: &Tree<Global>,
    rules: &SearchRules<'_>,
) -> Result<Option<(Step, Option<(u32, u32)>)>, NoMemory> {
    if tree.first() != rules.first() {
        return Err(NoMemory);
    }
    let state = TreeState::new(tree);
    let search = StateWithRules {
        state: &state,
        rules,
    };
    match agenda.next_at_any(heap, tree, &search)? {
        Some(Step::Give(given)) => {
            let line = line_of_given(heap, rules, &given)?;
            Ok(Some((Step::Give(given), named(&line.line))))
        }
        Some(step) => Ok(Some((step, None))),
        None => Ok(None),
    }
}

// The axiom and the place that a line of a given fact names.
fn named(line: &Line) -> Option<(u32, u32)> {
    match line {
        Line::Fact(axiom, place) => Some((*axiom, *place)),
        _ => None,
    }
}

// Puts a fact last. One that may not be put counts as out of memory.
fn put(tree: &mut Tree<Global>, fact: Fact<u32>) -> Result<(), NoMemory> {
    let line = tree.len();
    if !is_fit(tree.nodes(), fact) {
        return Err(NoMemory);
    }
    let by = By {
        line,
        marks: Deps::none(),
    };
    tree.add(fact, by)
}

// Whether the full look finds the fact too.
fn is_first(tree: &Tree<Global>, rules: &SearchRules<'_>, given: Given) -> bool {
    if tree.first() != rules.first() {
        return false;
    }
    let state = TreeState::new(tree);
    let search = StateWithRules {
        state: &state,
        rules,
    };
    find_giving(&search) == Some(given)
}

// The clash that a full look finds, and that by an edge from node 0 to node 3.
fn clashes(tree: &Tree<Global>, rules: &SearchRules<'_>) -> (Option<Clash>, Option<Clash>) {
    if tree.first() != rules.first() || tree.nodes() == 0 {
        return (None, None);
    }
    let state = TreeState::new(tree);
    let search = StateWithRules {
        state: &state,
        rules,
    };
    (
        find_plain_clash(&search),
        find_clash_of_edge(&search, 0, 0, 3),
    )
}

// Puts the next given fact, where it is this one, the first of this axiom.
fn give(
    heap: Global,
    agenda: &mut Agenda,
    tree: &mut Tree<Global>,
    rules: &SearchRules<'_>,
    axiom: u32,
    fact: Fact<u32>,
) -> Result<bool, NoMemory> {
    match next(heap, agenda, tree, rules)? {
        Some((Step::Give(given), line)) => {
            let is_it = given.axiom == axiom && given.place == 1 && given.fact == fact;
            let is_right = is_it && is_first(tree, rules, given) && line == Some((axiom, 1));
            put(tree, fact)?;
            Ok(is_right)
        }
        _ => Ok(false),
    }
}

fn give_each(
    heap: Global,
    agenda: &mut Agenda,
    tree: &mut Tree<Global>,
    rules: &SearchRules<'_>,
    facts: &[(u32, Fact<u32>)],
) -> Result<bool, NoMemory> {
    let mut are_right = true;
    for (axiom, fact) in facts {
        let (plain, of_edge) = clashes(tree, rules);
        are_right &= plain == None && of_edge == None;
        are_right &= give(heap, agenda, tree, rules, *axiom, *fact)?;
    }
    Ok(are_right)
}

// ---- the walks

/// The facts that the first ontology gives, each with its axiom.
const EDGES: &[(u32, Fact<u32>)] = &[
    (1, Fact::Edge(0, 0, 1)),
    (2, Fact::Edge(0, 0, 3)),
    (3, Fact::Apart(1, 3)),
];

/// Those that the second gives.
const ONE: &[(u32, Fact<u32>)] = &[(1, Fact::Same(0, 2)), (2, Fact::Apart(2, 0))];

fn rules_of(heap: Global, ontology: &Ontology) -> Result<SearchRules<'_>, NoMemory>
    requires { IsOntologyInLimit ontology.now }
{
    let set = AxiomSet::full(heap, ontology.axiom_count())?;
    SearchRules::build(heap, ontology, &set)
}

// Whether the walk goes as it should, over a tree that has the first nodes alone.
fn goes_as_it_should(
    heap: Global,
    agenda: &mut Agenda,
    tree: &mut Tree<Global>,
    rules: &SearchRules<'_>,
    walk: Walk,
) -> Result<bool, NoMemory> {
    let facts = match walk {
        Walk::Edges => EDGES,
        Walk::One => ONE,
    };
    let are_given = give_each(heap, agenda, tree, rules, facts)?;
    let (plain, of_edge) = clashes(tree, rules);
    let is_last = match walk {
        Walk::Edges => plain == None && of_edge == None,
        Walk::One => plain == Some(Clash::Differ(0, 0)),
    };
    Ok(are_given && is_last)
}

fn go_by_rules(heap: Global, rules: &SearchRules<'_>, walk: Walk) -> Result<bool, NoMemory> {
    let mut tree = Tree::new_in(heap, rules.first())?;
    let mut agenda = Agenda::new(heap, 0);
    let outcome = goes_as_it_should(heap, &mut agenda, &mut tree, rules, walk);
    drop(agenda);
    drop(tree);
    outcome
}

fn go(heap: Global, ontology: &Ontology, walk: Walk) -> Result<bool, NoMemory>
    requires { IsOntologyInLimit ontology.now }
{
    let rules = rules_of(heap, ontology)?;
    let outcome = go_by_rules(heap, &rules, walk);
    drop(rules);
    outcome
}

fn is_walk_in(heap: Global, ontology: &mut Ontology, walk: Walk) -> Result<bool, AddFault> {
    fill(heap, ontology, walk)?;
    Ok(go(heap, ontology, walk)?)
}

fn is_walk(heap: Global, walk: Walk) -> Result<bool, AddFault> {
    let mut ontology = Ontology::new(heap);
    is_walk_in(heap, &mut ontology, walk)
}

#[test]
fn facts_of_individuals_are_given_in_order(rt: HostRuntime) -> Result<(), Fail> {
    assert!(rt;
        is_walk(rt.alloc(), Walk::Edges)?,
        "edges, and two that are different"
    );
    assert!(rt; is_walk(rt.alloc(), Walk::One)?, "one, and different");
    Ok(())
}
