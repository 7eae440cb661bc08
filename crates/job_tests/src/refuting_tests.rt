// The refutation of a trace with a line on which nothing rests.
ghost use Rattle.std.specs.Prelude.{◌≡◌, ◌≤◌, [], ◌∷◌, IfOk, OnOk, length};
ghost use Rattle.shq_nnf.specs.Line.Line.{row_line, clash_line};
ghost use Rattle.ontology_limits.specs.Limits.{IsInLimit};
ghost use Rattle.search_trace.specs.Trace.{lines_in};
ghost use Rattle.shq_nnf.specs.Numbers.{IsNumber};
ghost use Rattle.shq_terms.specs.Concept.{name};

use crate::reading::read;
use axiom_sets::AxiomSet;
use closed_search::{Line, Refutation, Trace, refutation_of};
use search_rules::SearchRules;
use search_trace::Deps;
use shq_nnf::{Concepts, Shape};
use shq_terms::{NoMemory, NumberList, Ontology, Query};
use std::alloc::Global;
use std::test::Fail;

const DOCUMENT: &[u8] =
    b"Prefix(:=<e:>) Ontology(SubClassOf(:A :B) SubClassOf(:A :C) TransitiveObjectProperty(:R) SubClassOf(:B :A))";

fn first_conjunct(alloc: Global) -> Result<NumberList, NoMemory>
    ensures { IfOk result (λ ns. ns ≡ 1 ∷ []) }
{
    let mut positions = NumberList::new(alloc);
    positions.push(1)?;
    Ok(positions)
}

// A node in A and not in B is in B by the first axiom and in C by the second, and the first is a clash.
fn put_lines(alloc: Global, trace: &mut Trace, class: u32) -> Result<(), NoMemory>
    requires { lines_in trace.old ≡ [] }
    ensures { OnOk result (lines_in trace.new
        ≡ row_line 0 1 1 (1 ∷ []) ∷ row_line 0 2 1 (1 ∷ []) ∷ clash_line 0 class ∷ []) }
{
    let one = first_conjunct(alloc)?;
    trace.put(Line::Row(0, 1, 1, one), Deps::none())?;
    let other = first_conjunct(alloc)?;
    trace.put(Line::Row(0, 2, 1, other), Deps::none())?;
    trace.put(Line::Clash(0, class), Deps::none())?;
    Ok(())
}

fn closed_trace(alloc: Global, class: u32) -> Result<Trace, NoMemory>
    ensures { IfOk result (λ t. lines_in t
        ≡ row_line 0 1 1 (1 ∷ []) ∷ row_line 0 2 1 (1 ∷ []) ∷ clash_line 0 class ∷ []) }
{
    let mut trace = Trace::new(alloc);
    put_lines(alloc, &mut trace, class)?;
    Ok(trace)
}

fn refutation(
    alloc: Global,
    ontology: &Ontology,
    query: &Query,
    rules: &SearchRules<'_>,
    concepts: &Concepts,
    class: u32,
) -> Result<Refutation, NoMemory>
    requires ontology { rules.now.ontology ≡ ontology.now }
    requires set { rules.now.set.limit ≡ length ontology.now.axioms }
    requires classes { 2 ≤ length ontology.now.classes }
    requires in_limit { IsInLimit ontology.now query.now }
    requires class { IsNumber concepts.now class (name 1) }
{
    let trace = closed_trace(alloc, class)?;
    refutation_of(
        alloc,
        trace,
        ontology,
        rules.set(),
        rules.role_axioms(),
        query,
        concepts,
        rules.roles(),
    )
}

fn are_used(refutation: &Refutation) -> bool {
    let mut numbers = refutation.axioms_used().numbers();
    let mut are_so = true;
    for wanted in [Some(1), None] {
        are_so &= numbers.next() == wanted;
    }
    are_so
}

fn are_lines(lines: &[Line]) -> bool {
    matches!(
        lines,
        [Line::Start, Line::Row(0, 1, 1, _), Line::Clash(0, 1)]
    )
}

fn is_right(refutation: &Refutation) -> bool {
    are_used(refutation) && refutation.shape_count() == 1 && are_lines(refutation.lines())
}

// Puts both classes, and gives the number of B.
fn put_classes(concepts: &mut Concepts) -> Result<u32, NoMemory>
    ensures { IfOk result (λ class. IsNumber concepts.new class (name 1)) }
{
    concepts.put(Shape::Name(0))?;
    concepts.put(Shape::Name(1))
}

fn is_made(
    alloc: Global,
    ontology: &Ontology,
    query: &Query,
    rules: &SearchRules<'_>,
    concepts: &Concepts,
    class: u32,
) -> Result<bool, NoMemory>
    requires ontology { rules.now.ontology ≡ ontology.now }
    requires set { rules.now.set.limit ≡ length ontology.now.axioms }
    requires classes { 2 ≤ length ontology.now.classes }
    requires in_limit { IsInLimit ontology.now query.now }
    requires class { IsNumber concepts.now class (name 1) }
{
    let refutation = refutation(alloc, ontology, query, rules, concepts, class)?;
    Ok(is_right(&refutation))
}

fn is_made_over(
    alloc: Global,
    ontology: &Ontology,
    query: &Query,
    rules: &SearchRules<'_>,
) -> Result<bool, NoMemory>
    requires ontology { rules.now.ontology ≡ ontology.now }
    requires set { rules.now.set.limit ≡ length ontology.now.axioms }
    requires classes { 2 ≤ length ontology.now.classes }
    requires in_limit { IsInLimit ontology.now query.now }
{
    let mut concepts = Concepts::new(alloc)?;
    let class = put_classes(&mut concepts)?;
    is_made(alloc, ontology, query, rules, &concepts, class)
}

fn is_shortened(alloc: Global, ontology: &Ontology, query: &Query) -> Result<bool, NoMemory>
    requires in_limit { IsInLimit ontology.now query.now }
{
    if ontology.class_count() < 2 {
        return Ok(false);
    }
    let set = AxiomSet::full(alloc, ontology.axiom_count())?;
    let rules = SearchRules::build(alloc, ontology, &set)?;
    is_made_over(alloc, ontology, query, &rules)
}

#[test]
fn lines_on_which_nothing_rests_are_left_out(rt: HostRuntime) -> Result<(), Fail> {
    let (ontology, query) = read(rt.alloc(), DOCUMENT, "SubClassOf(:A :B)")?;
    assert!(rt;
        is_shortened(rt.alloc(), &ontology, &query) == Ok(true),
        "axioms that are used"
    );
    Ok(())
}
