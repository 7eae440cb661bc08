// A branching whose concepts are numbered anew.
ghost use Rattle.std.specs.Prelude.{◌≡◌, ◌<◌, [], ◌∷◌, OnOk, length, map};
ghost use Rattle.calculus_specs.specs.Line.Line.{start_line, or_line, clash_line};
ghost use Rattle.refutation_tree.specs.RuleLine.{line_of};

use crate::small_tables::table;
use axiom_sets::AxiomSet;
use closed_search::{Refutation, numbered_refutation};
use search_trace::{Line, NoMemory};
use shq_nnf::{Concepts, Shape};
use std::alloc::Global;
use std::test::Fail;

/// What a table has behind number 0.
const SHAPES: &[Shape<'static>] = &[
    Shape::Name(0),
    Shape::Name(1),
    Shape::NotName(0),
    Shape::SomeOf(0, 2),
    Shape::AllOf(0, 0),
    Shape::AllOf(0, 4),
];

// A branching with both children, whether it refutes anything or not.
fn put_branching(all: &mut Vec<Line>) -> Result<(), NoMemory>
    requires { all.old.items ≡ [] }
    ensures { OnOk result (map line_of all.new.items
        ≡ start_line ∷ or_line 0 6 ∷ clash_line 0 1 ∷ clash_line 0 2 ∷ []) }
{
    all.push(Line::Start)?;
    all.push(Line::Or(0, 6))?;
    all.push(Line::Clash(0, 1))?;
    all.push(Line::Clash(0, 2))?;
    Ok(())
}

fn numbered(alloc: Global, concepts: &Concepts) -> Result<Refutation, NoMemory>
    requires { 6 < length concepts.now }
{
    let mut lines = Vec::new(alloc);
    put_branching(&mut lines)?;
    numbered_refutation(alloc, AxiomSet::full(alloc, 2)?, concepts, lines)
}

fn is_numbered_anew(refutation: &Refutation) -> bool {
    refutation.axioms_used().len() == 2
        && refutation.shape_count() == 4
        && refutation.shape(3) == Shape::AllOf(0, 2)
        && matches!(
            refutation.lines(),
            [
                Line::Start,
                Line::Or(0, 3),
                Line::Clash(0, 4),
                Line::Clash(0, 1)
            ]
        )
}

fn is_numbered(alloc: Global, concepts: &Concepts) -> Result<bool, NoMemory> {
    if concepts.len() <= 6 {
        return Err(NoMemory);
    }
    let refutation = numbered(alloc, concepts)?;
    Ok(is_numbered_anew(&refutation))
}

fn numbers_what_it_names(alloc: Global) -> Result<bool, NoMemory> {
    let concepts = table(alloc, SHAPES)?;
    is_numbered(alloc, &concepts)
}

#[test]
fn refutations_of_lines(rt: HostRuntime) -> Result<(), Fail> {
    assert!(rt;
        numbers_what_it_names(rt.alloc())?,
        "concepts that are named"
    );
    Ok(())
}
