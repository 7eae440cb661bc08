// The rows of the axioms of a set, in order.
ghost use Rattle.std.specs.Prelude.{◌+◌, ◌<◌, ◌≤◌, IsTrue, IfOk, OnOk, All, length};
ghost use Rattle.row_cache.specs.Numbers.{Extends};
ghost use Rattle.row_cache.specs.Parts.{axiom_parts, axiom_has_counts_within, part_in};
ghost use Rattle.row_cache.specs.Theory.{named_parts};
ghost use Rattle.row_cache.specs.Rows.{AreInLimit};
ghost use Rattle.absorption.specs.Rows.{IsRowOfPart, AreRowsOf, AddsRows};

use crate::NoMemory;
use crate::row::{Row, row_of_part};
use row_cache::{Concepts, part_count};
use shq_terms::{Axiom, Ontology};
use std::alloc::Global;

// The rows of all parts of the axioms of these numbers.
pub(crate) fn rows_of(
    alloc: Global,
    ontology: &Ontology,
    numbers: &[u32],
    concepts: &mut Concepts,
) -> Result<Vec<Row>, NoMemory>
    requires numbers { All (λ k. (1 ≤ k) × (k ≤ length ontology.now.axioms)) numbers.now }
    requires within { AreInLimit ontology.now.axioms }
    ensures rows { IfOk result
        (λ rows. AreRowsOf concepts.new (named_parts ontology.now.axioms numbers.now) rows.items) }
    ensures kept { Extends concepts.old concepts.new }
{
    let _count = concepts.len();
    let mut rows = Vec::new(alloc);
    for number in numbers {
        push_rows(
            alloc,
            &mut rows,
            concepts,
            *number,
            &ontology.axiom(*number).axiom,
        )?;
    }
    Ok(rows)
}

// Puts the rows of the parts of an axiom last.
fn push_rows(
    alloc: Global,
    rows: &mut Vec<Row>,
    concepts: &mut Concepts,
    number: u32,
    axiom: &Axiom,
) -> Result<(), NoMemory>
    requires counts { IsTrue (axiom_has_counts_within 100 «axiom».now) }
    requires parts { length (axiom_parts «axiom».now) ≤ 500000 }
    ensures rows { OnOk result
        (AddsRows concepts.old concepts.new number (axiom_parts «axiom».now) rows.old.items rows.new.items) }
    ensures kept { Extends concepts.old concepts.new }
{
    let _count = concepts.len();
    for place in 0..part_count(axiom) {
        let row = row_at(alloc, concepts, number, axiom, place)?;
        rows.push(row)?;
    }
    Ok(())
}

// The row of the part at a place, from 0.
fn row_at(
    alloc: Global,
    concepts: &mut Concepts,
    number: u32,
    axiom: &Axiom,
    place: u32,
) -> Result<Row, NoMemory>
    requires listed { place < length (axiom_parts «axiom».now) }
    requires counts { IsTrue (axiom_has_counts_within 100 «axiom».now) }
    requires parts { length (axiom_parts «axiom».now) ≤ 500000 }
    ensures row { IfOk result (IsRowOfPart concepts.new number (place + 1) (part_in (axiom_parts «axiom».now) place)) }
    ensures kept { Extends concepts.old concepts.new }
{
    let found = concepts.part(axiom, place + 1)?;
    row_of_part(alloc, concepts, number, place + 1, found)
}
