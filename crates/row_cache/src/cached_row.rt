// Rows of the axioms that are named, in numbers of a table of concepts.
ghost use Rattle.std.specs.Prelude.{◌≡◌, ◌≤◌, ◌<◌, nat_le, nat_lt, true, IsTrue, IfOk, OnOk, length, map};
ghost use Rattle.std.specs.List.{list_all};
ghost use Rattle.refutation_truth.specs.TheoryRows.{is_among, is_ascending, is_name, are_name_positions};
ghost use Rattle.refutation_truth.specs.Shape.{IsTable};
ghost use Rattle.refutation_truth.specs.Tree.{tree_of};
ghost use Rattle.refutation_truth.specs.Shapes.{form_of};
ghost use Rattle.refutation_truth.specs.Bounds.{negated_trees};
ghost use Rattle.refutation_truth.specs.Numbers.{Extends, AreNumbers, trees_at};
ghost use Rattle.std.specs.FinSet as set;
ghost use Rattle.axiom_sets.specs.Sets.{IsWithin, member_list};
ghost use Rattle.row_cache.specs.Rows.{AreInLimit, IsRow, IsRowIn, IsRangeIn, IsPartIn, row_at, IsRowConcept};
ghost use Rattle.row_cache.specs.Rows.{is_name_at, are_names_at, is_name_shape, conjunct_number_at, other_numbers};

use crate::NoMemory;
use axiom_sets::AxiomSet;
use refutation_truth::{Concepts, NumberList, Ontology, Part, Shape, part_count};
use std::alloc::Global;

/// A row of a part of an axiom: what is in all the premises is in the concept.
#[derive(Drop)]
pub struct CachedRow {
    /// The conjuncts that are premises, by number.
    pub premises: NumberList,
    /// What an element is in that has them, by number.
    pub concept: u32,
}

/// The row of a range axiom: what is at the end of an edge of the role is in the concept.
#[derive(Clone, Copy, Debug, PartialEq, Eq)]
pub struct CachedRange {
    /// The role.
    pub role: u32,
    /// The class, by number.
    pub concept: u32,
}

impl CachedRow {
    // The row once more.
    pub(crate) fn try_clone(&self, alloc: Global) -> Result<CachedRow, NoMemory>
        ensures { IfOk result (λ r. r ≡ self.now) }
    {
        let premises = number_list(alloc, self.premises.items())?;
        Ok(CachedRow {
            premises,
            concept: self.concept,
        })
    }
}

pub(crate) fn number_list(alloc: Global, numbers: &[u32]) -> Result<NumberList, NoMemory>
    ensures { IfOk result (λ list. list ≡ numbers.now) }
{
    let mut list = NumberList::new(alloc);
    for number in numbers {
        list.push(*number)?;
    }
    Ok(list)
}

// The row of a part of an axiom for the name conjuncts at these positions, from 1.
pub(crate) fn inclusion_row(
    alloc: Global,
    concepts: &mut Concepts,
    ontology: &Ontology,
    named: &AxiomSet,
    axiom: u32,
    part: u32,
    positions: &[u32],
) -> Result<Option<CachedRow>, NoMemory>
    requires numbers { IsWithin (length ontology.now.axioms) named.now.members }
    requires within { AreInLimit ontology.now.axioms }
    ensures row { IfOk result (IsRowIn concepts.new ontology.now.axioms named.now «axiom» part positions.now) }
    ensures kept { Extends concepts.old concepts.new }
    ensures table { IsTable concepts.new }
{
    let found = named_part(concepts, ontology, named, axiom, part)?;
    match found {
        Some(Part::Inclusion(conjuncts, right)) => {
            let row = part_row(alloc, concepts, conjuncts.items(), right, positions)?;
            Ok(row)
        }
        _ => Ok(None),
    }
}

// The row of a range axiom that is named.
pub(crate) fn range_row(
    concepts: &mut Concepts,
    ontology: &Ontology,
    named: &AxiomSet,
    axiom: u32,
) -> Result<Option<CachedRange>, NoMemory>
    requires numbers { IsWithin (length ontology.now.axioms) named.now.members }
    requires within { AreInLimit ontology.now.axioms }
    ensures row { IfOk result (IsRangeIn concepts.new ontology.now.axioms named.now «axiom») }
    ensures kept { Extends concepts.old concepts.new }
    ensures table { IsTable concepts.new }
{
    let found = named_part(concepts, ontology, named, axiom, 1)?;
    match found {
        Some(Part::Range(role, concept)) => Ok(Some(CachedRange { role, concept })),
        _ => Ok(None),
    }
}

// The part of an axiom that has a number, from 1, if the axiom is named and has such a part.
fn named_part(
    concepts: &mut Concepts,
    ontology: &Ontology,
    named: &AxiomSet,
    axiom: u32,
    part: u32,
) -> Result<Option<Part>, NoMemory>
    requires numbers { IsWithin (length ontology.now.axioms) named.now.members }
    requires within { AreInLimit ontology.now.axioms }
    ensures part { IfOk result (IsPartIn concepts.new ontology.now.axioms named.now «axiom» part) }
    ensures kept { Extends concepts.old concepts.new }
    ensures table { IsTable concepts.new }
{
    let _count = concepts.len();
    if !is_named(named, axiom) {
        return Ok(None);
    }
    let numbered = ontology.axiom(axiom);
    if part < 1 || part > part_count(&numbered.axiom) {
        return Ok(None);
    }
    let part = concepts.part(&numbered.axiom, part)?;
    let _count = concepts.len();
    Ok(Some(part))
}

pub(crate) fn is_named(named: &AxiomSet, axiom: u32) -> bool
    ensures named { result ≡ is_among (member_list named.now) «axiom» }
    ensures member { IsTrue result → set.contains named.now.members «axiom» ≡ true }
{
    let limit = named.limit();
    if axiom < 1 || axiom > limit {
        return false;
    }
    named.has(axiom)
}

/// The row of an inclusion, whose conjuncts and right side are numbers of the table, for the name conjuncts at these
/// positions, from 1. `None` where the positions do not ascend or one of them is not that of a name.
///
/// # Errors
///
/// Out of memory. The table keeps its numbers, and may have gained some.
pub fn part_row(
    alloc: Global,
    concepts: &mut Concepts,
    conjuncts: &[u32],
    right: u32,
    positions: &[u32],
) -> Result<Option<CachedRow>, NoMemory>
    requires listed { IsTrue (list_all (λ n. nat_lt n (length concepts.old)) conjuncts.now) }
    requires right_listed { right < length concepts.old }
    ensures row { IfOk result (λ r. IsRow concepts.new (row_at concepts.old conjuncts.now right positions.now) r) }
    ensures kept { Extends concepts.old concepts.new }
    ensures table { IsTable concepts.new }
{
    let _count = concepts.len();
    if !is_ascending(positions) || !are_names(concepts, conjuncts, positions) {
        return Ok(None);
    }
    let premises = premises(alloc, conjuncts, positions)?;
    let outcome = row_concept(alloc, concepts, conjuncts, right, positions);
    let _count = concepts.len();
    let concept = outcome?;
    Ok(Some(CachedRow { premises, concept }))
}

fn is_ascending(positions: &[u32]) -> bool
    ensures { result ≡ is_ascending positions.now }
{
    for index in 1..positions.len() {
        if positions[index - 1] >= positions[index] {
            return false;
        }
    }
    true
}

// Whether the conjuncts at these positions are names.
fn are_names(concepts: &Concepts, conjuncts: &[u32], positions: &[u32]) -> bool
    requires listed { IsTrue (list_all (λ n. nat_lt n (length concepts.now)) conjuncts.now) }
    ensures { result ≡ are_names_at concepts.now conjuncts.now positions.now }
{
    let mut names = true;
    for position in positions {
        let here = is_name_at(concepts, conjuncts, *position);
        names = names && here;
    }
    names
}

fn is_name_at(concepts: &Concepts, conjuncts: &[u32], position: u32) -> bool
    requires { IsTrue (list_all (λ n. nat_lt n (length concepts.now)) conjuncts.now) }
    ensures { result ≡ is_name_at concepts.now conjuncts.now position }
{
    let _count = concepts.len();
    is_name(concepts, conjunct_at(conjuncts, position))
}

// The number of a conjunct by its position, from 1: that of `Top` where there is none.
fn conjunct_at(conjuncts: &[u32], position: u32) -> u32
    ensures { result ≡ conjunct_number_at conjuncts.now position }
{
    if position == 0 || position as usize > conjuncts.len() {
        return 0;
    }
    conjuncts[position as usize - 1]
}

/// Whether the number of the table is a class name.
pub fn is_name(concepts: &Concepts, concept: u32) -> bool
    requires { concept < length concepts.now }
    ensures { result ≡ is_name (tree_of concepts.now concept) }
{
    is_name_shape(concepts.shape(concept))
}

fn is_name_shape(shape: Shape<'_>) -> bool
    ensures { result ≡ is_name_shape (form_of shape.entry) }
{
    matches!(shape, Shape::Name(_))
}

// The conjuncts at these positions.
fn premises(alloc: Global, conjuncts: &[u32], positions: &[u32]) -> Result<NumberList, NoMemory>
    ensures { IfOk result (λ numbers. numbers ≡ map (conjunct_number_at conjuncts.now) positions.now) }
{
    let mut numbers = NumberList::new(alloc);
    for position in positions {
        numbers.push(conjunct_at(conjuncts, *position))?;
    }
    Ok(numbers)
}

// What an element is in that is in the conjuncts at these positions.
fn row_concept(
    alloc: Global,
    concepts: &mut Concepts,
    conjuncts: &[u32],
    right: u32,
    positions: &[u32],
) -> Result<u32, NoMemory>
    requires listed { IsTrue (list_all (λ n. nat_lt n (length concepts.old)) conjuncts.now) }
    requires right_listed { right < length concepts.old }
    requires positions { IsTrue (are_name_positions (trees_at concepts.old conjuncts.now) positions.now) }
    ensures concept { IfOk result (IsRowConcept concepts.old concepts.new conjuncts.now right positions.now) }
    ensures kept { Extends concepts.old concepts.new }
{
    let _count = concepts.len();
    let others = others(alloc, conjuncts, positions)?;
    let mut members = complements(alloc, concepts, &others)?;
    members.push(right)?;
    let concept = concepts.union_of(&members)?;
    Ok(concept)
}

// The conjuncts at other positions than these.
fn others(alloc: Global, conjuncts: &[u32], positions: &[u32]) -> Result<Vec<u32>, NoMemory>
    requires ascending { IsTrue (is_ascending positions.now) }
    requires low { IsTrue (list_all (λ i. nat_le 1 i) positions.now) }
    ensures { IfOk result (λ numbers. numbers.items ≡ other_numbers 1 positions.now conjuncts.now) }
{
    let mut numbers = Vec::new(alloc);
    let mut rest = positions;
    for (index, conjunct) in conjuncts.iter().enumerate() {
        if begins_with(rest, index + 1) {
            rest = &rest[1..];
        } else {
            numbers.push(*conjunct)?;
        }
    }
    Ok(numbers)
}

fn begins_with(positions: &[u32], place: usize) -> bool
    requires ascending { IsTrue (is_ascending positions.now) }
    requires low { IsTrue (list_all (λ i. nat_le place i) positions.now) }
    ensures is_first { result ≡ is_among positions.now place }
    ensures some { IsTrue result → 1 ≤ length positions.now }
{
    !positions.is_empty() && positions[0] as usize == place
}

// The complements of these numbers.
fn complements(alloc: Global, concepts: &mut Concepts, parts: &[u32]) -> Result<Vec<u32>, NoMemory>
    requires { IsTrue (list_all (λ n. nat_lt n (length concepts.old)) parts.now) }
    ensures numbers { IfOk result (λ ns. AreNumbers concepts.new ns.items (negated_trees concepts.old parts.now)) }
    ensures kept { Extends concepts.old concepts.new }
{
    let _count = concepts.len();
    let mut numbers = Vec::new(alloc);
    for part in parts {
        let number = concepts.negated(*part)?;
        numbers.push(number)?;
    }
    Ok(numbers)
}
