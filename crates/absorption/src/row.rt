// The row of a part.
ghost use Rattle.std.specs.Prelude.{◌≡◌, ◌+◌, ◌<◌, nat_lt, IsTrue, IfOk, Some, length};
ghost use Rattle.std.specs.List.{list_all};
ghost use Rattle.calculus_specs.specs.Shape.{IsTable};
ghost use Rattle.calculus_specs.specs.Tree.{tree_of};
ghost use Rattle.calculus_specs.specs.Rows.{inclusion};
ghost use Rattle.row_cache.specs.Numbers.{Extends, trees_at};
ghost use Rattle.row_cache.specs.Shapes.{form_of};
ghost use Rattle.absorption.specs.Triggers.{name_positions, first_role, role_of_some, inclusion_trigger};
ghost use Rattle.absorption.specs.Rows.{plain_trigger, plain_part, IsListedPart, IsRowOfPart, role_of_shape};

use crate::NoMemory;
use row_cache::{Concepts, Part, Shape, is_name, part_row};
use shq_terms::NumberList;
use std::alloc::Global;

/// What a row waits for.
#[derive(Drop)]
pub enum Trigger {
    /// Nothing: it is used at each node.
    Always,
    /// A node in the conjuncts at these positions, from 1, which are names.
    Names(NumberList),
    /// A node where an edge by the role, or by one below it, begins.
    Edge(u32),
    /// A node where such an edge ends.
    End(u32),
}

/// How a part of an axiom is used: a node at which the trigger holds is in the concept.
#[derive(Drop)]
pub struct Row {
    /// The number of the axiom.
    pub axiom: u32,
    /// The number of the part in its axiom, from 1.
    pub part: u32,
    /// What it waits for.
    pub trigger: Trigger,
    /// The number of its concept.
    pub concept: u32,
    /// The numbers of the names at the trigger's positions. There are none under another trigger.
    pub premises: NumberList,
}

// The row of a part by its numbers.
pub(crate) fn row_of_part(
    alloc: Global,
    concepts: &mut Concepts,
    axiom: u32,
    part: u32,
    found: Part,
) -> Result<Row, NoMemory>
    requires { IsListedPart concepts.old found }
    ensures row { IfOk result (IsRowOfPart concepts.new «axiom» part (plain_part concepts.old found)) }
    ensures kept { Extends concepts.old concepts.new }
{
    let _count = concepts.len();
    match found {
        Part::Inclusion(conjuncts, right) => {
            inclusion_row(alloc, concepts, axiom, part, conjuncts.items(), right)
        }
        Part::Range(role, concept) => Ok(Row {
            axiom,
            part,
            trigger: Trigger::End(role),
            concept,
            premises: NumberList::new(alloc),
        }),
    }
}

fn inclusion_row(
    alloc: Global,
    concepts: &mut Concepts,
    axiom: u32,
    part: u32,
    conjuncts: &[u32],
    right: u32,
) -> Result<Row, NoMemory>
    requires listed { IsTrue (list_all (λ n. nat_lt n (length concepts.old)) conjuncts.now) }
    requires right_listed { right < length concepts.old }
    ensures row { let plain = inclusion (trees_at concepts.old conjuncts.now) (tree_of concepts.old right) in
        IfOk result (IsRowOfPart concepts.new «axiom» part plain) }
    ensures kept { Extends concepts.old concepts.new }
{
    let _count = concepts.len();
    let positions = name_positions(alloc, concepts, conjuncts)?;
    let role = first_role(concepts, conjuncts);
    match part_row(alloc, concepts, conjuncts, right, positions.items())? {
        Some(row) => Ok(Row {
            axiom,
            part,
            trigger: inclusion_trigger(positions, role),
            concept: row.concept,
            premises: row.premises,
        }),
        None => unreachable!(),
    }
}

// The positions of the conjuncts that are names, from 1.
fn name_positions(
    alloc: Global,
    concepts: &Concepts,
    conjuncts: &[u32],
) -> Result<NumberList, NoMemory>
    requires { IsTrue (list_all (λ n. nat_lt n (length concepts.now)) conjuncts.now) }
    ensures { IfOk result (λ ps. ps ≡ name_positions 1 (trees_at concepts.now conjuncts.now)) }
{
    let _count = concepts.len();
    if conjuncts.len() >= u32::MAX as usize {
        return Err(NoMemory);
    }
    let mut positions = NumberList::new(alloc);
    for (index, conjunct) in conjuncts.iter().enumerate() {
        if is_name(concepts, *conjunct) {
            positions.push(index as u32 + 1)?;
        }
    }
    Ok(positions)
}

// The role of the first conjunct that is an existential restriction.
fn first_role(concepts: &Concepts, conjuncts: &[u32]) -> Option<u32>
    requires { IsTrue (list_all (λ n. nat_lt n (length concepts.now)) conjuncts.now) }
    ensures { result ≡ first_role (trees_at concepts.now conjuncts.now) }
{
    let _count = concepts.len();
    for conjunct in conjuncts {
        if let Some(role) = role_of_some(concepts, *conjunct) {
            return Some(role);
        }
    }
    None
}

fn role_of_some(concepts: &Concepts, concept: u32) -> Option<u32>
    requires { concept < length concepts.now }
    ensures { result ≡ role_of_some (tree_of concepts.now concept) }
{
    role_of_shape(concepts.shape(concept))
}

fn role_of_shape(shape: Shape<'_>) -> Option<u32>
    ensures { result ≡ role_of_shape (form_of shape.entry) }
{
    match shape {
        Shape::SomeOf(role, _) => Some(role),
        _ => None,
    }
}

// What an inclusion waits for whose names stand at these positions, and whose first existential restriction has this
// role.
fn inclusion_trigger(positions: NumberList, role: Option<u32>) -> Trigger
    ensures { plain_trigger result ≡ inclusion_trigger positions role }
{
    if !positions.items().is_empty() {
        return Trigger::Names(positions);
    }
    match role {
        Some(role) => Trigger::Edge(role),
        None => Trigger::Always,
    }
}
