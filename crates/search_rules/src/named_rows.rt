// The rows of names.
ghost use Rattle.std.specs.Prelude.{◌≡◌, ℕ, map, IfOk};
ghost use Rattle.calculus_specs.specs.Shape.{shape_of};
ghost use Rattle.ontology_limits.specs.Shapes.{form_of};
ghost use Rattle.search_rules.specs.Lists.{list_at};
ghost use Rattle.search_rules.specs.Files.{positions_of, named_of, rows_at_shape};

use crate::NoMemory;
use crate::item_list::ItemList;
use absorption::{Row, RowTable, Trigger};
use ontology_limits::{Concepts, Shape};
use shq_terms::NumberList;
use std::alloc::Global;
use step_finders::NamedRow;

// By the number of a name, the rows that stand at its class.
pub(crate) fn named_lists(
    alloc: Global,
    concepts: &Concepts,
    rows: &RowTable,
) -> Result<Vec<ItemList<NamedRow>>, NoMemory>
    ensures { IfOk result
        (λ lists. (c : ℕ) → list_at lists.items c ≡ rows_at_shape rows.now.at_names (shape_of concepts.now c)) }
{
    let mut lists = Vec::new(alloc);
    for number in 0..concepts.len() {
        lists.push(named_list(alloc, concepts.shape(number), rows)?)?;
    }
    Ok(lists)
}

fn named_list(
    alloc: Global,
    shape: Shape<'_>,
    rows: &RowTable,
) -> Result<ItemList<NamedRow>, NoMemory>
    ensures { IfOk result (λ list. list ≡ rows_at_shape rows.now.at_names (form_of shape.entry)) }
{
    match shape {
        Shape::Name(class) => named_rows(alloc, rows.by_name(class)),
        _ => Ok(ItemList::new(alloc)),
    }
}

fn named_rows(alloc: Global, rows: &[Row]) -> Result<ItemList<NamedRow>, NoMemory>
    ensures { IfOk result (λ named. named ≡ map named_of rows.now) }
{
    let mut named = ItemList::new(alloc);
    for row in rows {
        named.push(named_row(alloc, row)?)?;
    }
    Ok(named)
}

fn named_row(alloc: Global, row: &Row) -> Result<NamedRow, NoMemory>
    ensures { IfOk result (λ named. named ≡ named_of row.now) }
{
    let positions = copied(alloc, positions(&row.trigger))?;
    let waits = copied(alloc, row.premises.items())?;
    Ok(NamedRow {
        axiom: row.axiom,
        part: row.part,
        positions,
        waits,
        gives: row.concept,
    })
}

fn positions(trigger: &Trigger) -> &[u32]
    ensures { result.now ≡ positions_of trigger.now }
{
    match trigger {
        Trigger::Names(positions) => positions.items(),
        _ => &[],
    }
}

fn copied(alloc: Global, numbers: &[u32]) -> Result<NumberList, NoMemory>
    ensures { IfOk result (λ copy. copy ≡ numbers.now) }
{
    let mut copy = NumberList::new(alloc);
    for number in numbers {
        copy.push(*number)?;
    }
    Ok(copy)
}
