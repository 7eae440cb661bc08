// The 'at most' with each filler.
ghost use Rattle.std.specs.Prelude.{◌≡◌, ℕ, ◌+◌, ◌<◌, [], length, IfOk, OnOk};
ghost use Rattle.calculus_specs.specs.Shape.{shape_of};
ghost use Rattle.ontology_limits.specs.Shapes.{form_of};
ghost use Rattle.step_finders.specs.Clashing.{AreMosts};
ghost use Rattle.search_rules.specs.Lists.{list_at};
ghost use Rattle.search_rules.specs.Mosts.{filler_of_most, AreMostsTo};

use crate::NoMemory;
use crate::item_list::{ItemList, push_under};
use ontology_limits::{Concepts, Shape};
use std::alloc::Global;

// By the number of a concept, each 'at most' with it as filler, ascending.
pub(crate) fn most_lists(alloc: Global, concepts: &Concepts) -> Result<Vec<ItemList<u32>>, NoMemory>
    ensures { IfOk result (λ lists. (c : ℕ) → AreMosts concepts.now c (list_at lists.items c)) }
{
    let mut lists = empty_lists(alloc, concepts.len())?;
    for number in 0..concepts.len() {
        push_most(concepts, &mut lists, number)?;
    }
    Ok(lists)
}

fn empty_lists(alloc: Global, count: u32) -> Result<Vec<ItemList<u32>>, NoMemory>
    ensures count { IfOk result (λ lists. length lists.items ≡ count) }
    ensures empty { IfOk result (λ lists. (c : ℕ) → list_at lists.items c ≡ []) }
{
    let mut lists = Vec::new(alloc);
    for _ in 0..count {
        lists.push(ItemList::new(alloc))?;
    }
    Ok(lists)
}

// Puts the number last under its filler, where it is an 'at most'.
fn push_most(
    concepts: &Concepts,
    lists: &mut Vec<ItemList<u32>>,
    number: u32,
) -> Result<(), NoMemory>
    requires listed { number < length concepts.now }
    requires count { length lists.old.items ≡ length concepts.now }
    requires before { (c : ℕ) → AreMostsTo concepts.now number c (list_at lists.old.items c) }
    ensures mosts { OnOk result ((c : ℕ) → AreMostsTo concepts.now (number + 1) c (list_at lists.new.items c)) }
    ensures count { OnOk result (length lists.new.items ≡ length concepts.now) }
{
    let _count = concepts.len();
    match most_filler(concepts.shape(number)) {
        Some(filler) => push_under(lists, filler, number),
        None => Ok(()),
    }
}

fn most_filler(shape: Shape<'_>) -> Option<u32>
    ensures { result ≡ filler_of_most (form_of shape.entry) }
{
    match shape {
        Shape::Max(_, _, filler) => Some(filler),
        _ => None,
    }
}
