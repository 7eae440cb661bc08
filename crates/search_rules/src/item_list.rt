// Items in order, and lists of them by number.
ghost use Rattle.std.specs.Prelude.{◌≡◌, ℕ, ◌<◌, ◌==◌, ◌++◌, [], ◌∷◌, OnOk, length, slice_set, if◌then◌else◌};
ghost use Rattle.search_rules.specs.Lists.{list_at, option_list};

use crate::NoMemory;
use std::alloc::Global;
use std::marker::Model;

// Items in order.
#[derive(Drop)]
pub(crate) struct ItemList<T: Drop> {
    items: Vec<T>,
}

impl<T: Drop> Model for ItemList<T> {
    ghost use Rattle.std.specs.Prelude.{List};

    ghost Value = { List T };

    ghost view = { λ l. l.items.items };
}

impl<T: Drop> ItemList<T> {
    pub(crate) fn new(alloc: Global) -> ItemList<T>
        ensures { result ≡ [] }
    {
        ItemList {
            items: Vec::new(alloc),
        }
    }

    pub(crate) fn push(&mut self, item: T) -> Result<(), NoMemory>
        ensures { OnOk result (self.new ≡ self.old ++ item ∷ []) }
    {
        self.items.push(item)?;
        Ok(())
    }

    pub(crate) fn items(&self) -> &[T]
        ensures { result.now ≡ self.now }
    {
        &self.items
    }
}

// Puts the item last, if there is one.
pub(crate) fn push_some<T: Drop>(list: &mut ItemList<T>, item: Option<T>) -> Result<(), NoMemory>
    ensures { OnOk result (list.new ≡ list.old ++ option_list item) }
{
    match item {
        Some(item) => list.push(item),
        None => Ok(()),
    }
}

// The list under a number. There is none from some number on.
pub(crate) fn list_at<T: Drop>(lists: &[ItemList<T>], number: u32) -> &[T]
    ensures { result.now ≡ list_at lists.now number }
{
    match lists.get(number as usize) {
        Some(list) => list.items(),
        None => &[],
    }
}

// Puts the item last in the list at a place.
pub(crate) fn push_under<T: Drop>(
    lists: &mut Vec<ItemList<T>>,
    place: u32,
    item: T,
) -> Result<(), NoMemory>
    requires { place < length lists.old.items }
    ensures { OnOk result
        (lists.new.items ≡ slice_set lists.old.items place (list_at lists.old.items place ++ item ∷ [])) }
{
    let list = &mut lists[place as usize];
    list.push(item)
}

// Puts the item last in the list under a number, and empty lists before that one where it is not there yet.
pub(crate) fn push_grown<T: Drop>(
    alloc: Global,
    lists: &mut Vec<ItemList<T>>,
    number: u32,
    item: T,
) -> Result<(), NoMemory>
    ensures { OnOk result
        ((k : ℕ) → list_at lists.new.items k ≡ list_at lists.old.items k ++ (if number == k then item ∷ [] else [])) }
{
    match grow(alloc, lists, number) {
        Ok(()) => push_under(lists, number, item),
        Err(fault) => {
            drop(item);
            Err(fault)
        }
    }
}

// Puts empty lists last, until there is one under the number.
fn grow<T: Drop>(alloc: Global, lists: &mut Vec<ItemList<T>>, number: u32) -> Result<(), NoMemory>
    ensures long { OnOk result (number < length lists.new.items) }
    ensures same { OnOk result ((k : ℕ) → list_at lists.new.items k ≡ list_at lists.old.items k) }
{
    for _ in lists.len()..number as usize + 1 {
        lists.push(ItemList::new(alloc))?;
    }
    Ok(())
}
