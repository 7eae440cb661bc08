// The places of facts by the individuals that they name.
ghost use Rattle.std.specs.Prelude.{◌≡◌, ℕ, ◌<◌, ◌==◌, [], ◌∷◌, ◌++◌, ◌||◌, length, slice_set, IfOk, OnOk};
ghost use Rattle.std.specs.Prelude.{if◌then◌else◌};
ghost use Rattle.std.specs.Iterator.{YieldsFirst, item_count};
ghost use Rattle.assertion_box.specs.Places.{places_of, list_at};

use crate::NoMemory;
use crate::stated_list::StatedList;
use refutation_truth::NumberList;
use std::alloc::Global;
use std::marker::Model;

// By individual, the places of the facts that name it, ascending.
pub(crate) fn place_lists(alloc: Global, facts: &StatedList) -> Result<Vec<NumberList>, NoMemory>
    ensures { IfOk result (λ lists. (a : ℕ) → list_at lists.items a ≡ places_of a facts.now) }
{
    let mut lists = Vec::new(alloc);
    for place in 0..facts.len() {
        let (first, last) = facts.ends(place);
        push_place(alloc, &mut lists, place, first, last)?;
    }
    Ok(lists)
}

// Puts a place last under each of two individuals, which may be one.
fn push_place(
    alloc: Global,
    lists: &mut Vec<NumberList>,
    place: u32,
    first: u32,
    last: u32,
) -> Result<(), NoMemory>
    ensures { OnOk result
        ((a : ℕ) → list_at lists.new.items a
        ≡ (if (first == a || last == a) then list_at lists.old.items a ++ place ∷ [] else list_at lists.old.items a)) }
{
    push_under(alloc, lists, first, place)?;
    if last == first {
        return Ok(());
    }
    push_under(alloc, lists, last, place)
}

fn push_under(
    alloc: Global,
    lists: &mut Vec<NumberList>,
    individual: u32,
    place: u32,
) -> Result<(), NoMemory>
    ensures { OnOk result
        ((a : ℕ) → list_at lists.new.items a
        ≡ (if individual == a then list_at lists.old.items a ++ place ∷ [] else list_at lists.old.items a)) }
{
    grow(alloc, lists, individual)?;
    push_at(lists, individual, place)
}

// Puts empty lists last, until there is one under the individual.
fn grow(alloc: Global, lists: &mut Vec<NumberList>, individual: u32) -> Result<(), NoMemory>
    ensures long { OnOk result (individual < length lists.new.items) }
    ensures same { OnOk result ((a : ℕ) → list_at lists.new.items a ≡ list_at lists.old.items a) }
{
    for _ in lists.len()..individual as usize + 1 {
        lists.push(NumberList::new(alloc))?;
    }
    Ok(())
}

fn push_at(lists: &mut Vec<NumberList>, individual: u32, place: u32) -> Result<(), NoMemory>
    requires { individual < length lists.old.items }
    ensures { OnOk result
        (lists.new.items ≡ slice_set lists.old.items individual (list_at lists.old.items individual ++ place ∷ [])) }
{
    let list = &mut lists[individual as usize];
    list.push(place)
}

/// The places that are still to come, ascending.
#[derive(Drop)]
pub struct Places<'a> {
    rest: &'a [u32],
}

impl<'a> Model for Places<'a> {
    ghost use Rattle.std.specs.Prelude.{List, ℕ};

    ghost Value = { List ℕ };

    ghost view = { λ p. p.rest.now };
}

impl<'a> Places<'a> {
    pub(crate) fn new(places: &'a [u32]) -> Places<'a>
        ensures { result ≡ places.now }
    {
        Places { rest: places }
    }
}

impl<'a> Iterator for Places<'a> {
    type Item = u32;

    ghost next_gives = { YieldsFirst (λ s. s) };

    ghost remaining = { item_count (λ s. s) };

    fn next(&mut self) -> Option<u32> {
        let (first, rest) = self.rest.split_first()?;
        self.rest = rest;
        Some(*first)
    }
}
