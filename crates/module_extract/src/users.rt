// Which axioms use a name.
ghost use Rattle.std.specs.Prelude.{◌≡◌, ◌<◌, ◌≤◌, ◌∷◌, [], ◌++◌, true, IfOk, OnOk, length, slice_index_or, slice_set};
ghost use Rattle.std.specs.Prelude.{IsTrue, replicate};
ghost use Rattle.std.specs.List.{list_all};

use crate::names::axiom_names;
use pinpointing_specs::Name;
use shq_terms::{MAX_AXIOMS, NoMemory, NumberList, Numbered};
use std::alloc::Global;

/// For each class and each role that is listed, the places of the axioms that use it, from 0 on.
#[derive(Drop)]
pub(crate) struct Users {
    classes: Vec<NumberList>,
    roles: Vec<NumberList>,
}

impl Users {
    ghost use Rattle.module_extract.specs.Users.{all_listed, places_of, has_list, HasGained, IsIndex};

    /// The index of these axioms, which use names among so many classes and roles.
    pub(crate) fn new(
        alloc: Global,
        classes: u32,
        roles: u32,
        axioms: &[Numbered],
    ) -> Result<Users, NoMemory>
        requires listed { IsTrue (all_listed classes roles axioms.now) }
        requires small { length axioms.now ≤ MAX_AXIOMS }
        ensures { IfOk result (IsIndex axioms.now (length axioms.now)) }
    {
        let mut users = Users {
            classes: empty_lists(alloc, classes)?,
            roles: empty_lists(alloc, roles)?,
        };
        for place in 0..axioms.len() {
            let names = axiom_names(alloc, &axioms[place].axiom)?;
            users.add_all(&names, place as u32)?;
        }
        Ok(users)
    }

    /// Keeps the place for each of the names.
    fn add_all(&mut self, names: &[Name], place: u32) -> Result<(), NoMemory>
        requires { IsTrue (list_all (has_list self.old) names.now) }
        ensures { OnOk result (HasGained self.old self.new names.now place) }
    {
        for name in names {
            self.add(*name, place)?;
        }
        Ok(())
    }

    /// Keeps the place for the name.
    fn add(&mut self, name: Name, place: u32) -> Result<(), NoMemory>
        requires { IsTrue (has_list self.old name) }
        ensures { OnOk result (HasGained self.old self.new (name ∷ []) place) }
    {
        match name {
            Name::Class(class) => push_place(&mut self.classes, class, place),
            Name::Role(role) => push_place(&mut self.roles, role, place),
        }
    }

    /// The places of the axioms that use the name.
    pub(crate) fn places(&self, name: Name) -> &[u32]
        ensures { result.now ≡ places_of self.now name }
    {
        match name {
            Name::Class(class) => list_of(&self.classes, class),
            Name::Role(role) => list_of(&self.roles, role),
        }
    }
}

/// So many empty lists.
fn empty_lists(alloc: Global, count: u32) -> Result<Vec<NumberList>, NoMemory>
    ensures { IfOk result (λ lists. lists.items ≡ replicate count []) }
{
    let mut lists = Vec::new(alloc);
    for _ in 0..count {
        lists.push(NumberList::new(alloc))?;
    }
    Ok(lists)
}

/// Puts the place last in the list of the number.
fn push_place(lists: &mut [NumberList], number: u32, place: u32) -> Result<(), NoMemory>
    requires { number < length lists.old }
    ensures { OnOk result (lists.new ≡ slice_set lists.old number (slice_index_or lists.old number [] ++ place ∷ [])) }
{
    lists[number as usize].push(place)
}

/// The list of the number, which is empty where there is none.
fn list_of(lists: &[NumberList], number: u32) -> &[u32]
    ensures { result.now ≡ slice_index_or lists.now number [] }
{
    match lists.get(number as usize) {
        Some(list) => list.items(),
        None => &[],
    }
}
