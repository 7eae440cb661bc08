// The rows of a set of axioms.
ghost use Rattle.std.specs.Prelude.{◌≡◌, [], IfOk, OnOk, All, length};
ghost use Rattle.std.specs.Map.{keys_of};
ghost use Rattle.calculus_specs.specs.Shape.{IsTable};
ghost use Rattle.row_cache.specs.Numbers.{Extends};
ghost use Rattle.row_cache.specs.Sets.{IsWithin, member_list};
ghost use Rattle.row_cache.specs.Rows.{AreInLimit};
ghost use Rattle.absorption.specs.Places.{rows_under, with_filed, HasPlace, KeysDiffer, IsFiled};
ghost use Rattle.absorption.specs.Tables.{IsRowTable};

use crate::NoMemory;
use crate::name_uses::NameUses;
use crate::place::{Place, place_of};
use crate::row::Row;
use crate::row_list::{RowList, push_under};
use crate::rows::rows_of;
use indexmap::IndexMap;
use row_cache::{AxiomSet, Concepts};
use shq_terms::Ontology;
use std::alloc::Global;
use std::marker::Model;

/// The rows of the parts of a set of axioms, each in one place: at a class, at a role, or at neither.
#[derive(Drop)]
pub struct RowTable {
    at_names: IndexMap<u32, RowList>,
    at_roles: IndexMap<u32, RowList>,
    general: RowList,
}

impl Model for RowTable {
    ghost use Rattle.absorption.specs.Places.{FiledRows, KeysDiffer};

    ghost Value = { FiledRows };

    ghost view = { λ t. record { at_names = t.at_names.entries; at_roles = t.at_roles.entries; general = t.general } };

    ghost invariant = { λ t. KeysDiffer
        (record { at_names = t.at_names.entries; at_roles = t.at_roles.entries; general = t.general }) };
}

impl RowTable {
    ghost use Rattle.absorption.specs.Places.{FiledRows};

    /// The rows of the axioms of a set: one for each part, with the trigger that is fixed for it, and its concept by
    /// its number among `concepts`, which gains what it lacks. The set is of axioms of the ontology.
    ///
    /// # Errors
    ///
    /// Out of memory. The concepts keep their numbers, and there may be more of them.
    pub fn build(
        alloc: Global,
        ontology: &Ontology,
        set: &AxiomSet,
        concepts: &mut Concepts,
    ) -> Result<RowTable, NoMemory>
        requires numbers { IsWithin (length ontology.now.axioms) set.now.members }
        requires within { AreInLimit ontology.now.axioms }
        ensures table { IfOk result (IsRowTable ontology.now.axioms (member_list set.now) concepts.new) }
        ensures kept { Extends concepts.old concepts.new }
        ensures concepts { IsTable concepts.new }
    {
        let _count = concepts.len();
        let numbers = listed(alloc, set)?;
        let outcome = rows_of(alloc, ontology, &numbers, concepts);
        let _count = concepts.len();
        RowTable::filed(alloc, concepts, outcome?)
    }

    /// The rows that wait for this class, among other names or alone, and stand here. A class without such rows has
    /// none.
    pub fn by_name(&self, class: u32) -> &[Row]
        ensures { result.now ≡ rows_under self.now.at_names class }
    {
        rows_at(&self.at_names, class)
    }

    /// The rows that wait for an edge below this role, to begin or to end.
    pub fn by_role(&self, role: u32) -> &[Row]
        ensures { result.now ≡ rows_under self.now.at_roles role }
    {
        rows_at(&self.at_roles, role)
    }

    /// The roles at which rows stand, each once.
    ///
    /// # Errors
    ///
    /// Out of memory.
    pub fn roles(&self, alloc: Global) -> Result<Vec<u32>, NoMemory>
        ensures { IfOk result (λ roles. roles.items ≡ keys_of self.now.at_roles) }
    {
        Ok(self.at_roles.keys().copied().collect(alloc)?)
    }

    /// The rows that wait for nothing.
    pub fn general(&self) -> &[Row]
        ensures { result.now ≡ self.now.general }
    {
        self.general.items()
    }

    // The rows, each at its place.
    fn filed(alloc: Global, concepts: &Concepts, rows: Vec<Row>) -> Result<RowTable, NoMemory>
        requires { All (HasPlace concepts.now) rows.items }
        ensures { IfOk result (IsFiled concepts.now rows.items) }
    {
        let uses = NameUses::of_rows(alloc, concepts, &rows)?;
        let mut table = RowTable::empty(alloc);
        for row in rows {
            let place = place_of(concepts, &uses, &row);
            table.file(alloc, place, row)?;
        }
        Ok(table)
    }

    fn empty(alloc: Global) -> RowTable
        ensures rows { result ≡ record { at_names = []; at_roles = []; general = [] } }
        ensures keys { KeysDiffer result }
    {
        RowTable {
            at_names: IndexMap::new(alloc),
            at_roles: IndexMap::new(alloc),
            general: RowList::new(alloc),
        }
    }

    // Puts the row last at a place.
    fn file(&mut self, alloc: Global, place: Place, row: Row) -> Result<(), NoMemory>
        ensures rows { OnOk result (self.new ≡ with_filed self.old place row) }
        ensures keys { KeysDiffer self.new }
    {
        match place {
            Place::Name(class) => push_under(alloc, &mut self.at_names, class, row),
            Place::Role(role) => push_under(alloc, &mut self.at_roles, role, row),
            Place::General => self.general.push(row),
        }
    }
}

// The rows under a number.
fn rows_at(lists: &IndexMap<u32, RowList>, number: u32) -> &[Row]
    ensures { result.now ≡ rows_under lists.now.entries number }
{
    match lists.get(&number) {
        Some(list) => list.items(),
        None => &[],
    }
}

// The members of the set, ascending.
fn listed(alloc: Global, set: &AxiomSet) -> Result<Vec<u32>, NoMemory>
    ensures { IfOk result (λ numbers. numbers.items ≡ member_list set.now) }
{
    Ok(set.numbers().collect(alloc)?)
}
