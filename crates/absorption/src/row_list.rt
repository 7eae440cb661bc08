// Rows in order, and lists of rows by number.
ghost use Rattle.std.specs.Prelude.{◌≡◌, ◌++◌, [], ◌∷◌, nat_eq, unwrap_or, IfOk, OnOk};
ghost use Rattle.std.specs.List.{IsDistinct};
ghost use Rattle.indexmap.specs.IndexMap.{keys};
ghost use Rattle.absorption.specs.Places.{with_row};

use crate::NoMemory;
use crate::row::Row;
use indexmap::IndexMap;
use std::alloc::Global;
use std::marker::Model;

// Rows in order.
#[derive(Drop)]
pub(crate) struct RowList {
    rows: Vec<Row>,
}

impl Model for RowList {
    ghost use Rattle.std.specs.Prelude.{List};
    ghost use Rattle.absorption.specs.declared.row.Row.{Row as Filed};

    ghost Value = { List Filed };

    ghost view = { λ l. l.rows.items };
}

impl RowList {
    pub(crate) fn new(alloc: Global) -> RowList
        ensures { result ≡ [] }
    {
        RowList {
            rows: Vec::new(alloc),
        }
    }

    pub(crate) fn push(&mut self, row: Row) -> Result<(), NoMemory>
        ensures { OnOk result (self.new ≡ self.old ++ row ∷ []) }
    {
        self.rows.push(row)?;
        Ok(())
    }

    pub(crate) fn items(&self) -> &[Row]
        ensures { result.now ≡ self.now }
    {
        &self.rows
    }
}

// Puts the row last in the list under the number.
pub(crate) fn push_under(
    alloc: Global,
    lists: &mut IndexMap<u32, RowList>,
    number: u32,
    row: Row,
) -> Result<(), NoMemory>
    ensures entries { OnOk result (lists.new.entries ≡ with_row lists.old.entries number row) }
    ensures keys { IsDistinct nat_eq (keys lists.new) }
{
    let found = lists.insert(number, RowList::new(alloc))?;
    let mut list = found.unwrap_or(RowList::new(alloc));
    list.push(row)?;
    lists.insert(number, list)?;
    Ok(())
}
