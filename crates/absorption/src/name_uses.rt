// How many rows wait for each class.
ghost use Rattle.std.specs.Prelude.{IsTrue, All};
ghost use Rattle.absorption.specs.Places.{are_names, HasPlace};

use crate::NoMemory;
use crate::place::class_of;
use crate::row::{Row, Trigger};
use indexmap::IndexMap;
use row_cache::Concepts;
use std::alloc::Global;

// How often each class is waited for.
#[derive(Drop)]
pub(crate) struct NameUses {
    counts: IndexMap<u32, u32>,
}

impl NameUses {
    // Those of these rows.
    pub(crate) fn of_rows(
        alloc: Global,
        concepts: &Concepts,
        rows: &[Row],
    ) -> Result<NameUses, NoMemory>
        requires { All (HasPlace concepts.now) rows.now }
    {
        let mut uses = NameUses {
            counts: IndexMap::new(alloc),
        };
        for row in rows {
            uses.add_row(concepts, row)?;
        }
        Ok(uses)
    }

    fn add_row(&mut self, concepts: &Concepts, row: &Row) -> Result<(), NoMemory>
        requires { HasPlace concepts.now row.now }
    {
        match &row.trigger {
            Trigger::Names(_) => self.add_names(concepts, row.premises.items()),
            _ => Ok(()),
        }
    }

    fn add_names(&mut self, concepts: &Concepts, names: &[u32]) -> Result<(), NoMemory>
        requires { IsTrue (are_names concepts.now names.now) }
    {
        for name in names {
            self.add(class_of(concepts, *name))?;
        }
        Ok(())
    }

    fn add(&mut self, class: u32) -> Result<(), NoMemory> {
        let count = self.count(class);
        self.counts.insert(class, count.saturating_add(1))?;
        Ok(())
    }

    pub(crate) fn count(&self, class: u32) -> u32 {
        self.counts.get(&class).copied().unwrap_or(0)
    }
}
