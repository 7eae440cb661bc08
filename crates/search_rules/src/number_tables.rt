// What a search asks of concepts, by their numbers.
ghost use Rattle.std.specs.Prelude.{◌≡◌, ℕ, ◌<◌, None, length, IfOk, slice_index_or};
ghost use Rattle.ontology_limits.specs.Steps.{is_transitive};
ghost use Rattle.ontology_limits.specs.Paths.{is_below};
ghost use Rattle.absorption.specs.Closed.{IsClosed};
ghost use Rattle.search_rules.specs.Lists.{list_at};
ghost use Rattle.search_rules.specs.Tables.{AreNumberLists};

use crate::NoMemory;
use crate::carries::carry_lists;
use crate::complements::complement_numbers;
use crate::item_list::{ItemList, list_at};
use crate::mosts::most_lists;
use crate::named_rows::named_lists;
use absorption::RowTable;
use ontology_limits::{Concepts, RoleBox};
use std::alloc::Global;
use std::marker::Model;
use step_finders::NamedRow;

// What a search asks of concepts, by their numbers.
#[derive(Drop)]
pub(crate) struct NumberTables {
    carries: Vec<ItemList<(u32, u32)>>,
    complements: Vec<Option<u32>>,
    mosts: Vec<ItemList<u32>>,
    named: Vec<ItemList<NamedRow>>,
}

impl Model for NumberTables {
    ghost use Rattle.search_rules.specs.Lists.{NumberLists};

    ghost Value = { NumberLists };

    ghost view = { λ t. record {
      carries = t.carries.items;
      complements = t.complements.items;
      mosts = t.mosts.items;
      named = t.named.items;
    } };
}

impl NumberTables {
    // Those of the concepts of a closed table.
    pub(crate) fn build(
        alloc: Global,
        concepts: &mut Concepts,
        roles: &RoleBox,
        rows: &RowTable,
    ) -> Result<NumberTables, NoMemory>
        requires { IsClosed (is_below roles.now) (is_transitive roles.now) concepts.old }
        ensures lists { IfOk result (AreNumberLists concepts.old roles.now rows.now.at_names) }
        ensures same { concepts.new ≡ concepts.old }
    {
        let complements = complement_numbers(alloc, concepts)?;
        let carries = carry_lists(alloc, concepts, roles)?;
        let mosts = most_lists(alloc, concepts)?;
        let named = named_lists(alloc, concepts, rows)?;
        Ok(NumberTables {
            carries,
            complements,
            mosts,
            named,
        })
    }

    pub(crate) fn carries(&self, concept: u32) -> &[(u32, u32)]
        ensures { result.now ≡ list_at self.now.carries concept }
    {
        list_at(&self.carries, concept)
    }

    pub(crate) fn complement(&self, concept: u32) -> Option<u32>
        ensures { result ≡ slice_index_or self.now.complements concept None }
    {
        match self.complements.get(concept as usize) {
            Some(complement) => *complement,
            None => None,
        }
    }

    pub(crate) fn mosts(&self, filler: u32) -> &[u32]
        ensures { result.now ≡ list_at self.now.mosts filler }
    {
        list_at(&self.mosts, filler)
    }

    pub(crate) fn named(&self, concept: u32) -> &[NamedRow]
        ensures { result.now ≡ list_at self.now.named concept }
    {
        list_at(&self.named, concept)
    }
}
