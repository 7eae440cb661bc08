// Names, each once, which contracts see as the list of their bytes.
ghost use Rattle.std.specs.Prelude.{◌≡◌, take, max, ◌<◌, ◌≤◌, ◌↔◌, Err, [], ◌∷◌, ◌++◌, OnOk, OnErr, IfOk, length};
ghost use Rattle.std.specs.Prelude.{slice_get, slice_index_or, option_map, Some, None, position, map, string_bytes};
ghost use Rattle.std.specs.Str.{bytes_eq};
ghost use Rattle.shq_terms.specs.Names.{number_of, with_name, HasNoRoomFor};

use crate::{AddFault, NoMemory};
use indexmap::IndexSet;
use std::alloc::Global;
use std::marker::Model;
use std::str;

/// Names in order of their first occurrence, numbered from 0.
#[derive(Drop)]
pub(crate) struct NameList {
    alloc: Global,
    names: IndexSet<String>,
}

impl Model for NameList {
    ghost use Rattle.std.specs.Prelude.{List, ℕ, map, length, ◌<◌, ◌≤◌, ◌^◌};
    ghost use Rattle.std.specs.String.{string_bytes};

    ghost Value = { List (List ℕ) };

    ghost view = { λ l. map string_bytes l.names.keys };

    ghost invariant = { λ l. length l.names.keys < 2 ^ 32 };
}

impl NameList {
    pub(crate) fn new(alloc: Global) -> NameList
        ensures { result ≡ [] }
    {
        NameList {
            alloc,
            names: IndexSet::new(alloc),
        }
    }

    pub(crate) fn len(&self) -> u32
        ensures { result ≡ length self.now }
    {
        self.names.len() as u32
    }

    /// The number of a name. `None` exactly where it is not listed.
    pub(crate) fn number(&self, name: &str) -> Option<u32>
        ensures { result ≡ position (bytes_eq name.now) self.now }
    {
        match self.names.get_index_of(name) {
            Some(index) => Some(index as u32),
            None => None,
        }
    }

    /// The number of the name with these bytes, which may be no text. `None` exactly where none is listed.
    pub(crate) fn number_of_bytes(&self, name: &[u8]) -> Option<u32>
        ensures { result ≡ position (bytes_eq name.now) self.now }
    {
        match str::from_utf8(name) {
            Ok(text) => self.number(text),
            Err(_) => {
                let _names = &self.names;
                None
            }
        }
    }

    /// The name of a number.
    pub(crate) fn name(&self, number: u32) -> &str
        requires { number < length self.now }
        ensures { Some result.now ≡ slice_get self.now number }
    {
        match self.names.get_index(number as usize) {
            Some(name) => name.as_str(),
            None => unreachable!(),
        }
    }

    /// Keeps the first names alone.
    #[tactic(auto, using(crate::proofs::Cut::map_take))]
    pub(crate) fn truncate(&mut self, len: u32)
        ensures { self.new ≡ take len self.old }
    {
        self.names.truncate(len as usize);
    }

    /// The number of a name. A listed name keeps its number, and a new name goes last, unless the list holds its limit.
    pub(crate) fn add(&mut self, name: &str, limit: u32) -> Result<u32, AddFault>
        ensures number { IfOk result (λ k. k ≡ number_of self.old name.now) }
        ensures added { OnOk result (self.new ≡ with_name self.old name.now) }
        ensures room { OnOk result (length self.new ≤ max limit (length self.old)) }
        ensures unchanged { OnErr result (self.new ≡ self.old) }
        ensures full { (result ≡ Err AddFault.Full) ↔ HasNoRoomFor limit self.old name.now }
    {
        if let Some(number) = self.number(name) {
            return Ok(number);
        }
        let number = self.len();
        if number >= limit {
            return Err(AddFault::Full);
        }
        let owned = String::from_str(self.alloc, name)?;
        insert_new(&mut self.names, owned)?;
        Ok(number)
    }
}

/// Puts a new name last. Out of memory, it changes nothing.
fn insert_new(names: &mut IndexSet<String>, name: String) -> Result<(), NoMemory>
    requires { position (bytes_eq (string_bytes name)) (map string_bytes names.old.keys) ≡ None }
    ensures pushed { OnOk result (names.new.keys ≡ names.old.keys ++ name ∷ []) }
    ensures unchanged { OnErr result (names.new.keys ≡ names.old.keys) }
{
    names.insert_full(name)?;
    Ok(())
}
