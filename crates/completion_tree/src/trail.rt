// The entries of a trail, with the places of its facts and of its joins, so that none is looked for.
ghost use Rattle.std.specs.Prelude.{◌≡◌, ℕ, ◌+◌, ◌<◌, ◌≤◌, ◌^◌, [], ◌∷◌, ◌++◌, OnOk, OnErr, IfOk, length, take};
ghost use Rattle.std.specs.Prelude.{slice_get, get_or, Some, count_by, filter, if◌then◌else◌};
ghost use Rattle.std.specs.FinSet as set;
ghost use Rattle.calculus_specs.specs.Joins.{rep};
ghost use Rattle.completion_tree.specs.Trail.{facts_in, is_fact, is_same, places};
ghost use Rattle.completion_tree.specs.Marks.{marks_at, is_join, AreWithin, IsGroundedBy};

use crate::tree::Entry;
use axiom_sets::Deps;
use calculus_specs::{Fact, NoMemory};
use std::alloc::Allocator;
use std::marker::Model;

// There are never more entries.
const MOST: usize = u32::MAX as usize;

/// The entries of a trail.
#[derive(Drop)]
pub(crate) struct Trail<A: Allocator> {
    entries: Vec<Entry, A>,
    // The places of the facts, and of those that say that two nodes are one.
    facts: Vec<u32, A>,
    joins: Vec<u32, A>,
}

impl<A: Allocator> Model for Trail<A> {
    ghost use Rattle.std.specs.Prelude.{◌≡◌, ◌<◌, ◌^◌, List, length};
    ghost use Rattle.completion_tree.specs.declared.tree.Entry.{Entry as PlainEntry};
    ghost use Rattle.completion_tree.specs.Trail.{is_fact, is_same, places};
    ghost use Rattle.std.specs.Coded.{codes};
    ghost use Rattle.axiom_sets.specs.contracts.deps.Deps as deps;

    ghost Value = { List PlainEntry };

    ghost coded = { Prim.hlevel (codes, deps.the_row.coded) };

    ghost view = { λ t. t.entries.items };

    ghost invariant = { λ t. (t.facts.items ≡ places is_fact 0 t.entries.items)
        × (t.joins.items ≡ places is_same 0 t.entries.items) × (length t.entries.items < 2 ^ 32) };
}

impl<A: Allocator + Copy> Trail<A> {
    /// No entry.
    pub(crate) fn new_in(alloc: A) -> Trail<A>
        ensures { result ≡ [] }
    {
        Trail {
            entries: Vec::new(alloc),
            facts: Vec::new(alloc),
            joins: Vec::new(alloc),
        }
    }

    /// How many entries there are.
    pub(crate) fn len(&self) -> u32
        ensures { result ≡ length self.now }
    {
        let _ = &self.facts;
        self.entries.len() as u32
    }

    /// How many of the entries are facts.
    pub(crate) fn count_facts(&self) -> usize
        ensures { result ≡ length (facts_in self.now) }
    {
        let _ = &self.entries;
        self.facts.len()
    }

    /// The entry at a place, from 0.
    pub(crate) fn entry(&self, place: u32) -> &Entry
        requires { place < length self.now }
        ensures { slice_get self.now place ≡ Some result.now }
    {
        let _ = &self.facts;
        &self.entries[place as usize]
    }

    /// All entries.
    pub(crate) fn entries(&self) -> &[Entry]
        ensures { result.now ≡ self.now }
    {
        let _ = &self.facts;
        self.entries.as_slice()
    }

    /// The places of the joins.
    pub(crate) fn joins(&self) -> &[u32]
        ensures { result.now ≡ places is_same 0 self.now }
    {
        let _ = &self.entries;
        self.joins.as_slice()
    }

    /// The marks of the fact that stands at a place among the facts.
    pub(crate) fn marks_of_fact(&self, index: usize) -> Result<Deps, NoMemory>
        requires { index < length (facts_in self.now) }
        ensures { IfOk result (IsGroundedBy self.now index) }
    {
        copied_marks(&self.entries[self.facts[index] as usize])
    }

    /// Puts an entry last.
    ///
    /// # Errors
    /// Out of memory; nothing has changed then.
    pub(crate) fn push(&mut self, entry: Entry) -> Result<(), NoMemory>
        ensures put { OnOk result (self.new ≡ self.old ++ entry ∷ []) }
        ensures unchanged { OnErr result (self.new ≡ self.old) }
    {
        let (facts, joins) = (self.facts.len(), self.joins.len());
        match push_all(&mut self.entries, &mut self.facts, &mut self.joins, entry) {
            Ok(()) => Ok(()),
            Err(error) => {
                self.facts.truncate(facts);
                self.joins.truncate(joins);
                Err(error)
            }
        }
    }

    /// Leaves the first so many entries.
    pub(crate) fn cut(&mut self, len: u32)
        requires { len ≤ length self.old }
        ensures { self.new ≡ take len self.old }
    {
        let facts = facts_among(&self.entries[len as usize..]);
        let joins = joins_among(&self.entries[len as usize..]);
        self.facts.truncate(self.facts.len() - facts);
        self.joins.truncate(self.joins.len() - joins);
        self.entries.truncate(len as usize);
    }
}

// Puts an entry last, and its place where it belongs.
fn push_all<A: Allocator + Copy>(
    entries: &mut Vec<Entry, A>,
    facts: &mut Vec<u32, A>,
    joins: &mut Vec<u32, A>,
    entry: Entry,
) -> Result<(), NoMemory>
    ensures entries { OnOk result (entries.new.items ≡ entries.old.items ++ entry ∷ []) }
    ensures facts { OnOk result
        (facts.new.items ≡ if is_fact entry then facts.old.items ++ length entries.old.items ∷ []
        else facts.old.items) }
    ensures joins { OnOk result
        (joins.new.items ≡ if is_same entry then joins.old.items ++ length entries.old.items ∷ []
        else joins.old.items) }
    ensures small { OnOk result (length entries.new.items < 2 ^ 32) }
    ensures kept { OnErr result (entries.new.items ≡ entries.old.items) }
    ensures first_facts { OnErr result (take (length facts.old.items) facts.new.items ≡ facts.old.items) }
    ensures first_joins { OnErr result (take (length joins.old.items) joins.new.items ≡ joins.old.items) }
{
    let place = place_after(entries)?;
    put_place(facts, is_fact(&entry), place)?;
    put_place(joins, is_same(&entry), place)?;
    put_entry(entries, entry)
}

// The place of the next entry.
fn place_after<A: Allocator + Copy>(entries: &Vec<Entry, A>) -> Result<u32, NoMemory>
    ensures place { IfOk result (λ place. place ≡ length entries.now.items) }
    ensures small { IfOk result (λ place. place + 1 < 2 ^ 32) }
{
    if entries.len() >= MOST {
        return Err(NoMemory);
    }
    Ok(entries.len() as u32)
}

// Puts a place last, where it belongs.
fn put_place<A: Allocator + Copy>(
    places: &mut Vec<u32, A>,
    belongs: bool,
    place: u32,
) -> Result<(), NoMemory>
    ensures put { OnOk result
        (places.new.items ≡ if belongs then places.old.items ++ place ∷ [] else places.old.items) }
    ensures unchanged { OnErr result (places.new.items ≡ places.old.items) }
{
    if belongs {
        places.push(place)?;
    }
    Ok(())
}

fn put_entry<A: Allocator + Copy>(entries: &mut Vec<Entry, A>, entry: Entry) -> Result<(), NoMemory>
    ensures put { OnOk result (entries.new.items ≡ entries.old.items ++ entry ∷ []) }
    ensures unchanged { OnErr result (entries.new.items ≡ entries.old.items) }
{
    entries.push(entry)?;
    Ok(())
}

// How many of the entries are facts.
fn facts_among(entries: &[Entry]) -> usize
    ensures { result ≡ count_by is_fact entries.now }
{
    entries.iter().filter(|entry| is_fact(entry)).count()
}

// How many of the entries are joins.
fn joins_among(entries: &[Entry]) -> usize
    ensures { result ≡ count_by is_same entries.now }
{
    entries.iter().filter(|entry| is_same(entry)).count()
}

// Whether the entry is a fact.
fn is_fact(entry: &Entry) -> bool
    ensures { result ≡ is_fact entry.now }
{
    match entry {
        Entry::Fact(_, _) => true,
        Entry::Mark(_) => false,
    }
}

// Whether the entry says that two nodes are one.
fn is_same(entry: &Entry) -> bool
    ensures { result ≡ is_same entry.now }
{
    match entry {
        Entry::Fact(Fact::Same(_, _), _) => true,
        Entry::Fact(Fact::Has(_, _), _) => false,
        Entry::Fact(Fact::Edge(_, _, _), _) => false,
        Entry::Fact(Fact::Apart(_, _), _) => false,
        Entry::Mark(_) => false,
    }
}

/// The marks that an entry rests on.
pub(crate) fn copied_marks(entry: &Entry) -> Result<Deps, NoMemory>
    ensures { IfOk result (λ u. u ≡ marks_at entry.now) }
{
    match entry {
        Entry::Fact(_, by) => by.marks.try_clone(),
        Entry::Mark(_) => Ok(Deps::none()),
    }
}
