// The log of a run.
ghost use Rattle.std.specs.Prelude.{◌≡◌, ◌+◌, ◌^◌, ◌<◌, [], ◌∷◌, ◌++◌, IfOk, OnOk, OnErr};
ghost use Rattle.run_log.specs.Entries.{cost_of, spent_of};

use crate::{Entry, KeptQuery, KeptSet, NoMemory};
use pinpointing_specs::AxiomSet;
use shq_terms::Query;
use std::alloc::Global;
use std::marker::Model;

/// The tests and nodes of a run, in their order, which contracts see as the list of them.
#[derive(Drop)]
pub struct RunLog {
    entries: Vec<Entry>,
    spent: u64,
}

impl Model for RunLog {
    ghost use Rattle.std.specs.Prelude.{List, ◌≡◌};
    ghost use Rattle.std.specs.Coded.{codes};
    ghost use Rattle.shq_terms.specs.Code.{concept_code};
    ghost use Rattle.pinpointing_specs.specs.Sets.{limited_code};
    ghost use Rattle.run_log.specs.declared.entry.Entry.{Entry as PlainEntry};
    ghost use Rattle.run_log.specs.Entries.{spent_of};

    ghost Value = { List PlainEntry };

    ghost coded = { Prim.hlevel (codes, concept_code, limited_code) };

    ghost view = { λ l. l.entries.items };

    ghost invariant = { λ l. l.spent ≡ spent_of l.entries.items };
}

impl RunLog {
    /// A log without entries. It takes its memory from `alloc`.
    pub fn new(alloc: Global) -> RunLog
        ensures { result ≡ [] }
    {
        RunLog {
            entries: Vec::new(alloc),
            spent: 0,
        }
    }

    /// All entries, in order.
    pub fn entries(&self) -> &[Entry]
        ensures { result.now ≡ self.now }
    {
        &self.entries
    }

    /// What was spent: the sum of the steps of all tests, and one for each node.
    pub fn spent(&self) -> u64
        ensures { result ≡ spent_of self.now }
    {
        self.spent
    }

    /// The set, kept for the next entry: shared with the latest entry if that is a test of the same set, copied
    /// otherwise.
    ///
    /// # Errors
    ///
    /// Out of memory.
    pub fn keep_set(&self, alloc: Global, set: &AxiomSet) -> Result<KeptSet, NoMemory>
        ensures { IfOk result (λ kept. kept ≡ set.now) }
    {
        match self.latest_set() {
            Some(latest) => latest.shared_or_copied(alloc, set),
            None => KeptSet::new(alloc, set.try_clone()?),
        }
    }

    /// The query, kept for the next entry. Its subclass is shared with the latest entry if that is a test of a query
    /// with the same subclass, and copied otherwise.
    ///
    /// # Errors
    ///
    /// Out of memory.
    pub fn keep_query(&self, alloc: Global, query: &Query) -> Result<KeptQuery, NoMemory>
        ensures { IfOk result (λ kept. kept ≡ query.now) }
    {
        match self.latest_query() {
            Some(latest) => latest.shared_or_copied(alloc, query),
            None => KeptQuery::new(alloc, query),
        }
    }

    // The set of the latest entry, if that is a test.
    fn latest_set(&self) -> Option<&KeptSet> {
        match self.entries.last()? {
            Entry::Test(set, _, _, _) => Some(set),
            Entry::Node(_) => None,
        }
    }

    // The query of the latest entry, if that is a test.
    fn latest_query(&self) -> Option<&KeptQuery> {
        match self.entries.last()? {
            Entry::Test(_, query, _, _) => Some(query),
            Entry::Node(_) => None,
        }
    }

    /// Puts an entry last. With it, what was spent has to fit into 64 bits.
    ///
    /// # Errors
    ///
    /// Out of memory. The log is as before then.
    pub fn push(&mut self, entry: Entry) -> Result<(), NoMemory>
        requires { spent_of self.old + cost_of entry < 2 ^ 64 }
        ensures pushed { OnOk result (self.new ≡ self.old ++ entry ∷ []) }
        ensures unchanged { OnErr result (self.new ≡ self.old) }
    {
        let cost = entry.cost();
        self.entries.push(entry)?;
        self.spent += cost;
        Ok(())
    }
}

impl Entry {
    /// What the entry takes of the budget: its steps if it is a test, one if it is a node.
    pub fn cost(&self) -> u64
        ensures { result ≡ cost_of self.now }
    {
        match self {
            Entry::Test(_, _, steps, _) => *steps,
            Entry::Node(_) => 1,
        }
    }
}
