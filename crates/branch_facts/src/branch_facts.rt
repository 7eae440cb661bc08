// The nodes and the facts of a branch.
ghost use Rattle.std.specs.Prelude.{◌≡◌, ℕ, ◌+◌, ◌≤◌, ◌==◌, [], ◌∷◌, ◌++◌, false, OnOk, OnErr, length, take};
ghost use Rattle.calculus_specs.specs.Joins.{rep};
ghost use Rattle.calculus_specs.specs.State.{has, has_edge, are_apart};
ghost use Rattle.branch_facts.specs.NumberedBranch.{has_node};
ghost use Rattle.branch_facts.specs.Seen.{entry_facts, index_after, index_of, AreEntries, Begins};

use crate::NoMemory;
use crate::index::Index;
use calculus_specs::Fact;
use indexmap::IndexSet;
use std::alloc::Global;
use std::marker::Model;

/// How many nodes and facts there were, to go back to.
#[derive(Clone, Copy, Debug, PartialEq, Eq)]
pub struct Mark {
    /// The number of nodes that stay.
    pub nodes: usize,
    /// The number of facts that stay.
    pub facts: usize,
}

// A fact, and how many facts and links the index kept before it.
#[derive(Clone, Copy, Debug)]
pub(crate) struct Entry {
    fact: Fact<u32>,
    seen: usize,
    links: usize,
}

/// The nodes that a branch knows, each once, and its facts.
#[derive(Drop)]
pub struct BranchFacts {
    nodes: IndexSet<u32>,
    entries: Vec<Entry>,
    index: Index,
}

impl Model for BranchFacts {
    ghost use Rattle.std.specs.Prelude.{◌≡◌};
    ghost use Rattle.branch_facts.specs.NumberedBranch.{NumberedBranch};
    ghost use Rattle.branch_facts.specs.Seen.{entry_facts, index_of, AreEntries};

    ghost Value = { NumberedBranch };

    ghost view = { λ b. record { nodes = b.nodes.keys; facts = entry_facts b.entries.items } };

    ghost invariant = { λ b. (b.index ≡ index_of (entry_facts b.entries.items)) × AreEntries b.entries.items };
}

impl BranchFacts {
    ghost use Rattle.branch_facts.specs.NumberedBranch.{NumberedBranch};

    /// A branch that knows nothing.
    pub fn new(alloc: Global) -> BranchFacts
        ensures { result ≡ record { nodes = []; facts = [] } }
    {
        BranchFacts {
            nodes: IndexSet::new(alloc),
            entries: Vec::new(alloc),
            index: Index::new(alloc),
        }
    }

    /// What is known now, to go back to.
    pub fn mark(&self) -> Mark
        ensures nodes { result.nodes ≡ length self.now.nodes }
        ensures facts { result.facts ≡ length self.now.facts }
    {
        Mark {
            nodes: self.nodes.len(),
            facts: self.entries.len(),
        }
    }

    /// Forgets what came to be known after the mark was taken.
    pub fn undo_to(&mut self, mark: Mark)
        requires nodes { mark.nodes ≤ length self.old.nodes }
        requires facts { mark.facts ≤ length self.old.facts }
        ensures { self.new ≡ record { nodes = take mark.nodes self.old.nodes; facts = take mark.facts self.old.facts } }
    {
        self.nodes.truncate(mark.nodes);
        if mark.facts < self.entries.len() {
            let entry = self.entries[mark.facts];
            self.index.cut(entry.seen, entry.links);
            self.entries.truncate(mark.facts);
        }
    }

    /// Whether the node is known.
    pub fn knows(&self, node: u32) -> bool
        ensures { result ≡ has_node self.now node }
    {
        self.nodes.contains(&node)
    }

    /// Knows one node more.
    ///
    /// # Errors
    ///
    /// Out of memory; nothing has changed.
    pub fn add_node(&mut self, node: u32) -> Result<(), NoMemory>
        requires { has_node self.old node ≡ false }
        ensures added { OnOk result (self.new ≡ record self.old { nodes = self.old.nodes ++ node ∷ [] }) }
        ensures unchanged { OnErr result (self.new ≡ self.old) }
    {
        self.nodes.insert_full(node)?;
        Ok(())
    }

    /// Knows one fact more.
    ///
    /// # Errors
    ///
    /// Out of memory; nothing has changed.
    pub fn add(&mut self, fact: Fact<u32>) -> Result<(), NoMemory>
        ensures added { OnOk result (self.new ≡ record self.old { facts = self.old.facts ++ fact ∷ [] }) }
        ensures unchanged { OnErr result (self.new ≡ self.old) }
    {
        let (seen, links) = self.index.lengths();
        let outcome = put(
            &mut self.index,
            &mut self.entries,
            Entry { fact, seen, links },
        );
        if outcome.is_err() {
            self.index.cut(seen, links);
        }
        outcome
    }

    /// The representative of a node: the least node that is joined to it.
    #[tactic(auto, using(crate::proofs::Reps::through_is_rep))]
    pub fn representative(&self, node: u32) -> u32
        ensures { result ≡ rep self.now.facts node }
    {
        self.index.representative(node)
    }

    /// Whether the node has the concept of that number; each node has number 0, which is `Top`.
    #[tactic(auto, using(crate::proofs::Found::has_found))]
    pub fn has(&self, node: u32, concept: u32) -> bool
        ensures { result ≡ has self.now.facts node concept }
    {
        concept == 0 || self.index.has(node, concept)
    }

    /// Whether an edge of this very role leads from one node to the other.
    #[tactic(auto, using(crate::proofs::Found::edge_found))]
    pub fn has_edge(&self, role: u32, from: u32, to: u32) -> bool
        ensures { result ≡ has_edge self.now.facts (λ r. r == role) from to }
    {
        self.index.has_edge(role, from, to)
    }

    /// Whether the two nodes are apart.
    #[tactic(auto, using(crate::proofs::Found::apart_found))]
    pub fn are_apart(&self, x: u32, y: u32) -> bool
        ensures { result ≡ are_apart self.now.facts x y }
    {
        self.index.are_apart(x, y)
    }
}

// Keeps one entry more.
fn put(index: &mut Index, entries: &mut Vec<Entry>, entry: Entry) -> Result<(), NoMemory>
    ensures index { OnOk result (index.new ≡ index_after index.old entry.fact) }
    ensures entries { OnOk result (entries.new.items ≡ entries.old.items ++ entry ∷ []) }
    ensures begins { OnErr result (Begins index.old index.new) }
    ensures unchanged { OnErr result (entries.new.items ≡ entries.old.items) }
{
    index.put(&entry.fact)?;
    entries.push(entry)?;
    Ok(())
}
