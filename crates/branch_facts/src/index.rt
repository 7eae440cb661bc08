// What is kept of some facts, so that each is found by one look.
ghost use Rattle.std.specs.Prelude.{◌≡◌, ◌<◌, [], OnOk, OnErr, length, take, slice_get};
ghost use Rattle.branch_facts.specs.declared.seen.Seen.TheVariants.{Has, Edge};
ghost use Rattle.branch_facts.specs.Seen.{through, is_seen, are_seen_apart, copied_at, index_copied, index_linked};
ghost use Rattle.branch_facts.specs.Seen.{index_joining, seeing, index_after, Begins};

use crate::NoMemory;
use crate::seen::Seen;
use calculus_specs::Fact;
use indexmap::{IndexMap, IndexSet};
use std::alloc::Global;
use std::marker::Model;

/// Facts between representatives, and the links that lead to these.
///
/// A join of two representatives makes a link from the higher one to the lower one, which is found by the higher: a
/// node with a link is no representative any more, and so gets no second one. The representative of a node is reached
/// by its link, if it has one, then by that of the node reached, and so on. The nodes fall on the way, so that it ends,
/// and each costs one look.
#[derive(Drop)]
pub(crate) struct Index {
    seen: IndexSet<Seen>,
    links: IndexMap<u32, u32>,
}

impl Model for Index {
    ghost use Rattle.branch_facts.specs.Seen.{AreLinks, Index as PlainIndex};

    ghost Value = { PlainIndex };

    ghost view = { λ i. record { seen = i.seen.keys; links = i.links.entries } };

    ghost invariant = { λ i. AreLinks i.links.entries };
}

impl Index {
    ghost use Rattle.branch_facts.specs.Seen.{Index as PlainIndex};

    pub(crate) fn new(alloc: Global) -> Index
        ensures { result ≡ record { seen = []; links = [] } }
    {
        Index {
            seen: IndexSet::new(alloc),
            links: IndexMap::new(alloc),
        }
    }

    /// How many facts and links are kept.
    pub(crate) fn lengths(&self) -> (usize, usize)
        ensures seen { result.0 ≡ length self.now.seen }
        ensures links { result.1 ≡ length self.now.links }
    {
        (self.seen.len(), self.links.len())
    }

    /// The first facts and the first links alone.
    pub(crate) fn cut(&mut self, seen: usize, links: usize)
        ensures { self.new ≡ record { seen = take seen self.old.seen; links = take links self.old.links } }
    {
        self.seen.truncate(seen);
        self.links.truncate(links);
    }

    /// The representative of a node, which is its own.
    pub(crate) fn representative(&self, node: u32) -> u32
        ensures reached { result ≡ through self.now.links node }
        ensures stays { through self.now.links result ≡ result }
    {
        let mut reached = node;
        while let Some(lower) = self.links.get(&reached) {
            reached = *lower;
        }
        reached
    }

    // Whether the fact is kept.
    #[tactic(auto, using(crate::proofs::Same::eq_is))]
    fn contains(&self, fact: Seen) -> bool
        ensures { result ≡ is_seen self.now.seen fact }
    {
        self.seen.contains(&fact)
    }

    /// Whether the node's representative has the concept.
    pub(crate) fn has(&self, node: u32, concept: u32) -> bool
        ensures { result ≡ is_seen self.now.seen (Has (through self.now.links node) concept) }
    {
        self.contains(Seen::Has(self.representative(node), concept))
    }

    /// Whether an edge of the role leads from one node's representative to the other's.
    pub(crate) fn has_edge(&self, role: u32, from: u32, to: u32) -> bool
        ensures { result ≡ is_seen self.now.seen (Edge role (through self.now.links from) (through self.now.links to)) }
    {
        self.contains(Seen::Edge(role, self.representative(from), self.representative(to)))
    }

    /// Whether the representatives of the two nodes are apart, in either order.
    pub(crate) fn are_apart(&self, x: u32, y: u32) -> bool
        ensures { result ≡ are_seen_apart self.now x y }
    {
        let (x, y) = (self.representative(x), self.representative(y));
        self.contains(Seen::Apart(x, y)) || self.contains(Seen::Apart(y, x))
    }

    /// Keeps one fact more.
    ///
    /// # Errors
    ///
    /// Out of memory. What is kept begins as before.
    pub(crate) fn put(&mut self, fact: &Fact<u32>) -> Result<(), NoMemory>
        ensures put { OnOk result (self.new ≡ index_after self.old fact.now) }
        ensures begins { OnErr result (Begins self.old self.new) }
    {
        match *fact {
            Fact::Has(x, concept) => self.see(Seen::Has(self.representative(x), concept)),
            Fact::Edge(role, x, y) => {
                self.see(Seen::Edge(role, self.representative(x), self.representative(y)))
            }
            Fact::Apart(x, y) => {
                self.see(Seen::Apart(self.representative(x), self.representative(y)))
            }
            Fact::Same(x, y) => self.join(x, y),
        }
    }

    #[tactic(auto, using(crate::proofs::Same::eq_is))]
    fn see(&mut self, fact: Seen) -> Result<(), NoMemory>
        ensures put { OnOk result (self.new ≡ seeing self.old fact) }
        ensures unchanged { OnErr result (self.new ≡ self.old) }
    {
        self.seen.insert_full(fact)?;
        Ok(())
    }

    // Makes the representatives of two nodes one.
    #[tactic(auto, using(crate::proofs::Links::greater_is, crate::proofs::Links::lesser_is))]
    fn join(&mut self, x: u32, y: u32) -> Result<(), NoMemory>
        ensures put { OnOk result (self.new ≡ index_joining self.old x y) }
        ensures begins { OnErr result (Begins self.old self.new) }
    {
        let (x, y) = (self.representative(x), self.representative(y));
        if x == y {
            return Ok(());
        }
        self.link(x.max(y), x.min(y))
    }

    // Says of the lower representative what is said of the higher, and leads from this one to that.
    fn link(&mut self, high: u32, low: u32) -> Result<(), NoMemory>
        requires falls { low < high }
        requires from_representative { through self.old.links high ≡ high }
        requires to_representative { through self.old.links low ≡ low }
        ensures put { OnOk result (self.new ≡ index_linked self.old high low) }
        ensures begins { OnErr result (Begins self.old self.new) }
    {
        self.copy(high, low)?;
        self.links.insert(high, low)?;
        Ok(())
    }

    #[tactic(auto, using(crate::proofs::Grown::copying))]
    fn copy(&mut self, high: u32, low: u32) -> Result<(), NoMemory>
        ensures put { OnOk result (self.new ≡ index_copied self.old high low) }
        ensures begins { OnErr result (Begins self.old self.new) }
    {
        for place in 0..self.seen.len() {
            self.copy_at(place, high, low)?;
        }
        Ok(())
    }

    fn copy_at(&mut self, place: usize, high: u32, low: u32) -> Result<(), NoMemory>
        requires { place < length self.old.seen }
        ensures put { OnOk result (self.new ≡ copied_at high low self.old (slice_get self.old.seen place)) }
        ensures unchanged { OnErr result (self.new ≡ self.old) }
    {
        let fact = self.seen[place];
        if fact.mentions(high) {
            return self.see(fact.renamed(high, low));
        }
        Ok(())
    }
}
