// In which order given facts are put: first those that name the node in question, then those that name a node which
// these name, and so on outwards. So what follows from a few facts near the node is found before the others are put, as
// resolution with a set of support begins with what the question says (L. Wos, G. Robinson and D. Carson, "Efficiency
// and Completeness of the Set of Support Strategy in Theorem Proving", Journal of the ACM 12, 1965).

use crate::NoMemory;
use calculus_specs::Fact;
use std::alloc::Global;
use step_finders::{Given, Rules};

// The end of a chain of mentions, which is no place.
const END: u32 = u32::MAX;

// That a fact names a node.
#[derive(Clone, Copy, Debug, PartialEq, Eq)]
struct Mention {
    // The place of the fact among those that are given.
    place: usize,
    // The place of the next mention of this node.
    next: u32,
}

// For each node the facts that name it, in their order, as a chain.
#[derive(Drop)]
struct Mentions {
    first: Vec<u32>,
    all: Vec<Mention>,
}

impl Mentions {
    // No mention yet, of so many nodes.
    fn none(heap: Global, nodes: u32) -> Result<Mentions, NoMemory> {
        let mut first = Vec::new(heap);
        for _ in 0..nodes {
            first.push(END)?;
        }
        Ok(Mentions {
            first,
            all: Vec::new(heap),
        })
    }

    // The place of the first mention of a node.
    fn first(&self, node: u32) -> u32 {
        match self.first.get(node as usize) {
            Some(at) => *at,
            None => END,
        }
    }

    fn get(&self, at: u32) -> Option<Mention> {
        match self.all.get(at as usize) {
            Some(mention) => Some(*mention),
            None => None,
        }
    }

    // Puts the mention of a node by the fact at a place, before the other mentions of this node.
    fn put(&mut self, node: u32, place: usize) -> Result<(), NoMemory> {
        let at = node as usize;
        let count = self.all.len();
        if count >= END as usize {
            return Err(NoMemory);
        }
        if at >= self.first.len() {
            return Ok(());
        }
        self.all.push(Mention {
            place,
            next: self.first[at],
        })?;
        self.first[at] = count as u32;
        Ok(())
    }

    // Puts the mentions by all facts, those by the last fact first.
    fn put_all(&mut self, given: &[Given]) -> Result<(), NoMemory> {
        let count = given.len();
        for back in 0..count {
            let place = count - 1 - back;
            let (one, other) = nodes_of(given[place].fact);
            self.put(one, place)?;
            if other != one {
                self.put(other, place)?;
            }
        }
        Ok(())
    }
}

// The nodes that a fact names: twice the same node if it names one alone.
fn nodes_of(fact: Fact<u32>) -> (u32, u32) {
    match fact {
        Fact::Has(node, _) => (node, node),
        Fact::Edge(_, begin, end) => (begin, end),
        Fact::Same(one, other) => (one, other),
        Fact::Apart(one, other) => (one, other),
    }
}

/// The given facts, by their places, and the first nodes, both in this order, and where each ring ends. The first ring
/// has the facts that name the node in question, the next one those that name a node that these name, and so on; with
/// each ring come the nodes that it names. What no chain of facts joins with the node is the last ring.
#[derive(Drop)]
pub(crate) struct Nearness {
    facts: Vec<usize>,
    nodes: Vec<u32>,
    rings: Vec<Ring>,
}

// Up to where the facts and the nodes of a ring go.
#[derive(Clone, Copy, Debug, PartialEq, Eq)]
struct Ring {
    facts: usize,
    nodes: usize,
}

impl Nearness {
    /// Nothing is in order yet.
    pub(crate) fn none(heap: Global) -> Nearness {
        Nearness {
            facts: Vec::new(heap),
            nodes: Vec::new(heap),
            rings: Vec::new(heap),
        }
    }

    /// The order around a node.
    ///
    /// # Errors
    ///
    /// Out of memory.
    pub(crate) fn around<R: Rules>(
        heap: Global,
        rules: &R,
        node: u32,
    ) -> Result<Nearness, NoMemory> {
        let mut walk = Walk::from(heap, rules, node)?;
        for _ in 0..rules.first() {
            if walk.is_done() {
                break;
            }
            walk.go_outwards(rules.given())?;
        }
        walk.take_others(rules.given(), rules.first())?;
        Ok(walk.nearness)
    }

    /// Whether the order was made: it has a ring then.
    pub(crate) fn is_made(&self) -> bool {
        self.rings.len() > 0
    }

    /// How many rings there are.
    pub(crate) fn ring_count(&self) -> usize {
        self.rings.len()
    }

    /// How many facts are in this ring and those before it.
    pub(crate) fn facts_within(&self, ring: usize) -> usize {
        match self.rings.get(ring) {
            Some(ring) => ring.facts,
            None => self.facts.len(),
        }
    }

    /// How many nodes are in this ring and those before it.
    pub(crate) fn nodes_within(&self, ring: usize) -> usize {
        match self.rings.get(ring) {
            Some(ring) => ring.nodes,
            None => self.nodes.len(),
        }
    }

    /// The ring of the fact of a rank, looked for from ring `from` on; or how many rings there are.
    pub(crate) fn ring_of(&self, rank: usize, from: usize) -> usize {
        for at in from..self.rings.len() {
            if rank < self.facts_within(at) {
                return at;
            }
        }
        self.rings.len()
    }

    /// How many facts there are.
    pub(crate) fn fact_count(&self) -> usize {
        self.facts.len()
    }

    /// The place of the fact of a rank, if there is one.
    pub(crate) fn fact(&self, rank: usize) -> Option<usize> {
        match self.facts.get(rank) {
            Some(place) => Some(*place),
            None => None,
        }
    }

    /// The node of a rank, if there is one.
    pub(crate) fn node(&self, rank: usize) -> Option<u32> {
        match self.nodes.get(rank) {
            Some(node) => Some(*node),
            None => None,
        }
    }
}

// A walk over the nodes, by breadth, as far as it has come.
#[derive(Drop)]
struct Walk {
    mentions: Mentions,
    // Of how many of the nodes that were reached the facts were taken.
    looked: usize,
    // By node whether it was reached, and by place whether a fact was taken.
    is_reached: Vec<bool>,
    is_taken: Vec<bool>,
    nearness: Nearness,
}

impl Walk {
    fn from<R: Rules>(heap: Global, rules: &R, node: u32) -> Result<Walk, NoMemory> {
        let mut mentions = Mentions::none(heap, rules.first())?;
        mentions.put_all(rules.given())?;
        let mut walk = Walk {
            mentions,
            looked: 0,
            is_reached: no_flags(heap, rules.first() as usize)?,
            is_taken: no_flags(heap, rules.given().len())?,
            nearness: Nearness::none(heap),
        };
        walk.reach(node)?;
        Ok(walk)
    }

    fn is_done(&self) -> bool {
        self.looked >= self.nearness.nodes.len()
    }

    // Takes the facts of the nodes that were reached last, and reaches those that these name.
    fn go_outwards(&mut self, given: &[Given]) -> Result<(), NoMemory> {
        let from = self.looked;
        let to = self.nearness.nodes.len();
        for rank in from..to {
            match self.nearness.node(rank) {
                Some(node) => self.take_facts_of(given, node)?,
                None => {}
            }
        }
        self.looked = to;
        self.end_ring()
    }

    fn take_facts_of(&mut self, given: &[Given], node: u32) -> Result<(), NoMemory> {
        let mut at = self.mentions.first(node);
        for _ in 0..self.mentions.all.len() {
            let Some(mention) = self.mentions.get(at) else {
                break;
            };
            self.take(given, mention.place)?;
            at = mention.next;
        }
        Ok(())
    }

    // Takes a fact, if it was not taken before.
    fn take(&mut self, given: &[Given], place: usize) -> Result<(), NoMemory> {
        if place >= given.len() || place >= self.is_taken.len() || self.is_taken[place] {
            return Ok(());
        }
        self.is_taken[place] = true;
        self.nearness.facts.push(place)?;
        let (one, other) = nodes_of(given[place].fact);
        self.reach(one)?;
        self.reach(other)
    }

    // Reaches a node, if it was not reached before.
    fn reach(&mut self, node: u32) -> Result<(), NoMemory> {
        let at = node as usize;
        if at >= self.is_reached.len() || self.is_reached[at] {
            return Ok(());
        }
        self.is_reached[at] = true;
        self.nearness.nodes.push(node)?;
        Ok(())
    }

    // Takes the facts and nodes that were not reached, as the last ring.
    fn take_others(&mut self, given: &[Given], nodes: u32) -> Result<(), NoMemory> {
        for place in 0..given.len() {
            self.take(given, place)?;
        }
        for node in 0..nodes {
            self.reach(node)?;
        }
        self.end_ring()
    }

    fn end_ring(&mut self) -> Result<(), NoMemory> {
        self.nearness.rings.push(Ring {
            facts: self.nearness.facts.len(),
            nodes: self.nearness.nodes.len(),
        })?;
        Ok(())
    }
}

// So many flags, none of which is set.
fn no_flags(heap: Global, count: usize) -> Result<Vec<bool>, NoMemory> {
    let mut flags = Vec::new(heap);
    for _ in 0..count {
        flags.push(false)?;
    }
    Ok(flags)
}
