// What is kept of one node.
ghost use Rattle.std.specs.Prelude.{◌≡◌, ◌++◌, ◌<◌, ◌^◌, ◌==◌, length, drop, IfOk, OnOk, OnErr};
ghost use Rattle.std.specs.List.{list_any};
ghost use Rattle.fact_tree.specs.Kept.{new_lists, putting, having, leading, parted, absorbing, cut_lists, Begins};

use crate::bits::{forget_after, put_last};
use calculus_specs::NoMemory;
use lane_sieve::{has_number, put_number};
use std::alloc::Allocator;
use std::marker::Model;

// How many bits a print has.
const BITS: u32 = 256;

// No list is longer, so that lengths take 32 bits.
const MOST: usize = u32::MAX as usize;

/// The lists of a node. Those of a representative are the lists of all nodes that are one with it.
#[derive(Drop)]
pub(crate) struct Node<A: Allocator> {
    // The role of the first edge into it, and where that edge begins; no matter at a first node.
    origin: (u32, u32),
    // The nodes that are one with it, where it is a representative: itself first.
    members: Vec<u32, A>,
    concepts: Vec<u32, A>,
    edges: Vec<(u32, u32), A>,
    aparts: Vec<u32, A>,
    // The bits of its concepts by their remainders, and maybe more: while they are few, most others are told by them.
    print: [u64; 4],
    // A bit for each concept where they are many; else no words.
    bits: Vec<u64, A>,
    // Where to look first for what says something of it: the places of the last edge into it, and, beside the lists, of
    // what gave its concepts, its edges and its aparts. No answer rests on them: who looks there checks what stands
    // there.
    entry_place: u32,
    concept_places: Vec<u32, A>,
    edge_places: Vec<u32, A>,
    apart_places: Vec<u32, A>,
}

impl<A: Allocator> Model for Node<A> {
    ghost use Rattle.fact_tree.specs.Kept.{Lists};
    ghost use Rattle.fact_tree.specs.Short.{AreShort, ArePrinted, AreIndexed, EachIsNew};

    ghost Value = { Lists };

    ghost view = { λ n. record {
      origin = n.origin;
      members = n.members.items;
      concepts = n.concepts.items;
      edges = n.edges.items;
      aparts = n.aparts.items;
    } };

    ghost invariant = { λ n. AreShort n.members.items n.concepts.items n.edges.items n.aparts.items
        × ArePrinted n.concepts.items n.print × AreIndexed n.concepts.items n.bits.items × EachIsNew n.concepts.items };
}

impl<A: Allocator + Copy> Node<A> {
    /// A node that has top alone.
    pub(crate) fn new_in(
        alloc: A,
        node: u32,
        origin: (u32, u32),
        place: u32,
    ) -> Result<Node<A>, NoMemory>
        ensures { IfOk result (λ n. n ≡ new_lists node origin) }
    {
        let mut members = Vec::new(alloc);
        members.push(node)?;
        let mut concepts = Vec::new(alloc);
        concepts.push(0)?;
        let mut print = [0; 4];
        put_number(&mut print, 0);
        let mut concept_places = Vec::new(alloc);
        concept_places.push(place)?;
        Ok(Node {
            origin,
            members,
            concepts,
            edges: Vec::new(alloc),
            aparts: Vec::new(alloc),
            print,
            bits: Vec::new(alloc),
            entry_place: place,
            concept_places,
            edge_places: Vec::new(alloc),
            apart_places: Vec::new(alloc),
        })
    }

    /// The role of the first edge into it, and where that edge begins; no matter at a first node.
    pub(crate) fn origin(&self) -> (u32, u32)
        ensures { result ≡ self.now.origin }
    {
        self.origin
    }

    /// The nodes that are one with it, itself first.
    pub(crate) fn members(&self) -> &[u32]
        ensures { result.now ≡ self.now.members }
    {
        self.members.as_slice()
    }

    /// Its members but so many first ones.
    pub(crate) fn later_members(&self, from: u32) -> &[u32]
        ensures { result.now ≡ drop from self.now.members }
    {
        let from = from as usize;
        if from >= self.members.len() {
            return &[];
        }
        &self.members[from..]
    }

    /// How long its lists are: members, concepts, edges and aparts.
    pub(crate) fn lengths(&self) -> (u32, u32, u32, u32)
        ensures members { result.0 ≡ length self.now.members }
        ensures concepts { result.1 ≡ length self.now.concepts }
        ensures edges { result.2 ≡ length self.now.edges }
        ensures aparts { result.3 ≡ length self.now.aparts }
    {
        (
            self.members.len() as u32,
            self.concepts.len() as u32,
            self.edges.len() as u32,
            self.aparts.len() as u32,
        )
    }

    /// Its concepts, each once.
    pub(crate) fn concepts(&self) -> &[u32]
        ensures { result.now ≡ self.now.concepts }
    {
        self.concepts.as_slice()
    }

    /// Its edges, each as a role and an end.
    pub(crate) fn edges(&self) -> &[(u32, u32)]
        ensures { result.now ≡ self.now.edges }
    {
        self.edges.as_slice()
    }

    /// The second nodes of the pairs that are apart and have it first.
    pub(crate) fn aparts(&self) -> &[u32]
        ensures { result.now ≡ self.now.aparts }
    {
        self.aparts.as_slice()
    }

    /// Whether a concept is among its own.
    pub(crate) fn has(&self, concept: u32) -> bool
        ensures { result ≡ list_any (λ d. d == concept) self.now.concepts }
    {
        if !has_number(&self.print, concept % BITS) {
            return false;
        }
        if !self.bits.is_empty() {
            return has_number(self.bits.as_slice(), concept);
        }
        self.concepts.contains(&concept)
    }

    /// Where to look first for an edge that leads to it.
    pub(crate) fn entry_place(&self) -> u32 {
        self.entry_place
    }

    /// An edge that leads to it stands at a place.
    pub(crate) fn note_entry(&mut self, place: u32)
        ensures { self.new ≡ self.old }
    {
        self.entry_place = place;
    }

    /// Where to look first for what gave it a concept.
    pub(crate) fn concept_place(&self, concept: u32) -> u32 {
        match self.concepts.iter().rposition(|other| *other == concept) {
            Some(index) => place_at(self.concept_places.as_slice(), index),
            None => u32::MAX,
        }
    }

    /// Where to look first for the edge at an index of its edges.
    pub(crate) fn edge_place(&self, index: usize) -> u32 {
        place_at(self.edge_places.as_slice(), index)
    }

    /// Where to look first for what keeps it apart from the node at an index of its aparts.
    pub(crate) fn apart_place(&self, index: usize) -> u32 {
        place_at(self.apart_places.as_slice(), index)
    }

    /// Puts a concept last, unless it is there. What gives it stands at a place.
    pub(crate) fn put_concept(&mut self, concept: u32, place: u32) -> Result<(), NoMemory>
        ensures put { OnOk result (self.new ≡ having concept self.old) }
        ensures unchanged { OnErr result (self.new ≡ self.old) }
    {
        if self.has(concept) {
            return Ok(());
        }
        if self.concepts.len() >= MOST {
            return Err(NoMemory);
        }
        self.concept_places.push(place)?;
        put_number(&mut self.print, concept % BITS);
        put_last(&mut self.concepts, &mut self.bits, concept)?;
        Ok(())
    }

    /// Puts an edge last. What gives it stands at a place.
    pub(crate) fn put_edge(&mut self, role: u32, end: u32, place: u32) -> Result<(), NoMemory>
        ensures put { OnOk result (self.new ≡ leading role end self.old) }
        ensures unchanged { OnErr result (self.new ≡ self.old) }
    {
        if self.edges.len() >= MOST {
            return Err(NoMemory);
        }
        self.edge_places.push(place)?;
        self.edges.push((role, end))?;
        Ok(())
    }

    /// Puts a node that it is apart from last. What keeps them apart stands at a place.
    pub(crate) fn put_apart(&mut self, other: u32, place: u32) -> Result<(), NoMemory>
        ensures put { OnOk result (self.new ≡ parted other self.old) }
        ensures unchanged { OnErr result (self.new ≡ self.old) }
    {
        if self.aparts.len() >= MOST {
            return Err(NoMemory);
        }
        self.apart_places.push(place)?;
        self.aparts.push(other)?;
        Ok(())
    }

    /// Puts the lists of another node behind its own.
    pub(crate) fn absorb(&mut self, other: &Node<A>) -> Result<(), NoMemory>
        ensures put { OnOk result (self.new ≡ absorbing other.now self.old) }
        ensures begins { OnErr result (Begins self.old self.new) }
        ensures members { OnErr result (self.new.members ≡ self.old.members) }
    {
        self.put_concepts(other.concepts(), other.concept_places.as_slice())?;
        self.put_edges(other.edges(), other.edge_places.as_slice())?;
        self.put_aparts(other.aparts(), other.apart_places.as_slice())?;
        self.put_members(other.members())
    }

    fn put_concepts(&mut self, concepts: &[u32], places: &[u32]) -> Result<(), NoMemory>
        ensures put { OnOk result (self.new ≡ putting concepts.now self.old) }
        ensures begins { OnErr result (Begins self.old self.new) }
        ensures members { self.new.members ≡ self.old.members }
    {
        for (index, concept) in concepts.iter().enumerate() {
            self.put_concept(*concept, place_at(places, index))?;
        }
        Ok(())
    }

    fn put_edges(&mut self, edges: &[(u32, u32)], places: &[u32]) -> Result<(), NoMemory>
        ensures put { OnOk result (self.new ≡ record self.old { edges = self.old.edges ++ edges.now }) }
        ensures unchanged { OnErr result (self.new ≡ self.old) }
    {
        if self.edges.len() + edges.len() > MOST {
            return Err(NoMemory);
        }
        self.edge_places.extend_from_slice(places)?;
        self.edges.extend_from_slice(edges)?;
        Ok(())
    }

    fn put_aparts(&mut self, aparts: &[u32], places: &[u32]) -> Result<(), NoMemory>
        ensures put { OnOk result (self.new ≡ record self.old { aparts = self.old.aparts ++ aparts.now }) }
        ensures unchanged { OnErr result (self.new ≡ self.old) }
    {
        if self.aparts.len() + aparts.len() > MOST {
            return Err(NoMemory);
        }
        self.apart_places.extend_from_slice(places)?;
        self.aparts.extend_from_slice(aparts)?;
        Ok(())
    }

    fn put_members(&mut self, members: &[u32]) -> Result<(), NoMemory>
        ensures put { OnOk result (self.new ≡ record self.old { members = self.old.members ++ members.now }) }
        ensures unchanged { OnErr result (self.new ≡ self.old) }
    {
        if self.members.len() + members.len() > MOST {
            return Err(NoMemory);
        }
        self.members.extend_from_slice(members)?;
        Ok(())
    }

    /// Shortens its lists.
    pub(crate) fn cut(&mut self, members: u32, concepts: u32, edges: u32, aparts: u32)
        ensures { self.new ≡ cut_lists members concepts edges aparts self.old }
    {
        forget_after(&mut self.bits, self.concepts.as_slice(), concepts as usize);
        self.members.truncate(members as usize);
        self.concepts.truncate(concepts as usize);
        self.edges.truncate(edges as usize);
        self.aparts.truncate(aparts as usize);
        self.concept_places.truncate(concepts as usize);
        self.edge_places.truncate(edges as usize);
        self.apart_places.truncate(aparts as usize);
    }
}

// The number at an index, or the greatest where there is none.
fn place_at(places: &[u32], index: usize) -> u32 {
    match places.get(index) {
        Some(place) => *place,
        None => u32::MAX,
    }
}
