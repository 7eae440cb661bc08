// What is kept of all nodes, and how it is undone.
ghost use Rattle.std.specs.Prelude.{◌≡◌, ℕ, ◌+◌, ◌^◌, ◌<◌, ◌≤◌, ◌==◌, length, OnOk, OnErr, IfOk, [], ◌∷◌};
ghost use Rattle.std.specs.Prelude.{if◌then◌else◌, slice_set, get_or};
ghost use Rattle.fact_tree.specs.Kept.{absorbed_at, lists_at, changed_at, having, leading, parted, made, grown, linked};
ghost use Rattle.fact_tree.specs.Kept.{absorbing, bare, after_at, empty, set_each, cut_lists};
ghost use Rattle.fact_tree.specs.Entries.{lengths_of, undone, relinked, Undoes, IsPlace, AreOrdered, AreLonger};
ghost use Rattle.fact_tree.specs.Entries.{IsLonger, HasMore};

use crate::node::Node;
use calculus_specs::{Fact, NoMemory};
use std::alloc::Allocator;
use std::marker::Model;

// There are never more nodes.
const MOST_NODES: usize = u32::MAX as usize - 200;

/// How much was kept before a fact.
#[derive(Clone, Copy, Debug, PartialEq, Eq)]
pub(crate) struct Lengths {
    /// How many nodes there were.
    pub(crate) nodes: u32,
    /// The node whose lists the fact makes longer.
    pub(crate) node: u32,
    /// How long the node's lists were.
    pub(crate) members: u32,
    pub(crate) concepts: u32,
    pub(crate) edges: u32,
    pub(crate) aparts: u32,
}

/// The links and the lists of all nodes.
#[derive(Drop)]
pub(crate) struct Store<A: Allocator> {
    alloc: A,
    links: Vec<u32, A>,
    nodes: Vec<Node<A>, A>,
}

impl<A: Allocator> Model for Store<A> {
    ghost use Rattle.std.specs.Prelude.{ℕ, length, ◌+◌, ◌<◌, ◌^◌};
    ghost use Rattle.fact_tree.specs.Kept.{absorbed_at, Kept};

    ghost Value = { Kept };

    ghost view = { λ s. record { links = s.links.items; nodes = s.nodes.items } };

    ghost invariant = { λ s. length s.nodes.items + 200 < 2 ^ 32 };
}

impl<A: Allocator + Copy> Store<A> {
    /// The first nodes alone, so many.
    pub(crate) fn new_in(alloc: A, first: u32) -> Result<Store<A>, NoMemory>
        ensures { IfOk result (λ s. s ≡ empty first) }
    {
        let mut store = Store {
            alloc,
            links: Vec::new(alloc),
            nodes: Vec::new(alloc),
        };
        for _ in 0..first {
            store.grow((0, 0), u32::MAX)?;
        }
        Ok(store)
    }

    /// How many nodes there are.
    pub(crate) fn count(&self) -> u32
        ensures count { result ≡ length self.now.nodes }
        ensures small { result + 200 < 2 ^ 32 }
    {
        self.nodes.len() as u32
    }

    /// The node to which a node is linked.
    pub(crate) fn root(&self, node: u32) -> u32
        ensures linked { node < length self.now.links → result ≡ get_or self.now.links node 0 }
        ensures beyond { length self.now.links ≤ node → result ≡ node }
    {
        if node as usize >= self.links.len() {
            return node;
        }
        self.links[node as usize]
    }

    /// What is kept of a node.
    pub(crate) fn node(&self, node: u32) -> &Node<A>
        requires { node < length self.now.nodes }
        ensures { result.now ≡ lists_at self.now node }
    {
        &self.nodes[node as usize]
    }

    /// Where to look first for an edge into a node.
    pub(crate) fn entry_place(&self, node: u32) -> u32 {
        match self.nodes.get(node as usize) {
            Some(node) => node.entry_place(),
            None => u32::MAX,
        }
    }

    /// How much is kept, before a fact that concerns these nodes.
    pub(crate) fn lengths(&self, node: u32) -> Lengths
        requires { node < length self.now.nodes }
        ensures { result ≡ lengths_of node self.now }
    {
        let (members, concepts, edges, aparts) = self.nodes[node as usize].lengths();
        Lengths {
            nodes: self.nodes.len() as u32,
            node,
            members,
            concepts,
            edges,
            aparts,
        }
    }

    /// Takes back what was put since there was so much.
    pub(crate) fn undo(&mut self, lengths: Lengths)
        requires node { lengths.node < lengths.nodes }
        requires nodes { lengths.nodes ≤ length self.old.nodes }
        requires links { lengths.nodes ≤ length self.old.links }
        ensures { self.new ≡ undone lengths self.old }
    {
        self.links.truncate(lengths.nodes as usize);
        self.nodes.truncate(lengths.nodes as usize);
        let members = self.nodes[lengths.node as usize].later_members(lengths.members);
        relink_in(&mut self.links, members);
        cut_in(&mut self.nodes, lengths);
    }

    fn put_concept(&mut self, at: u32, concept: u32, place: u32) -> Result<(), NoMemory>
        requires { at < length self.old.nodes }
        ensures put { OnOk result (self.new ≡ changed_at at (having concept) self.old) }
        ensures unchanged { OnErr result (self.new ≡ self.old) }
    {
        self.nodes[at as usize].put_concept(concept, place)
    }

    fn put_edge(&mut self, at: u32, role: u32, end: u32, place: u32) -> Result<(), NoMemory>
        requires { at < length self.old.nodes }
        ensures put { OnOk result (self.new ≡ changed_at at (leading role end) self.old) }
        ensures unchanged { OnErr result (self.new ≡ self.old) }
    {
        self.nodes[at as usize].put_edge(role, end, place)
    }

    fn put_apart(&mut self, at: u32, other: u32, place: u32) -> Result<(), NoMemory>
        requires { at < length self.old.nodes }
        ensures put { OnOk result (self.new ≡ changed_at at (parted other) self.old) }
        ensures unchanged { OnErr result (self.new ≡ self.old) }
    {
        self.nodes[at as usize].put_apart(other, place)
    }

    /// Keeps one fact more, which stands at a place, at these two nodes.
    ///
    /// # Errors
    ///
    /// Out of memory. What was kept is kept, and `undo` leads back to it.
    pub(crate) fn put(
        &mut self,
        fact: &Fact<u32>,
        at: u32,
        high: u32,
        place: u32,
    ) -> Result<(), NoMemory>
        requires place { IsPlace at high self.old }
        requires ordered { AreOrdered at high fact.now }
        ensures put { OnOk result (self.new ≡ after_at at high fact.now self.old) }
        ensures back { OnErr result (Undoes (lengths_of at self.old) self.new self.old) }
    {
        match *fact {
            Fact::Has(_, concept) => self.put_concept(at, concept, place),
            Fact::Edge(role, from, to) => self.put_made(at, role, from, to, place),
            Fact::Apart(_, other) => self.put_apart(at, other, place),
            Fact::Same(_, _) => self.join_two(high, at),
        }
    }

    // Makes the edge's end too, where that is the next number.
    fn put_made(
        &mut self,
        at: u32,
        role: u32,
        from: u32,
        to: u32,
        place: u32,
    ) -> Result<(), NoMemory>
        requires { at < length self.old.nodes }
        ensures put { OnOk result (self.new ≡ changed_at at (leading role to) (made (role, from) to self.old)) }
        ensures begins { OnErr result (HasMore self.old self.new) }
    {
        self.make((role, from), to, place)?;
        self.put_edge(at, role, to, place)
    }

    fn make(&mut self, origin: (u32, u32), to: u32, place: u32) -> Result<(), NoMemory>
        ensures put { OnOk result (self.new ≡ made origin to self.old) }
        ensures begins { OnErr result (HasMore self.old self.new) }
    {
        if to as usize == self.nodes.len() {
            return self.grow(origin, place);
        }
        self.note_entry(to, place);
        Ok(())
    }

    // An edge that leads to a node stands at a place.
    fn note_entry(&mut self, node: u32, place: u32)
        ensures { self.new ≡ self.old }
    {
        if (node as usize) < self.nodes.len() {
            self.nodes[node as usize].note_entry(place);
        }
    }

    fn join_two(&mut self, high: u32, low: u32) -> Result<(), NoMemory>
        requires falls { low ≤ high }
        requires exists { high < length self.old.nodes }
        requires links { high < length self.old.links }
        ensures put { OnOk result (self.new ≡ if low == high then self.old else linked high low self.old) }
        ensures begins { OnErr result (IsLonger low self.old self.new) }
    {
        if low == high {
            return Ok(());
        }
        self.join(high, low)
    }

    /// Makes a node, which is a representative.
    fn grow(&mut self, origin: (u32, u32), place: u32) -> Result<(), NoMemory>
        ensures put { OnOk result (self.new ≡ grown origin self.old) }
        ensures begins { OnErr result (HasMore self.old self.new) }
    {
        if self.nodes.len() >= MOST_NODES || self.links.len() >= MOST_NODES {
            return Err(NoMemory);
        }
        self.links.push(self.links.len() as u32)?;
        let node = Node::new_in(self.alloc, self.nodes.len() as u32, origin, place)?;
        self.nodes.push(node)?;
        Ok(())
    }

    /// Puts the lists of the higher of two representatives behind those of the lower, and links its members.
    fn join(&mut self, high: u32, low: u32) -> Result<(), NoMemory>
        requires falls { low < high }
        requires exists { high < length self.old.nodes }
        requires links { high < length self.old.links }
        ensures put { OnOk result (self.new ≡ linked high low self.old) }
        ensures begins { OnErr result (IsLonger low self.old self.new) }
    {
        absorb_in(&mut self.nodes, high, low)?;
        link_in(&mut self.links, self.nodes[high as usize].members(), low);
        Ok(())
    }
}

fn absorb_in<A: Allocator + Copy>(
    nodes: &mut Vec<Node<A>, A>,
    high: u32,
    low: u32,
) -> Result<(), NoMemory>
    requires falls { low < high }
    requires exists { high < length nodes.old.items }
    ensures put { OnOk result (nodes.new.items ≡ absorbed_at high low nodes.old.items) }
    ensures begins { OnErr result (AreLonger low nodes.old.items nodes.new.items) }
{
    absorb_at(nodes.as_mut_slice(), high, low)
}

fn relink_in<A: Allocator>(links: &mut Vec<u32, A>, nodes: &[u32])
    ensures { links.new.items ≡ relinked nodes.now links.old.items }
{
    relink(links.as_mut_slice(), nodes);
}

// Shortens the lists of a node.
fn cut_in<A: Allocator + Copy>(nodes: &mut Vec<Node<A>, A>, lengths: Lengths)
    requires { lengths.node < length nodes.old.items }
    ensures { nodes.new.items
        ≡ slice_set nodes.old.items lengths.node
        (cut_lists lengths.members lengths.concepts lengths.edges lengths.aparts
        (get_or nodes.old.items lengths.node bare)) }
{
    nodes[lengths.node as usize].cut(
        lengths.members,
        lengths.concepts,
        lengths.edges,
        lengths.aparts,
    );
}

fn link_in<A: Allocator>(links: &mut Vec<u32, A>, nodes: &[u32], to: u32)
    ensures { links.new.items ≡ set_each nodes.now to links.old.items }
{
    link_each(links.as_mut_slice(), nodes, to);
}

fn absorb_at<A: Allocator + Copy>(
    nodes: &mut [Node<A>],
    high: u32,
    low: u32,
) -> Result<(), NoMemory>
    requires falls { low < high }
    requires exists { high < length nodes.old }
    ensures put { OnOk result (nodes.new ≡ absorbed_at high low nodes.old) }
    ensures begins { OnErr result (AreLonger low nodes.old nodes.new) }
{
    let (front, back) = nodes.split_at_mut(high as usize);
    front[low as usize].absorb(&back[0])
}

// Links each of the nodes to this one.
fn link_each(links: &mut [u32], nodes: &[u32], to: u32)
    ensures { links.new ≡ set_each nodes.now to links.old }
{
    for node in nodes {
        link(links, *node, to);
    }
}

// Links a node to this one, if it is there.
fn link(links: &mut [u32], node: u32, to: u32)
    ensures { links.new ≡ slice_set links.old node to }
{
    if (node as usize) < links.len() {
        links[node as usize] = to;
    }
}

// Links the nodes to the first of them.
fn relink(links: &mut [u32], nodes: &[u32])
    ensures { links.new ≡ relinked nodes.now links.old }
{
    if let Some(first) = nodes.first() {
        link_each(links, nodes, *first);
    }
}
