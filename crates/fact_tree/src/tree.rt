// Facts, and what they say.
ghost use Rattle.std.specs.Prelude.{◌≡◌, ℕ, ◌==◌, true, false, get_or, ◌+◌, ◌-◌, ◌<◌, ◌≤◌, ◌^◌, [], ◌∷◌, ◌++◌, OnOk};
ghost use Rattle.std.specs.Prelude.{OnErr, IfOk, length, take, slice_get, Some, IsNone, IfSome};
ghost use Rattle.std.specs.List.{list_all};
ghost use Rattle.calculus_specs.specs.Joins.{rep};
ghost use Rattle.calculus_specs.specs.State.{node_count_from, has, are_apart, gives_concept, gives_edge, gives_apart};
ghost use Rattle.calculus_specs.specs.State.{parent_from, new_nodes, apart_from, pairwise_apart, fresh_facts};
ghost use Rattle.calculus_specs.specs.State.{HaveParentsBefore};
ghost use Rattle.calculus_specs.specs.declared.facts.Fact.TheVariants.{Has, Edge};
ghost use Rattle.fact_tree.specs.Kept.{Kept, kept_of, after_at, at_of, high_of};
ghost use Rattle.fact_tree.specs.Entries.{IsFit, IsPlace, AreOrdered, Undoes, Leads, lengths_of};
ghost use Rattle.calculus_specs.specs.Listed.{IsLabel, IsOnce, AreEdges, AreJoined};
ghost use Rattle.fact_tree.specs.Told.{with_fresh, AreAparts, is_first_apart, IsOrigin, Continues, gives, IsGround};
ghost use Rattle.fact_tree.specs.Told.{IsUngrounded, IsAlone};

use crate::node::Node;
use crate::store::{Lengths, Store};
use calculus_specs::{Fact, NoMemory};
use std::alloc::Allocator;
use std::marker::Model;

/// A fact, and how much was kept before it.
#[derive(Clone, Copy, Debug, PartialEq, Eq)]
pub(crate) struct Entry {
    pub(crate) fact: Fact<u32>,
    pub(crate) lengths: Lengths,
}

/// The facts of a trail, and what they say of their nodes.
#[derive(Drop)]
pub struct FactTree<A: Allocator> {
    first: u32,
    store: Store<A>,
    entries: Vec<Entry, A>,
}

impl<A: Allocator> Model for FactTree<A> {
    ghost use Rattle.std.specs.Prelude.{◌≡◌, ◌<◌, ℕ};
    ghost use Rattle.fact_tree.specs.Facts.{TreeFacts};
    ghost use Rattle.fact_tree.specs.Kept.{kept_of};
    ghost use Rattle.fact_tree.specs.Entries.{facts_of, AreEntries, AreFit};

    ghost Value = { TreeFacts };

    ghost view = { λ t. record { first = t.first; facts = facts_of t.entries.items } };

    ghost invariant = { λ t. (t.store ≡ kept_of t.first (facts_of t.entries.items)) × AreEntries t.first t.entries.items
        × AreFit t.first (facts_of t.entries.items) × (0 < t.first) };
}

impl<A: Allocator + Copy> FactTree<A> {
    /// The first nodes, so many from node 0 on, of which nothing is known.
    ///
    /// # Errors
    ///
    /// Out of memory.
    pub fn new_in(alloc: A, first: u32) -> Result<FactTree<A>, NoMemory>
        requires { 0 < first }
        ensures { IfOk result (λ t. t ≡ record { first = first; facts = [] }) }
    {
        Ok(FactTree {
            first,
            store: Store::new_in(alloc, first)?,
            entries: Vec::new(alloc),
        })
    }

    /// How many first nodes there are.
    pub fn first(&self) -> u32
        ensures first { result ≡ self.now.first }
        ensures some { 0 < result }
        ensures nodes { result ≤ node_count_from self.now.first self.now.facts }
    {
        let _ = &self.entries;
        self.first
    }

    /// How many facts there are.
    pub fn len(&self) -> usize
        ensures { result ≡ length self.now.facts }
    {
        self.entries.len()
    }

    /// The fact at a place, from 0.
    pub fn fact(&self, place: usize) -> Fact<u32>
        requires { place < length self.now.facts }
        ensures { slice_get self.now.facts place ≡ Some result }
    {
        self.entries[place].fact
    }

    /// How many nodes there are.
    pub fn nodes(&self) -> u32
        ensures count { result ≡ node_count_from self.now.first self.now.facts }
        ensures parents { HaveParentsBefore self.now.first self.now.facts }
        ensures small { result + 200 < 2 ^ 32 }
    {
        let _ = &self.entries;
        self.store.count()
    }

    /// The representative of a node.
    pub fn representative(&self, node: u32) -> u32
        ensures { result ≡ rep self.now.facts node }
    {
        let _ = &self.entries;
        self.store.root(node)
    }

    /// What a node has, each concept once.
    pub fn label(&self, node: u32) -> &[u32]
        ensures held { IsLabel self.now.facts node result.now }
        ensures once { IsOnce result.now }
        ensures beyond { node_count_from self.now.first self.now.facts ≤ node → result.now ≡ 0 ∷ [] }
    {
        let _ = &self.entries;
        if node >= self.nodes() {
            return &[0];
        }
        self.lists(node).concepts()
    }

    /// The edges that begin at a node, each as its role and a node, whose representative is the end.
    pub fn edges(&self, node: u32) -> &[(u32, u32)]
        ensures { AreEdges self.now.facts node result.now }
    {
        let _ = &self.entries;
        if node >= self.nodes() {
            return &[];
        }
        self.lists(node).edges()
    }

    /// Whether a node has a concept.
    pub fn has(&self, node: u32, concept: u32) -> bool
        ensures { result ≡ has self.now.facts node concept }
    {
        let _ = &self.entries;
        if node >= self.nodes() {
            return concept == 0;
        }
        self.lists(node).has(concept)
    }

    /// The parent of a node, which first nodes do not have.
    pub fn parent(&self, node: u32) -> Option<u32>
        requires { node < node_count_from self.now.first self.now.facts }
        ensures { result ≡ parent_from self.now.first self.now.facts node }
    {
        match self.origin(node) {
            Some((_, parent)) => Some(parent),
            None => None,
        }
    }

    /// The first edge into a node that is no first node: its role, and the node where it begins.
    pub fn origin(&self, node: u32) -> Option<(u32, u32)>
        requires { node < node_count_from self.now.first self.now.facts }
        ensures none { IsNone result → node < self.now.first }
        ensures some { IfSome result (λ o. (self.now.first ≤ node) × IsOrigin self.now.first self.now.facts node o) }
    {
        let _ = &self.entries;
        if node < self.first {
            return None;
        }
        Some(self.store.node(node).origin())
    }

    // The lists of a node's representative.
    fn lists(&self, node: u32) -> &Node<A>
        requires { node < node_count_from self.now.first self.now.facts }
        ensures label { IsLabel self.now.facts node result.now.concepts }
        ensures once { IsOnce result.now.concepts }
        ensures edges { AreEdges self.now.facts node result.now.edges }
        ensures aparts { AreAparts self.now.facts node result.now.aparts }
    {
        let _ = &self.entries;
        self.store.node(self.store.root(node))
    }

    /// Whether two nodes are apart.
    #[tactic(auto, using(crate::proofs::Reading::apart_is_either))]
    pub fn are_apart(&self, first: u32, second: u32) -> bool
        requires first { first < node_count_from self.now.first self.now.facts }
        requires second { second < node_count_from self.now.first self.now.facts }
        ensures { result ≡ are_apart self.now.facts first second }
    {
        self.names_apart(first, second) || self.names_apart(second, first)
    }

    // Whether a fact keeps two nodes apart that names the first of them first.
    fn names_apart(&self, first: u32, second: u32) -> bool
        requires { first < node_count_from self.now.first self.now.facts }
        ensures { result ≡ is_first_apart self.now.facts first second }
    {
        let root = self.representative(second);
        let mut is_met = false;
        for other in self.lists(first).aparts() {
            is_met = is_met || self.representative(*other) == root;
        }
        is_met
    }

    /// The nodes that are one with a node, in some order.
    pub fn members(&self, node: u32) -> &[u32]
        requires { node < node_count_from self.now.first self.now.facts }
        ensures { AreJoined self.now.facts (node_count_from self.now.first self.now.facts) node result.now }
    {
        let _ = &self.entries;
        self.store.node(self.store.root(node)).members()
    }

    /// Whether no other node is one with a node's representative.
    pub fn is_alone(&self, node: u32) -> bool
        ensures alone { result ≡ true → IsAlone self.now.facts node }
        ensures joined { result ≡ false → ¬ IsAlone self.now.facts node }
    {
        let _ = &self.entries;
        if node >= self.nodes() {
            return true;
        }
        let root = self.store.root(node);
        has_no_other(self.store.node(root).members(), root)
    }

    /// The place of a fact that alone says what is asked; none where there is none. That two nodes are one is said by
    /// no fact alone.
    pub fn ground(&self, asked: Fact<u32>) -> Option<usize>
        ensures some { IfSome result (IsGround self.now.facts asked) }
        ensures none { IsNone result → IsUngrounded self.now.facts asked }
    {
        let place = self.likely_place(asked);
        if self.is_ground(asked, place) {
            return Some(place);
        }
        self.first_ground(asked)
    }

    // The first place of such a fact, looked for among all facts.
    fn first_ground(&self, asked: Fact<u32>) -> Option<usize>
        ensures some { IfSome result (IsGround self.now.facts asked) }
        ensures none { IsNone result → IsUngrounded self.now.facts asked }
    {
        for place in 0..self.len() {
            if self.is_ground(asked, place) {
                return Some(place);
            }
        }
        None
    }

    // Whether the fact at a place says what is asked.
    fn is_ground(&self, asked: Fact<u32>, place: usize) -> bool
        ensures beyond { length self.now.facts ≤ place → result ≡ false }
        ensures inside { place < length self.now.facts
            → result ≡ gives (rep self.now.facts) asked (get_or self.now.facts place (Has 0 0)) }
    {
        if place >= self.len() {
            return false;
        }
        says(self, asked, self.fact(place))
    }

    // Where to look first for a fact that says what is asked. Who looks there checks what stands there.
    fn likely_place(&self, asked: Fact<u32>) -> usize {
        match asked {
            Fact::Has(node, concept) => self.likely_concept(node, concept),
            Fact::Edge(role, from, to) => self.likely_edge(role, from, to),
            Fact::Apart(first, second) => self.likely_apart(first, second),
            Fact::Same(_, _) => usize::MAX,
        }
    }

    fn likely_concept(&self, node: u32, concept: u32) -> usize {
        if node >= self.nodes() {
            return usize::MAX;
        }
        self.lists(node).concept_place(concept) as usize
    }

    // Most edges are the last ones into their ends, and most nodes have few edges.
    fn likely_edge(&self, role: u32, from: u32, to: u32) -> usize {
        if from >= self.nodes() || to >= self.nodes() {
            return usize::MAX;
        }
        let place = self.likely_entry(role, from, to);
        if place < self.len() {
            return place;
        }
        self.likely_exit(role, from, to)
    }

    // Where to look first for an edge that is the last one into its end.
    fn likely_entry(&self, role: u32, from: u32, to: u32) -> usize
        requires { to < node_count_from self.now.first self.now.facts }
    {
        for end in self.lists(to).members() {
            let place = self.store.entry_place(*end) as usize;
            if self.is_ground(Fact::Edge(role, from, to), place) {
                return place;
            }
        }
        usize::MAX
    }

    // Where to look first for an edge among those that begin where it does.
    fn likely_exit(&self, role: u32, from: u32, to: u32) -> usize
        requires { from < node_count_from self.now.first self.now.facts }
    {
        let root = self.representative(to);
        let lists = self.lists(from);
        for (index, (given, end)) in lists.edges().iter().enumerate() {
            if *given == role && self.representative(*end) == root {
                return lists.edge_place(index) as usize;
            }
        }
        usize::MAX
    }

    fn likely_apart(&self, first: u32, second: u32) -> usize {
        if first >= self.nodes() || second >= self.nodes() {
            return usize::MAX;
        }
        let place = self.likely_first_apart(first, second);
        if place < self.len() {
            return place;
        }
        self.likely_first_apart(second, first)
    }

    // Where to look first for a fact that keeps two nodes apart and names the first of them first.
    fn likely_first_apart(&self, first: u32, second: u32) -> usize
        requires { first < node_count_from self.now.first self.now.facts }
    {
        let root = self.representative(second);
        let lists = self.lists(first);
        for (index, other) in lists.aparts().iter().enumerate() {
            if self.representative(*other) == root {
                return lists.apart_place(index) as usize;
            }
        }
        usize::MAX
    }

    /// Knows one fact more. An edge whose end is there makes no node.
    ///
    /// # Errors
    ///
    /// Out of memory; nothing has changed.
    pub fn add(&mut self, fact: Fact<u32>) -> Result<(), NoMemory>
        requires { IsFit (node_count_from self.old.first self.old.facts) fact }
        ensures added { OnOk result (self.new ≡ record self.old { facts = self.old.facts ++ fact ∷ [] }) }
        ensures unchanged { OnErr result (self.new ≡ self.old) }
    {
        let (at, high) = places(&self.store, fact);
        let lengths = self.store.lengths(at);
        let entry = Entry { fact, lengths };
        let outcome = put(&mut self.store, &mut self.entries, entry, high);
        if outcome.is_err() {
            self.store.undo(lengths);
        }
        outcome
    }

    /// Makes nodes at the ends of edges from a node, each with the concept, and pairwise apart, and answers the first.
    ///
    /// # Errors
    ///
    /// Out of memory; nothing has changed.
    pub fn fresh(&mut self, from: u32, role: u32, concept: u32, count: u32) -> Result<u32, NoMemory>
        requires from { from < node_count_from self.old.first self.old.facts }
        requires count { count ≤ 101 }
        ensures first { IfOk result (λ first. first ≡ node_count_from self.old.first self.old.facts) }
        ensures made { OnOk result (self.new ≡ with_fresh self.old from role concept count) }
        ensures unchanged { OnErr result (self.new ≡ self.old) }
    {
        let len = self.len();
        let first = self.nodes();
        match self.put_fresh(from, role, concept, first, count) {
            Ok(()) => Ok(first),
            Err(error) => {
                self.undo_to(len);
                Err(error)
            }
        }
    }

    fn put_fresh(
        &mut self,
        from: u32,
        role: u32,
        concept: u32,
        first: u32,
        count: u32,
    ) -> Result<(), NoMemory>
        requires from { from < node_count_from self.old.first self.old.facts }
        requires count { count ≤ 101 }
        requires first { first ≡ node_count_from self.old.first self.old.facts }
        requires small { first + count < 2 ^ 32 }
        ensures made { OnOk result
            (self.new ≡ record self.old { facts = self.old.facts ++ fresh_facts from role concept first count }) }
        ensures begins { OnErr result (Continues self.old self.new) }
    {
        self.put_nodes(from, role, concept, first, count)?;
        self.put_pairwise(first, count)
    }

    fn put_nodes(
        &mut self,
        from: u32,
        role: u32,
        concept: u32,
        first: u32,
        count: u32,
    ) -> Result<(), NoMemory>
        requires from { from < node_count_from self.old.first self.old.facts }
        requires count { count ≤ 101 }
        requires first { first ≡ node_count_from self.old.first self.old.facts }
        requires small { first + count < 2 ^ 32 }
        ensures made { OnOk result
            (self.new ≡ record self.old { facts = self.old.facts ++ new_nodes from role concept first count }) }
        ensures count { OnOk result (node_count_from self.new.first self.new.facts ≡ first + count) }
        ensures begins { OnErr result (Continues self.old self.new) }
    {
        for place in 0..count {
            self.put_node(from, role, concept, first + place)?;
        }
        Ok(())
    }

    fn put_node(&mut self, from: u32, role: u32, concept: u32, node: u32) -> Result<(), NoMemory>
        requires from { from < node_count_from self.old.first self.old.facts }
        requires node { node ≡ node_count_from self.old.first self.old.facts }
        ensures made { OnOk result
            (self.new ≡ record self.old { facts = self.old.facts ++ Edge role from node ∷ Has node concept ∷ [] }) }
        ensures nodes { OnOk result (node_count_from self.new.first self.new.facts ≡ node + 1) }
        ensures begins { OnErr result (Continues self.old self.new) }
    {
        self.add(Fact::Edge(role, from, node))?;
        self.add(Fact::Has(node, concept))
    }

    fn put_pairwise(&mut self, first: u32, count: u32) -> Result<(), NoMemory>
        requires others { first + count ≤ node_count_from self.old.first self.old.facts }
        requires small { first + count < 2 ^ 32 }
        ensures made { OnOk result
            (self.new ≡ record self.old { facts = self.old.facts ++ pairwise_apart first count }) }
        ensures begins { OnErr result (Continues self.old self.new) }
    {
        for place in 0..count {
            self.put_apart_from(first + place, first + place + 1, count - place - 1)?;
        }
        Ok(())
    }

    fn put_apart_from(&mut self, node: u32, first: u32, count: u32) -> Result<(), NoMemory>
        requires node { node < node_count_from self.old.first self.old.facts }
        requires others { first + count ≤ node_count_from self.old.first self.old.facts }
        requires small { first + count < 2 ^ 32 }
        ensures made { OnOk result
            (self.new ≡ record self.old { facts = self.old.facts ++ apart_from node first count }) }
        ensures nodes { OnOk result
            (node_count_from self.new.first self.new.facts ≡ node_count_from self.old.first self.old.facts) }
        ensures begins { OnErr result (Continues self.old self.new) }
    {
        for place in 0..count {
            self.add(Fact::Apart(node, first + place))?;
        }
        Ok(())
    }

    /// Forgets the facts after the first so many.
    pub fn undo_to(&mut self, len: usize)
        requires { len ≤ length self.old.facts }
        ensures { self.new ≡ record self.old { facts = take len self.old.facts } }
    {
        for _ in len..self.entries.len() {
            self.pop();
        }
    }

    // Forgets the last fact.
    fn pop(&mut self)
        requires { 0 < length self.old.facts }
        ensures { self.new ≡ record self.old { facts = take (length self.old.facts - 1) self.old.facts } }
    {
        let last = self.entries.len() - 1;
        self.store.undo(self.entries[last].lengths);
        self.entries.truncate(last);
    }
}

// The representatives that a fact speaks of.
fn places<A: Allocator + Copy>(store: &Store<A>, fact: Fact<u32>) -> (u32, u32)
    requires { IsFit (length store.now.links) fact }
    ensures at { (m : ℕ → ℕ) → Leads m store.now.links → result.0 ≡ at_of m fact }
    ensures high { (m : ℕ → ℕ) → Leads m store.now.links → result.1 ≡ high_of m fact }
{
    match fact {
        Fact::Has(x, _) | Fact::Edge(_, x, _) | Fact::Apart(x, _) => {
            let root = store.root(x);
            (root, root)
        }
        Fact::Same(x, y) => {
            let (x, y) = (store.root(x), store.root(y));
            (x.min(y), x.max(y))
        }
    }
}

fn says<A: Allocator + Copy>(facts: &FactTree<A>, asked: Fact<u32>, stated: Fact<u32>) -> bool
    ensures { result ≡ gives (rep facts.now.facts) asked stated }
{
    match asked {
        Fact::Has(node, concept) => says_has(facts, node, concept, stated),
        Fact::Edge(role, from, to) => says_edge(facts, role, from, to, stated),
        Fact::Apart(first, second) => says_apart(facts, first, second, stated),
        Fact::Same(_, _) => false,
    }
}

fn says_has<A: Allocator + Copy>(
    facts: &FactTree<A>,
    node: u32,
    concept: u32,
    stated: Fact<u32>,
) -> bool
    ensures { result ≡ gives_concept (λ d. d == concept) (rep facts.now.facts) (rep facts.now.facts node) stated }
{
    match stated {
        Fact::Has(other, given) => are_one(facts, other, node) && given == concept,
        Fact::Edge(_, _, _) => false,
        Fact::Apart(_, _) => false,
        Fact::Same(_, _) => false,
    }
}

fn says_edge<A: Allocator + Copy>(
    facts: &FactTree<A>,
    role: u32,
    from: u32,
    to: u32,
    stated: Fact<u32>,
) -> bool
    ensures { result
        ≡ gives_edge (λ s. s == role) (rep facts.now.facts) (rep facts.now.facts from) (rep facts.now.facts to) stated }
{
    match stated {
        Fact::Edge(given, begin, end) => {
            given == role && are_one(facts, begin, from) && are_one(facts, end, to)
        }
        Fact::Has(_, _) => false,
        Fact::Apart(_, _) => false,
        Fact::Same(_, _) => false,
    }
}

fn says_apart<A: Allocator + Copy>(
    facts: &FactTree<A>,
    first: u32,
    second: u32,
    stated: Fact<u32>,
) -> bool
    ensures { result
        ≡ gives_apart (rep facts.now.facts) (rep facts.now.facts first) (rep facts.now.facts second) stated }
{
    match stated {
        Fact::Apart(one, other) => {
            are_one(facts, one, first) && are_one(facts, other, second)
                || are_one(facts, one, second) && are_one(facts, other, first)
        }
        Fact::Has(_, _) => false,
        Fact::Edge(_, _, _) => false,
        Fact::Same(_, _) => false,
    }
}

// Whether two nodes are one.
fn are_one<A: Allocator + Copy>(facts: &FactTree<A>, first: u32, second: u32) -> bool
    ensures { result ≡ (rep facts.now.facts first == rep facts.now.facts second) }
{
    facts.representative(first) == facts.representative(second)
}

// Whether a list has no other node than this one.
fn has_no_other(nodes: &[u32], node: u32) -> bool
    ensures { result ≡ list_all (λ x. x == node) nodes.now }
{
    nodes.iter().all(|other| *other == node)
}

// Keeps one entry more.
fn put<A: Allocator + Copy>(
    store: &mut Store<A>,
    entries: &mut Vec<Entry, A>,
    entry: Entry,
    high: u32,
) -> Result<(), NoMemory>
    requires place { IsPlace entry.lengths.node high store.old }
    requires ordered { AreOrdered entry.lengths.node high entry.fact }
    requires lengths { entry.lengths ≡ lengths_of entry.lengths.node store.old }
    ensures store { OnOk result (store.new ≡ after_at entry.lengths.node high entry.fact store.old) }
    ensures entries { OnOk result (entries.new.items ≡ entries.old.items ++ entry ∷ []) }
    ensures back { OnErr result (Undoes entry.lengths store.new store.old) }
    ensures unchanged { OnErr result (entries.new.items ≡ entries.old.items) }
{
    // Where the entry will stand: past the greatest number no one looks.
    let place = entries.len().min(u32::MAX as usize) as u32;
    store.put(&entry.fact, entry.lengths.node, high, place)?;
    entries.push(entry)?;
    Ok(())
}
