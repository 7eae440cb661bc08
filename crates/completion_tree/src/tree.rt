// The trail, and what its facts say.
ghost use Rattle.std.specs.Prelude.{◌≡◌, ℕ, ◌+◌, ◌<◌, ◌≤◌, ◌^◌, [], ◌∷◌, ◌++◌, OnOk, OnErr, IfOk, length, take, drop};
ghost use Rattle.std.specs.Prelude.{slice_get, Some, ◌==◌, true, IfSome, IfNone, IsNone};
ghost use Rattle.calculus_specs.specs.Joins.{rep};
ghost use Rattle.calculus_specs.specs.State.{node_count_from, has, has_edge, are_apart, parent_from, HaveParentsBefore};
ghost use Rattle.calculus_specs.specs.State.{is_so};
ghost use Rattle.fact_tree.specs.Entries.{IsFit};
ghost use Rattle.calculus_specs.specs.Listed.{IsLabel, IsOnce, AreEdges, AreJoined};
ghost use Rattle.calculus_specs.specs.declared.facts.Fact.TheVariants.{Same};
ghost use Rattle.completion_tree.specs.declared.tree.Entry.TheVariants.{Fact as Grounded, Mark as Marks};
ghost use Rattle.completion_tree.specs.Trail.{facts_in, item_of, items_of, grounded, with_fresh, RestsOn, IsMarkAt};
ghost use Rattle.completion_tree.specs.Marks.{facts_within};

use crate::mark::Mark;
use crate::marks::marks_behind;
use crate::trail::Trail;
use axiom_sets::Deps;
use calculus_specs::{Fact, NoMemory};
use fact_tree::FactTree;
use std::alloc::{Allocator, Global};
use std::marker::Model;
use tableau_specs::{Choice, Item};

/// What a fact rests on.
#[derive(Drop)]
pub struct By {
    /// The number of the line of the trace that gave it.
    pub line: u32,
    /// The marks behind it: the numbers of the lines of the trace that made the choices.
    pub marks: Deps,
}

impl By {
    /// The same once more, which shares the marks.
    ///
    /// # Errors
    /// As many share the marks as can be counted.
    pub fn try_clone(&self) -> Result<By, NoMemory>
        ensures { IfOk result (λ by. by ≡ self.now) }
    {
        Ok(By {
            line: self.line,
            marks: self.marks.try_clone()?,
        })
    }
}

/// One entry of a trail.
#[derive(Drop)]
pub enum Entry {
    /// A fact, whose concepts are numbers of the search's table, and what it rests on.
    Fact(Fact<u32>, By),
    /// A mark, which stands before the facts that rest on its choice.
    Mark(Choice),
}

/// A trail, and what its facts say of their nodes.
#[derive(Drop)]
pub struct Tree<A: Allocator> {
    facts: FactTree<A>,
    trail: Trail<A>,
}

impl<A: Allocator> Model for Tree<A> {
    ghost use Rattle.std.specs.Prelude.{◌≡◌};
    ghost use Rattle.completion_tree.specs.Trail.{TreeEntries, facts_in};
    ghost use Rattle.std.specs.Coded.{codes};
    ghost use Rattle.axiom_sets.specs.contracts.deps.Deps as deps;

    ghost Value = { TreeEntries };

    ghost coded = { Prim.hlevel (codes, deps.the_row.coded) };

    ghost view = { λ t. record { first = t.facts.first; entries = t.trail } };

    ghost invariant = { λ t. t.facts.facts ≡ facts_in t.trail };
}

impl<A: Allocator + Copy> Tree<A> {
    /// The first nodes, so many from node 0 on, of which nothing is known.
    ///
    /// # Errors
    /// Out of memory.
    pub fn new_in(alloc: A, first: u32) -> Result<Tree<A>, NoMemory>
        requires { 0 < first }
        ensures { IfOk result (λ t. t ≡ record { first = first; entries = [] }) }
    {
        Ok(Tree {
            facts: FactTree::new_in(alloc, first)?,
            trail: Trail::new_in(alloc),
        })
    }

    /// How many first nodes there are.
    pub fn first(&self) -> u32
        ensures first { result ≡ self.now.first }
        ensures some { 0 < result }
        ensures nodes { result ≤ node_count_from self.now.first (facts_in self.now.entries) }
    {
        let _ = &self.trail;
        self.facts.first()
    }

    /// How many entries the trail has.
    pub fn len(&self) -> u32
        ensures { result ≡ length self.now.entries }
    {
        let _ = &self.facts;
        self.trail.len()
    }

    /// The fact or the mark at a place, from 0.
    pub fn item(&self, place: u32) -> Item
        requires { place < length self.now.entries }
        ensures { slice_get (items_of self.now.entries) place ≡ Some result }
    {
        let _ = &self.facts;
        item_at(self.trail.entry(place))
    }

    /// What the fact at a place, from 0, rests on; none where a mark stands there.
    pub fn by(&self, place: u32) -> Option<&By>
        requires { place < length self.now.entries }
        ensures some { IfSome result (λ by. RestsOn self.now.entries place by.now) }
        ensures none { IfNone result (IsMarkAt self.now.entries place) }
    {
        let _ = &self.facts;
        match self.trail.entry(place) {
            Entry::Fact(_, by) => Some(by),
            Entry::Mark(_) => None,
        }
    }

    /// How many nodes there are.
    pub fn nodes(&self) -> u32
        ensures count { result ≡ node_count_from self.now.first (facts_in self.now.entries) }
        ensures parents { HaveParentsBefore self.now.first (facts_in self.now.entries) }
        ensures small { result + 200 < 2 ^ 32 }
    {
        let _ = &self.trail;
        self.facts.nodes()
    }

    /// The least of the nodes that are one with a node.
    pub fn representative(&self, node: u32) -> u32
        ensures { result ≡ rep (facts_in self.now.entries) node }
    {
        let _ = &self.trail;
        self.facts.representative(node)
    }

    /// The node from which the first edge leads to a node, which first nodes do not have.
    pub fn parent(&self, node: u32) -> Option<u32>
        requires { node < node_count_from self.now.first (facts_in self.now.entries) }
        ensures { result ≡ parent_from self.now.first (facts_in self.now.entries) node }
    {
        let _ = &self.trail;
        self.facts.parent(node)
    }

    /// The first edge into a node that is no first node: its role, and the node where it begins.
    pub fn origin(&self, node: u32) -> Option<(u32, u32)>
        requires { node < node_count_from self.now.first (facts_in self.now.entries) }
        ensures none { IsNone result → node < self.now.first }
        ensures some { IfSome result
            (λ o. (self.now.first ≤ node) × (has_edge (facts_in self.now.entries) (λ s. s == o.0) o.1 node ≡ true)
            × (parent_from self.now.first (facts_in self.now.entries) node ≡ Some o.1)) }
    {
        let _ = &self.trail;
        self.facts.origin(node)
    }

    /// Whether a node has a concept. Each node has concept 0.
    pub fn has(&self, node: u32, concept: u32) -> bool
        ensures { result ≡ has (facts_in self.now.entries) node concept }
    {
        let _ = &self.trail;
        self.facts.has(node, concept)
    }

    /// What a node has, each concept once, in some order. A number that is no node's has concept 0 alone.
    pub fn label(&self, node: u32) -> &[u32]
        ensures held { IsLabel (facts_in self.now.entries) node result.now }
        ensures once { IsOnce result.now }
        ensures beyond { node_count_from self.now.first (facts_in self.now.entries) ≤ node → result.now ≡ 0 ∷ [] }
    {
        let _ = &self.trail;
        self.facts.label(node)
    }

    /// The edges that begin at a node, each as its role and a node, whose representative is the end.
    pub fn edges(&self, node: u32) -> &[(u32, u32)]
        ensures { AreEdges (facts_in self.now.entries) node result.now }
    {
        let _ = &self.trail;
        self.facts.edges(node)
    }

    /// The nodes that are one with a node, in some order.
    pub fn members(&self, node: u32) -> &[u32]
        requires { node < node_count_from self.now.first (facts_in self.now.entries) }
        ensures { AreJoined (facts_in self.now.entries) (node_count_from self.now.first (facts_in self.now.entries))
            node result.now }
    {
        let _ = &self.trail;
        self.facts.members(node)
    }

    /// Whether two nodes are apart.
    pub fn are_apart(&self, first: u32, second: u32) -> bool
        requires first { first < node_count_from self.now.first (facts_in self.now.entries) }
        requires second { second < node_count_from self.now.first (facts_in self.now.entries) }
        ensures { result ≡ are_apart (facts_in self.now.entries) first second }
    {
        let _ = &self.trail;
        self.facts.are_apart(first, second)
    }

    /// Marks such that the fact holds in the state of those facts alone that rest on no other marks. An edge holds by
    /// its very role.
    ///
    /// # Errors
    /// Out of memory.
    pub fn marks_of(&self, alloc: Global, fact: Fact<u32>) -> Result<Deps, NoMemory>
        requires { is_so (facts_in self.now.entries) fact ≡ true }
        ensures { IfOk result (λ marks. is_so (facts_within marks self.now.entries) fact ≡ true) }
    {
        marks_behind(alloc, &self.trail, &self.facts, fact)
    }

    /// Puts a fact last, with what it rests on. Its nodes are there, or it is an edge to the next new node. An edge
    /// whose end is there makes no node.
    ///
    /// # Errors
    /// Out of memory; nothing has changed then.
    pub fn add(&mut self, fact: Fact<u32>, by: By) -> Result<(), NoMemory>
        requires { IsFit (node_count_from self.old.first (facts_in self.old.entries)) fact }
        ensures added { OnOk result
            (self.new ≡ record self.old { entries = self.old.entries ++ Grounded fact by ∷ [] }) }
        ensures unchanged { OnErr result (self.new ≡ self.old) }
    {
        let len = self.facts.len();
        self.facts.add(fact)?;
        match self.trail.push(Entry::Fact(fact, by)) {
            Ok(()) => Ok(()),
            Err(error) => {
                self.facts.undo_to(len);
                Err(error)
            }
        }
    }

    /// Puts last that two nodes are one.
    ///
    /// # Errors
    /// Out of memory; nothing has changed then.
    pub fn join(&mut self, first: u32, second: u32, by: By) -> Result<(), NoMemory>
        requires first { first < node_count_from self.old.first (facts_in self.old.entries) }
        requires second { second < node_count_from self.old.first (facts_in self.old.entries) }
        ensures joined { OnOk result
            (self.new ≡ record self.old { entries = self.old.entries ++ Grounded (Same first second) by ∷ [] }) }
        ensures unchanged { OnErr result (self.new ≡ self.old) }
    {
        self.add(Fact::Same(first, second), by)
    }

    /// Makes nodes at the ends of edges from a node, each with the concept, and pairwise apart, and answers the first.
    /// All these facts rest on the same, and stand in the order of the definition.
    ///
    /// # Errors
    /// Out of memory; nothing has changed then.
    pub fn fresh(
        &mut self,
        node: u32,
        role: u32,
        concept: u32,
        count: u32,
        by: By,
    ) -> Result<u32, NoMemory>
        requires node { node < node_count_from self.old.first (facts_in self.old.entries) }
        requires count { count ≤ 101 }
        ensures first { IfOk result (λ first. first ≡ node_count_from self.old.first (facts_in self.old.entries)) }
        ensures made { OnOk result (self.new ≡ with_fresh self.old node role concept count by) }
        ensures unchanged { OnErr result (self.new ≡ self.old) }
    {
        let len = self.facts.len();
        let entries = self.trail.len();
        let first = self.facts.fresh(node, role, concept, count)?;
        match follow(&mut self.trail, &self.facts, len, &by) {
            Ok(()) => Ok(first),
            Err(error) => {
                self.facts.undo_to(len);
                self.trail.cut(entries);
                Err(error)
            }
        }
    }

    /// Puts the mark of a choice last, and answers the length of the trail before it.
    ///
    /// # Errors
    /// Out of memory; nothing has changed then.
    pub fn put_mark(&mut self, choice: Choice) -> Result<Mark, NoMemory>
        ensures before { IfOk result (λ mark. mark.len ≡ length self.old.entries) }
        ensures marked { OnOk result (self.new ≡ record self.old { entries = self.old.entries ++ Marks choice ∷ [] }) }
        ensures unchanged { OnErr result (self.new ≡ self.old) }
    {
        let _ = &self.facts;
        let len = self.trail.len();
        self.trail.push(Entry::Mark(choice))?;
        Ok(Mark { len })
    }

    /// Takes out the entries from the mark on.
    pub fn back(&mut self, mark: Mark)
        requires { mark.len ≤ length self.old.entries }
        ensures { self.new ≡ record self.old { entries = take mark.len self.old.entries } }
    {
        self.trail.cut(mark.len);
        self.facts.undo_to(self.trail.count_facts());
    }
}

// The fact or the mark of an entry.
fn item_at(entry: &Entry) -> Item
    ensures { result ≡ item_of entry.now }
{
    match entry {
        Entry::Fact(fact, _) => Item::Fact(*fact),
        Entry::Mark(choice) => Item::Mark(*choice),
    }
}

// Puts the facts from a place on last, as entries that rest on the same.
fn follow<A: Allocator + Copy>(
    trail: &mut Trail<A>,
    facts: &FactTree<A>,
    from: usize,
    by: &By,
) -> Result<(), NoMemory>
    requires { from ≤ length facts.now.facts }
    ensures put { OnOk result (trail.new ≡ trail.old ++ grounded by.now (drop from facts.now.facts)) }
    ensures begins { OnErr result (take (length trail.old) trail.new ≡ trail.old) }
{
    for place in from..facts.len() {
        let by = by.try_clone()?;
        trail.push(Entry::Fact(facts.fact(place), by))?;
    }
    Ok(())
}
