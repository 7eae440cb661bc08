// The classes with which a run has had to do, and what tells other nodes apart from the node in question.
//
// A search that ends at a model answers for class W too if its run had nothing to do with W: the node in question was
// never given W, nor its complement, nor a union of which that is a part. Another node may have been given the
// complement if the node in question could not block it even with the complement: if the other node has a concept of
// its own, which the node in question was never given. Such a concept is noted for each of these nodes (`own`), and all
// concepts of the node in question (`there`). As long as the two sets share nothing, the classes in `bearing` count;
// once they do, those in `complements` count: all whose complement any node was given.
ghost use Rattle.std.specs.Prelude.{◌≡◌, ℕ, ◌<◌, ◌≤◌, ◌==◌, ◌&&◌, not, [], ◌∷◌, length, drop, IfOk};
ghost use Rattle.calculus_specs.specs.declared.facts.Fact.TheVariants.{Has};
ghost use Rattle.calculus_specs.specs.Shape.{shape_of};
ghost use Rattle.tableau_specs.specs.Items.{facts_of};
ghost use Rattle.search_state.specs.Trail.{items_of};
ghost use Rattle.tableau.specs.Seen.{holds, nothing_seen, nothing_known, class_of, complement_of, union_parts, is_one};
ghost use Rattle.tableau.specs.Seen.{is_complement, has_complement};
ghost use Rattle.tableau.specs.Seen.{has_seen, counted, may_be_own, HasGained, HasNoted, HasTold, HasNoOwn};
ghost use Rattle.tableau.specs.Telling.{TellAsBefore, NoteAsBefore, HasToldThere, HasPutThere, HasToldOther};
ghost use Rattle.tableau.specs.Telling.{IsOwnConcept, has_room};
ghost use Rattle.search_state.specs.Trail.{facts_in};
ghost use Rattle.std.specs.Prelude.{nat_lt, false, MatchOption};

use crate::NoMemory;
use axiom_sets::AxiomSet;
use calculus_specs::Fact;
use search_laws::Shape;
use search_rules::Rules;
use search_state::{Item, Tree};
use std::alloc::{Allocator, Global};
use std::marker::Model;

/// The classes with which a run has had to do, as far as they are below a count.
///
/// Class a stands in the sets as a + 1, since their members begin at 1.
#[derive(Drop)]
pub struct SeenClasses {
    at_node: AxiomSet,
    complements: AxiomSet,
    // Of these, the classes that count even where other nodes with a complement are told apart from the node in
    // question.
    bearing: AxiomSet,
    // Concepts that tell other nodes apart from it, each number greater by one.
    own: AxiomSet,
    // The concepts that the node in question was given, each number greater by one.
    there: AxiomSet,
    // Whether it is known that the node in question was given none of the concepts in `own`.
    tells_apart: bool,
    // Whether it is known that the run has said no more of the node in question than that it has top.
    bare: bool,
}

impl Model for SeenClasses {
    ghost use Rattle.std.specs.Prelude.{◌≡◌};
    ghost use Rattle.std.specs.Coded.{codes};
    ghost use Rattle.axiom_sets.specs.Sets.{limited_code};
    ghost use Rattle.tableau.specs.Seen.{SeenSets};

    ghost Value = { SeenSets };

    ghost coded = { Prim.hlevel (codes, limited_code) };

    ghost view = { λ s. record {
      at_node = s.at_node;
      complements = s.complements;
      bearing = s.bearing;
      own = s.own;
      there = s.there;
      tells_apart = s.tells_apart;
      bare = s.bare;
    } };

    ghost invariant = { λ s. (s.complements.limit ≡ s.at_node.limit) × (s.bearing.limit ≡ s.at_node.limit)
        × (s.own.limit ≡ s.there.limit) };
}

impl SeenClasses {
    /// Nothing is seen, of classes and of concepts below a count of each.
    ///
    /// # Errors
    ///
    /// Out of memory.
    pub fn new(alloc: Global, count: u32, concepts: u32) -> Result<SeenClasses, NoMemory>
        ensures { IfOk result (λ s. s ≡ nothing_seen count concepts) }
    {
        Ok(SeenClasses {
            at_node: AxiomSet::empty(alloc, count)?,
            complements: AxiomSet::empty(alloc, count)?,
            bearing: AxiomSet::empty(alloc, count)?,
            own: AxiomSet::empty(alloc, concepts)?,
            there: AxiomSet::empty(alloc, concepts)?,
            tells_apart: true,
            bare: true,
        })
    }

    /// Sets without room, of a run of which nothing will be asked.
    ///
    /// # Errors
    ///
    /// Out of memory.
    pub fn unknown(alloc: Global) -> Result<SeenClasses, NoMemory>
        ensures { IfOk result (λ s. s ≡ nothing_known) }
    {
        Ok(SeenClasses {
            at_node: AxiomSet::empty(alloc, 0)?,
            complements: AxiomSet::empty(alloc, 0)?,
            bearing: AxiomSet::empty(alloc, 0)?,
            own: AxiomSet::empty(alloc, 0)?,
            there: AxiomSet::empty(alloc, 0)?,
            tells_apart: false,
            bare: false,
        })
    }

    /// Notes the facts of the tree's trail from a place on, where the node `at` is the one in question.
    pub fn note<A: Allocator + Copy, R: Rules>(
        &mut self,
        rules: &R,
        tree: &Tree<A>,
        at: u32,
        from: u32,
    )
        requires { from ≤ length tree.now.entries }
        ensures noted { HasNoted at (R.context rules.now).table (facts_of (drop from (items_of tree.now.entries)))
            self.old self.new }
        ensures told { HasTold tree.now.first at (R.context rules.now).table (facts_in tree.now.entries)
            (facts_of (drop from (items_of tree.now.entries))) self.old self.new }
    {
        for place in from..tree.len() {
            self.note_item(rules, tree, tree.item(place), at);
        }
    }

    // Notes what the item gives, if it is a fact that gives a concept.
    #[tactic(auto, using(crate::proofs::Telling::told_by_item))]
    fn note_item<A: Allocator + Copy, R: Rules>(
        &mut self,
        rules: &R,
        tree: &Tree<A>,
        item: Item,
        at: u32,
    )
        ensures noted { HasNoted at (R.context rules.now).table (facts_of (item ∷ [])) self.old self.new }
        ensures told { HasTold tree.now.first at (R.context rules.now).table (facts_in tree.now.entries)
            (facts_of (item ∷ [])) self.old self.new }
    {
        match item {
            Item::Fact(Fact::Has(node, concept)) => {
                self.note_classes(rules, at, node, concept);
                self.tell(rules, tree, at, node, concept);
            }
            Item::Fact(Fact::Edge(..) | Fact::Apart(..) | Fact::Same(..)) | Item::Mark(_) => {}
        }
    }

    // Notes what a concept of a node has to do with classes.
    #[tactic(auto, using(crate::proofs::Noting::noted_there, crate::proofs::Noting::noted_elsewhere))]
    fn note_classes<R: Rules>(&mut self, rules: &R, at: u32, node: u32, concept: u32)
        ensures noted { HasNoted at (R.context rules.now).table (Has node concept ∷ []) self.old self.new }
        ensures same { TellAsBefore self.old self.new }
    {
        self.note_complement(rules, concept);
        if node == at {
            self.note_at_node(rules, concept);
        }
    }

    // Notes what tells other nodes apart from the node in question: the concepts that it is given, and own concepts of
    // other nodes with a complement. First nodes are never blocked.
    #[tactic(auto, using(crate::proofs::Telling::told_by_node))]
    fn tell<A: Allocator + Copy, R: Rules>(
        &mut self,
        rules: &R,
        tree: &Tree<A>,
        at: u32,
        node: u32,
        concept: u32,
    )
        ensures same { NoteAsBefore self.old self.new }
        ensures told { HasTold tree.now.first at (R.context rules.now).table (facts_in tree.now.entries)
            (Has node concept ∷ []) self.old self.new }
    {
        let is_asked = node == at;
        if is_asked {
            self.tell_there(rules, concept);
        } else if node >= tree.first() {
            self.tell_other(rules, tree, node, concept);
        }
    }

    // Notes a concept that the node in question is given.
    #[tactic(auto, using(crate::proofs::Telling::told_by_both))]
    fn tell_there<R: Rules>(&mut self, rules: &R, concept: u32)
        ensures same { NoteAsBefore self.old self.new }
        ensures told { HasToldThere (R.context rules.now).table concept self.old self.new }
    {
        put_complement(&mut self.bearing, rules, concept);
        put_complements(&mut self.bearing, rules, parts_of(rules, concept));
        self.put_there(concept);
    }

    // Puts a concept among those of the node in question.
    #[tactic(auto, using(crate::proofs::Telling::put_there))]
    fn put_there(&mut self, concept: u32)
        ensures same { NoteAsBefore self.old self.new }
        ensures bearing { self.new.bearing ≡ self.old.bearing }
        ensures there { HasPutThere concept self.old self.new }
    {
        self.tells_apart = self.tells_apart && !self.is_own(concept);
        put_class(&mut self.there, concept);
    }

    // Whether a concept is one of those that tell other nodes apart.
    fn is_own(&self, concept: u32) -> bool
        ensures { result ≡ (nat_lt concept self.now.own.limit && holds self.now.own concept) }
    {
        concept < self.own.limit() && self.own.has(concept + 1)
    }

    // Notes a concept of another node. If it is the complement of a class, the node needs an own concept besides.
    #[tactic(auto, using(crate::proofs::Telling::told_by_concept))]
    fn tell_other<A: Allocator + Copy, R: Rules>(
        &mut self,
        rules: &R,
        tree: &Tree<A>,
        node: u32,
        concept: u32,
    )
        ensures same { NoteAsBefore self.old self.new }
        ensures told { HasToldOther (R.context rules.now).table (facts_in tree.now.entries) node concept self.old
            self.new }
    {
        if !self.is_counted_complement(rules, concept) {
            return;
        }
        match self.own_concept(tree, node, concept) {
            Some(own) => put_class(&mut self.own, own),
            None => put_complement(&mut self.bearing, rules, concept),
        }
    }

    // Whether a concept is the complement of a class for which there is room.
    fn is_counted_complement<R: Rules>(&self, rules: &R, concept: u32) -> bool
        ensures { result ≡ has_room self.now.bearing.limit
            (complement_of (shape_of (R.context rules.now).table concept)) }
    {
        match complement_of(rules, concept) {
            Some(class) => class < self.bearing.limit(),
            None => false,
        }
    }

    // A concept that a node has besides top and another one, and that the node in question was not given; none exactly
    // where there is none.
    fn own_concept<A: Allocator + Copy>(
        &self,
        tree: &Tree<A>,
        node: u32,
        concept: u32,
    ) -> Option<u32>
        ensures { MatchOption result (HasNoOwn self.now (facts_in tree.now.entries) node concept)
            (IsOwnConcept self.now (facts_in tree.now.entries) node concept) }
    {
        for own in tree.label(node) {
            if self.may_be_own(*own, concept) {
                return Some(*own);
            }
        }
        None
    }

    // Whether a concept is neither top nor another one, nor was given to the node in question.
    fn may_be_own(&self, own: u32, concept: u32) -> bool
        ensures { result ≡ may_be_own self.now own concept }
    {
        own != 0 && own != concept && own < self.there.limit() && !self.there.has(own + 1)
    }

    // Notes a concept that is the complement of a class.
    fn note_complement<R: Rules>(&mut self, rules: &R, concept: u32)
        ensures complements { HasGained (λ a. is_complement (R.context rules.now).table a concept) self.old.complements
            self.new.complements }
        ensures at_node { self.new.at_node ≡ self.old.at_node }
        ensures bare { self.new.bare ≡ self.old.bare }
        ensures same { TellAsBefore self.old self.new }
    {
        put_complement(&mut self.complements, rules, concept);
    }

    // Notes what a concept of the node in question is besides: a class, or a union, or no more than top.
    fn note_at_node<R: Rules>(&mut self, rules: &R, concept: u32)
        ensures at_node { HasGained (λ a. is_one a (class_of (shape_of (R.context rules.now).table concept)))
            self.old.at_node self.new.at_node }
        ensures complements { HasGained
            (λ a. has_complement (R.context rules.now).table a
            (union_parts (shape_of (R.context rules.now).table concept)))
            self.old.complements self.new.complements }
        ensures bare { self.new.bare ≡ (self.old.bare && concept == 0) }
        ensures same { TellAsBefore self.old self.new }
    {
        self.bare = self.bare && concept == 0;
        put_if(&mut self.at_node, class_of(rules, concept));
        put_complements(&mut self.complements, rules, parts_of(rules, concept));
    }

    /// What is noted of a beginning, for a search that goes on from it behind the start of another query, which gives
    /// the node `at` two concepts. The beginning itself is not looked through. Other nodes are not told apart, whatever
    /// was noted of the beginning: what tells them apart there is not looked at again.
    ///
    /// # Errors
    ///
    /// Out of memory.
    #[tactic(auto, using(crate::proofs::NotedBehind::noted_both, crate::proofs::Telling::noted_still))]
    pub fn behind<R: Rules>(
        &self,
        rules: &R,
        at: u32,
        sub: u32,
        not_sup: u32,
    ) -> Result<SeenClasses, NoMemory>
        ensures noted { IfOk result
            (HasNoted at (R.context rules.now).table (Has at sub ∷ Has at not_sup ∷ []) self.now) }
        ensures not_apart { IfOk result (λ s. s.tells_apart ≡ false) }
    {
        let mut seen = self.try_clone()?;
        seen.note_classes(rules, at, at, sub);
        seen.note_classes(rules, at, at, not_sup);
        seen.forget_apart();
        Ok(seen)
    }

    // From here on it is not known what tells other nodes apart.
    fn forget_apart(&mut self)
        ensures same { NoteAsBefore self.old self.new }
        ensures not_apart { self.new.tells_apart ≡ false }
    {
        self.tells_apart = false;
    }

    /// The same sets.
    ///
    /// # Errors
    ///
    /// Out of memory.
    pub fn try_clone(&self) -> Result<SeenClasses, NoMemory>
        ensures { IfOk result (λ s. s ≡ self.now) }
    {
        Ok(SeenClasses {
            at_node: self.at_node.try_clone()?,
            complements: self.complements.try_clone()?,
            bearing: self.bearing.try_clone()?,
            own: self.own.try_clone()?,
            there: self.there.try_clone()?,
            tells_apart: self.tells_apart,
            bare: self.bare,
        })
    }

    /// Whether it is known that the run has said no more of the node in question than that it has top.
    pub fn is_bare(&self) -> bool
        ensures { result ≡ self.now.bare }
    {
        self.bare
    }

    /// The classes below the count with which the run has had nothing to do, each number greater by one.
    ///
    /// # Errors
    ///
    /// Out of memory.
    pub fn others(&self, alloc: Global) -> Result<AxiomSet, NoMemory>
        ensures limit { IfOk result (λ s. s.limit ≡ self.now.at_node.limit) }
        ensures exact { IfOk result
            (λ s. (a : ℕ) → a < self.now.at_node.limit → holds s a ≡ not (has_seen self.now a)) }
    {
        let mut classes = AxiomSet::full(alloc, self.at_node.limit())?;
        classes.take_all(&self.at_node);
        classes.take_all(self.counted());
        Ok(classes)
    }

    // The classes that count as those whose complement bears on the node in question.
    fn counted(&self) -> &AxiomSet
        ensures counted { result.now ≡ counted self.now }
        ensures limit { result.now.limit ≡ self.now.at_node.limit }
    {
        if self.tells_apart {
            &self.bearing
        } else {
            &self.complements
        }
    }
}

/// The class that a concept is, if it is one.
pub(crate) fn class_of<R: Rules>(rules: &R, concept: u32) -> Option<u32>
    ensures { result ≡ class_of (shape_of (R.context rules.now).table concept) }
{
    match rules.shape(concept) {
        Shape::Name(class) => Some(class),
        Shape::Top
        | Shape::Bottom
        | Shape::NotName(_)
        | Shape::And(_)
        | Shape::Or(_)
        | Shape::SomeOf(..)
        | Shape::AllOf(..)
        | Shape::Min(..)
        | Shape::Max(..) => None,
    }
}

/// The class in whose complement a concept is, if it is one.
pub(crate) fn complement_of<R: Rules>(rules: &R, concept: u32) -> Option<u32>
    ensures { result ≡ complement_of (shape_of (R.context rules.now).table concept) }
{
    match rules.shape(concept) {
        Shape::NotName(class) => Some(class),
        Shape::Top
        | Shape::Bottom
        | Shape::Name(_)
        | Shape::And(_)
        | Shape::Or(_)
        | Shape::SomeOf(..)
        | Shape::AllOf(..)
        | Shape::Min(..)
        | Shape::Max(..) => None,
    }
}

// The parts of a concept that is a union.
fn parts_of<R: Rules>(rules: &R, concept: u32) -> &[u32]
    ensures { result.now ≡ union_parts (shape_of (R.context rules.now).table concept) }
{
    match rules.shape(concept) {
        Shape::Or(parts) => parts,
        Shape::Top
        | Shape::Bottom
        | Shape::Name(_)
        | Shape::NotName(_)
        | Shape::And(_)
        | Shape::SomeOf(..)
        | Shape::AllOf(..)
        | Shape::Min(..)
        | Shape::Max(..) => &[],
    }
}

// Puts the classes in whose complements are among the concepts.
#[tactic(auto, using(crate::proofs::Noting::puts_next))]
fn put_complements<R: Rules>(set: &mut AxiomSet, rules: &R, concepts: &[u32])
    ensures { HasGained (λ a. has_complement (R.context rules.now).table a concepts.now) set.old set.new }
{
    for concept in concepts {
        put_complement(set, rules, *concept);
    }
}

// Puts the class in whose complement the concept is, if it is one.
fn put_complement<R: Rules>(set: &mut AxiomSet, rules: &R, concept: u32)
    ensures { HasGained (λ a. is_complement (R.context rules.now).table a concept) set.old set.new }
{
    put_if(set, complement_of(rules, concept));
}

// Puts a class in, if one is given and there is room for it.
fn put_if(set: &mut AxiomSet, class: Option<u32>)
    ensures { HasGained (λ a. is_one a class) set.old set.new }
{
    match class {
        Some(class) => put_class(set, class),
        None => {}
    }
}

// Puts a class in, if there is room for it.
fn put_class(set: &mut AxiomSet, class: u32)
    ensures { HasGained (λ a. class == a) set.old set.new }
{
    if class < set.limit() {
        set.put(class + 1);
    }
}
