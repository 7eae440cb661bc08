// Which pairs of classes are settled, by the answers so far, and which question comes next.
ghost use Rattle.std.specs.Prelude.{◌≡◌, ℕ, ◌+◌, ◌<◌, ◌&&◌, true, false, [], length, IfOk, IfErr, IfSome, OnOk, OnErr};
ghost use Rattle.std.specs.FinSet as set;
ghost use Rattle.axiom_sets.specs.Sets.{IsFull};
ghost use Rattle.shq_oracle.specs.Limits.{IsOntologyInLimit};
ghost use Rattle.shq_oracle.specs.HonestLog.{IsWhole};
ghost use Rattle.shq_oracle.specs.ApartLists.{IsAbout};
ghost use Rattle.subsumption.specs.Matrices.{has, IsMatrix, Adds};
ghost use Rattle.subsumption.specs.Rows.{holds, IsAtFirst, Relates};
ghost use Rattle.subsumption.specs.Subsumption.{class_at};
ghost use Rattle.subsumption.specs.Tests.{AreAlike, Begins, HasBegun};
ghost use Rattle.subsumption.specs.LogEnds.{all_in_none, BeginsWith};

use crate::finding::most_general;
use crate::stop::Stop;
use crate::testing::{Verdict, test};
use crate::told::Inclusion;
use crate::{BitMatrix, Relation};
use axiom_sets::AxiomSet;
use shq_oracle::{Apart, Oracle};
use shq_terms::{NoMemory, Ontology};
use std::alloc::Global;

/// The pairs of classes that are settled: those of which it is known that the first is included in the second, and
/// those of which this is ruled out. With them come the set of all axioms, and the set of all class numbers, each
/// greater by one.
#[derive(Drop)]
pub(crate) struct Progress {
    pub(crate) known: Relation,
    pub(crate) ruled_out: BitMatrix,
    pub(crate) axioms: AxiomSet,
    pub(crate) classes: AxiomSet,
}

impl Progress {
    ghost use Rattle.subsumption.specs.Mirrors.{Mirrors, passed_on};
    ghost use Rattle.subsumption.specs.Progress.{IsGoing, HasStopped, Advances, is_settled, IsDone, IsOpenAt, HasOpen};
    ghost use Rattle.subsumption.specs.Told.{AreOf};

    /// What holds before any question.
    ///
    /// # Errors
    ///
    /// Out of memory.
    pub(crate) fn new(alloc: Global, ontology: &Ontology) -> Result<Progress, NoMemory>
        ensures whole { IfOk result (λ p. IsWhole ontology.now p.axioms) }
        ensures limit { IfOk result (λ p. p.classes.limit ≡ length ontology.now.classes + 2) }
        ensures full { IfOk result (λ p. IsFull (length ontology.now.classes + 2) p.classes.members) }
        ensures mirrors { IfOk result (λ p. Mirrors ontology.now [] p.known p.ruled_out) }
    {
        let count = ontology.class_count();
        Ok(Progress {
            known: Relation::new(alloc, count)?,
            ruled_out: BitMatrix::empty(alloc, count + 2)?,
            axioms: AxiomSet::full(alloc, ontology.axiom_count())?,
            classes: AxiomSet::full(alloc, count + 2)?,
        })
    }

    /// Asks until each pair of classes is settled: first whether `owl:Thing` is included in `owl:Nothing`, then about
    /// the inclusions that axioms state, and then class by class. Classes below which no class is known come first: if
    /// one of them is not included in a class, no class above it is.
    ///
    /// # Errors
    /// The budget was spent, or memory was refused.
    pub(crate) fn settle_all(
        &mut self,
        oracle: &mut Oracle<'_>,
        told: &[Inclusion],
    ) -> Result<(), Stop>
        requires going { IsGoing oracle.old self.old }
        requires unlogged { oracle.old.log ≡ [] }
        requires told { AreOf self.old.known.count told.now }
        ensures ok { OnOk result (IsGoing oracle.new self.new) }
        ensures done { OnOk result ((x : ℕ) → x < self.new.known.count + 2 → IsDone self.new x) }
        ensures err { IfErr result (HasStopped oracle.new) }
        ensures first { BeginsWith all_in_none oracle.new.log }
        ensures alike { AreAlike oracle.old oracle.new }
    {
        let count = self.known.class_count();
        let mut kept = None;
        self.ask(oracle, &mut kept, count, count + 1)?;
        self.settle_told(oracle, told)?;
        self.settle_lowest(oracle)?;
        self.settle_classes(oracle)
    }

    // Asks about the inclusions that axioms state.
    fn settle_told(&mut self, oracle: &mut Oracle<'_>, told: &[Inclusion]) -> Result<(), Stop>
        requires going { IsGoing oracle.old self.old }
        requires told { AreOf self.old.known.count told.now }
        ensures ok { OnOk result (Advances oracle.new self.old self.new) }
        ensures err { IfErr result (HasStopped oracle.new) }
        ensures alike { AreAlike oracle.old oracle.new }
    {
        for inclusion in told {
            self.settle(oracle, inclusion.sub, inclusion.sup)?;
        }
        Ok(())
    }

    // Asks about the classes below which nothing but themselves and `owl:Nothing` is known.
    fn settle_lowest(&mut self, oracle: &mut Oracle<'_>) -> Result<(), Stop>
        requires going { IsGoing oracle.old self.old }
        ensures ok { OnOk result (Advances oracle.new self.old self.new) }
        ensures err { IfErr result (HasStopped oracle.new) }
        ensures alike { AreAlike oracle.old oracle.new }
    {
        for class in 0..self.classes.limit() {
            if self.known.below(class).len() <= 2 {
                self.settle_class(oracle, class)?;
            }
        }
        Ok(())
    }

    // Asks class by class.
    fn settle_classes(&mut self, oracle: &mut Oracle<'_>) -> Result<(), Stop>
        requires going { IsGoing oracle.old self.old }
        ensures ok { OnOk result (IsGoing oracle.new self.new) }
        ensures done { OnOk result ((x : ℕ) → x < self.new.known.count + 2 → IsDone self.new x) }
        ensures err { IfErr result (HasStopped oracle.new) }
        ensures alike { AreAlike oracle.old oracle.new }
    {
        for class in 0..self.classes.limit() {
            self.settle_class(oracle, class)?;
        }
        Ok(())
    }

    // Asks until each pair that begins with the class is settled. If it is open whether the class can have members,
    // that is asked first, since a search for one mostly shows that the class is not included in most other classes.
    fn settle_class(&mut self, oracle: &mut Oracle<'_>, class: u32) -> Result<(), Stop>
        requires going { IsGoing oracle.old self.old }
        requires class { class < self.old.known.count + 2 }
        ensures ok { OnOk result (Advances oracle.new self.old self.new) }
        ensures done { OnOk result (IsDone self.new class) }
        ensures err { IfErr result (HasStopped oracle.new) }
        ensures alike { AreAlike oracle.old oracle.new }
    {
        let mut kept = None;
        let mut unsettled = self.classes.try_clone()?;
        while let Some(other) = self.next_question(class, &mut unsettled) {
            self.ask(oracle, &mut kept, class, other)?;
        }
        Ok(())
    }

    // Asks about the pair, if it is not settled.
    fn settle(&mut self, oracle: &mut Oracle<'_>, x: u32, y: u32) -> Result<(), Stop>
        requires going { IsGoing oracle.old self.old }
        requires first { x < self.old.known.count + 2 }
        requires second { y < self.old.known.count + 2 }
        ensures ok { OnOk result (Advances oracle.new self.old self.new) }
        ensures err { IfErr result (HasStopped oracle.new) }
        ensures alike { AreAlike oracle.old oracle.new }
    {
        if self.known.relates(x, y) || self.ruled_out.has(x, y) {
            return Ok(());
        }
        let mut kept = None;
        self.ask(oracle, &mut kept, x, y)
    }

    // Asks about a pair that is not settled. `kept` is what an earlier search showed of the first class.
    fn ask<'a>(
        &mut self,
        oracle: &mut Oracle<'a>,
        kept: &mut Option<Apart<'a>>,
        x: u32,
        y: u32,
    ) -> Result<(), Stop>
        requires going { IsGoing oracle.old self.old }
        requires first { x < self.old.known.count + 2 }
        requires second { y < self.old.known.count + 2 }
        requires open { is_settled self.old x y ≡ false }
        requires kept { IfSome kept.old
            (IsAbout oracle.old.ontology self.old.axioms (class_at self.old.known.count x)) }
        ensures kept { IfSome kept.new (IsAbout oracle.old.ontology self.old.axioms (class_at self.old.known.count x)) }
        ensures axioms { self.new.axioms ≡ self.old.axioms }
        ensures ok { OnOk result (Advances oracle.new self.old self.new) }
        ensures settled { OnOk result (is_settled self.new x y ≡ true) }
        ensures err { IfErr result (HasStopped oracle.new) }
        ensures begins { Begins self.old.known.count x y oracle.old oracle.new }
        ensures begun { OnOk result (HasBegun self.old.known.count x y oracle.old oracle.new) }
        ensures alike { AreAlike oracle.old oracle.new }
    {
        match test(oracle, kept, &self.axioms, self.known.class_count(), x, y)? {
            Verdict::Yes => self.take_in(x, y)?,
            Verdict::No => self.rule_out(x, y),
            Verdict::Spent => return Err(Stop::Spent),
        }
        Ok(())
    }

    // `owl:Nothing`, if it is open whether the class is included in it; otherwise a most general class of which that is
    // open. The set `unsettled` has each such class; those that are settled are taken out of it.
    fn next_question(&self, class: u32, unsettled: &mut AxiomSet) -> Option<u32>
        requires class { class < self.now.known.count + 2 }
        requires ruled_out { self.now.ruled_out.size ≡ self.now.known.count + 2 }
        requires limit { unsettled.old.limit ≡ self.now.known.count + 2 }
        requires unsettled { HasOpen self.now class unsettled.old }
        ensures found { IsOpenAt self.now class result }
        ensures limit { unsettled.new.limit ≡ unsettled.old.limit }
        ensures unsettled { HasOpen self.now class unsettled.new }
    {
        let none = self.known.class_count() + 1;
        if self.known.relates(class, none) || self.ruled_out.has(class, none) {
            return self.next_open(class, unsettled);
        }
        Some(none)
    }

    // A most general class of which it is not settled whether the class is included in it; none if all are settled.
    fn next_open(&self, class: u32, unsettled: &mut AxiomSet) -> Option<u32>
        requires class { class < self.now.known.count + 2 }
        requires ruled_out { self.now.ruled_out.size ≡ self.now.known.count + 2 }
        requires limit { unsettled.old.limit ≡ self.now.known.count + 2 }
        requires unsettled { HasOpen self.now class unsettled.old }
        ensures found { IsOpenAt self.now class result }
        ensures limit { unsettled.new.limit ≡ unsettled.old.limit }
        ensures unsettled { HasOpen self.now class unsettled.new }
    {
        unsettled.take_all(self.known.above(class));
        unsettled.take_all(self.ruled_out.row(class));
        most_general(&self.known, unsettled)
    }

    // Takes in that x is included in y, with all that follows from it.
    fn take_in(&mut self, x: u32, y: u32) -> Result<(), NoMemory>
        requires first { x < self.old.known.count + 2 }
        requires second { y < self.old.known.count + 2 }
        requires ruled_out { self.old.ruled_out.size ≡ self.old.known.count + 2 }
        ensures known { OnOk result (Relates x y self.old.known self.new.known) }
        ensures ruled_out { OnOk result
            (IsMatrix (self.old.known.count + 2) (passed_on self.new.known x y self.old.ruled_out) self.new.ruled_out) }
        ensures axioms { self.new.axioms ≡ self.old.axioms }
        ensures classes { self.new.classes ≡ self.old.classes }
    {
        self.known.relate(x, y)?;
        let row = self.ruled_out.row(x).try_clone()?;
        self.ruled_out.unite(self.known.above(y), &row);
        self.ruled_out.unite_where(y, self.known.below(x));
        Ok(())
    }

    // Rules out that x is included in y, and so that any class above x is included in any class below y.
    fn rule_out(&mut self, x: u32, y: u32)
        requires first { x < self.old.known.count + 2 }
        requires second { y < self.old.known.count + 2 }
        requires ruled_out { self.old.ruled_out.size ≡ self.old.known.count + 2 }
        ensures known { self.new.known ≡ self.old.known }
        ensures ruled_out { Adds (λ a b. holds self.old.known x a && holds self.old.known b y) self.old.ruled_out
            self.new.ruled_out }
        ensures axioms { self.new.axioms ≡ self.old.axioms }
        ensures classes { self.new.classes ≡ self.old.classes }
    {
        self.ruled_out
            .unite(self.known.above(x), self.known.below(y));
    }

    /// What is known.
    pub(crate) fn into_known(self) -> Relation
        ensures { result ≡ self.known }
    {
        let Progress { known, .. } = self;
        known
    }
}
