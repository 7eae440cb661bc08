// The classes of each individual.
ghost use Rattle.std.specs.Prelude.{◌≡◌, ◌+◌, ◌<◌, ◌≤◌, ℕ, true, IfOk, IfErr, OnOk, length};
ghost use Rattle.finite_model.specs.ModelLists.{meaning};
ghost use Rattle.subsumption.specs.Limits.{IsOntologyInLimit};
ghost use Rattle.subsumption.specs.HonestLog.{IsWhole};
ghost use Rattle.subsumption.specs.ClassSets.{HoldsClasses};
ghost use Rattle.realizer.specs.TypeRows.{AreTypeRows, typed_by};
ghost use Rattle.realizer.specs.Candidates.{AreCandidateRows, AreFullRows, ArePruned};
ghost use Rattle.realizer.specs.Asked.{AreAlike, IsBefore, IsAmid, IsOpenClass, is_open, IsCloser, HasStopped};

use crate::Halt;
use crate::asking::{ask_class, classes_at};
use axiom_sets::AxiomSet;
use finite_model::Interp;
use shq_terms::{MAX_CLASSES, NoMemory, Ontology};
use std::alloc::Global;
use subsumption::{Answer, Oracle, Relation, most_specific, put_if};

/// For each individual the listed classes that are still possible for it, as one row of a set, in which each class has
/// the number that is greater by one. Beside them is the set of all axioms.
#[derive(Drop)]
pub(crate) struct Typing {
    alloc: Global,
    pub(crate) axioms: AxiomSet,
    pub(crate) rows: Vec<AxiomSet>,
}

impl Typing {
    /// Each class is possible for each individual.
    ///
    /// # Errors
    ///
    /// Out of memory.
    pub(crate) fn new(alloc: Global, ontology: &Ontology) -> Result<Typing, NoMemory>
        ensures axioms { IfOk result (λ t. IsWhole ontology.now t.axioms) }
        ensures rows { IfOk result (λ t. AreCandidateRows ontology.now 0 t.rows.items) }
        ensures full { IfOk result (λ t. AreFullRows ontology.now t.rows.items) }
    {
        let axioms = AxiomSet::full(alloc, ontology.axiom_count())?;
        let rows = full_rows(alloc, ontology.individual_count(), ontology.class_count())?;
        Ok(Typing {
            alloc,
            axioms,
            rows,
        })
    }

    /// Asks until the classes of each individual are known. How the classes lie in one another is.
    ///
    /// # Errors
    /// The budget was spent, or memory was refused.
    pub(crate) fn settle_all(
        &mut self,
        oracle: &mut Oracle<'_>,
        relation: &Relation,
    ) -> Result<(), Halt>
        requires before { IsBefore oracle.old relation.now self.old.axioms 0 self.old.rows.items }
        ensures ok { OnOk result
            (IsBefore oracle.new relation.now self.new.axioms (length oracle.new.ontology.individuals)
            self.new.rows.items) }
        ensures err { IfErr result (HasStopped oracle.new) }
        ensures alike { AreAlike oracle.old oracle.new }
    {
        for individual in 0..oracle.ontology().individual_count() {
            self.settle(oracle, relation, individual)?;
        }
        Ok(())
    }

    // Asks until the classes of an individual are known. Those that have every element are known at once. Then a class
    // that is still possible is asked about, until each class that is possible is known.
    fn settle(
        &mut self,
        oracle: &mut Oracle<'_>,
        relation: &Relation,
        individual: u32,
    ) -> Result<(), Halt>
        requires individual { individual < length oracle.old.ontology.individuals }
        requires before { IsBefore oracle.old relation.now self.old.axioms individual self.old.rows.items }
        ensures ok { OnOk result
            (IsBefore oracle.new relation.now self.new.axioms (individual + 1) self.new.rows.items) }
        ensures err { IfErr result (HasStopped oracle.new) }
        ensures alike { AreAlike oracle.old oracle.new }
    {
        let mut types = relation.above(relation.class_count()).try_clone()?;
        while let Some(class) = self.next_open(relation, individual, &types)? {
            self.ask(oracle, relation, individual, &mut types, class)?;
        }
        Ok(())
    }

    // A most specific class of those that are possible for the individual, and not known to be among its types; none
    // where all that are possible are known.
    fn next_open(
        &self,
        relation: &Relation,
        individual: u32,
        types: &AxiomSet,
    ) -> Result<Option<u32>, NoMemory>
        requires individual { individual < length self.now.rows.items }
        requires rows { AreTypeRows relation.now.count (length self.now.rows.items) self.now.rows.items }
        requires types { types.now.limit ≡ relation.now.count + 2 }
        ensures { IfOk result (IsOpenClass relation.now.count self.now.rows.items individual types.now) }
    {
        let mut open = self.rows[individual as usize].try_clone()?;
        open.take_all(types);
        Ok(most_specific(relation, &open))
    }

    // Asks whether the individual is in a class that is open.
    fn ask(
        &mut self,
        oracle: &mut Oracle<'_>,
        relation: &Relation,
        individual: u32,
        types: &mut AxiomSet,
        class: u32,
    ) -> Result<(), Halt>
        requires amid { IsAmid oracle.old relation.now self.old.axioms individual self.old.rows.items types.old }
        requires class { class < relation.now.count }
        requires open { is_open self.old.rows.items individual types.old class ≡ true }
        ensures ok { OnOk result
            (IsAmid oracle.new relation.now self.new.axioms individual self.new.rows.items types.new) }
        ensures closer { OnOk result
            (IsCloser relation.now.count self.old.rows.items types.old self.new.rows.items types.new individual class) }
        ensures err { IfErr result (HasStopped oracle.new) }
        ensures alike { AreAlike oracle.old oracle.new }
    {
        match ask_class(oracle, &self.axioms, individual, class)? {
            Answer::Entailed(refutation) => {
                drop(refutation);
                types.put_all(relation.above(class));
            }
            Answer::NotEntailed(model) => {
                let pruned = self.prune(oracle.ontology(), &model, individual);
                drop(model);
                pruned?;
            }
            Answer::Undecided => return Err(Halt::Spent),
        }
        Ok(())
    }

    // Takes out what a counter-model shows to be impossible, of the individual and of each after it.
    fn prune(
        &mut self,
        ontology: &Ontology,
        model: &Interp,
        individual: u32,
    ) -> Result<(), NoMemory>
        requires rows { AreTypeRows (length ontology.now.classes) (length ontology.now.individuals)
            self.old.rows.items }
        ensures ok { OnOk result
            (ArePruned (meaning model.now) (length ontology.now.classes) individual self.old.rows.items
            self.new.rows.items) }
        ensures axioms { self.new.axioms ≡ self.old.axioms }
    {
        for other in individual..ontology.individual_count() {
            let row = &self.rows[other as usize];
            let element = model.individual(other);
            let held = classes_at(self.alloc, row, ontology.class_count(), model, element)?;
            self.rows[other as usize] = held;
        }
        Ok(())
    }
}

// A row of all classes for each individual.
fn full_rows(alloc: Global, individuals: u32, classes: u32) -> Result<Vec<AxiomSet>, NoMemory>
    requires { classes ≤ MAX_CLASSES }
    ensures { IfOk result
        (λ rows. AreTypeRows classes individuals rows.items
        × ((a x : ℕ) → a < individuals → x < classes → typed_by rows.items a x ≡ true)) }
{
    let mut rows = Vec::new(alloc);
    for _ in 0..individuals {
        rows.push(full_row(alloc, classes)?)?;
    }
    Ok(rows)
}

// The set of all listed classes, with room for `owl:Thing` and `owl:Nothing`.
fn full_row(alloc: Global, classes: u32) -> Result<AxiomSet, NoMemory>
    requires { classes ≤ MAX_CLASSES }
    ensures { IfOk result (HoldsClasses classes (λ x. true)) }
{
    let mut row = AxiomSet::empty(alloc, classes + 2)?;
    for class in 0..classes {
        put_if(&mut row, class, true);
    }
    Ok(row)
}
