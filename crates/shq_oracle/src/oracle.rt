// The oracle: questions whether queries follow, answered within a budget, and the log of them.
ghost use Rattle.std.specs.Prelude.{◌≡◌, ◌↔◌, ◌+◌, ◌<◌, ◌≤◌, [], ◌∷◌, ◌++◌, true, false, length, IfOk, IfSome, OnOk};
ghost use Rattle.std.specs.Prelude.{Some, OnErr};
ghost use Rattle.run_log.specs.declared.entry.Entry.TheVariants.{Test};
ghost use Rattle.std.specs.List.{list_any};
ghost use Rattle.model_builder.specs.Limits.{IsOntologyInLimit, IsInLimit};
ghost use Rattle.run_log.specs.Entries.{spent_of, is_spent, IsAnswered};
ghost use Rattle.run_log.specs.HonestLog.{IsAxiomSet, IsHonestEntry};
ghost use Rattle.shq_oracle.specs.Decided.{IsAnswer, AppendsTest, LeavesNothing};
ghost use Rattle.shq_oracle.specs.Decided.{IsOutcome, AddsTest, AddsShown, Notes, SpendsAll, TakesNode};
ghost use Rattle.shq_oracle.specs.ApartLists.{query_of, entry_of, classes_of, AreApart, IsAbout, MayNote};

use crate::found::{Found, search};
use crate::kept::KeptRules;
use crate::tested::Tested;
use crate::{Answer, Apart, Entry, NoMemory, Outcome, RunLog, Shown, TestEnd};
use axiom_sets::AxiomSet;
use shq_terms::{Ontology, Query};
use std::alloc::Global;
use std::marker::Model;

/// Answers whether queries follow from sets of an ontology's axioms, within a budget of steps, and keeps the log of it.
///
/// Contracts see the ontology, the budget and the log. What was spent is at most the budget.
#[derive(Drop)]
pub struct Oracle<'a> {
    alloc: Global,
    ontology: &'a Ontology,
    budget: u32,
    log: RunLog,
    rules: Option<KeptRules<'a>>,
}

impl<'a> Model for Oracle<'a> {
    ghost use Rattle.std.specs.Prelude.{◌≡◌, ◌≤◌, IfSome};
    ghost use Rattle.std.specs.Coded.{codes};
    ghost use Rattle.shq_terms.specs.Code.{concept_code};
    ghost use Rattle.axiom_sets.specs.Sets.{limited_code};
    ghost use Rattle.run_log.specs.Entries.{spent_of};
    ghost use Rattle.shq_oracle.specs.OracleLists.{OracleLists};

    ghost Value = { OracleLists };

    ghost coded = { Prim.hlevel (codes, concept_code, limited_code) };

    ghost view = { λ o. record { ontology = o.ontology.now; budget = o.budget; log = o.log } };

    ghost invariant = { λ o. (spent_of o.log ≤ o.budget) × IfSome o.rules (λ r. r.ontology ≡ o.ontology.now) };
}

impl<'a> Oracle<'a> {
    ghost use Rattle.shq_oracle.specs.OracleLists.{OracleLists};

    /// An oracle over the axioms of the ontology, with a budget of steps and nodes. It goes on with a log, whose spent
    /// steps and nodes count. Its memory is from `alloc`.
    pub fn new(alloc: Global, ontology: &'a Ontology, budget: u32, log: RunLog) -> Oracle<'a>
        requires { spent_of log ≤ budget }
        ensures { result ≡ record { ontology = ontology.now; budget = budget; log = log } }
    {
        Oracle {
            alloc,
            ontology,
            budget,
            log,
            rules: None,
        }
    }

    /// Hands the log back.
    pub fn into_log(self) -> RunLog
        ensures { result ≡ self.entry.log }
    {
        let Oracle { log, .. } = self;
        log
    }

    /// The ontology.
    pub fn ontology(&self) -> &'a Ontology
        ensures { result.now ≡ self.now.ontology }
    {
        self.ontology
    }

    /// The log.
    pub fn log(&self) -> &RunLog
        ensures { result.now ≡ self.now.log }
    {
        &self.log
    }

    /// How many steps and nodes are left of the budget.
    pub fn left(&self) -> u64
        ensures left { result + spent_of self.now.log ≡ self.now.budget }
        ensures small { self.now.budget ≤ u32.MAX }
    {
        u64::from(self.budget) - self.log.spent()
    }

    /// Whether the query follows from the axioms of the set, which is asked only if no entry of the log answers it. The
    /// answer comes with its evidence, or the whole budget is spent. One entry more in the log says how the test went.
    ///
    /// # Errors
    ///
    /// Out of memory. The log is as before then.
    pub fn decide(&mut self, set: &AxiomSet, query: &Query) -> Result<Answer, NoMemory>
        requires limit { set.now.limit ≡ length self.old.ontology.axioms }
        requires in_limit { IsInLimit self.old.ontology query.now }
        requires goes_on { list_any is_spent self.old.log ≡ false }
        requires is_new { ¬ IsAnswered self.old.log set.now query.now }

        ensures answer { IfOk result (IsAnswer self.old.ontology set.now query.now) }
        ensures entry { IfOk result (AppendsTest self.old.ontology set.now query.now self.old.log self.new.log) }
        ensures spent { IfOk result (LeavesNothing self.new) }
        ensures within { spent_of self.new.log ≤ self.new.budget }

        ensures same_ontology { self.new.ontology ≡ self.old.ontology }
        ensures same_budget { self.new.budget ≡ self.old.budget }
        ensures unchanged { OnErr result (self.new.log ≡ self.old.log) }
    {
        let fuel = self.left();
        let mut rules = self.take_rules(set)?;
        let found = search(self.alloc, &mut rules, query, fuel);
        self.keep_rules(rules);
        self.note(set, query, found?)
    }

    /// Whether the query follows, as [`decide`](Oracle::decide) answers it, with an entry in the log too but without
    /// evidence: no model is made, and of a refutation only the axioms are returned. The search may go on from what an
    /// earlier one did; the steps of that are counted.
    ///
    /// # Errors
    ///
    /// Out of memory. The log is as before then.
    pub fn test(&mut self, set: &AxiomSet, query: &Query) -> Result<Outcome, NoMemory>
        requires limit { set.now.limit ≡ length self.old.ontology.axioms }
        requires in_limit { IsInLimit self.old.ontology query.now }
        requires goes_on { list_any is_spent self.old.log ≡ false }
        requires is_new { ¬ IsAnswered self.old.log set.now query.now }

        ensures outcome { IfOk result (IsOutcome self.old.ontology set.now query.now) }
        ensures entry { IfOk result (AddsTest self.old.ontology set.now query.now self.old.log self.new.log) }
        ensures spent { IfOk result (SpendsAll self.new) }
        ensures within { spent_of self.new.log ≤ self.new.budget }

        ensures same_ontology { self.new.ontology ≡ self.old.ontology }
        ensures same_budget { self.new.budget ≡ self.old.budget }
        ensures unchanged { OnErr result (self.new.log ≡ self.old.log) }
    {
        let fuel = self.left();
        let mut rules = self.take_rules(set)?;
        let tested = rules.test(self.alloc, query, fuel, false);
        self.keep_rules(rules);
        self.note_outcome(set, query, tested?)
    }

    /// The same as [`test`](Oracle::test). If the query does not follow, and asks whether anything is in a class
    /// expression, it also returns the further classes in which the search shows that the expression is not included:
    /// exactly those with which its run had nothing to do. It returns none for any other query.
    ///
    /// # Errors
    ///
    /// Out of memory. The log is as before then.
    pub fn test_apart(&mut self, set: &AxiomSet, query: &Query) -> Result<Shown<'a>, NoMemory>
        requires limit { set.now.limit ≡ length self.old.ontology.axioms }
        requires in_limit { IsInLimit self.old.ontology query.now }
        requires goes_on { list_any is_spent self.old.log ≡ false }
        requires is_new { ¬ IsAnswered self.old.log set.now query.now }

        ensures outcome { IfOk result (λ s. IsOutcome self.old.ontology set.now query.now s.outcome) }
        ensures entry { IfOk result (AddsShown self.old.ontology set.now query.now self.old.log self.new.log) }
        ensures spent { IfOk result (λ s. SpendsAll self.new s.outcome) }
        ensures within { spent_of self.new.log ≤ self.new.budget }

        ensures same_ontology { self.new.ontology ≡ self.old.ontology }
        ensures same_budget { self.new.budget ≡ self.old.budget }
        ensures unchanged { OnErr result (self.new.log ≡ self.old.log) }
    {
        let fuel = self.left();
        let mut rules = self.take_rules(set)?;
        let tested = rules.test(self.alloc, query, fuel, true);
        self.keep_rules(rules);
        self.note_shown(set, query, tested?)
    }

    /// Logs the test whether the class expression of `apart` is included in `class`, if an earlier search has shown
    /// that it is not, and as many steps are left of the budget as that search made. Answers whether it was logged.
    ///
    /// # Errors
    ///
    /// Out of memory. The log is as before then.
    pub fn note_apart(&mut self, apart: &Apart<'_>, class: u32) -> Result<bool, NoMemory>
        requires ontology { apart.now.ontology ≡ self.old.ontology }
        requires listed { class < length self.old.ontology.classes }
        requires goes_on { list_any is_spent self.old.log ≡ false }
        requires is_new { ¬ IsAnswered self.old.log apart.now.set (query_of apart.now class) }

        ensures told { IfOk result (λ noted. (noted ≡ true) ↔ MayNote self.old apart.now class) }
        ensures entry { IfOk result (Notes self.old self.new apart.now class) }
        ensures within { spent_of self.new.log ≤ self.new.budget }

        ensures same_ontology { self.new.ontology ≡ self.old.ontology }
        ensures same_budget { self.new.budget ≡ self.old.budget }
        ensures unchanged { OnErr result (self.new.log ≡ self.old.log) }
    {
        if !self.may_note(apart, class) {
            return Ok(false);
        }
        self.log_apart(apart, class)?;
        Ok(true)
    }

    /// Takes one unit of the budget for a node of a hitting-set tree, if one is left, and logs the node. Answers
    /// whether one was left.
    ///
    /// # Errors
    ///
    /// Out of memory. The log is as before then.
    pub fn take_node(&mut self, node: &AxiomSet) -> Result<bool, NoMemory>
        ensures taken { IfOk result (TakesNode self.old self.new node.now) }
        ensures same_ontology { self.new.ontology ≡ self.old.ontology }
        ensures same_budget { self.new.budget ≡ self.old.budget }
        ensures unchanged { OnErr result (self.new.log ≡ self.old.log) }
    {
        if self.left() == 0 {
            return Ok(false);
        }
        self.log.push(Entry::Node(node.try_clone()?))?;
        Ok(true)
    }

    // The rules of the set: the kept ones if they are of this set, new ones otherwise. What contracts see of the oracle
    // stays the same.
    fn take_rules(&mut self, set: &AxiomSet) -> Result<KeptRules<'a>, NoMemory>
        requires limit { set.now.limit ≡ length self.old.ontology.axioms }
        requires in_limit { IsOntologyInLimit self.old.ontology }
        ensures ontology { IfOk result (λ r. r.ontology ≡ self.old.ontology) }
        ensures set { IfOk result (λ r. r.set ≡ set.now) }
        ensures of_axioms { IsAxiomSet self.old.ontology set.now }
        ensures same { self.new ≡ self.old }
    {
        let _limit = set.limit();
        KeptRules::of(self.alloc, self.rules.take(), self.ontology, set)
    }

    // Keeps rules for the next question about their set. What contracts see of the oracle stays the same.
    fn keep_rules(&mut self, rules: KeptRules<'a>)
        requires { rules.ontology ≡ self.old.ontology }
        ensures { self.new ≡ self.old }
    {
        self.rules = Some(rules);
    }

    // Logs a test, and returns its answer.
    fn note(&mut self, set: &AxiomSet, query: &Query, found: Found) -> Result<Answer, NoMemory>
        requires within { found.steps + spent_of self.old.log ≤ self.old.budget }
        requires small { self.old.budget ≤ u32.MAX }
        ensures answer { IfOk result (λ a. a ≡ found.answer) }
        ensures entry { IfOk result
            (λ a. self.new.log ≡ self.old.log ++ Test set.now query.now found.steps found.ended ∷ []) }
        ensures within { spent_of self.new.log ≤ self.new.budget }
        ensures same_ontology { self.new.ontology ≡ self.old.ontology }
        ensures same_budget { self.new.budget ≡ self.old.budget }
        ensures unchanged { OnErr result (self.new.log ≡ self.old.log) }
    {
        let Found {
            answer,
            steps,
            ended,
        } = found;
        self.log_test(set, query, steps, ended)?;
        Ok(answer)
    }

    // Logs a test, and returns its outcome.
    fn note_outcome(
        &mut self,
        set: &AxiomSet,
        query: &Query,
        tested: Tested,
    ) -> Result<Outcome, NoMemory>
        requires within { tested.steps + spent_of self.old.log ≤ self.old.budget }
        requires small { self.old.budget ≤ u32.MAX }
        ensures outcome { IfOk result (λ v. v ≡ tested.outcome) }
        ensures entry { IfOk result
            (λ v. self.new.log ≡ self.old.log ++ Test set.now query.now tested.steps tested.ended ∷ []) }
        ensures within { spent_of self.new.log ≤ self.new.budget }
        ensures same_ontology { self.new.ontology ≡ self.old.ontology }
        ensures same_budget { self.new.budget ≡ self.old.budget }
        ensures unchanged { OnErr result (self.new.log ≡ self.old.log) }
    {
        let Tested {
            outcome,
            steps,
            ended,
            ..
        } = tested;
        self.log_test(set, query, steps, ended)?;
        Ok(outcome)
    }

    // Logs a test, and returns its outcome with what it shows of further classes.
    fn note_shown(
        &mut self,
        set: &AxiomSet,
        query: &Query,
        tested: Tested,
    ) -> Result<Shown<'a>, NoMemory>
        requires within { tested.steps + spent_of self.old.log ≤ self.old.budget }
        requires small { self.old.budget ≤ u32.MAX }
        requires set { IsAxiomSet self.old.ontology set.now }
        requires apart { IfSome tested.apart (AreApart self.old.ontology set.now query.now.sub tested.steps) }
        ensures outcome { IfOk result (λ s. s.outcome ≡ tested.outcome) }
        ensures about { IfOk result (λ s. IfSome s.apart (IsAbout self.old.ontology set.now query.now.sub)) }
        ensures counted { IfOk result (λ s. IfSome s.apart (λ a. a.steps ≡ tested.steps)) }
        ensures classes { IfOk result (λ s. classes_of s.apart ≡ tested.apart) }
        ensures entry { IfOk result
            (λ s. self.new.log ≡ self.old.log ++ Test set.now query.now tested.steps tested.ended ∷ []) }
        ensures within { spent_of self.new.log ≤ self.new.budget }
        ensures same_ontology { self.new.ontology ≡ self.old.ontology }
        ensures same_budget { self.new.budget ≡ self.old.budget }
        ensures unchanged { OnErr result (self.new.log ≡ self.old.log) }
    {
        let Tested {
            outcome,
            apart,
            steps,
            ended,
        } = tested;
        let apart = self.apart_of(set, query, steps, apart)?;
        self.log_test(set, query, steps, ended)?;
        Ok(Shown { outcome, apart })
    }

    // What a search of so many steps shows of these classes, if there are any to speak of.
    fn apart_of(
        &self,
        set: &AxiomSet,
        query: &Query,
        steps: u64,
        classes: Option<AxiomSet>,
    ) -> Result<Option<Apart<'a>>, NoMemory>
        requires set { IsAxiomSet self.now.ontology set.now }
        requires apart { IfSome classes (AreApart self.now.ontology set.now query.now.sub steps) }
        ensures about { IfOk result (λ found. IfSome found (IsAbout self.now.ontology set.now query.now.sub)) }
        ensures counted { IfOk result (λ found. IfSome found (λ a. a.steps ≡ steps)) }
        ensures classes { IfOk result (λ found. classes_of found ≡ classes) }
    {
        match classes {
            Some(classes) => self.kept_apart(set, query, steps, classes),
            None => Ok(None),
        }
    }

    fn kept_apart(
        &self,
        set: &AxiomSet,
        query: &Query,
        steps: u64,
        classes: AxiomSet,
    ) -> Result<Option<Apart<'a>>, NoMemory>
        requires set { IsAxiomSet self.now.ontology set.now }
        requires apart { AreApart self.now.ontology set.now query.now.sub steps classes }
        ensures about { IfOk result (λ found. IfSome found (IsAbout self.now.ontology set.now query.now.sub)) }
        ensures counted { IfOk result (λ found. IfSome found (λ a. a.steps ≡ steps)) }
        ensures classes { IfOk result (λ found. classes_of found ≡ Some classes) }
    {
        let apart = Apart::new(self.alloc, self.ontology, set, &query.sub, steps, classes)?;
        Ok(Some(apart))
    }

    // Whether a search has shown of the class that the expression is not included in it, and as many steps are left as
    // that search made.
    #[tactic(auto, using(crate::proofs::Adding::may_note_shown, crate::proofs::Adding::may_not_note))]
    fn may_note(&self, apart: &Apart<'_>, class: u32) -> bool
        requires ontology { apart.now.ontology ≡ self.now.ontology }
        requires listed { class < length self.now.ontology.classes }
        ensures told { (result ≡ true) ↔ MayNote self.now apart.now class }
        ensures honest { result ≡ true → IsHonestEntry apart.now.ontology (entry_of apart.now class) }
        ensures small { self.now.budget ≤ u32.MAX }
        ensures within { spent_of self.now.log ≤ self.now.budget }
    {
        let left = self.left();
        apart.shows(class) && apart.steps() <= left
    }

    // Logs a test that is answered by a search for another test.
    fn log_apart(&mut self, apart: &Apart<'_>, class: u32) -> Result<(), NoMemory>
        requires within { apart.now.steps + spent_of self.old.log ≤ self.old.budget }
        requires small { self.old.budget ≤ u32.MAX }
        ensures entry { OnOk result (self.new.log ≡ self.old.log ++ entry_of apart.now class ∷ []) }
        ensures same_ontology { self.new.ontology ≡ self.old.ontology }
        ensures same_budget { self.new.budget ≡ self.old.budget }
        ensures unchanged { OnErr result (self.new.log ≡ self.old.log) }
    {
        let query = apart.query(self.alloc, class)?;
        let logged = self.log_test(apart.set(), &query, apart.steps(), TestEnd::No);
        drop(query);
        logged
    }

    // Logs a test.
    fn log_test(
        &mut self,
        set: &AxiomSet,
        query: &Query,
        steps: u64,
        ended: TestEnd,
    ) -> Result<(), NoMemory>
        requires within { steps + spent_of self.old.log ≤ self.old.budget }
        requires small { self.old.budget ≤ u32.MAX }
        ensures entry { OnOk result (self.new.log ≡ self.old.log ++ Test set.now query.now steps ended ∷ []) }
        ensures within { spent_of self.new.log ≤ self.new.budget }
        ensures same_ontology { self.new.ontology ≡ self.old.ontology }
        ensures same_budget { self.new.budget ≡ self.old.budget }
        ensures unchanged { OnErr result (self.new.log ≡ self.old.log) }
    {
        let asked = self.log.keep_set(self.alloc, set)?;
        let query = self.log.keep_query(self.alloc, query)?;
        self.log.push(Entry::Test(asked, query, steps, ended))?;
        Ok(())
    }
}
