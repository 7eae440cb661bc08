// The rules of a set of axioms, kept from one question to the next.
ghost use Rattle.std.specs.Prelude.{◌≡◌, true, IsTrue, length, IfOk, IfSome};
ghost use Rattle.axiom_sets.specs.Sets.{IsWithin};
ghost use Rattle.model_builder.specs.Limits.{IsOntologyInLimit, IsInLimit};
ghost use Rattle.tableau.specs.RuleLists.{AreNumbersOf, IsGrown};
ghost use Rattle.run_log.specs.HonestLog.{IsAxiomSet};
ghost use Rattle.shq_oracle.specs.Decided.{IsTested};

use crate::NoMemory;
use crate::tested::{Tested, test};
use axiom_sets::AxiomSet;
use shq_terms::{Ontology, Query};
use std::alloc::Global;
use std::marker::Model;
use tableau::{Beginning, SearchRules};

/// The rules of a set of axioms, and a beginning of searches by them, if one is kept. Contracts see the rules.
#[derive(Drop)]
pub(crate) struct KeptRules<'a> {
    rules: SearchRules<'a>,
    beginning: Option<Beginning>,
}

impl<'a> Model for KeptRules<'a> {
    ghost use Rattle.std.specs.Prelude.{IfSome};
    ghost use Rattle.std.specs.Coded.{codes};
    ghost use Rattle.shq_terms.specs.Code.{concept_code};
    ghost use Rattle.axiom_sets.specs.Sets.{limited_code};
    ghost use Rattle.tableau.specs.RuleLists.{RuleLists};
    ghost use Rattle.tableau.specs.Beginning.{Serves};

    ghost Value = { RuleLists };

    ghost coded = { Prim.hlevel (codes, concept_code, limited_code) };

    ghost view = { λ k. k.rules };

    ghost invariant = { λ k. IfSome k.beginning (Serves k.rules) };
}

impl<'a> KeptRules<'a> {
    /// The rules of the axioms of a set: the kept ones if they are of this set, new ones otherwise.
    ///
    /// # Errors
    ///
    /// Out of memory.
    pub(crate) fn of(
        alloc: Global,
        kept: Option<KeptRules<'a>>,
        ontology: &'a Ontology,
        set: &AxiomSet,
    ) -> Result<KeptRules<'a>, NoMemory>
        requires kept { IfSome kept (λ k. k.ontology ≡ ontology.now) }
        requires within { IsWithin (length ontology.now.axioms) set.now.members }
        requires in_limit { IsOntologyInLimit ontology.now }
        ensures ontology { IfOk result (λ k. k.ontology ≡ ontology.entry.now) }
        ensures set { IfOk result (λ k. k.set ≡ set.now) }
    {
        match kept {
            Some(kept) => kept.again(alloc, ontology, set),
            None => KeptRules::build(alloc, ontology, set),
        }
    }

    // These rules if they are of the set, new ones otherwise.
    fn again(
        self,
        alloc: Global,
        ontology: &'a Ontology,
        set: &AxiomSet,
    ) -> Result<KeptRules<'a>, NoMemory>
        requires kept { self.ontology ≡ ontology.now }
        requires within { IsWithin (length ontology.now.axioms) set.now.members }
        requires in_limit { IsOntologyInLimit ontology.now }
        ensures ontology { IfOk result (λ k. k.ontology ≡ ontology.entry.now) }
        ensures set { IfOk result (λ k. k.set ≡ set.now) }
    {
        if *self.rules.set() == *set {
            return Ok(self);
        }
        KeptRules::build(alloc, ontology, set)
    }

    // New rules.
    fn build(
        alloc: Global,
        ontology: &'a Ontology,
        set: &AxiomSet,
    ) -> Result<KeptRules<'a>, NoMemory>
        requires within { IsWithin (length ontology.now.axioms) set.now.members }
        requires in_limit { IsOntologyInLimit ontology.now }
        ensures ontology { IfOk result (λ k. k.ontology ≡ ontology.entry.now) }
        ensures set { IfOk result (λ k. k.set ≡ set.now) }
    {
        Ok(KeptRules {
            rules: SearchRules::build(alloc, ontology, set)?,
            beginning: None,
        })
    }

    /// The rules.
    pub(crate) fn rules(&self) -> &SearchRules<'a>
        ensures { result.now ≡ self.now }
    {
        &self.rules
    }

    /// The numbers of what a query asks ([`SearchRules::numbers_of`]).
    ///
    /// # Errors
    ///
    /// Out of memory.
    #[tactic(auto, using(crate::proofs::Serving::served_still))]
    pub(crate) fn numbers_of(
        &mut self,
        alloc: Global,
        query: &Query,
    ) -> Result<(u32, u32), NoMemory>
        requires in_limit { IsInLimit self.old.ontology query.now }
        ensures numbers { IfOk result (λ p. AreNumbersOf self.new query.now p.0 p.1) }
        ensures grown { IsGrown self.old self.new }
    {
        self.rules.numbers_of(alloc, query)
    }

    /// Searches whether a query follows, and makes no model. The search that answers has at most `fuel` steps. If
    /// `wants_apart`, what it shows of further classes is kept.
    ///
    /// # Errors
    ///
    /// Out of memory.
    #[tactic(auto, using(crate::proofs::Serving::tested_grown))]
    pub(crate) fn test(
        &mut self,
        alloc: Global,
        query: &Query,
        fuel: u64,
        wants_apart: bool,
    ) -> Result<Tested, NoMemory>
        requires set { IsAxiomSet self.old.ontology self.old.set }
        requires in_limit { IsInLimit self.old.ontology query.now }
        ensures tested { IfOk result (IsTested self.old.ontology self.old.set query.now fuel wants_apart) }
        ensures same { self.new.ontology ≡ self.old.ontology }
    {
        let numbers = self.numbers_of(alloc, query)?;
        test(
            alloc,
            &self.rules,
            &mut self.beginning,
            query,
            numbers,
            fuel,
            wants_apart,
        )
    }
}
