// An object that answers for one query, and keeps the evidence.
ghost use Rattle.std.specs.Prelude.{◌≡◌, [], ◌++◌, false, length, IfOk, OnOk, OnErr};
ghost use Rattle.std.specs.List.{list_any, Contains};
ghost use Rattle.lane_sieve.specs.Sets.{IsPart};
ghost use Rattle.pinpointing_specs.specs.Smallest.{numbers_to};
ghost use Rattle.audit_check.specs.Limits.{IsInLimit};
ghost use Rattle.set_questions.specs.Asked.{Answers, IsUnknownIf, ShowsNoOther, Takes};
ghost use Rattle.set_questions.specs.Meaning.{Keeps, ShowsNothing, one_more};
ghost use Rattle.run_log.specs.Entries.{is_spent, IsAnswered};
ghost use Rattle.pinpointing_jobs.specs.AskerLists.{origin_of};
ghost use Rattle.pinpointing_jobs.specs.Told.{AreTestsOfOthers, asker_meaning, IsAskerLog};
ghost use Rattle.audit_jobs.specs.Kept.{IsEvidence};
ghost use Rattle.audit_jobs.specs.Told.{HasTold};

use crate::evidence::{Evidence, keep, make_room, no_evidence};
use axiom_sets::AxiomSet;
use pinpointing_jobs::{Asker, Known, Oracle};
use set_questions::{Entail, Reply};
use shq_terms::{NoMemory, Query};
use std::alloc::Global;
use std::marker::Model;

/// Answers whether one query follows from sets of an ontology's axioms, and keeps a refutation or a model of each test.
///
/// Contracts see what they see of its asker. Each yes and each no that the log gained has its evidence.
#[derive(Drop)]
pub(crate) struct Witness<'a> {
    alloc: Global,
    asker: Asker<'a>,
    evidence: Evidence,
}

impl<'a> Model for Witness<'a> {
    ghost use Rattle.std.specs.Coded.{codes};
    ghost use Rattle.shq_terms.specs.Code.{concept_code};
    ghost use Rattle.axiom_sets.specs.Sets.{limited_code};
    ghost use Rattle.pinpointing_jobs.specs.AskerLists.{AskerLists, number_set_code};
    ghost use Rattle.audit_jobs.specs.Kept.{IsEvidence};

    ghost Value = { AskerLists };

    ghost coded = { Prim.hlevel (codes, concept_code, limited_code, number_set_code) };

    ghost view = { λ w. w.asker };

    ghost invariant = { λ w. IsEvidence w.asker.ontology w.asker.query w.asker.gained w.evidence };
}

impl<'a> Witness<'a> {
    /// One for the query, which asks among all axioms. The oracle's log has no test that spent the budget, and none
    /// of an equal query. The memory that it takes is `alloc`'s.
    pub(crate) fn new(alloc: Global, oracle: Oracle<'a>, query: &'a Query) -> Witness<'a>
        requires in_limit { IsInLimit oracle.ontology query.now }
        requires goes_on { list_any is_spent oracle.log ≡ false }
        requires others { AreTestsOfOthers query.now oracle.log }
        ensures { result ≡ record {
          ontology = oracle.entry.ontology;
          query = query.entry.now;
          budget = oracle.entry.budget;
          local_part = numbers_to (length oracle.entry.ontology.axioms);
          before = oracle.entry.log;
          gained = [];
          asks = 0;
        } }
    {
        Witness {
            alloc,
            asker: Asker::new(alloc, oracle, query),
            evidence: no_evidence(alloc),
        }
    }

    /// Hands the oracle back, and what was kept.
    pub(crate) fn into_parts(self) -> (Oracle<'a>, Evidence)
        ensures ontology { result.0.ontology ≡ self.entry.ontology }
        ensures budget { result.0.budget ≡ self.entry.budget }
        ensures log { result.0.log ≡ self.entry.before ++ self.entry.gained }
        ensures is_log { IsAskerLog self.entry }
        ensures evidence { IsEvidence self.entry.ontology self.entry.query self.entry.gained result.1 }
    {
        let Witness {
            alloc: _,
            asker,
            evidence,
        } = self;
        (asker.into_oracle(), evidence)
    }

    // Decides for some axioms for which the log does not answer, and keeps the evidence.
    fn decide(&mut self, part: AxiomSet) -> Result<Reply, NoMemory>
        requires limit { part.limit ≡ length self.old.ontology.axioms }
        requires local_part { IsPart part.members self.old.local_part }
        requires is_new { ¬ IsAnswered self.old.gained part self.old.query }
        ensures told { IfOk result (HasTold self.old self.new part) }
        ensures unchanged { OnErr result (self.new ≡ self.old) }
    {
        make_room(&mut self.evidence)?;
        let names = AxiomSet::empty(self.alloc, part.limit())?;
        let answer = self.asker.decide(&part)?;
        Ok(keep(&mut self.evidence, part, names, answer))
    }
}

impl<'a> Entail for Witness<'a> {
    ghost use Rattle.pinpointing_jobs.specs.AskerLists.{AskerOrigin, origin_of};
    ghost use Rattle.pinpointing_jobs.specs.Told.{asker_meaning, asker_grows};

    ghost meaning = { asker_meaning };

    ghost Origin = { AskerOrigin };

    ghost origin = { origin_of };

    ghost grows = { asker_grows };

    fn count(&self) -> u32 {
        self.asker.count()
    }

    /// Asks whether the query follows from the set: first the log, and then, where it has no answer and something of
    /// the budget is left, the oracle, whose evidence is kept.
    ///
    /// # Errors
    ///
    /// Out of memory. The log is as before then.
    fn ask(&mut self, set: &AxiomSet) -> Result<Reply, NoMemory> {
        match self.asker.known(set)? {
            Known::Answered(reply) => Ok(reply),
            Known::Unknown(part) => self.decide(part),
        }
    }

    /// Takes one unit of the budget for a node, where one is left, and logs just the node.
    ///
    /// # Errors
    ///
    /// Out of memory. The log is as before then.
    fn take_node(&mut self, hit: &AxiomSet) -> Result<bool, NoMemory> {
        self.asker.take_node(hit)
    }
}
