// An object that answers for one query.
ghost use Rattle.std.specs.Prelude.{◌≡◌, [], ◌++◌, false, length, IfOk, IfSome, OnOk, OnErr};
ghost use Rattle.std.specs.List.{list_any, Contains};
ghost use Rattle.std.specs.FinSet as set;
ghost use Rattle.lane_sieve.specs.Sets.{IsPart};
ghost use Rattle.pinpointing_specs.specs.Smallest.{numbers_to};
ghost use Rattle.shq_oracle.specs.Limits.{IsInLimit};
ghost use Rattle.set_questions.specs.Asked.{Answers, IsUnknownIf, ShowsNoOther, AsksInBudget, Takes};
ghost use Rattle.set_questions.specs.Meaning.{Keeps, ShowsNothing, one_more};
ghost use Rattle.shq_oracle.specs.Entries.{is_spent, nodes_of, IsAnswered};
ghost use Rattle.query_asker.specs.AskerLists.{origin_of};
ghost use Rattle.query_asker.specs.Told.{KeepsAnswers, AreTestsOfOthers, asker_meaning, IsAskerLog};
ghost use Rattle.query_asker.specs.Told.{IsUnknown, LogsNode, part_in};
ghost use Rattle.query_asker.specs.Asking.{part_of, IsPartIn, IsLocalPart, IsRecalled, IsLater, reply_of};
ghost use Rattle.shq_oracle.specs.Decided.{outcome_of, IsAnswer};
ghost use Rattle.query_asker.specs.Deciding.{IsKnown, GainsTest, GainsAtMostOne};

use crate::memo::Memo;
use crate::{Known, NoMemory};
use axiom_sets::AxiomSet;
use set_questions::{Entail, Reply};
use shq_oracle::{Answer, Oracle, Outcome};
use shq_terms::Query;
use std::alloc::Global;
use std::marker::Model;

/// Answers whether one query follows from sets of an ontology's axioms.
///
/// Contracts see the ontology, the query, the budget, the axioms among which it asks, the log that it began with,
/// what the log gained, and how many asks were answered.
#[derive(Drop)]
pub struct Asker<'a> {
    alloc: Global,
    oracle: Oracle<'a>,
    query: &'a Query,

    /// The axioms among which it asks, where these are not all.
    among: Option<AxiomSet>,

    /// How many entries the log had at first.
    first: usize,

    /// What the entries since then found.
    memo: Memo,
    asks: u64,
}

impl<'a> Model for Asker<'a> {
    ghost use Rattle.std.specs.Coded.{codes};
    ghost use Rattle.shq_terms.specs.Code.{concept_code};
    ghost use Rattle.axiom_sets.specs.Sets.{limited_code};
    ghost use Rattle.query_asker.specs.AskerLists.{AskerLists, number_set_code};
    ghost use Rattle.query_asker.specs.Asking.{lists_of, IsAsker};

    ghost Value = { AskerLists };

    ghost coded = { Prim.hlevel (codes, concept_code, limited_code, number_set_code) };

    ghost view = { λ a. lists_of a.oracle a.query.now a.among a.first a.asks };

    ghost invariant = { λ a. IsAsker a.oracle a.query.now a.among a.first a.memo a.asks };
}

impl<'a> Asker<'a> {
    /// An asker for the query, which asks among all axioms. The oracle's log has no test that spent the budget, and
    /// none of an equal query. The memory that it takes is `alloc`'s.
    pub fn new(alloc: Global, oracle: Oracle<'a>, query: &'a Query) -> Asker<'a>
        requires in_limit { IsInLimit oracle.ontology query.now }
        requires goes_on { list_any is_spent oracle.log ≡ false }
        requires others { AreTestsOfOthers query.now oracle.log }
        ensures { result ≡ record {
          ontology = oracle.entry.ontology;
          query = query.entry.now;
          budget = oracle.entry.budget;
          local_part = numbers_to (length oracle.entry.ontology.axioms);
          before = oracle.entry.log;
          gained = [];
          asks = 0;
        } }
    {
        Asker::made(alloc, oracle, query, None)
    }

    /// The same, but it asks among the axioms of a module alone, from which the query follows where it follows from
    /// all.
    pub fn within(
        alloc: Global,
        oracle: Oracle<'a>,
        query: &'a Query,
        local_module: AxiomSet,
    ) -> Asker<'a>
        requires in_limit { IsInLimit oracle.ontology query.now }
        requires goes_on { list_any is_spent oracle.log ≡ false }
        requires others { AreTestsOfOthers query.now oracle.log }
        requires limit { local_module.limit ≡ length oracle.ontology.axioms }
        requires keeps { KeepsAnswers oracle.ontology.axioms query.now local_module.members }
        ensures { result ≡ record {
          ontology = oracle.entry.ontology;
          query = query.entry.now;
          budget = oracle.entry.budget;
          local_part = local_module.members;
          before = oracle.entry.log;
          gained = [];
          asks = 0;
        } }
    {
        Asker::made(alloc, oracle, query, Some(local_module))
    }

    // An asker that asks among some axioms, or among all.
    fn made(
        alloc: Global,
        oracle: Oracle<'a>,
        query: &'a Query,
        among: Option<AxiomSet>,
    ) -> Asker<'a>
        requires in_limit { IsInLimit oracle.ontology query.now }
        requires goes_on { list_any is_spent oracle.log ≡ false }
        requires others { AreTestsOfOthers query.now oracle.log }
        requires limit { IfSome among (λ m. m.limit ≡ length oracle.ontology.axioms) }
        requires keeps { KeepsAnswers oracle.ontology.axioms query.now (part_of oracle.ontology among) }
        ensures { result ≡ record {
          ontology = oracle.entry.ontology;
          query = query.entry.now;
          budget = oracle.entry.budget;
          local_part = part_of oracle.entry.ontology among;
          before = oracle.entry.log;
          gained = [];
          asks = 0;
        } }
    {
        let _left = oracle.left();
        let first = oracle.log().entries().len();
        Asker {
            alloc,
            oracle,
            query,
            among,
            first,
            memo: Memo::new(alloc),
            asks: 0,
        }
    }

    /// Hands the oracle back, whose log has what was gained last.
    pub fn into_oracle(self) -> Oracle<'a>
        ensures ontology { result.ontology ≡ self.entry.ontology }
        ensures budget { result.budget ≡ self.entry.budget }
        ensures log { result.log ≡ self.entry.before ++ self.entry.gained }
        ensures is_log { IsAskerLog self.entry }
    {
        let Asker { oracle, .. } = self;
        oracle
    }

    // The axioms of the set among which it asks.
    fn local_part(&self, set: &AxiomSet) -> Result<AxiomSet, NoMemory>
        requires { set.now.limit ≡ length self.now.ontology.axioms }
        ensures part { IfOk result (IsLocalPart self.now set.now) }
    {
        let _limit = set.limit();
        part_in(&self.among, set)
    }

    // What the log says of a set.
    fn recall(&mut self, part: &AxiomSet) -> Result<Option<Reply>, NoMemory>
        requires { part.now.limit ≡ length self.old.ontology.axioms }
        ensures same { self.new ≡ self.old }
        ensures recalled { IfOk result (IsRecalled self.old part.now) }
    {
        self.memo
            .recall(&self.oracle.log().entries()[self.first..], part)
    }

    // Counts an answer.
    fn count_ask(&mut self)
        ensures { self.new ≡ record self.old { asks = one_more self.old.asks } }
    {
        self.asks = self.asks.saturating_add(1);
    }

    /// What the log says of the set, where it answers for it, and then an ask is counted; else those axioms of the
    /// set among which it asks, which are to be tested.
    ///
    /// # Errors
    ///
    /// Out of memory. Nothing has changed then.
    pub fn known(&mut self, set: &AxiomSet) -> Result<Known, NoMemory>
        requires { set.now.limit ≡ length self.old.ontology.axioms }
        ensures known { IfOk result (IsKnown self.old self.new set.now) }
        ensures unchanged { OnErr result (self.new ≡ self.old) }
    {
        let part = self.local_part(set)?;
        if let Some(known) = self.recall(&part)? {
            self.count_ask();
            return Ok(Known::Answered(known));
        }
        Ok(Known::Unknown(part))
    }

    /// Lets the oracle decide, with evidence, whether the query follows from some axioms for which the log does not
    /// answer, and counts an ask. Where nothing of the budget is left, the oracle is not asked. Once it is, no memory
    /// is taken.
    ///
    /// # Errors
    ///
    /// Out of memory. Nothing has changed then.
    pub fn decide(&mut self, part: &AxiomSet) -> Result<Answer, NoMemory>
        requires limit { part.now.limit ≡ length self.old.ontology.axioms }
        requires local_part { IsPart part.now.members self.old.local_part }
        requires is_new { ¬ IsAnswered self.old.gained part.now self.old.query }
        ensures evidence { IfOk result (IsAnswer self.old.ontology part.now self.old.query) }
        ensures answer { IfOk result (λ a. Answers (asker_meaning self.new) part.now (reply_of (outcome_of a))) }
        ensures unknown { IfOk result (λ a. IsUnknown self.new part.now (reply_of (outcome_of a))) }
        ensures shown { IfOk result
            (λ a. ShowsNoOther (asker_meaning self.old) (asker_meaning self.new) (reply_of (outcome_of a))) }
        ensures gains { IfOk result (λ a. GainsTest self.old self.new part.now (outcome_of a)) }
        ensures unchanged { OnErr result (self.new ≡ self.old) }
    {
        let counted = self.asks.saturating_add(1);
        if self.oracle.left() == 0 {
            self.asks = counted;
            return Ok(Answer::Undecided);
        }
        let answer = self.oracle.decide(part, self.query)?;
        self.asks = counted;
        Ok(answer)
    }

    // Lets the oracle test a set of which the log says nothing. Once it has, no memory is taken.
    fn test(&mut self, part: &AxiomSet) -> Result<Reply, NoMemory>
        requires limit { part.now.limit ≡ length self.old.ontology.axioms }
        requires local_part { IsPart part.now.members self.old.local_part }
        requires is_new { ¬ IsAnswered self.old.gained part.now self.old.query }
        ensures answer { IfOk result (Answers (asker_meaning self.new) part.now) }
        ensures unknown { IfOk result (IsUnknown self.new part.now) }
        ensures shown { IfOk result (ShowsNoOther (asker_meaning self.old) (asker_meaning self.new)) }
        ensures in_budget { IfOk result (AsksInBudget (asker_meaning self.old) (asker_meaning self.new)) }
        ensures later { IsLater self.old self.new }
        ensures nodes { nodes_of self.new.gained ≡ nodes_of self.old.gained }
        ensures counted { OnOk result (self.new.asks ≡ one_more self.old.asks) }
        ensures uncounted { OnErr result (self.new.asks ≡ self.old.asks) }
        ensures gains { OnOk result (GainsAtMostOne self.old self.new part.now) }
        ensures unchanged { OnErr result (self.new ≡ self.old) }
    {
        let counted = self.asks.saturating_add(1);
        if self.oracle.left() == 0 {
            self.asks = counted;
            return Ok(Reply::Spent);
        }
        let outcome = self.oracle.test(part, self.query)?;
        self.asks = counted;
        Ok(reply_to(outcome))
    }
}

// What the outcome of a test says of the set.
fn reply_to(outcome: Outcome) -> Reply
    ensures { result ≡ reply_of outcome }
{
    match outcome {
        Outcome::Yes(found) => Reply::Yes(found),
        Outcome::No => Reply::No,
        Outcome::Undecided => Reply::Spent,
    }
}

// Those of the set that are in the module.
fn part_in(among: &Option<AxiomSet>, set: &AxiomSet) -> Result<AxiomSet, NoMemory>
    requires { IfSome among.now (λ m. m.limit ≡ set.now.limit) }
    ensures { IfOk result (IsPartIn among.now set.now) }
{
    match among {
        Some(some) => both(some, set),
        None => Ok(set.try_clone()?),
    }
}

// The numbers that are in both sets.
fn both(one: &AxiomSet, other: &AxiomSet) -> Result<AxiomSet, NoMemory>
    requires { one.now.limit ≡ other.now.limit }
    ensures limit { IfOk result (λ s. s.limit ≡ other.now.limit) }
    ensures members { IfOk result (λ s. s.members ≡ set.intersection other.now.members one.now.members) }
{
    let mut outside = other.try_clone()?;
    outside.take_all(one);
    let mut part = other.try_clone()?;
    part.take_all(&outside);
    Ok(part)
}

impl<'a> Entail for Asker<'a> {
    ghost use Rattle.query_asker.specs.AskerLists.{AskerOrigin, origin_of};
    ghost use Rattle.query_asker.specs.Told.{asker_meaning, asker_grows};

    ghost meaning = { asker_meaning };

    ghost Origin = { AskerOrigin };

    ghost origin = { origin_of };

    ghost grows = { asker_grows };

    fn count(&self) -> u32 {
        self.oracle.ontology().axiom_count()
    }

    /// Asks whether the query follows from the set: first the log, and then, where it has no answer and something of
    /// the budget is left, the oracle. Where nothing is left, too, the log is asked first. The log gains one test at
    /// most.
    ///
    /// # Errors
    ///
    /// Out of memory. Nothing has changed then.
    fn ask(&mut self, set: &AxiomSet) -> Result<Reply, NoMemory>
        requires { set.now.limit ≡ (asker_meaning self.old).size }
        ensures answer { IfOk result (Answers (asker_meaning self.new) set.now) }
        ensures unknown { IfOk result (IsUnknownIf (asker_meaning self.new) set.now) }
        ensures shown { IfOk result (ShowsNoOther (asker_meaning self.old) (asker_meaning self.new)) }
        ensures keeps { Keeps (asker_meaning self.old) (asker_meaning self.new) }
        ensures counted { OnOk result ((asker_meaning self.new).asks ≡ one_more (asker_meaning self.old).asks) }
        ensures uncounted { OnErr result ((asker_meaning self.new).asks ≡ (asker_meaning self.old).asks) }
        ensures taken { (asker_meaning self.new).taken ≡ (asker_meaning self.old).taken }
        ensures in_budget { IfOk result (AsksInBudget (asker_meaning self.old) (asker_meaning self.new)) }
        ensures ran_out { OnErr result ((asker_meaning self.new).ran_out ≡ (asker_meaning self.old).ran_out) }
        ensures same { origin_of self.new ≡ origin_of self.old }
        ensures logged { OnOk result (GainsAtMostOne self.old self.new (part_in self.old set.now)) }
        ensures unchanged { OnErr result (self.new ≡ self.old) }
    {
        match self.known(set)? {
            Known::Answered(reply) => Ok(reply),
            Known::Unknown(part) => self.test(&part),
        }
    }

    /// Takes one unit of the budget for a node, where one is left, and logs just the node.
    ///
    /// # Errors
    ///
    /// Out of memory. The log is as before then.
    fn take_node(&mut self, hit: &AxiomSet) -> Result<bool, NoMemory>
        requires limit { hit.now.limit ≡ (asker_meaning self.old).size }
        requires fresh { ¬ Contains (asker_meaning self.old).taken hit.now }
        ensures logged { IfOk result (LogsNode self.old self.new hit.now) }
        ensures unlogged { OnErr result (self.new ≡ self.old) }
        ensures answer { IfOk result (Takes (asker_meaning self.old) (asker_meaning self.new) hit.now) }
        ensures refused { OnErr result ((asker_meaning self.new).taken ≡ (asker_meaning self.old).taken) }
        ensures keeps { Keeps (asker_meaning self.old) (asker_meaning self.new) }
        ensures shown { ShowsNothing (asker_meaning self.old) (asker_meaning self.new) }
        ensures asks { (asker_meaning self.new).asks ≡ (asker_meaning self.old).asks }
        ensures ran_out { (asker_meaning self.new).ran_out ≡ (asker_meaning self.old).ran_out }
        ensures same { origin_of self.new ≡ origin_of self.old }
    {
        let _limit = hit.limit();
        self.oracle.take_node(hit)
    }
}
