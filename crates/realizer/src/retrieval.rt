// The instances of a class expression.
ghost use Rattle.std.specs.Prelude.{◌≡◌, ◌+◌, ◌<◌, ◌++◌, ◌∷◌, ℕ, [], true, false, if◌then◌else◌, IfOk, IfErr, OnOk};
ghost use Rattle.std.specs.Prelude.{length};
ghost use Rattle.std.specs.List.{list_any};
ghost use Rattle.shq_terms.specs.Concept.{top};
ghost use Rattle.lane_sieve.specs.Sets.{passing};
ghost use Rattle.subsumption.specs.Limits.{IsInLimit};
ghost use Rattle.subsumption.specs.Entries.{is_spent};
ghost use Rattle.subsumption.specs.HonestLog.{IsWhole};
ghost use Rattle.subsumption.specs.Stops.{IsStop};
ghost use Rattle.realizer.specs.Instances.{instance_query, IsMembership, AreInstances};
ghost use Rattle.realizer.specs.RealizationLogs.{IsInstancesLog};
ghost use Rattle.realizer.specs.Candidates.{has_individual, AreCandidates};
ghost use Rattle.realizer.specs.Asked.{AreAlike, IsAsking, HasHalted};
ghost use Rattle.realizer.specs.ShownLogs.{ShowsInstances};

use crate::Halt;
use crate::asking::keep_members;
use axiom_sets::AxiomSet;
use shq_terms::{Concept, NoMemory, Node, NumberList, On, Ontology, Query};
use std::alloc::Global;
use subsumption::{Answer, Oracle};

/// The listed individuals of the ontology that are in the class expression by all of its axioms (OWL 2 Direct
/// Semantics, section 2.5), in list order, where the oracle is one for this ontology that was asked nothing yet. Each
/// individual is asked about at most once, and the log shows of each whether it is in the class expression.
///
/// # Errors
/// The budget of the oracle was spent in the middle of a test, which is the last of the log; or memory was refused, and
/// no test spent the budget. The log is honest in each case.
pub fn instances(
    alloc: Global,
    oracle: &mut Oracle<'_>,
    ontology: &Ontology,
    class: &Concept,
) -> Result<NumberList, Halt>
    requires same { oracle.old.ontology ≡ ontology.now }
    requires unlogged { oracle.old.log ≡ [] }
    requires in_limit { (a : ℕ) → a < length ontology.now.individuals
        → IsInLimit ontology.now (instance_query class.now a) }

    ensures found { IfOk result (AreInstances ontology.now class.now) }
    ensures shown { OnOk result (ShowsInstances ontology.now class.now oracle.new.log) }
    ensures unspent { OnOk result (list_any is_spent oracle.new.log ≡ false) }
    ensures halted { IfErr result (IsStop oracle.old.budget oracle.new.log) }
    ensures honest { IsInstancesLog ontology.now class.now oracle.old.budget oracle.new.log }

    ensures same_ontology { oracle.new.ontology ≡ oracle.old.ontology }
    ensures same_budget { oracle.new.budget ≡ oracle.old.budget }
{
    let mut query = query_of(alloc, class)?;
    let outcome = members(alloc, oracle, ontology, &mut query);
    drop(query);
    let found = listed(alloc, &outcome?)?;
    Ok(found)
}

// The question about all elements, of which that about an individual is made.
fn query_of(alloc: Global, class: &Concept) -> Result<Query, NoMemory>
    ensures sub { IfOk result (λ q. q.sub ≡ top) }
    ensures sup { IfOk result (λ q. q.sup ≡ class.now) }
{
    Ok(Query {
        sub: Concept { node: Node::Top },
        sup: class.try_clone(alloc)?,
        on: On::Any,
    })
}

// The set of the instances, in which the individual a has the number a + 1.
fn members(
    alloc: Global,
    oracle: &mut Oracle<'_>,
    ontology: &Ontology,
    query: &mut Query,
) -> Result<AxiomSet, Halt>
    requires same { oracle.old.ontology ≡ ontology.now }
    requires unlogged { oracle.old.log ≡ [] }
    requires sub { query.old.sub ≡ top }
    requires in_limit { (a : ℕ) → a < length ontology.now.individuals
        → IsInLimit ontology.now (instance_query query.old.sup a) }
    ensures members { IfOk result (AreCandidates ontology.now query.old.sup (length ontology.now.individuals)) }
    ensures shown { OnOk result (ShowsInstances ontology.now query.old.sup oracle.new.log) }
    ensures goes_on { OnOk result (list_any is_spent oracle.new.log ≡ false) }
    ensures halted { IfErr result (IsStop oracle.old.budget oracle.new.log) }
    ensures honest { IsInstancesLog ontology.now query.old.sup oracle.old.budget oracle.new.log }
    ensures same_ontology { oracle.new.ontology ≡ oracle.old.ontology }
    ensures same_budget { oracle.new.budget ≡ oracle.old.budget }
{
    let axioms = AxiomSet::full(alloc, ontology.axiom_count())?;
    let mut members = AxiomSet::full(alloc, ontology.individual_count())?;
    for individual in 0..ontology.individual_count() {
        settle(oracle, &axioms, query, &mut members, individual)?;
    }
    Ok(members)
}

// Asks about an individual, unless it is known that it need not be an instance.
fn settle(
    oracle: &mut Oracle<'_>,
    axioms: &AxiomSet,
    query: &mut Query,
    members: &mut AxiomSet,
    individual: u32,
) -> Result<(), Halt>
    requires whole { IsWhole oracle.old.ontology axioms.now }
    requires sub { query.old.sub ≡ top }
    requires individual { individual < length oracle.old.ontology.individuals }
    requires asking { IsAsking oracle.old query.old.sup individual members.old }
    ensures ok { OnOk result (IsAsking oracle.new query.old.sup (individual + 1) members.new) }
    ensures err { IfErr result (HasHalted oracle.new query.old.sup) }
    ensures sub { query.new.sub ≡ top }
    ensures sup { query.new.sup ≡ query.old.sup }
    ensures alike { AreAlike oracle.old oracle.new }
{
    let _limit = members.limit();
    if members.has(individual + 1) {
        query.on = On::Individual(individual);
        return ask(oracle, axioms, query, members, individual);
    }
    Ok(())
}

// Asks about an individual that may be an instance.
fn ask(
    oracle: &mut Oracle<'_>,
    axioms: &AxiomSet,
    query: &Query,
    members: &mut AxiomSet,
    individual: u32,
) -> Result<(), Halt>
    requires whole { IsWhole oracle.old.ontology axioms.now }
    requires query { query.now ≡ instance_query query.now.sup individual }
    requires individual { individual < length oracle.old.ontology.individuals }
    requires asking { IsAsking oracle.old query.now.sup individual members.old }
    requires possible { has_individual members.old individual ≡ true }
    ensures ok { OnOk result (IsAsking oracle.new query.now.sup (individual + 1) members.new) }
    ensures err { IfErr result (HasHalted oracle.new query.now.sup) }
    ensures alike { AreAlike oracle.old oracle.new }
{
    let answer = oracle.decide(axioms, query)?;
    match answer {
        Answer::Entailed(refutation) => drop(refutation),
        Answer::NotEntailed(model) => {
            keep_members(members, individual, &model, &query.sup);
            drop(model);
        }
        Answer::Undecided => return Err(Halt::Spent),
    }
    Ok(())
}

// The individuals of a set, in list order.
fn listed(alloc: Global, members: &AxiomSet) -> Result<NumberList, NoMemory>
    ensures { IfOk result (λ found. found ≡ passing (has_individual members.now) 0 members.now.limit) }
{
    let mut found = NumberList::new(alloc);
    for individual in 0..members.limit() {
        push_if(&mut found, individual, members.has(individual + 1))?;
    }
    Ok(found)
}

// Lists an individual, if it is to be.
fn push_if(found: &mut NumberList, individual: u32, passes: bool) -> Result<(), NoMemory>
    ensures { OnOk result (found.new ≡ found.old ++ (if passes then individual ∷ [] else [])) }
{
    if passes {
        found.push(individual)?;
    }
    Ok(())
}
