// Questions on individuals, and what counter-models show.
ghost use Rattle.std.specs.Prelude.{◌≡◌, ℕ, ◌<◌, ◌≤◌, ◌&&◌, ◌||◌, nat_lt, false, length, IfOk, OnOk, OnErr};
ghost use Rattle.std.specs.List.{list_any};
ghost use Rattle.shq_terms.specs.Concept.{name};
ghost use Rattle.shq_meaning.specs.Truth.{holds};
ghost use Rattle.finite_model.specs.ModelLists.{meaning};
ghost use Rattle.subsumption.specs.Limits.{IsInLimit};
ghost use Rattle.subsumption.specs.Entries.{spent_of, is_spent, IsAnswered};
ghost use Rattle.subsumption.specs.Decided.{IsAnswer, AppendsTest, LeavesNothing};
ghost use Rattle.subsumption.specs.ClassSets.{has_class, HoldsClasses};
ghost use Rattle.realizer.specs.Instances.{instance_query};
ghost use Rattle.realizer.specs.Candidates.{has_individual, stays_possible};

use axiom_sets::AxiomSet;
use finite_model::Interp;
use shq_terms::{Concept, NoMemory, Node, On, Query};
use std::alloc::Global;
use subsumption::{Answer, Oracle, put_if};

/// Asks whether an individual is in a class, by the axioms of a set. A no comes with a counter-model.
///
/// # Errors
///
/// Out of memory. The log is as before then.
pub(crate) fn ask_class(
    oracle: &mut Oracle<'_>,
    axioms: &AxiomSet,
    individual: u32,
    class: u32,
) -> Result<Answer, NoMemory>
    requires limit { axioms.now.limit ≡ length oracle.old.ontology.axioms }
    requires in_limit { IsInLimit oracle.old.ontology (instance_query (name class) individual) }
    requires goes_on { list_any is_spent oracle.old.log ≡ false }
    requires is_new { IsAnswered oracle.old.log axioms.now (instance_query (name class) individual) → ⊥ }
    ensures answer { IfOk result (IsAnswer oracle.old.ontology axioms.now (instance_query (name class) individual)) }
    ensures entry { IfOk result
        (AppendsTest oracle.old.ontology axioms.now (instance_query (name class) individual) oracle.old.log
        oracle.new.log) }
    ensures spent { IfOk result (LeavesNothing oracle.new) }
    ensures within { spent_of oracle.new.log ≤ oracle.new.budget }
    ensures same_ontology { oracle.new.ontology ≡ oracle.old.ontology }
    ensures same_budget { oracle.new.budget ≡ oracle.old.budget }
    ensures unchanged { OnErr result (oracle.new.log ≡ oracle.old.log) }
{
    let query = Query {
        sub: Concept { node: Node::Top },
        sup: Concept {
            node: Node::Name(class),
        },
        on: On::Individual(individual),
    };
    let answer = oracle.decide(axioms, &query);
    drop(query);
    answer
}

/// Those of a set of classes that have the element in an interpretation. The classes are below a count.
///
/// # Errors
///
/// Out of memory.
pub(crate) fn classes_at(
    alloc: Global,
    classes: &AxiomSet,
    count: u32,
    model: &Interp,
    element: u32,
) -> Result<AxiomSet, NoMemory>
    requires classes { HoldsClasses count (has_class classes.now) classes.now }
    requires element { element < model.now.size }
    ensures { IfOk result
        (HoldsClasses count (λ x. has_class classes.now x && holds (meaning model.now) (name x) element)) }
{
    let limit = classes.limit();
    let mut held = AxiomSet::empty(alloc, limit)?;
    for class in 0..count {
        let passes = classes.has(class + 1) && is_in(model, class, element);
        put_if(&mut held, class, passes);
    }
    Ok(held)
}

// Whether the element is in the class.
fn is_in(model: &Interp, class: u32, element: u32) -> bool
    requires { element < model.now.size }
    ensures { result ≡ holds (meaning model.now) (name class) element }
{
    let concept = Concept {
        node: Node::Name(class),
    };
    let held = model.holds(&concept, element);
    drop(concept);
    held
}

/// Takes out of a set of individuals, from one of them on, each that is not in the class expression in an
/// interpretation. The individual a has the number a + 1.
pub(crate) fn keep_members(individuals: &mut AxiomSet, from: u32, model: &Interp, class: &Concept)
    ensures limit { individuals.new.limit ≡ individuals.old.limit }
    ensures members { (a : ℕ) → a < individuals.old.limit
        → has_individual individuals.new a ≡
        (has_individual individuals.old a && stays_possible (meaning model.now) class.now from a) }
{
    let limit = individuals.limit();
    for individual in from..limit {
        let element = model.individual(individual);
        if !model.holds(class, element) {
            individuals.take(individual + 1);
        }
    }
}
