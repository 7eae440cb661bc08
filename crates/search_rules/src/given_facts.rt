// The facts that axioms give to searches, over numbers of concepts.
ghost use Rattle.std.specs.Prelude.{◌≡◌, ℕ, ◌<◌, ◌≤◌, ◌++◌, All, IsTrue, IfOk, OnOk, length};
ghost use Rattle.ontology_limits.specs.Numbers.{Extends};
ghost use Rattle.ontology_limits.specs.Limits.{IsOntologyInLimit};
ghost use Rattle.assertion_box.specs.Stated.{stated_facts, stated_at};
ghost use Rattle.assertion_box.specs.Entries.{axiom_of, fact_of};
ghost use Rattle.search_rules.specs.Lists.{list_at};
ghost use Rattle.search_rules.specs.GivenFacts.{fact_has_counts, IsFactNumber, IsNumbered, AreNumbered, edge_into};
ghost use Rattle.search_rules.specs.GivenFacts.{edges_into};

use crate::NoMemory;
use crate::item_list::{ItemList, list_at, push_grown};
use assertion_box::{Facts, Given as Assertion};
use calculus_specs::Fact;
use ontology_limits::Concepts;
use shq_terms::Ontology;
use std::alloc::Global;
use std::marker::Model;
use step_finders::Given;

// The given facts, and by the node where they end those that are edges, each as its role and its begin.
#[derive(Drop)]
pub(crate) struct GivenFacts {
    facts: Vec<Given>,
    into: Vec<ItemList<(u32, u32)>>,
}

impl Model for GivenFacts {
    ghost use Rattle.std.specs.Prelude.{List, ℕ, ◌≡◌};
    ghost use Rattle.step_finders.specs.declared.state.Given.{Given as PlainGiven};
    ghost use Rattle.search_rules.specs.Lists.{list_at};
    ghost use Rattle.search_rules.specs.GivenFacts.{edges_into};

    ghost Value = { List PlainGiven };

    ghost view = { λ g. g.facts.items };

    ghost invariant = { λ g. (x : ℕ) → list_at g.into.items x ≡ edges_into x g.facts.items };
}

impl GivenFacts {
    // Those of the assertions among the axioms of these numbers. Their concepts are numbers of the table, which gains
    // what it lacks.
    pub(crate) fn build(
        alloc: Global,
        ontology: &Ontology,
        only: &[u32],
        concepts: &mut Concepts,
    ) -> Result<GivenFacts, NoMemory>
        requires numbers { All (λ k. (1 ≤ k) × (k ≤ length ontology.now.axioms)) only.now }
        requires in_limit { IsOntologyInLimit ontology.now }
        ensures given { IfOk result (AreNumbered concepts.new (stated_facts ontology.now.axioms only.now)) }
        ensures kept { Extends concepts.old concepts.new }
    {
        let stated = Facts::build(alloc, ontology, only)?;
        let facts = numbered(alloc, &stated, concepts)?;
        let into = edge_lists(alloc, &facts)?;
        Ok(GivenFacts { facts, into })
    }

    pub(crate) fn facts(&self) -> &[Given]
        ensures { result.now ≡ self.now }
    {
        &self.facts
    }

    // The role and the begin of each edge that ends at the node.
    pub(crate) fn edges_into(&self, node: u32) -> &[(u32, u32)]
        ensures { result.now ≡ edges_into node self.now }
    {
        list_at(&self.into, node)
    }
}

// The stated facts, in their order.
fn numbered(alloc: Global, stated: &Facts, concepts: &mut Concepts) -> Result<Vec<Given>, NoMemory>
    requires counts { All (λ s. IsTrue (fact_has_counts s.fact)) stated.now }
    ensures given { IfOk result (λ given. AreNumbered concepts.new stated.now given.items) }
    ensures kept { Extends concepts.old concepts.new }
{
    let mut given = Vec::new(alloc);
    for place in 0..stated.len() {
        let number = number_stated(stated, place, concepts)?;
        given.push(number)?;
    }
    Ok(given)
}

fn number_stated(stated: &Facts, place: u32, concepts: &mut Concepts) -> Result<Given, NoMemory>
    requires listed { place < length stated.now }
    requires counts { IsTrue (fact_has_counts (stated_at stated.now place).fact) }
    ensures given { IfOk result (IsNumbered concepts.new (stated_at stated.now place)) }
    ensures kept { Extends concepts.old concepts.new }
{
    let assertion = stated.get(place);
    let axiom = axiom_number(&assertion);
    let fact = number_fact(&assertion, concepts)?;
    Ok(Given {
        axiom,
        place: stated.place_in_axiom(place),
        fact,
    })
}

fn axiom_number(assertion: &Assertion<'_>) -> u32
    ensures { result ≡ axiom_of assertion.now }
{
    match assertion {
        Assertion::Member(axiom, _, _)
        | Assertion::Pair(axiom, _, _, _)
        | Assertion::Same(axiom, _, _)
        | Assertion::Differ(axiom, _, _) => *axiom,
    }
}

fn number_fact(assertion: &Assertion<'_>, concepts: &mut Concepts) -> Result<Fact<u32>, NoMemory>
    requires { IsTrue (fact_has_counts (fact_of assertion.now)) }
    ensures fact { IfOk result (λ f. IsFactNumber concepts.new f (fact_of assertion.now)) }
    ensures kept { Extends concepts.old concepts.new }
{
    match assertion {
        Assertion::Member(_, class, individual) => {
            let number = concepts.intern(class)?;
            Ok(Fact::Has(*individual, number))
        }
        Assertion::Pair(_, role, from, to) => Ok(Fact::Edge(*role, *from, *to)),
        Assertion::Same(_, first, second) => Ok(Fact::Same(*first, *second)),
        Assertion::Differ(_, first, second) => Ok(Fact::Apart(*first, *second)),
    }
}

// By the node, the edges that end there.
fn edge_lists(alloc: Global, given: &[Given]) -> Result<Vec<ItemList<(u32, u32)>>, NoMemory>
    ensures { IfOk result (λ lists. (x : ℕ) → list_at lists.items x ≡ edges_into x given.now) }
{
    let mut lists = Vec::new(alloc);
    for one in given {
        push_edge(alloc, &mut lists, &one.fact)?;
    }
    Ok(lists)
}

fn push_edge(
    alloc: Global,
    lists: &mut Vec<ItemList<(u32, u32)>>,
    fact: &Fact<u32>,
) -> Result<(), NoMemory>
    ensures { OnOk result ((x : ℕ) → list_at lists.new.items x ≡ list_at lists.old.items x ++ edge_into x fact.now) }
{
    match *fact {
        Fact::Edge(role, begin, end) => push_grown(alloc, lists, end, (role, begin)),
        Fact::Has(_, _) | Fact::Apart(_, _) | Fact::Same(_, _) => Ok(()),
    }
}
