// What a line leaves of its branch.
ghost use Rattle.std.specs.Prelude.{◌≡◌, [], ◌∷◌, Some, IfOk};
ghost use Rattle.calculus_specs.specs.Rules.{when};
ghost use Rattle.refutation_rules.specs.declared.outcome.Outcome.TheVariants.{Closed};
ghost use Rattle.refutation_rules.specs.Outcomes.{AddsIfSome, AddsFactIfSome, BranchesInto};

use crate::NoMemory;
use calculus_specs::Fact;
use std::alloc::Global;

/// The first nodes of a branch, from 0 on, of which one is in question and in two concepts.
#[derive(Clone, Copy, Debug, PartialEq, Eq)]
pub struct FirstNodes {
    /// How many there are.
    pub count: u32,
    /// The node in question.
    pub asked: u32,
    /// The query's subclass, by number.
    pub sub: u32,
    /// The complement of its superclass, by number.
    pub not_sup: u32,
}

/// New nodes below a node, each the end of an edge and in a concept, and pairwise apart.
#[derive(Clone, Copy, Debug, PartialEq, Eq)]
pub struct NewNodes {
    /// The node where the edges begin.
    pub from: u32,
    /// The role of the edges.
    pub role: u32,
    /// What each new node is in, by number.
    pub concept: u32,
    /// The first new node; the others follow it.
    pub first: u32,
    /// How many new nodes there are.
    pub count: u32,
}

/// What a rule line leaves of the branch to which it belongs. Concepts are numbers of a table.
#[derive(Drop)]
pub enum Outcome {
    /// Nothing: the branch is closed.
    Closed,
    /// The first nodes alone.
    Started(FirstNodes),
    /// The branch with these facts more.
    More(Vec<Fact<u32>>),
    /// The branch with these nodes and their facts more.
    Nodes(NewNodes),
    /// A branch for each of these facts, with this fact more.
    Branches(Vec<Fact<u32>>),
}

impl Outcome {
    // The branch is closed where this holds.
    pub(crate) fn closed_if(holds: bool) -> Option<Outcome>
        ensures { result ≡ when holds (Some Closed) }
    {
        if holds {
            return Some(Outcome::Closed);
        }
        None
    }
}

// The branch with one node in a concept more, where there is one.
pub(crate) fn one_more(
    alloc: Global,
    node: u32,
    concept: Option<u32>,
) -> Result<Option<Outcome>, NoMemory>
    ensures { IfOk result (λ o. AddsIfSome node concept o) }
{
    match concept {
        None => Ok(None),
        Some(concept) => {
            let mut facts = Vec::new(alloc);
            facts.push(Fact::Has(node, concept))?;
            Ok(Some(Outcome::More(facts)))
        }
    }
}

// The branch with a fact more, where there is one.
pub(crate) fn one_fact(alloc: Global, fact: Option<Fact<u32>>) -> Result<Option<Outcome>, NoMemory>
    ensures { IfOk result (λ o. AddsFactIfSome fact o) }
{
    match fact {
        None => Ok(None),
        Some(fact) => {
            let mut facts = Vec::new(alloc);
            facts.push(fact)?;
            Ok(Some(Outcome::More(facts)))
        }
    }
}

// The branches that have each of these facts.
pub(crate) fn either(
    alloc: Global,
    first: Fact<u32>,
    second: Fact<u32>,
) -> Result<Option<Outcome>, NoMemory>
    ensures { IfOk result (λ o. BranchesInto (first ∷ second ∷ []) o) }
{
    let mut facts = Vec::new(alloc);
    facts.push(first)?;
    facts.push(second)?;
    Ok(Some(Outcome::Branches(facts)))
}
