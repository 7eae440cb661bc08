// One search, and its answer with evidence.
ghost use Rattle.std.specs.Prelude.{◌≡◌, ◌≤◌, ℕ, false, IfOk};
ghost use Rattle.model_builder.specs.Limits.{IsInLimit};
ghost use Rattle.model_builder.specs.Trail.{items_of};
ghost use Rattle.tableau.specs.SearchState.{trail_of};
ghost use Rattle.tableau.specs.Steps.{IsAtModel, IsAtRefutation};
ghost use Rattle.run_log.specs.HonestLog.{IsAxiomSet};
ghost use Rattle.shq_oracle.specs.Decided.{IsFound, IsFoundBy, MayGoOn, HasEnded};

use crate::kept::KeptRules;
use crate::{Answer, KeptSet, KeptTrail, NoMemory, TestEnd};
use bumpalo::Bump;
use model_builder::{Tree, build};
use shq_terms::Query;
use std::alloc::{Allocator, Global};
use tableau::{End, Refutation, Search};
use tableau_specs::Item;

/// What a search answers, how many steps it made, and how its test ended.
#[derive(Drop)]
pub(crate) struct Found {
    pub(crate) answer: Answer,
    pub(crate) steps: u64,
    pub(crate) ended: TestEnd,
}

/// Searches with these rules whether the query follows, by at most `fuel` steps. The tree of the search is in an arena
/// of its own, whose memory is given back at the end.
///
/// # Errors
///
/// Out of memory.
#[tactic(auto, using(crate::proofs::Honest::moved, crate::proofs::Honest::has_ended))]
pub(crate) fn search(
    alloc: Global,
    kept: &mut KeptRules<'_>,
    query: &Query,
    fuel: u64,
) -> Result<Found, NoMemory>
    requires set { IsAxiomSet kept.old.ontology kept.old.set }
    requires in_limit { IsInLimit kept.old.ontology query.now }
    ensures found { IfOk result (IsFound kept.old.ontology kept.old.set query.now fuel) }
    ensures same { kept.new.ontology ≡ kept.old.ontology }
{
    let (sub, not_sup) = kept.numbers_of(alloc, query)?;
    let arena = Bump::new(alloc);
    let mut search = Search::new_in(&arena, alloc, kept.rules(), query, sub, not_sup)?;
    let end = search.run(fuel)?;
    found_by(alloc, &search, query, fuel, end)
}

// What is found by a search that ended so, with this fuel.
fn found_by<A: Allocator + Copy>(
    alloc: Global,
    search: &Search<'_, A>,
    query: &Query,
    fuel: u64,
    end: End,
) -> Result<Found, NoMemory>
    requires whole { search.now.failed ≡ false }
    requires asked { search.now.query ≡ query.now }
    requires set { IsAxiomSet search.now.rules.ontology search.now.rules.set }
    requires in_limit { IsInLimit search.now.rules.ontology search.now.query }
    requires within { search.now.steps ≤ fuel }
    requires ended { HasEnded fuel search.now end }
    ensures { IfOk result (IsFoundBy search.now fuel) }
{
    let steps = search.steps();
    prove!(steps <= fuel);
    match end {
        End::Saturated => with_model(alloc, search, query),
        End::Closed(refutation) => with_refutation(alloc, search, refutation),
        End::Lost => unreachable!(),
        End::Spent => with_trail(alloc, search),
    }
}

// What is found by a search that ended at a model.
fn with_model<A: Allocator + Copy>(
    alloc: Global,
    search: &Search<'_, A>,
    query: &Query,
) -> Result<Found, NoMemory>
    requires whole { search.now.failed ≡ false }
    requires asked { search.now.query ≡ query.now }
    requires in_limit { IsInLimit search.now.rules.ontology search.now.query }
    requires ended { IsAtModel search.now }
    ensures { IfOk result (λ f. (fuel : ℕ) → search.now.steps ≤ fuel → IsFoundBy search.now fuel f) }
{
    let steps = search.steps();
    let model = build(
        alloc,
        search.tree(),
        search.found_blocks(),
        search.rules(),
        query,
    )?;
    Ok(Found {
        answer: Answer::NotEntailed(model),
        steps,
        ended: TestEnd::No,
    })
}

// What is found by a search that ended at a refutation.
fn with_refutation<A: Allocator + Copy>(
    alloc: Global,
    search: &Search<'_, A>,
    refutation: Refutation,
) -> Result<Found, NoMemory>
    requires whole { search.now.failed ≡ false }
    requires set { IsAxiomSet search.now.rules.ontology search.now.rules.set }
    requires ended { IsAtRefutation refutation search.now }
    ensures { IfOk result (λ f. (fuel : ℕ) → search.now.steps ≤ fuel → IsFoundBy search.now fuel f) }
{
    let steps = search.steps();
    let used = kept_axioms(alloc, &refutation)?;
    Ok(Found {
        answer: Answer::Entailed(refutation),
        steps,
        ended: TestEnd::Yes(used),
    })
}

// What is found by a search that has spent its fuel.
fn with_trail<A: Allocator + Copy>(alloc: Global, search: &Search<'_, A>) -> Result<Found, NoMemory>
    requires whole { search.now.failed ≡ false }
    requires goes_on { MayGoOn search.now }
    ensures { IfOk result (λ f. (fuel : ℕ) → search.now.steps ≡ fuel → IsFoundBy search.now fuel f) }
{
    let steps = search.steps();
    let trail = kept_trail(alloc, search)?;
    Ok(Found {
        answer: Answer::Undecided,
        steps,
        ended: TestEnd::Spent(trail),
    })
}

/// A copy of the axioms that a refutation uses, for the log.
///
/// # Errors
///
/// Out of memory.
pub(crate) fn kept_axioms(alloc: Global, refutation: &Refutation) -> Result<KeptSet, NoMemory>
    ensures { IfOk result (λ used. used ≡ refutation.now.axioms) }
{
    let used = refutation.axioms_used().try_clone()?;
    KeptSet::new(alloc, used)
}

/// A copy of the trail of a search, for the log.
///
/// # Errors
///
/// Out of memory.
pub(crate) fn kept_trail<A: Allocator + Copy>(
    alloc: Global,
    search: &Search<'_, A>,
) -> Result<KeptTrail, NoMemory>
    ensures { IfOk result (λ t. t ≡ record { items = trail_of search.now; table = search.now.rules.table }) }
{
    let items = items(alloc, search.tree())?;
    KeptTrail::new(alloc, items, search.rules().concepts())
}

// The facts and marks of a tree's trail.
#[tactic(auto, using(crate::proofs::Honest::taken_one))]
fn items<A: Allocator + Copy>(alloc: Global, tree: &Tree<A>) -> Result<Vec<Item>, NoMemory>
    ensures { IfOk result (λ items. items.items ≡ items_of tree.now.entries) }
{
    let mut items = Vec::new(alloc);
    for place in 0..tree.len() {
        items.push(tree.item(place))?;
    }
    Ok(items)
}
