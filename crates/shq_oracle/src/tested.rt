// One test: a search, or several of which one answers, and its outcome without evidence.
ghost use Rattle.std.specs.Prelude.{◌≡◌, ◌≤◌, ℕ, Bool, true, false, IfOk, IfSome};
ghost use Rattle.model_builder.specs.Limits.{IsInLimit};
ghost use Rattle.tableau.specs.RuleLists.{AreNumbersOf};
ghost use Rattle.tableau.specs.Beginning.{Serves};
ghost use Rattle.tableau.specs.SearchState.{HasBegun, IsSameSearch};
ghost use Rattle.tableau.specs.Steps.{IsAtModel, IsAtRefutation, AreLeftOut, ShowsApart};
ghost use Rattle.run_log.specs.HonestLog.{IsAxiomSet};
ghost use Rattle.shq_oracle.specs.Decided.{IsTested, IsTestedBy, HasNumbers, MayGoOn, MayRunOn, HasEnded, MeetsOther};

use crate::beginning::test_behind;
use crate::found::{kept_axioms, kept_trail};
use crate::{NoMemory, Outcome, TestEnd};
use axiom_sets::AxiomSet;
use bumpalo::Bump;
use shq_terms::{On, Query};
use std::alloc::{Allocator, Global};
use tableau::{Beginning, End, Refutation, Search, SearchRules};

/// The outcome of a search, what it shows of further classes if that was asked for, how many steps it made, and how its
/// test ended.
#[derive(Drop)]
pub(crate) struct Tested {
    pub(crate) outcome: Outcome,
    pub(crate) apart: Option<AxiomSet>,
    pub(crate) steps: u64,
    pub(crate) ended: TestEnd,
}

/// Searches by these rules whether the query follows, and makes no model. The search that answers has at most `fuel`
/// steps; those of a search that is given up for a beginning are not counted. If `wants_apart`, what the search shows
/// of further classes is kept. `numbers` are those of the query's two concepts ([`SearchRules::numbers_of`]). The tree
/// of a search is in an arena of its own, whose memory is given back at the end.
///
/// # Errors
///
/// Out of memory.
pub(crate) fn test(
    alloc: Global,
    rules: &SearchRules<'_>,
    beginning: &mut Option<Beginning>,
    query: &Query,
    numbers: (u32, u32),
    fuel: u64,
    wants_apart: bool,
) -> Result<Tested, NoMemory>
    requires numbers { AreNumbersOf rules.now query.now numbers.0 numbers.1 }
    requires set { IsAxiomSet rules.now.ontology rules.now.set }
    requires in_limit { IsInLimit rules.now.ontology query.now }
    requires served { IfSome beginning.old (Serves rules.now) }
    ensures tested { IfOk result (IsTested rules.now.ontology rules.now.set query.now fuel wants_apart) }
    ensures served { IfSome beginning.new (Serves rules.now) }
{
    let arena = Bump::new(alloc);
    let mut search = Search::new_in(&arena, alloc, rules, query, numbers.0, numbers.1)?;
    match query.on {
        On::Individual(_) => run_on(alloc, &mut search, fuel, wants_apart),
        On::Any if numbers.0 == 0 && numbers.1 == 0 => {
            begin(alloc, &mut search, beginning, fuel, wants_apart)
        }
        On::Any => alone_first(
            alloc,
            &mut search,
            rules,
            beginning,
            query,
            numbers,
            fuel,
            wants_apart,
        ),
    }
}

// The outcome of a search on any element that is about to begin. If it meets an individual before it ends, a search
// that goes on from the kept beginning is tried in its place; if that finds no outcome, the first search goes on.
fn alone_first<A: Allocator + Copy>(
    alloc: Global,
    search: &mut Search<'_, A>,
    rules: &SearchRules<'_>,
    beginning: &Option<Beginning>,
    query: &Query,
    numbers: (u32, u32),
    fuel: u64,
    wants_apart: bool,
) -> Result<Tested, NoMemory>
    requires begun { HasBegun rules.now query.now numbers.0 numbers.1 search.old }
    requires numbers { AreNumbersOf rules.now query.now numbers.0 numbers.1 }
    requires set { IsAxiomSet rules.now.ontology rules.now.set }
    requires in_limit { IsInLimit rules.now.ontology query.now }
    requires served { IfSome beginning.now (Serves rules.now) }
    ensures { IfOk result (IsTested rules.now.ontology rules.now.set query.now fuel wants_apart) }
{
    if let Some(tested) = tested_alone(alloc, search, fuel, wants_apart)? {
        return Ok(tested);
    }
    match test_behind(alloc, rules, beginning, query, numbers, fuel, wants_apart)? {
        Some(tested) => Ok(tested),
        None => run_on(alloc, search, fuel, wants_apart),
    }
}

// The outcome of a search that is about to begin, if it ends before it meets another first node than the one in
// question.
fn tested_alone<A: Allocator + Copy>(
    alloc: Global,
    search: &mut Search<'_, A>,
    fuel: u64,
    wants_apart: bool,
) -> Result<Option<Tested>, NoMemory>
    requires begun { search.old.steps ≡ 0 }
    requires whole { search.old.failed ≡ false }
    requires goes_on { search.old.ended ≡ false }
    requires from_nothing { search.old.behind ≡ false }
    requires numbers { HasNumbers search.old }
    requires set { IsAxiomSet search.old.rules.ontology search.old.rules.set }
    requires in_limit { IsInLimit search.old.rules.ontology search.old.query }
    ensures same { IsSameSearch search.old search.new }
    ensures tested { IfOk result (λ t. IfSome t (IsTestedBy search.old fuel wants_apart)) }
    ensures going_on { IfOk result (MayRunOn fuel search.new) }
{
    match search.run_alone(fuel)? {
        Some(end) => {
            let tested = tested_by(alloc, search, fuel, end, wants_apart)?;
            Ok(Some(tested))
        }
        None => {
            // Called for what it promises: the steps lead to the trail.
            search.steps();
            Ok(None)
        }
    }
}

// The outcome of a search that is about to begin, and asks whether anything is in top and not in bottom. What it did
// before it looked at the node in question is kept as a beginning for others.
fn begin<A: Allocator + Copy>(
    alloc: Global,
    search: &mut Search<'_, A>,
    beginning: &mut Option<Beginning>,
    fuel: u64,
    wants_apart: bool,
) -> Result<Tested, NoMemory>
    requires begun { search.old.steps ≡ 0 }
    requires whole { search.old.failed ≡ false }
    requires goes_on { search.old.ended ≡ false }
    requires from_nothing { search.old.behind ≡ false }
    requires numbers { HasNumbers search.old }
    requires set { IsAxiomSet search.old.rules.ontology search.old.rules.set }
    requires in_limit { IsInLimit search.old.rules.ontology search.old.query }
    requires served { IfSome beginning.old (Serves search.old.rules) }
    ensures tested { IfOk result (IsTestedBy search.old fuel wants_apart) }
    ensures served { IfSome beginning.new (Serves search.old.rules) }
{
    match search.run_elsewhere(fuel)? {
        Some(end) => tested_by(alloc, search, fuel, end, wants_apart),
        None => {
            *beginning = search.beginning()?;
            run_on(alloc, search, fuel, wants_apart)
        }
    }
}

// The outcome of a search that goes on from where it stands.
fn run_on<A: Allocator + Copy>(
    alloc: Global,
    search: &mut Search<'_, A>,
    fuel: u64,
    wants_apart: bool,
) -> Result<Tested, NoMemory>
    requires whole { search.old.failed ≡ false }
    requires goes_on { search.old.ended ≡ false }
    requires from_nothing { search.old.behind ≡ false }
    requires numbers { HasNumbers search.old }
    requires set { IsAxiomSet search.old.rules.ontology search.old.rules.set }
    requires in_limit { IsInLimit search.old.rules.ontology search.old.query }
    requires within { search.old.steps ≤ fuel }
    ensures { IfOk result (IsTestedBy search.old fuel wants_apart) }
{
    let left = fuel - search.steps();
    let end = search.run(left)?;
    tested_by(alloc, search, fuel, end, wants_apart)
}

/// The outcome of a search that had this fuel and ended so, with evidence.
///
/// # Errors
///
/// Out of memory.
pub(crate) fn tested_by<A: Allocator + Copy>(
    alloc: Global,
    search: &Search<'_, A>,
    fuel: u64,
    end: End,
    wants_apart: bool,
) -> Result<Tested, NoMemory>
    requires whole { search.now.failed ≡ false }
    requires numbers { HasNumbers search.now }
    requires set { IsAxiomSet search.now.rules.ontology search.now.rules.set }
    requires in_limit { IsInLimit search.now.rules.ontology search.now.query }
    requires behind { search.now.behind ≡ true → MeetsOther search.now.rules search.now.query }
    requires within { search.now.steps ≤ fuel }
    requires ended { HasEnded fuel search.now end }
    ensures { IfOk result (IsTestedBy search.now fuel wants_apart) }
{
    match end {
        End::Saturated => with_no(search, wants_apart),
        End::Closed(refutation) => with_yes(alloc, search, refutation),
        End::Lost => unreachable!(),
        End::Spent => with_trail(alloc, search),
    }
}

// The outcome of a search that ended at a model.
fn with_no<A: Allocator + Copy>(
    search: &Search<'_, A>,
    wants_apart: bool,
) -> Result<Tested, NoMemory>
    requires whole { search.now.failed ≡ false }
    requires numbers { HasNumbers search.now }
    requires in_limit { IsInLimit search.now.rules.ontology search.now.query }
    requires behind { search.now.behind ≡ true → MeetsOther search.now.rules search.now.query }
    requires ended { IsAtModel search.now }
    ensures { IfOk result (λ t. (fuel : ℕ) → search.now.steps ≤ fuel → IsTestedBy search.now fuel wants_apart t) }
{
    let steps = search.steps();
    let apart = classes_apart(search, wants_apart)?;
    Ok(Tested {
        outcome: Outcome::No,
        apart,
        steps,
        ended: TestEnd::No,
    })
}

// The classes that the search has left out, if they are wanted and it shows any.
#[tactic(auto, using(crate::proofs::Honest::if_shown))]
fn classes_apart<A: Allocator + Copy>(
    search: &Search<'_, A>,
    wanted: bool,
) -> Result<Option<AxiomSet>, NoMemory>
    requires whole { search.now.failed ≡ false }
    requires ended { IsAtModel search.now }
    ensures left_out { IfOk result (λ found. IfSome found (AreLeftOut search.now)) }
    ensures shown { wanted ≡ true → IfOk result (ShowsApart search.now) }
{
    if wanted {
        search.classes_apart()
    } else {
        Ok(None)
    }
}

// The outcome of a search that ended at a refutation.
fn with_yes<A: Allocator + Copy>(
    alloc: Global,
    search: &Search<'_, A>,
    refutation: Refutation,
) -> Result<Tested, NoMemory>
    requires whole { search.now.failed ≡ false }
    requires set { IsAxiomSet search.now.rules.ontology search.now.rules.set }
    requires ended { IsAtRefutation refutation search.now }
    ensures { (wanted : Bool) → IfOk result
        (λ t. (fuel : ℕ) → search.now.steps ≤ fuel → IsTestedBy search.now fuel wanted t) }
{
    let steps = search.steps();
    let used = refutation.axioms_used().try_clone()?;
    let logged = kept_axioms(alloc, &refutation)?;
    Ok(Tested {
        outcome: Outcome::Yes(used),
        apart: None,
        steps,
        ended: TestEnd::Yes(logged),
    })
}

// The outcome of a search that has spent its fuel.
fn with_trail<A: Allocator + Copy>(
    alloc: Global,
    search: &Search<'_, A>,
) -> Result<Tested, NoMemory>
    requires whole { search.now.failed ≡ false }
    requires goes_on { MayGoOn search.now }
    ensures { (wanted : Bool) → IfOk result
        (λ t. (fuel : ℕ) → search.now.steps ≡ fuel → IsTestedBy search.now fuel wanted t) }
{
    let steps = search.steps();
    let trail = kept_trail(alloc, search)?;
    Ok(Tested {
        outcome: Outcome::Undecided,
        apart: None,
        steps,
        ended: TestEnd::Spent(trail),
    })
}
