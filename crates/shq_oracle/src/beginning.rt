// One beginning for the tests of one set of axioms.
//
// If axioms speak of individuals, each search that ends at a model puts all facts that they state, and follows them up.
// One search does that for many tests on any element: the one whether anything is in top and not in bottom, as long as
// it leaves the node in question alone. If a job asks that first, later tests go on from there, as far as their two
// concepts ask for no nodes and do not clash. The steps that the first search made are counted in each of them, so a
// test takes of the budget what a search from nothing may take. Only the work of making these steps again is saved.
//
// A search that goes on from a beginning makes no refutation. If it closes everything, the test needs a search from
// nothing. So each test begins with a search from nothing, and leaves it when it meets an individual. It is taken up
// again only if no outcome is found from the beginning. The steps of a search that is left for good are no steps of a
// test.
ghost use Rattle.std.specs.Prelude.{◌≡◌, ◌≤◌, true, false, IfOk, IfSome};
ghost use Rattle.model_builder.specs.Limits.{IsInLimit};
ghost use Rattle.tableau.specs.RuleLists.{AreNumbersOf};
ghost use Rattle.tableau.specs.Beginning.{Serves};
ghost use Rattle.run_log.specs.HonestLog.{IsAxiomSet};
ghost use Rattle.shq_oracle.specs.Decided.{IsTested, IsTestedBy, HasNumbers, HasEnded, MeetsOther, is_lost};

use crate::NoMemory;
use crate::tested::{Tested, tested_by};
use bumpalo::Bump;
use shq_terms::Query;
use std::alloc::{Allocator, Global};
use tableau::{Beginning, End, Search, SearchRules};

/// The outcome of a search that goes on from the beginning. There is none if no beginning is kept, if it has more steps
/// than `fuel`, if the query cannot go on from it, or if the search only finds that everything is closed.
///
/// # Errors
///
/// Out of memory.
pub(crate) fn test_behind(
    alloc: Global,
    rules: &SearchRules<'_>,
    kept: &Option<Beginning>,
    query: &Query,
    numbers: (u32, u32),
    fuel: u64,
    wants_apart: bool,
) -> Result<Option<Tested>, NoMemory>
    requires numbers { AreNumbersOf rules.now query.now numbers.0 numbers.1 }
    requires set { IsAxiomSet rules.now.ontology rules.now.set }
    requires in_limit { IsInLimit rules.now.ontology query.now }
    requires meets { MeetsOther rules.now query.now }
    requires served { IfSome kept.now (Serves rules.now) }
    ensures { IfOk result
        (λ t. IfSome t (IsTested rules.now.ontology rules.now.set query.now fuel wants_apart)) }
{
    match kept {
        Some(beginning) => go_on(alloc, rules, beginning, query, numbers, fuel, wants_apart),
        None => Ok(None),
    }
}

// The outcome of a search that goes on from the beginning.
#[tactic(auto, using(crate::proofs::Honest::tested_moved, crate::proofs::Honest::ended_on, crate::proofs::Honest::has_numbers_behind))]
fn go_on(
    alloc: Global,
    rules: &SearchRules<'_>,
    beginning: &Beginning,
    query: &Query,
    numbers: (u32, u32),
    fuel: u64,
    wants_apart: bool,
) -> Result<Option<Tested>, NoMemory>
    requires numbers { AreNumbersOf rules.now query.now numbers.0 numbers.1 }
    requires set { IsAxiomSet rules.now.ontology rules.now.set }
    requires in_limit { IsInLimit rules.now.ontology query.now }
    requires meets { MeetsOther rules.now query.now }
    requires serves { Serves rules.now beginning.now }
    ensures { IfOk result
        (λ t. IfSome t (IsTested rules.now.ontology rules.now.set query.now fuel wants_apart)) }
{
    let made = beginning.steps();
    if made > fuel {
        return Ok(None);
    }
    let arena = Bump::new(alloc);
    let begun = Search::behind_in(&arena, alloc, rules, query, numbers.0, numbers.1, beginning)?;
    match begun {
        Some(mut search) => {
            let end = search.run(fuel - made)?;
            unless_lost(alloc, &search, fuel, end, wants_apart)
        }
        None => Ok(None),
    }
}

// The outcome of a search that ended so. There is none if everything was closed, since that has no evidence.
fn unless_lost<A: Allocator + Copy>(
    alloc: Global,
    search: &Search<'_, A>,
    fuel: u64,
    end: End,
    wants_apart: bool,
) -> Result<Option<Tested>, NoMemory>
    requires whole { search.now.failed ≡ false }
    requires numbers { HasNumbers search.now }
    requires set { IsAxiomSet search.now.rules.ontology search.now.rules.set }
    requires in_limit { IsInLimit search.now.rules.ontology search.now.query }
    requires behind { search.now.behind ≡ true → MeetsOther search.now.rules search.now.query }
    requires within { search.now.steps ≤ fuel }
    requires ended { is_lost end ≡ false → HasEnded fuel search.now end }
    ensures { IfOk result (λ t. IfSome t (IsTestedBy search.now fuel wants_apart)) }
{
    if is_lost(&end) {
        return Ok(None);
    }
    let tested = tested_by(alloc, search, fuel, end, wants_apart)?;
    Ok(Some(tested))
}

// Whether a search ended without evidence.
fn is_lost(end: &End) -> bool
    ensures { result ≡ is_lost end.now }
{
    matches!(end, End::Lost)
}
