// The next step, of any kind.
ghost use Rattle.std.specs.Prelude.{◌≡◌, MatchOption, IfOk};
ghost use Rattle.step_finders.specs.Stepping.{IsStep, NoStep, NoStepIsSaturated};
ghost use Rattle.step_finders.specs.Found.{NothingToAdd};
ghost use Rattle.step_finders.specs.Making.{NothingToMake};
ghost use Rattle.step_finders.specs.Choosing.{NothingToChoose};

use crate::add::find_add;
use crate::choose::find_choice;
use crate::give::find_giving;
use crate::make::{NewNodes, find_making};
use crate::{Addition, Choosing, Given, NoMemory, Rules, StateWithBlocks, StateWithRules};
use std::alloc::Global;

/// A step that is legal where there is no plain clash.
#[derive(Clone, Copy, Debug, PartialEq, Eq)]
pub enum Step {
    /// A given fact is put.
    Give(Given),
    /// A node gets a concept by a rule without branches.
    Add(Addition),
    /// Nodes are made.
    Generate(NewNodes),
    /// There is something to choose.
    Choose(Choosing),
}

/// The next step, given facts before all others; none exactly where there is none.
///
/// # Errors
///
/// Out of memory.
pub fn find_step<S: StateWithBlocks, R: Rules>(
    alloc: Global,
    search: &StateWithRules<'_, S, R>,
) -> Result<Option<Step>, NoMemory>
    ensures { let w = R.context search.now.rules.now in let fs = S.facts search.now.state.now in
        IfOk result (λ found. MatchOption found (NoStep w fs) (IsStep w fs (R.files search.now.rules.now))) }
{
    match find_giving(search) {
        Some(given) => Ok(Some(Step::Give(given))),
        None => find_ungiven(alloc, search),
    }
}

// A step that puts no given fact: concepts first.
fn find_ungiven<S: StateWithBlocks, R: Rules>(
    alloc: Global,
    search: &StateWithRules<'_, S, R>,
) -> Result<Option<Step>, NoMemory>
    ensures { let w = R.context search.now.rules.now in let fs = S.facts search.now.state.now in
        IfOk result
        (λ found. MatchOption found (NothingToAdd w fs × (NothingToMake w fs × NothingToChoose w fs))
        (IsStep w fs (R.files search.now.rules.now))) }
{
    match find_add(search) {
        Some(addition) => Ok(Some(Step::Add(addition))),
        None => find_branching(alloc, search),
    }
}

// A step that makes nodes or branches: nodes first, and unions last.
fn find_branching<S: StateWithBlocks, R: Rules>(
    alloc: Global,
    search: &StateWithRules<'_, S, R>,
) -> Result<Option<Step>, NoMemory>
    ensures { let w = R.context search.now.rules.now in let fs = S.facts search.now.state.now in
        IfOk result
        (λ found. MatchOption found (NothingToMake w fs × NothingToChoose w fs)
        (IsStep w fs (R.files search.now.rules.now))) }
{
    match find_making(alloc, search)? {
        Some(new) => Ok(Some(Step::Generate(new))),
        None => match find_choice(alloc, search)? {
            Some(choosing) => Ok(Some(Step::Choose(choosing))),
            None => Ok(None),
        },
    }
}

/// Without a plain clash, a trail whose facts leave no step is saturated.
pub fn no_step_is_saturated()
    ensures { NoStepIsSaturated }
{}
