// Lines in order.
ghost use Rattle.std.specs.Prelude.{◌≡◌, ◌≤◌, false, [], ◌∷◌, IfOk, OnOk, is_some, length, map};
ghost use Rattle.refutation_rules.specs.RuleLine.{line_of};
ghost use Rattle.refutation_rules.specs.RefutationContext.{IsSameButTable};
ghost use Rattle.refutation_check.specs.Open.{branches, AreNumberedBranches};
ghost use Rattle.refutation_check.specs.Steps.{IsStep, IsPutIf, IsReadAs, IsReadyIf, IsEnd};

use crate::NoMemory;
use crate::checking::Verdict;
use crate::open_branches::OpenBranches;
use refutation_rules::{Line, Outcome, Rules};
use std::alloc::Global;

/// The verdict on the lines of a refutation, as far as they alone decide it.
///
/// # Errors
///
/// Out of memory.
pub(crate) fn read(
    alloc: Global,
    rules: &mut Rules<'_>,
    lines: &[Line],
) -> Result<Verdict, NoMemory>
    requires { length lines.now ≤ 4294967293 }
    ensures { IfOk result (IsReadAs rules.old (map line_of lines.now)) }
{
    let mut stack = OpenBranches::new(alloc);
    read_on(rules, &mut stack, lines)
}

// The same from one branch that knows nothing.
fn read_on(
    rules: &mut Rules<'_>,
    stack: &mut OpenBranches,
    lines: &[Line],
) -> Result<Verdict, NoMemory>
    requires lines { length lines.now ≤ 4294967293 }
    requires stack { branches stack.old ≡ (record { nodes = []; facts = [] }) ∷ [] }
    ensures { IfOk result (IsReadAs rules.old (map line_of lines.now)) }
{
    for place in 0..lines.len() {
        if !step(rules, stack, &lines[place])? {
            return Ok(Verdict::Rejected(place as u32 + 1));
        }
    }
    Ok(at_end(stack, lines.len() as u32))
}

// The verdict after so many lines, all of which could be read.
fn at_end(stack: &OpenBranches, count: u32) -> Verdict
    requires { count ≤ 4294967293 }
    ensures { IsEnd stack.now count result }
{
    if stack.is_closed() {
        Verdict::Accepted
    } else {
        Verdict::Rejected(count + 1)
    }
}

// Reads one line more. `false` where no branch is open, or where the premises of the line do not hold in the first one.
fn step(rules: &mut Rules<'_>, stack: &mut OpenBranches, line: &Line) -> Result<bool, NoMemory>
    requires { AreNumberedBranches (length rules.old.table) (branches stack.old) }
    ensures left { IfOk result (IsStep rules.old stack.old (line_of line.now) rules.new stack.new) }
    ensures same { IsSameButTable rules.old rules.new }
{
    let outcome = advance(rules, stack, line)?;
    Ok(outcome.is_some())
}

/// Reads one line more, and answers what it leaves of the branch that is read. `None` where no branch is open, or where
/// the premises of the line do not hold in the first one.
///
/// # Errors
///
/// Out of memory. What is open then is no longer that of the lines that were read.
pub(crate) fn advance(
    rules: &mut Rules<'_>,
    stack: &mut OpenBranches,
    line: &Line,
) -> Result<Option<Outcome>, NoMemory>
    requires { AreNumberedBranches (length rules.old.table) (branches stack.old) }
    ensures left { IfOk result (λ o. IsStep rules.old stack.old (line_of line.now) rules.new stack.new (is_some o)) }
    ensures same { IsSameButTable rules.old rules.new }
{
    if stack.is_closed() {
        return Ok(None);
    }
    let outcome = rules.outcome(stack.branch(), line)?;
    put(stack, &outcome)?;
    Ok(outcome)
}

// Puts what a line leaves of the branch in its place, if its premises held.
fn put(stack: &mut OpenBranches, outcome: &Option<Outcome>) -> Result<(), NoMemory>
    requires open { stack.old.closed ≡ false }
    requires ready { IsReadyIf stack.old outcome.now }
    ensures { OnOk result (IsPutIf stack.old outcome.now stack.new) }
{
    match outcome {
        None => Ok(()),
        Some(outcome) => stack.apply(outcome),
    }
}
