// The open branchings of a trace, and going back over them.
ghost use Rattle.std.specs.Prelude.{◌≡◌, ◌≤◌, ◌<◌, ◌-◌, ◌++◌, length, reverse, IfOk, OnOk, OnErr, IfSome, IsNone, true};
ghost use Rattle.std.specs.Prelude.{false, List, ◌∷◌, []};
ghost use Rattle.std.specs.Bool.{MatchBool};
ghost use Rattle.std.specs.FinSet as set;
ghost use Rattle.search_trace.specs.declared.opens.OpenBranching.{OpenBranching};
ghost use Rattle.search_trace.specs.Trace.{ArePlaced, whole_marks, turned, turned_latest, turn_of};
ghost use Rattle.search_trace.specs.Going.{IsPlaced, Passes, Halts, IsTaken, going, reached, turns, turns_at};
ghost use Rattle.search_trace.specs.Going.{passed_marks};

use crate::lines::{TraceLine, take_out};
use crate::{Deps, NoMemory};
use std::alloc::Global;

/// An open branching: its mark, which is the number of its line, the place of this line, where its open child begins,
/// how many alternatives are left, the marks of its line, and those on which the closing of its closed children rests.
#[derive(Drop)]
pub struct OpenBranching {
    pub mark: u32,
    pub at: usize,
    pub child: usize,
    pub left: u32,
    pub marks: Deps,
    pub gathered: Deps,
}

/// Where a trace has gone back to.
#[derive(Drop)]
pub enum Back {
    /// The branching of this mark is at its next alternative, whose facts rest on these marks.
    Turned { mark: u32, marks: Deps },
    /// No branching is open, and the lines close everything.
    Closed,
}

// The marks on which the closing of a whole branching rests.
fn marks_of_whole(alloc: Global, latest: &OpenBranching, used: &Deps) -> Result<Deps, NoMemory>
    ensures { IfOk result (λ u. u ≡ whole_marks latest.now used.now) }
{
    let both = latest.gathered.union(alloc, used)?;
    both.union(alloc, &latest.marks)
}

/// Goes back from a child whose closing rests on these marks, over open branchings that do not turn. The latest that is
/// left is to turn; where none is left, the lines close everything. Answers the marks on which closing rests.
pub(crate) fn go_over(
    alloc: Global,
    lines: &mut Vec<TraceLine>,
    opens: &mut Vec<OpenBranching>,
    used: Deps,
) -> Result<Deps, NoMemory>
    requires { ArePlaced (length lines.old.items) (reverse opens.old.items) }
    ensures goes { IfOk result
        (λ u. going lines.old.items opens.old.items used ≡ reached lines.new.items opens.new.items u) }
    ensures halts { IfOk result (λ u. Halts opens.new.items u) }
    ensures placed { ArePlaced (length lines.new.items) (reverse opens.new.items) }
{
    let mut used = used;
    while let Some(latest) = take_latest(opens, &used) {
        used = pass(alloc, lines, &latest, used)?;
    }
    Ok(used)
}

// Takes the latest open branching off, unless it is to turn.
fn take_latest(opens: &mut Vec<OpenBranching>, used: &Deps) -> Option<OpenBranching>
    ensures some { IfSome result (IsTaken opens.old.items opens.new.items used.now) }
    ensures none { IsNone result → (opens.new.items ≡ opens.old.items) × Halts opens.old.items used.now }
{
    if is_to_turn(opens, used) {
        return None;
    }
    opens.pop()
}

// Whether the latest open branching is to turn, or there is none.
fn is_to_turn(opens: &[OpenBranching], used: &Deps) -> bool
    ensures cases { MatchBool result (Halts opens.now used.now)
        ((older : List OpenBranching) (o : OpenBranching) → opens.now ≡ older ++ o ∷ []
        → set.contains used.now o.mark ≡ true → o.left ≡ 0) }
    ensures one { result ≡ false → 0 < length opens.now }
{
    match opens.last() {
        None => true,
        Some(latest) => used.has(latest.mark) && latest.left > 0,
    }
}

// One step back over the latest open branching, where it does not turn.
fn pass(
    alloc: Global,
    lines: &mut Vec<TraceLine>,
    latest: &OpenBranching,
    used: Deps,
) -> Result<Deps, NoMemory>
    requires placed { IsPlaced (length lines.old.items) latest.now }
    requires passes { set.contains used latest.now.mark ≡ true → latest.now.left ≡ 0 }
    ensures passes { IfOk result (λ u. Passes latest.now lines.old.items used lines.new.items u) }
    ensures unchanged { OnErr result (lines.new.items ≡ lines.old.items) }
{
    if used.has(latest.mark) {
        marks_of_whole(alloc, latest, &used)
    } else {
        take_out(lines, latest.at, latest.child, latest.mark);
        Ok(used)
    }
}

// The marks of the facts of its alternatives.
fn marks_of_alternatives(alloc: Global, latest: &OpenBranching) -> Result<Deps, NoMemory>
    ensures { IfOk result (λ u. u ≡ set.insert latest.now.marks latest.now.mark) }
{
    let mark = Deps::one(alloc, latest.mark)?;
    latest.marks.union(alloc, &mark)
}

// The branching at its next alternative.
fn at_next_alternative(
    alloc: Global,
    latest: OpenBranching,
    child: usize,
    used: &Deps,
) -> Result<OpenBranching, NoMemory>
    requires { ¬ (latest.left ≡ 0) }
    ensures { IfOk result (λ o. o ≡ turned child used.now latest) }
{
    let gathered = latest.gathered.union(alloc, used)?;
    Ok(OpenBranching {
        child,
        left: latest.left - 1,
        gathered,
        ..latest
    })
}

/// The latest open branching, if there is one, turns to its next alternative, which begins behind as many lines.
#[tactic(auto, using(crate::proofs::Going::less_placed))]
pub(crate) fn turn_latest(
    alloc: Global,
    opens: &mut Vec<OpenBranching>,
    child: usize,
    used: &Deps,
) -> Result<Back, NoMemory>
    requires halts { Halts opens.old.items used.now }
    requires placed { ArePlaced child (reverse opens.old.items) }
    ensures answer { IfOk result (λ b. b ≡ turn_of (reverse opens.old.items)) }
    ensures turned { OnOk result (reverse opens.new.items ≡ turned_latest child used.now (reverse opens.old.items)) }
    ensures placed { ArePlaced child (reverse opens.new.items) }
{
    match opens.pop() {
        None => Ok(Back::Closed),
        Some(latest) => {
            let mark = latest.mark;
            let marks = marks_of_alternatives(alloc, &latest)?;
            let next = at_next_alternative(alloc, latest, child, used)?;
            opens.push(next)?;
            Ok(Back::Turned { mark, marks })
        }
    }
}

/// Whether going back from a child whose closing rests on these marks comes to a branching that turns.
pub(crate) fn comes_to_turn(
    alloc: Global,
    opens: &[OpenBranching],
    used: Deps,
) -> Result<bool, NoMemory>
    ensures { IfOk result (λ b. b ≡ turns (reverse opens.now) used) }
{
    let mut used = used;
    let mut left = opens.len();
    while left > 0 {
        let latest = &opens[left - 1];
        if turns_at_next(latest, &used) {
            return Ok(true);
        }
        used = marks_behind(alloc, latest, used)?;
        left -= 1;
    }
    Ok(false)
}

// Whether closing rests on the open branching, and it has an alternative left.
fn turns_at_next(latest: &OpenBranching, used: &Deps) -> bool
    ensures { result ≡ turns_at latest.now used.now }
{
    used.has(latest.mark) && latest.left != 0
}

// The marks on which closing rests once the latest open branching, which does not turn, is passed.
fn marks_behind(alloc: Global, latest: &OpenBranching, used: Deps) -> Result<Deps, NoMemory>
    ensures { IfOk result (λ u. u ≡ passed_marks latest.now used) }
{
    if used.has(latest.mark) {
        marks_of_whole(alloc, latest, &used)
    } else {
        Ok(used)
    }
}
