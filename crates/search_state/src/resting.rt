// Rule lines, and the marks that they rest on.
ghost use Rattle.std.specs.Prelude.{◌≡◌, true, IfOk};
ghost use Rattle.std.specs.List.{list_all};
ghost use Rattle.std.specs.FinSet as set;
ghost use Rattle.calculus_specs.specs.State.{is_so};
ghost use Rattle.search_trace.specs.RuleLine.{line_of};
ghost use Rattle.search_trace.specs.Grounded.{AreGrounded};
ghost use Rattle.step_agenda.specs.Trail.{facts_in};
ghost use Rattle.step_finders.specs.Choosing.{branch_of, IsChoosable};
ghost use Rattle.step_finders.specs.Clashing.{IsShown};
ghost use Rattle.step_finders.specs.Giving.{IsGiving};
ghost use Rattle.step_finders.specs.Making.{IsMaking};
ghost use Rattle.step_finders.specs.Reasons.{IsAddition};
ghost use Rattle.absorption.specs.ClosureLaws.{IsClosedFor};
ghost use Rattle.step_lines.specs.Serving.{HoldWithin};
ghost use Rattle.search_trace.specs.Noted.{within};
ghost use Rattle.search_state.specs.Marked.{marked_in};
ghost use Rattle.search_state.specs.Resting.{RestsAddition, RestsGiven, RestsNewNodes, RestsChoice, RestsClash};

use crate::NoMemory;
use calculus_specs::Fact;
use search_trace::Line;
use std::alloc::{Allocator, Global};
use step_agenda::{Deps, Tree, TreeState};
use step_finders::{Addition, Choosing, Clash, Given, NewNodes, Rules, StateWithRules};
use step_lines::{
    line_of_addition, line_of_choice, line_of_clash, line_of_given, line_of_new_nodes,
};

/// A rule line, and the marks that it rests on.
#[derive(Drop)]
pub(crate) struct RestingLine {
    pub(crate) line: Line,
    pub(crate) marks: Deps,
}

/// Marks such that each of the facts holds by facts alone that rest on no other marks.
fn marks_of_all<A: Allocator + Copy>(
    alloc: Global,
    tree: &Tree<A>,
    grounds: &[Fact<u32>],
) -> Result<Deps, NoMemory>
    requires { list_all (is_so (facts_in tree.now.entries)) grounds.now ≡ true }
    ensures { IfOk result (λ u. HoldWithin u (marked_in tree.now.entries) grounds.now) }
{
    let mut used = Deps::none();
    for ground in grounds {
        used = with_marks(alloc, tree, *ground, used)?;
    }
    Ok(used)
}

// The marks, with those of one fact more.
fn with_marks<A: Allocator + Copy>(
    alloc: Global,
    tree: &Tree<A>,
    ground: Fact<u32>,
    used: Deps,
) -> Result<Deps, NoMemory>
    requires { is_so (facts_in tree.now.entries) ground ≡ true }
    ensures more { IfOk result (λ u. set.is_subset used u ≡ true) }
    ensures holds { IfOk result (λ u. is_so (within u (marked_in tree.now.entries)) ground ≡ true) }
{
    let marks = tree.marks_of(alloc, ground)?;
    let all = used.union(alloc, &marks)?;
    Ok(all)
}

/// The line of an addition.
pub(crate) fn rest_addition<A: Allocator + Copy, R: Rules>(
    alloc: Global,
    tree: &Tree<A>,
    rules: &R,
    addition: &Addition,
) -> Result<RestingLine, NoMemory>
    requires one_first { tree.now.first ≡ (R.context rules.now).first }
    requires grounded { AreGrounded (R.context rules.now).first (marked_in tree.now.entries) }
    requires addition { IsAddition (R.context rules.now) (facts_in tree.now.entries) (R.files rules.now) addition.now }
    ensures { IfOk result
        (λ l. RestsAddition (R.context rules.now) tree.now.entries addition.now.node addition.now.concept
        (line_of l.line) l.marks) }
{
    let state = TreeState::new(tree);
    let search = StateWithRules {
        state: &state,
        rules,
    };
    let line = line_of_addition(alloc, &search, addition)?;
    let marks = marks_of_all(alloc, tree, &line.grounds)?;
    Ok(RestingLine {
        line: line.line,
        marks,
    })
}

/// The line of a given fact, which rests on nothing.
pub(crate) fn rest_given<A: Allocator + Copy, R: Rules>(
    alloc: Global,
    tree: &Tree<A>,
    rules: &R,
    given: &Given,
) -> Result<RestingLine, NoMemory>
    requires grounded { AreGrounded (R.context rules.now).first (marked_in tree.now.entries) }
    requires giving { IsGiving (R.context rules.now) (facts_in tree.now.entries) given.now }
    ensures { IfOk result
        (λ l. RestsGiven (R.context rules.now) tree.now.entries given.now.fact (line_of l.line) l.marks) }
{
    let line = line_of_given(alloc, rules, given)?;
    Ok(RestingLine {
        line: line.line,
        marks: Deps::none(),
    })
}

/// The line of new nodes.
pub(crate) fn rest_new_nodes<A: Allocator + Copy, R: Rules>(
    alloc: Global,
    tree: &Tree<A>,
    rules: &R,
    new: &NewNodes,
) -> Result<RestingLine, NoMemory>
    requires one_first { tree.now.first ≡ (R.context rules.now).first }
    requires grounded { AreGrounded (R.context rules.now).first (marked_in tree.now.entries) }
    requires making { IsMaking (R.context rules.now) (facts_in tree.now.entries) new.now }
    ensures { IfOk result (λ l. RestsNewNodes (R.context rules.now) tree.now.entries new.now (line_of l.line) l.marks) }
{
    let state = TreeState::new(tree);
    let search = StateWithRules {
        state: &state,
        rules,
    };
    let line = line_of_new_nodes(alloc, &search, new)?;
    let marks = marks_of_all(alloc, tree, &line.grounds)?;
    Ok(RestingLine {
        line: line.line,
        marks,
    })
}

/// The line of a choice.
pub(crate) fn rest_choice<A: Allocator + Copy, R: Rules>(
    alloc: Global,
    tree: &Tree<A>,
    rules: &R,
    choosing: &Choosing,
) -> Result<RestingLine, NoMemory>
    requires one_first { tree.now.first ≡ (R.context rules.now).first }
    requires grounded { AreGrounded (R.context rules.now).first (marked_in tree.now.entries) }
    requires choosable { IsChoosable (R.context rules.now) (facts_in tree.now.entries) choosing.now }
    requires closed { IsClosedFor (R.context rules.now) }
    ensures { IfOk result
        (λ l. RestsChoice (R.context rules.now) tree.now.entries (branch_of choosing.now) (line_of l.line) l.marks) }
{
    let state = TreeState::new(tree);
    let search = StateWithRules {
        state: &state,
        rules,
    };
    let line = line_of_choice(alloc, &search, choosing)?;
    let marks = marks_of_all(alloc, tree, &line.grounds)?;
    Ok(RestingLine {
        line: line.line,
        marks,
    })
}

/// The line of a clash.
pub(crate) fn rest_clash<A: Allocator + Copy, R: Rules>(
    alloc: Global,
    tree: &Tree<A>,
    rules: &R,
    clash: &Clash,
) -> Result<RestingLine, NoMemory>
    requires one_first { tree.now.first ≡ (R.context rules.now).first }
    requires grounded { AreGrounded (R.context rules.now).first (marked_in tree.now.entries) }
    requires shown { IsShown (R.context rules.now) (facts_in tree.now.entries) clash.now }
    ensures { IfOk result (λ l. RestsClash (R.context rules.now) tree.now.entries (line_of l.line) l.marks) }
{
    let state = TreeState::new(tree);
    let search = StateWithRules {
        state: &state,
        rules,
    };
    let line = line_of_clash(alloc, &search, clash)?;
    let marks = marks_of_all(alloc, tree, &line.grounds)?;
    Ok(RestingLine {
        line: line.line,
        marks,
    })
}
