// Going back from a clash.
ghost use Rattle.std.specs.Prelude.{◌≡◌, ℕ, ◌+◌, ◌<◌, ◌≤◌, ◌^◌, min, length, take, drop, true, Some, slice_get, OnOk};
ghost use Rattle.std.specs.Prelude.{IfOk};
ghost use Rattle.calculus_specs.specs.Joins.{rep};
ghost use Rattle.calculus_specs.specs.State.{node_count_from};
ghost use Rattle.step_agenda.specs.Changed.{least_touched};
ghost use Rattle.search_trace.specs.RuleLine.{line_of};
ghost use Rattle.tableau_specs.specs.Steps.{HasClash};
ghost use Rattle.step_agenda.specs.Entry.TheVariants.{Mark as Marks};
ghost use Rattle.step_agenda.specs.Trail.{facts_in, items_of, IsMarkAt};
ghost use Rattle.step_agenda.specs.Followed.{Printed, AreBlocksBelow};
ghost use Rattle.step_finders.specs.Clashing.{IsShown};
ghost use Rattle.search_state.specs.Backing.{closed_trace, can_turn, IsLatest};
ghost use Rattle.search_state.specs.Progress.{IsStanding, HasMoved, IsLast};
ghost use Rattle.search_state.specs.Resting.{RestsClash};
ghost use Rattle.search_state.specs.Turning.{IsTurning, HasGoneBack};
ghost use Rattle.search_trace.specs.Trace.{with_line, answer_of};

use crate::next_alternative::alternative_after;
use crate::progress::{keep_blocks, put_alternative};
use crate::resting::{RestingLine, rest_clash};
use crate::{NoMemory, Progress};
use calculus_specs::Fact;
use search_trace::Back;
use std::alloc::Allocator;
use step_agenda::{By, Choice, Deps, Item, Mark, Tree, current_before};
use step_finders::{Clash, Rules};
use step_lines::{alternatives_speak_of_nodes, facts_stay_grounded};

impl<'b, A: Allocator + Copy> Progress<'b, A> {
    /// Puts the line of a clash, and goes back in the trace alone.
    pub(crate) fn close_child<R: Rules>(
        &mut self,
        rules: &R,
        resting: RestingLine,
    ) -> Result<Back, NoMemory>
        requires standing { IsStanding (R.context rules.now) self.old }
        requires clash { HasClash (R.context rules.now) (items_of self.old.entries) }
        requires rests { RestsClash (R.context rules.now) self.old.entries (line_of resting.line) resting.marks }
        ensures answer { IfOk result
            (λ b. b ≡ answer_of (with_line self.old.trace (line_of resting.line) resting.marks) resting.marks) }
        ensures trace { OnOk result
            (self.new ≡ record self.old { trace = closed_trace self.old.trace (line_of resting.line) resting.marks }) }
        ensures gone_back { IfOk result (HasGoneBack (R.context rules.now) self.new) }
    {
        let _ = rules;
        let RestingLine { line, marks } = resting;
        let used = marks.try_clone()?;
        self.trace.put(line, marks)?;
        let heap = self.heap;
        let back = self.trace.go_back(heap, used)?;
        Ok(back)
    }

    /// Writes the line of a clash, and goes back in the trace to the branching that is to take its next alternative.
    pub(crate) fn close<R: Rules>(&mut self, rules: &R, clash: &Clash) -> Result<Back, NoMemory>
        requires standing { IsStanding (R.context rules.now) self.old }
        requires shown { IsShown (R.context rules.now) (facts_in self.old.entries) clash.now }
        ensures gone { IfOk result (HasGoneBack (R.context rules.now) self.new) }
        ensures same { OnOk result (self.new ≡ record self.old { trace = self.new.trace }) }
    {
        let resting = rest_clash(self.heap, &self.tree, rules, clash)?;
        self.close_child(rules, resting)
    }

    /// Goes back in the trail too, to the branching to whose next alternative the trace has turned. Answers the fact of
    /// this.
    pub(crate) fn turn<R: Rules>(
        &mut self,
        rules: &R,
        mark: u32,
        marks: Deps,
    ) -> Result<Fact<u32>, NoMemory>
        requires turning { IsTurning (R.context rules.now) self.old mark marks }
        requires countable { self.old.steps + 1 < 2 ^ 64 }
        ensures moved { OnOk result (HasMoved (R.context rules.now) self.old self.new) }
        ensures last { IfOk result (IsLast (R.context rules.now) self.new.entries) }
    {
        let count = self.trace.open_count();
        let lost = self.marks.len().saturating_sub(count);
        let place = cut_marks(&mut self.marks, count);
        let choice = choice_at(&self.tree, place);
        let fact = alternative_after(rules, choice.branch, choice.alternative);
        let next = at_next(choice);
        let known = self.found_blocks.len();
        let from = cut(&mut self.tree, place, known);
        let by = By { line: mark, marks };
        put_alternative(&mut self.tree, next, fact, by)?;
        keep_blocks(&self.tree, &mut self.found_blocks, place, from);
        facts_stay_grounded();
        alternatives_speak_of_nodes();
        self.steps += 1;
        self.agenda.back_to(count);
        self.effort = self.effort.with_back(lost);
        Ok(fact)
    }
}

// The choice at its next alternative.
fn at_next(choice: Choice) -> Choice
    requires { choice.alternative + 1 < 2 ^ 32 }
    ensures { result ≡ record choice { alternative = choice.alternative + 1 } }
{
    Choice {
        alternative: choice.alternative + 1,
        ..choice
    }
}

// Keeps so many of the marks, and answers the latest of these.
fn cut_marks(marks: &mut Vec<u32>, count: usize) -> u32
    requires some { 0 < count }
    requires within { count ≤ length marks.old.items }
    ensures kept { marks.new.items ≡ take count marks.old.items }
    ensures latest { IsLatest marks.old.items count result }
{
    marks.truncate(count);
    marks[count - 1]
}

// The choice of the mark at a place of the trail.
fn choice_at<A: Allocator + Copy>(tree: &Tree<A>, place: u32) -> Choice
    requires { IsMarkAt tree.now.entries place }
    ensures { slice_get tree.now.entries place ≡ Some (Marks result) }
{
    match tree.item(place) {
        Item::Mark(choice) => choice,
        Item::Fact(_) => unreachable!(),
    }
}

// Takes the entries from a place on out, and answers below which node the blocks stand of those below `from`, where
// these stood before: the least of which these entries say something, or the number of nodes.
fn cut<A: Allocator + Copy>(tree: &mut Tree<A>, place: u32, from: u32) -> u32
    requires { place ≤ length tree.old.entries }
    ensures cut { let es = take place tree.old.entries in tree.new ≡ record tree.old { entries = es } }
    ensures stand { (p : Printed) → AreBlocksBelow tree.old.first (facts_in tree.old.entries) from p
        → AreBlocksBelow tree.old.first (facts_in (take place tree.old.entries)) result p }
    ensures least { let first = tree.old.first in let fs = facts_in tree.old.entries in
        result ≡ min
        (min from (least_touched first (rep fs) (node_count_from first fs) (facts_in (drop place tree.old.entries))))
        (node_count_from first (facts_in (take place tree.old.entries))) }
{
    let _nodes = tree.nodes();
    let below = current_before(tree, place, from);
    tree.back(Mark { len: place });
    below.min(tree.nodes())
}
