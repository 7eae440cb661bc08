// What a step of a search comes to.
ghost use Rattle.std.specs.Prelude.{◌≡◌, false, None, IfOk};
ghost use Rattle.search_trace.specs.RuleLine.{line_of};
ghost use Rattle.tableau_specs.specs.Steps.{HasClash};
ghost use Rattle.search_trace.specs.Trace.{begun, answer_of, is_turn};
ghost use Rattle.search_state.specs.Resting.{RestsClash};
ghost use Rattle.step_agenda.specs.Trail.{facts_in, items_of};
ghost use Rattle.step_finders.specs.Clashing.{IsShown};
ghost use Rattle.search_state.specs.Progress.{tree_in, IsAsked, IsClashOf, IsSearching, IsStanding};
ghost use Rattle.search_state.specs.Stepping.{IsRested};

use crate::resting::{RestingLine, rest_clash};
use crate::{Effort, NoMemory, Progress};
use search_trace::{Back, Trace};
use shq_terms::Query;
use std::alloc::{Allocator, Global};
use std::mem;
use step_agenda::{Blocks, Tree};
use step_finders::{Clash, Rules, no_step_is_saturated};

/// What one step came to.
#[derive(Clone, Copy, Debug, PartialEq, Eq)]
pub enum Stepped {
    /// It was made.
    Moved,
    /// There is none: the trail is saturated.
    Saturated,
    /// There is none: the lines of the trace close everything, from where it began.
    Closed,
}

/// Where a search stands that makes no more steps for now.
#[derive(Clone, Copy, Debug, PartialEq, Eq)]
pub enum Rested {
    /// It could go on.
    CanMove,
    /// The trail is saturated.
    Saturated,
    /// The lines of the trace close everything, from where it began.
    Closed,
}

impl<'b, A: Allocator + Copy> Progress<'b, A> {
    /// Looks whether there is a step, and makes none.
    ///
    /// # Errors
    ///
    /// Out of memory. The search serves no more then.
    pub fn rest<R: Rules>(&mut self, rules: &R) -> Result<Rested, NoMemory>
        requires searching { IsSearching (R.context rules.now) self.old }
        ensures { IfOk result (IsRested (R.context rules.now) self.old self.new) }
    {
        match self.clash {
            Some(clash) => self.rest_at_clash(rules, &clash),
            None => self.rest_without_clash(rules),
        }
    }

    // Looks whether going back from a clash turns to a next alternative. If not, the lines close everything.
    fn rest_at_clash<R: Rules>(&mut self, rules: &R, clash: &Clash) -> Result<Rested, NoMemory>
        requires searching { IsSearching (R.context rules.now) self.old }
        requires shown { IsShown (R.context rules.now) (facts_in self.old.entries) clash.now }
        ensures { IfOk result (IsRested (R.context rules.now) self.old self.new) }
    {
        let resting = rest_clash(self.heap, &self.tree, rules, clash)?;
        if self.turns(&resting)? {
            Ok(Rested::CanMove)
        } else {
            self.close_all(rules, resting)
        }
    }

    // Whether going back with this line turns to a next alternative.
    fn turns(&self, resting: &RestingLine) -> Result<bool, NoMemory>
        ensures { IfOk result (λ b. b ≡ is_turn (answer_of self.now.trace resting.now.marks)) }
    {
        let used = resting.marks.try_clone()?;
        self.trace.turns(self.heap, used)
    }

    // Closes everything by the line of a clash that turns to no alternative.
    fn close_all<R: Rules>(&mut self, rules: &R, resting: RestingLine) -> Result<Rested, NoMemory>
        requires standing { IsStanding (R.context rules.now) self.old }
        requires clash { HasClash (R.context rules.now) (items_of self.old.entries) }
        requires rests { RestsClash (R.context rules.now) self.old.entries (line_of resting.line) resting.marks }
        requires closes { is_turn (answer_of self.old.trace resting.marks) ≡ false }
        ensures { IfOk result (IsRested (R.context rules.now) self.old self.new) }
    {
        match self.close_child(rules, resting)? {
            Back::Closed => Ok(Rested::Closed),
            Back::Turned { .. } => unreachable!(),
        }
    }

    fn rest_without_clash<R: Rules>(&mut self, rules: &R) -> Result<Rested, NoMemory>
        requires searching { IsSearching (R.context rules.now) self.old }
        requires none { IsClashOf (R.context rules.now) (facts_in self.old.entries) None }
        ensures { IfOk result (IsRested (R.context rules.now) self.old self.new) }
    {
        self.follow()?;
        match self.next_step(rules)? {
            Some(_) => Ok(Rested::CanMove),
            None => {
                no_step_is_saturated();
                Ok(Rested::Saturated)
            }
        }
    }

    /// The trace by itself. The search has an empty one from then on.
    pub fn take_trace(&mut self) -> Trace
        ensures trace { result ≡ self.old.trace }
        ensures left { self.new ≡ record self.old { trace = begun } }
    {
        let heap = self.heap;
        self.effort = self.effort.with_trace(&self.trace);
        mem::replace(&mut self.trace, Trace::new(heap))
    }

    /// What is asked.
    pub fn query(&self) -> &'b Query
        ensures { result.now ≡ self.now.query }
    {
        self.query
    }

    /// The tree of the search.
    pub fn tree(&self) -> &Tree<A>
        ensures { result.now ≡ tree_in self.now }
    {
        &self.tree
    }

    /// The blocks of the tree's nodes, as far as they are known.
    pub fn found_blocks(&self) -> &Blocks
        ensures { result.now ≡ self.now.found_blocks }
    {
        &self.found_blocks
    }

    /// The first node of which the query asks.
    pub fn at(&self) -> u32
        ensures { result ≡ self.now.at }
    {
        self.at
    }

    /// How many steps were made, those of a trail that the search was given included.
    pub fn steps(&self) -> u64
        ensures { result ≡ self.now.steps }
    {
        self.steps
    }

    /// Whether the search went on behind a trail that it was given. Then the lines of its trace alone refute nothing.
    pub fn behind(&self) -> bool
        ensures { result ≡ self.now.behind }
    {
        self.behind
    }

    /// What was done beside the steps.
    pub fn effort(&self) -> Effort {
        self.effort
            .with_looks(self.agenda.looks())
            .with_blocks(self.found_blocks.effort())
            .with_trace(&self.trace)
    }
}
