// The next step of a search.
ghost use Rattle.std.specs.Prelude.{◌≡◌, ◌+◌, ◌<◌, ◌^◌, None, MatchOption, OnOk, OnErr, IfOk, IfSome};
ghost use Rattle.step_agenda.specs.Trail.{facts_in};
ghost use Rattle.step_agenda.specs.Followed.{AreFirstBlocks, IsCurrent};
ghost use Rattle.step_finders.specs.Clashing.{IsShown};
ghost use Rattle.step_finders.specs.Choosing.{IsChoosable};
ghost use Rattle.step_finders.specs.Giving.{IsGiving};
ghost use Rattle.step_finders.specs.Making.{IsMaking};
ghost use Rattle.step_finders.specs.Reasons.{IsAddition};
ghost use Rattle.step_finders.specs.Stepping.{NoStep, IsStep};
ghost use Rattle.search_state.specs.Progress.{IsStanding, IsClashOf, IsSearching, HasMoved};
ghost use Rattle.tableau_specs.specs.LineLaws.{IsNumbered};
ghost use Rattle.tableau_specs.specs.Steps.{IsAlternative};
ghost use Rattle.step_finders.specs.Choosing.{branch_of};
ghost use Rattle.step_lines.specs.Kinds.{alternative_count};
ghost use Rattle.search_state.specs.Turning.{IsTurning};
ghost use Rattle.search_state.specs.Advancing.{HasAdvanced};
ghost use Rattle.search_state.specs.Stepping.{HasFollowed, IsStepped};

use crate::alternatives::count_alternatives;
use crate::next_alternative::alternative_after;
use crate::progress::Progress;
use crate::resting::{rest_addition, rest_choice, rest_given, rest_new_nodes};
use crate::{NoMemory, Stepped};
use calculus_specs::Fact;
use search_trace::Back;
use std::alloc::Allocator;
use step_agenda::{Deps, TreeState, TreeWithBlocks};
use step_finders::{
    Addition, Choosing, Clash, Given, NewNodes, Rules, StateWithRules, Step, find_step,
    no_step_is_saturated,
};

impl<'b, A: Allocator + Copy> Progress<'b, A> {
    // A node gets a concept.
    fn add<R: Rules>(&mut self, rules: &R, addition: &Addition) -> Result<(), NoMemory>
        requires standing { IsStanding (R.context rules.now) self.old }
        requires none { IsClashOf (R.context rules.now) (facts_in self.old.entries) None }
        requires addition { IsAddition (R.context rules.now) (facts_in self.old.entries) (R.files rules.now)
            addition.now }
        requires countable { self.old.steps + 1 < 2 ^ 64 }
        ensures { OnOk result (HasAdvanced (R.context rules.now) self.old self.new) }
    {
        let resting = rest_addition(self.heap, &self.tree, rules, addition)?;
        self.put_addition(rules, addition, resting)?;
        self.look(rules, Fact::Has(addition.node, addition.concept));
        Ok(())
    }

    // A fact that an axiom gives becomes so.
    fn give<R: Rules>(&mut self, rules: &R, given: &Given) -> Result<(), NoMemory>
        requires standing { IsStanding (R.context rules.now) self.old }
        requires none { IsClashOf (R.context rules.now) (facts_in self.old.entries) None }
        requires giving { IsGiving (R.context rules.now) (facts_in self.old.entries) given.now }
        requires countable { self.old.steps + 1 < 2 ^ 64 }
        ensures { OnOk result (HasAdvanced (R.context rules.now) self.old self.new) }
    {
        let resting = rest_given(self.heap, &self.tree, rules, given)?;
        self.put_given(rules, given, resting)?;
        self.look(rules, given.fact);
        Ok(())
    }

    // Nodes are made.
    fn generate<R: Rules>(&mut self, rules: &R, new: &NewNodes) -> Result<(), NoMemory>
        requires standing { IsStanding (R.context rules.now) self.old }
        requires none { IsClashOf (R.context rules.now) (facts_in self.old.entries) None }
        requires making { IsMaking (R.context rules.now) (facts_in self.old.entries) new.now }
        requires countable { self.old.steps + 1 < 2 ^ 64 }
        ensures { OnOk result (HasAdvanced (R.context rules.now) self.old self.new) }
    {
        let resting = rest_new_nodes(self.heap, &self.tree, rules, new)?;
        let first = self.put_new_nodes(rules, new, resting)?;
        self.look_at_new_nodes(rules, new, first);
        Ok(())
    }

    // The first alternative of a choice is taken.
    fn choose<R: Rules>(&mut self, rules: &R, choosing: &Choosing) -> Result<(), NoMemory>
        requires standing { IsStanding (R.context rules.now) self.old }
        requires none { IsClashOf (R.context rules.now) (facts_in self.old.entries) None }
        requires choosable { IsChoosable (R.context rules.now) (facts_in self.old.entries) choosing.now }
        requires countable { self.old.steps + 1 < 2 ^ 64 }
        ensures { OnOk result (HasAdvanced (R.context rules.now) self.old self.new) }
    {
        let resting = rest_choice(self.heap, &self.tree, rules, choosing)?;
        let left = left_after_first(rules, choosing)?;
        let fact = first_of(rules, choosing);
        self.put_choice(rules, choosing, resting, left, fact)?;
        self.look(rules, fact);
        Ok(())
    }

    // The next alternative of a branching is taken.
    fn retry<R: Rules>(&mut self, rules: &R, mark: u32, marks: Deps) -> Result<(), NoMemory>
        requires turning { IsTurning (R.context rules.now) self.old mark marks }
        requires countable { self.old.steps + 1 < 2 ^ 64 }
        ensures { OnOk result (HasAdvanced (R.context rules.now) self.old self.new) }
    {
        let fact = self.turn(rules, mark, marks)?;
        self.look(rules, fact);
        Ok(())
    }

    // What there is to do where there is a clash.
    pub(crate) fn go_back<R: Rules>(
        &mut self,
        rules: &R,
        clash: &Clash,
    ) -> Result<Stepped, NoMemory>
        requires standing { IsStanding (R.context rules.now) self.old }
        requires shown { IsShown (R.context rules.now) (facts_in self.old.entries) clash.now }
        requires countable { self.old.steps + 1 < 2 ^ 64 }
        ensures { IfOk result (IsStepped (R.context rules.now) self.old self.new) }
    {
        match self.close(rules, clash)? {
            Back::Turned { mark, marks } => {
                self.retry(rules, mark, marks)?;
                Ok(Stepped::Moved)
            }
            Back::Closed => Ok(Stepped::Closed),
        }
    }

    /// Finds the blocks of all nodes. Nothing else changes.
    ///
    /// # Errors
    ///
    /// Out of memory. The search serves no more then.
    pub fn follow(&mut self) -> Result<(), NoMemory>
        requires { AreFirstBlocks self.old.first (facts_in self.old.entries) self.old.found_blocks }
        ensures followed { OnOk result (HasFollowed self.old self.new) }
        ensures first { OnOk result (AreFirstBlocks self.new.first (facts_in self.new.entries) self.new.found_blocks) }
    {
        self.found_blocks.complete(&self.tree)
    }

    // A step that can be made whatever is blocked, where one is seen at the latest facts.
    pub(crate) fn latest_at_any<R: Rules>(&mut self, rules: &R) -> Result<Option<Step>, NoMemory>
        requires { self.old.first ≡ (R.context rules.now).first }
        ensures found { let w = R.context rules.now in let fs = facts_in self.old.entries in
            IfOk result (λ found. IfSome found (IsStep w fs (R.files rules.now))) }
        ensures same { self.new ≡ self.old }
    {
        let state = TreeState::new(&self.tree);
        let search = StateWithRules {
            state: &state,
            rules,
        };
        let found = self.agenda.next_at_any(self.heap, &self.tree, &search)?;
        Ok(found)
    }

    // A step that rests on blocks, or one that comes after these, where one is seen at the latest facts.
    pub(crate) fn latest_with_blocks<R: Rules>(
        &mut self,
        rules: &R,
    ) -> Result<Option<Step>, NoMemory>
        requires one_first { self.old.first ≡ (R.context rules.now).first }
        requires current { IsCurrent self.old.first (facts_in self.old.entries) self.old.found_blocks }
        ensures found { let w = R.context rules.now in let fs = facts_in self.old.entries in
            IfOk result (λ found. IfSome found (IsStep w fs (R.files rules.now))) }
        ensures same { self.new ≡ self.old }
    {
        let state = TreeWithBlocks::new(&self.tree, &self.found_blocks);
        let search = StateWithRules {
            state: &state,
            rules,
        };
        let found = self
            .agenda
            .next_with_blocks(self.heap, &self.tree, &search)?;
        if found.is_none() {
            self.effort = self.effort.with_scan();
        }
        Ok(found)
    }

    // The next step where there is no plain clash; none exactly where there is none.
    pub(crate) fn next_step<R: Rules>(&self, rules: &R) -> Result<Option<Step>, NoMemory>
        requires one_first { self.now.first ≡ (R.context rules.now).first }
        requires current { IsCurrent self.now.first (facts_in self.now.entries) self.now.found_blocks }
        ensures { let w = R.context rules.now in let fs = facts_in self.now.entries in
            IfOk result (λ found. MatchOption found (NoStep w fs) (IsStep w fs (R.files rules.now))) }
    {
        let state = TreeWithBlocks::new(&self.tree, &self.found_blocks);
        let search = StateWithRules {
            state: &state,
            rules,
        };
        let found = find_step(self.heap, &search)?;
        Ok(found)
    }

    pub(crate) fn make<R: Rules>(&mut self, rules: &R, step: &Step) -> Result<(), NoMemory>
        requires standing { IsStanding (R.context rules.now) self.old }
        requires none { IsClashOf (R.context rules.now) (facts_in self.old.entries) None }
        requires step { IsStep (R.context rules.now) (facts_in self.old.entries) (R.files rules.now) step.now }
        requires countable { self.old.steps + 1 < 2 ^ 64 }
        ensures { OnOk result (HasAdvanced (R.context rules.now) self.old self.new) }
    {
        match step {
            Step::Give(given) => self.give(rules, given),
            Step::Add(addition) => self.add(rules, addition),
            Step::Generate(new) => self.generate(rules, new),
            Step::Choose(choosing) => self.choose(rules, choosing),
        }
    }

    // What there is to do where there is no plain clash, at the latest facts first.
    fn go_on<R: Rules>(&mut self, rules: &R) -> Result<Stepped, NoMemory>
        requires standing { IsStanding (R.context rules.now) self.old }
        requires none { IsClashOf (R.context rules.now) (facts_in self.old.entries) None }
        requires countable { self.old.steps + 1 < 2 ^ 64 }
        ensures { IfOk result (IsStepped (R.context rules.now) self.old self.new) }
    {
        match self.latest_at_any(rules)? {
            Some(step) => {
                self.make(rules, &step)?;
                Ok(Stepped::Moved)
            }
            None => self.go_on_with_blocks(rules),
        }
    }

    // What there is to do where there is no plain clash, and no step is seen that can be made whatever is blocked. Only
    // now the blocks of all nodes are found.
    fn go_on_with_blocks<R: Rules>(&mut self, rules: &R) -> Result<Stepped, NoMemory>
        requires standing { IsStanding (R.context rules.now) self.old }
        requires none { IsClashOf (R.context rules.now) (facts_in self.old.entries) None }
        requires countable { self.old.steps + 1 < 2 ^ 64 }
        ensures { IfOk result (IsStepped (R.context rules.now) self.old self.new) }
    {
        self.follow()?;
        self.go_on_followed(rules)
    }

    // The same, where the blocks of all nodes are known.
    fn go_on_followed<R: Rules>(&mut self, rules: &R) -> Result<Stepped, NoMemory>
        requires standing { IsStanding (R.context rules.now) self.old }
        requires current { IsCurrent self.old.first (facts_in self.old.entries) self.old.found_blocks }
        requires none { IsClashOf (R.context rules.now) (facts_in self.old.entries) None }
        requires countable { self.old.steps + 1 < 2 ^ 64 }
        ensures { IfOk result (IsStepped (R.context rules.now) self.old self.new) }
    {
        match self.latest_with_blocks(rules)? {
            Some(step) => {
                self.make(rules, &step)?;
                Ok(Stepped::Moved)
            }
            None => self.go_on_anywhere(rules),
        }
    }

    // What there is to do where there is no plain clash.
    fn go_on_anywhere<R: Rules>(&mut self, rules: &R) -> Result<Stepped, NoMemory>
        requires standing { IsStanding (R.context rules.now) self.old }
        requires current { IsCurrent self.old.first (facts_in self.old.entries) self.old.found_blocks }
        requires none { IsClashOf (R.context rules.now) (facts_in self.old.entries) None }
        requires countable { self.old.steps + 1 < 2 ^ 64 }
        ensures { IfOk result (IsStepped (R.context rules.now) self.old self.new) }
    {
        match self.next_step(rules)? {
            Some(step) => {
                self.make(rules, &step)?;
                Ok(Stepped::Moved)
            }
            None => {
                no_step_is_saturated();
                Ok(Stepped::Saturated)
            }
        }
    }

    /// Makes the next step, if there is one.
    ///
    /// # Errors
    ///
    /// Out of memory. The search serves no more then.
    pub fn step<R: Rules>(&mut self, rules: &R) -> Result<Stepped, NoMemory>
        requires searching { IsSearching (R.context rules.now) self.old }
        requires countable { self.old.steps + 1 < 2 ^ 64 }
        ensures { IfOk result (IsStepped (R.context rules.now) self.old self.new) }
    {
        match self.clash {
            Some(clash) => self.go_back(rules, &clash),
            None => self.go_on(rules),
        }
    }
}

// How many alternatives are left after the first. Where they have no number, there are too many.
fn left_after_first<R: Rules>(rules: &R, choosing: &Choosing) -> Result<u32, NoMemory>
    requires { 0 < alternative_count (R.context rules.now).table (branch_of choosing.now) }
    ensures left { IfOk result (λ n. n + 1 ≡ alternative_count (R.context rules.now).table (branch_of choosing.now)) }
    ensures small { IfOk result (λ n. n + 1 < 2 ^ 32) }
    ensures too_many { OnErr result (u32.MAX < alternative_count (R.context rules.now).table (branch_of choosing.now)) }
{
    let count = count_alternatives(rules, choosing.branch())?;
    Ok(count - 1)
}

// The fact of the first alternative.
fn first_of<R: Rules>(rules: &R, choosing: &Choosing) -> Fact<u32>
    requires some { 0 < alternative_count (R.context rules.now).table (branch_of choosing.now) }
    requires numbered { IsNumbered (R.context rules.now).table (branch_of choosing.now) }
    ensures { IsAlternative (R.context rules.now).table (branch_of choosing.now) 1 result }
{
    alternative_after(rules, choosing.branch(), 0)
}
