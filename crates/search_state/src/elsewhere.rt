// A search that leaves the node in question out.
//
// Rows that are used at each node give the node in question what they give all others. What a search does before it
// looks at this node serves other queries too, which go on behind it. So a search can leave this node out as long as it
// sees another step.
ghost use Rattle.std.specs.Prelude.{◌≡◌, ◌+◌, ◌<◌, ◌^◌, None, IfOk, IfSome};
ghost use Rattle.step_agenda.specs.Trail.{facts_in};
ghost use Rattle.step_agenda.specs.Followed.{IsCurrent};
ghost use Rattle.step_finders.specs.Stepping.{IsStep};
ghost use Rattle.search_state.specs.Progress.{IsSearching, IsClashOf};
ghost use Rattle.search_state.specs.Stepping.{IsSteppedElsewhere};

use crate::{NoMemory, Progress, Stepped};
use std::alloc::Allocator;
use step_finders::{Rules, Step};

impl<'b, A: Allocator + Copy> Progress<'b, A> {
    /// Makes the next step that is seen at the latest facts, but for what a row gives the node in question that is used
    /// at each node. It answers none where no step is seen: none was made then, and there is no plain clash.
    ///
    /// # Errors
    ///
    /// Out of memory. The search serves no more then.
    pub fn step_elsewhere<R: Rules>(&mut self, rules: &R) -> Result<Option<Stepped>, NoMemory>
        requires searching { IsSearching (R.context rules.now) self.old }
        requires countable { self.old.steps + 1 < 2 ^ 64 }
        ensures { IfOk result (IsSteppedElsewhere (R.context rules.now) self.old self.new) }
    {
        match self.clash {
            Some(clash) => {
                let stepped = self.go_back(rules, &clash)?;
                Ok(Some(stepped))
            }
            None => self.go_on_elsewhere(rules),
        }
    }

    // What there is to do elsewhere where there is no plain clash.
    fn go_on_elsewhere<R: Rules>(&mut self, rules: &R) -> Result<Option<Stepped>, NoMemory>
        requires searching { IsSearching (R.context rules.now) self.old }
        requires none { IsClashOf (R.context rules.now) (facts_in self.old.entries) None }
        requires countable { self.old.steps + 1 < 2 ^ 64 }
        ensures { IfOk result (IsSteppedElsewhere (R.context rules.now) self.old self.new) }
    {
        match self.latest_elsewhere(rules)? {
            Some(step) => {
                self.make(rules, &step)?;
                Ok(Some(Stepped::Moved))
            }
            None => self.go_on_elsewhere_with_blocks(rules),
        }
    }

    // The same, where no step is seen that can be made whatever is blocked. Only now the blocks of all nodes are found.
    fn go_on_elsewhere_with_blocks<R: Rules>(
        &mut self,
        rules: &R,
    ) -> Result<Option<Stepped>, NoMemory>
        requires searching { IsSearching (R.context rules.now) self.old }
        requires none { IsClashOf (R.context rules.now) (facts_in self.old.entries) None }
        requires countable { self.old.steps + 1 < 2 ^ 64 }
        ensures { IfOk result (IsSteppedElsewhere (R.context rules.now) self.old self.new) }
    {
        self.follow()?;
        self.go_on_elsewhere_followed(rules)
    }

    // The same, where the blocks of all nodes are known.
    fn go_on_elsewhere_followed<R: Rules>(&mut self, rules: &R) -> Result<Option<Stepped>, NoMemory>
        requires searching { IsSearching (R.context rules.now) self.old }
        requires current { IsCurrent self.old.first (facts_in self.old.entries) self.old.found_blocks }
        requires none { IsClashOf (R.context rules.now) (facts_in self.old.entries) None }
        requires countable { self.old.steps + 1 < 2 ^ 64 }
        ensures { IfOk result (IsSteppedElsewhere (R.context rules.now) self.old self.new) }
    {
        match self.latest_with_blocks(rules)? {
            Some(step) => {
                self.make(rules, &step)?;
                Ok(Some(Stepped::Moved))
            }
            None => {
                self.take_node_in();
                Ok(None)
            }
        }
    }

    // A step that can be made whatever is blocked, where one is seen at the latest facts, and the node in question is
    // left out.
    fn latest_elsewhere<R: Rules>(&mut self, rules: &R) -> Result<Option<Step>, NoMemory>
        requires { self.old.first ≡ (R.context rules.now).first }
        ensures found { let w = R.context rules.now in let fs = facts_in self.old.entries in
            IfOk result (λ found. IfSome found (IsStep w fs (R.files rules.now))) }
        ensures same { self.new ≡ self.old }
    {
        self.leave_node_out();
        self.latest_at_any(rules)
    }

    // The node in question is left out where rows are looked at that are used at each node.
    fn leave_node_out(&mut self)
        ensures { self.new ≡ self.old }
    {
        self.agenda.leave_node_out();
    }

    // It is looked at there again.
    fn take_node_in(&mut self)
        ensures { self.new ≡ self.old }
    {
        self.agenda.take_node_in();
    }
}
