// Lines that lead along an edge.
ghost use Rattle.std.specs.Prelude.{◌≡◌, IfOk, length};
ghost use Rattle.shq_nnf.specs.Numbers.{Extends};
ghost use Rattle.calculus_specs.specs.Line.Line.{all_line, carry_line};
ghost use Rattle.refutation_rules.specs.Outcomes.{IsBranch};
ghost use Rattle.refutation_rules.specs.RefutationContext.{IsOutcome, IsSameButTable, LineAdds, LinePassesOn};
ghost use Rattle.refutation_rules.specs.Tests.{leads, leads_to, leads_within, carries};

use crate::outcome::one_more;
use crate::{NoMemory, Outcome, Rules};
use branch_facts::BranchFacts;
use shq_nnf::Shape;

impl<'a> Rules<'a> {
    // Whether an edge of a role below this one leads from one node to the other.
    pub(crate) fn has_edge(&self, branch: &BranchFacts, role: u32, from: u32, to: u32) -> bool
        ensures { result ≡ leads self.now branch.now role from to }
    {
        let bound = self.role_bound();
        let own = branch.has_edge(role, from, to);
        own || self.has_lower_edge(branch, bound, role, from, to)
    }

    // The same for edges of the roles below a bound alone.
    fn has_lower_edge(
        &self,
        branch: &BranchFacts,
        bound: u32,
        role: u32,
        from: u32,
        to: u32,
    ) -> bool
        ensures { result ≡ leads_within self.now branch.now bound role from to }
    {
        (0..bound).any(|lower| self.below(lower, role) && branch.has_edge(lower, from, to))
    }

    // Whether such an edge leads to a known node.
    pub(crate) fn leads_to(&self, branch: &BranchFacts, role: u32, from: u32, to: u32) -> bool
        ensures { result ≡ leads_to self.now branch.now role from to }
    {
        branch.knows(to) && self.has_edge(branch, role, from, to)
    }

    // What a universal restriction says of a successor.
    pub(crate) fn all(
        &self,
        branch: &BranchFacts,
        node: u32,
        end: u32,
        concept: u32,
    ) -> Result<Option<Outcome>, NoMemory>
        requires { IsBranch (length self.now.table) branch.now }
        ensures { IfOk result (λ o. IsOutcome self.now branch.now (all_line node end concept) o) }
    {
        let filler = self.said_of(branch, node, end, concept);
        one_more(self.alloc, end, filler)
    }

    // The filler of the restriction, where the successor is one.
    fn said_of(&self, branch: &BranchFacts, node: u32, end: u32, concept: u32) -> Option<u32>
        requires { IsBranch (length self.now.table) branch.now }
        ensures { LineAdds self.now branch.now (all_line node end concept) end result }
    {
        let Some(shape) = self.shape_in_label(branch, node, concept) else {
            return None
        };
        match shape {
            Shape::AllOf(role, filler) => {
                if self.leads_to(branch, role, node, end) {
                    Some(filler)
                } else {
                    None
                }
            }
            _ => None,
        }
    }

    // A universal restriction that a transitive role passes on to a successor.
    pub(crate) fn carry(
        &mut self,
        branch: &BranchFacts,
        node: u32,
        end: u32,
        role: u32,
        concept: u32,
    ) -> Result<Option<Outcome>, NoMemory>
        requires { IsBranch (length self.old.table) branch.now }
        ensures outcome { IfOk result (λ o. IsOutcome self.new branch.now (carry_line node end role concept) o) }
        ensures kept { Extends self.old.table self.new.table }
        ensures same { IsSameButTable self.old self.new }
    {
        let Some(filler) = self.passed_on(branch, node, end, role, concept) else {
            return Ok(None);
        };
        let number = self.put(Shape::AllOf(role, filler))?;
        one_more(self.alloc, end, Some(number))
    }

    // The filler of the restriction, where the role passes it on.
    fn passed_on(
        &self,
        branch: &BranchFacts,
        node: u32,
        end: u32,
        role: u32,
        concept: u32,
    ) -> Option<u32>
        requires { IsBranch (length self.now.table) branch.now }
        ensures { LinePassesOn self.now branch.now node end role concept result }
    {
        let Some(shape) = self.shape_in_label(branch, node, concept) else {
            return None
        };
        match shape {
            Shape::AllOf(upper, filler) => {
                if self.carries(branch, role, upper, node, end) {
                    Some(filler)
                } else {
                    None
                }
            }
            _ => None,
        }
    }

    // Whether the role is transitive and below the upper one, and leads from one node to the other.
    fn carries(&self, branch: &BranchFacts, role: u32, upper: u32, from: u32, to: u32) -> bool
        ensures { result ≡ carries self.now branch.now role upper from to }
    {
        self.is_transitive(role)
            && self.below(role, upper)
            && branch.knows(to)
            && self.has_edge(branch, role, from, to)
    }
}
