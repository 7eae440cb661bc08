// The line of more successors than an "at most" restriction allows.
ghost use Rattle.std.specs.Prelude.{◌≡◌, ◌<◌, length};
ghost use Rattle.std.specs.List.{list_all};
ghost use Rattle.calculus_specs.specs.State.{are_apart, all_apart};
ghost use Rattle.calculus_specs.specs.Line.Line.{most_line};
ghost use Rattle.refutation_rules.specs.Outcomes.{IsBranch};
ghost use Rattle.refutation_rules.specs.RefutationContext.{IsOutcome};
ghost use Rattle.refutation_rules.specs.Tests.{is_filler, fill, exceed};

use crate::{Outcome, Rules};
use branch_facts::BranchFacts;
use shq_nnf::Shape;

impl<'a> Rules<'a> {
    // Successors in the filler that are one more than the restriction allows, and pairwise apart.
    pub(crate) fn most(
        &self,
        branch: &BranchFacts,
        node: u32,
        concept: u32,
        ends: &[u32],
    ) -> Option<Outcome>
        requires { IsBranch (length self.now.table) branch.now }
        ensures { IsOutcome self.now branch.now (most_line node concept ends.now) result }
    {
        let Some(shape) = self.shape_in_label(branch, node, concept) else {
            return None
        };
        match shape {
            Shape::Max(count, role, filler) => {
                Outcome::closed_if(self.exceed(branch, node, count, role, filler, ends))
            }
            _ => None,
        }
    }

    // Whether these are one more than so many fillers, and pairwise apart.
    fn exceed(
        &self,
        branch: &BranchFacts,
        node: u32,
        count: u32,
        role: u32,
        filler: u32,
        ends: &[u32],
    ) -> bool
        requires branch { IsBranch (length self.now.table) branch.now }
        requires listed { filler < length self.now.table }
        ensures { result ≡ exceed self.now branch.now node count role filler ends.now }
    {
        ends.len() == count as usize + 1
            && self.are_fillers(branch, node, role, filler, ends)
            && are_all_apart(branch, ends)
    }

    fn are_fillers(
        &self,
        branch: &BranchFacts,
        node: u32,
        role: u32,
        filler: u32,
        ends: &[u32],
    ) -> bool
        requires branch { IsBranch (length self.now.table) branch.now }
        requires listed { filler < length self.now.table }
        ensures { result ≡ fill self.now branch.now node role filler ends.now }
    {
        let mut fill = true;
        for end in ends {
            let here = self.is_filler(branch, node, role, filler, *end);
            fill = fill && here;
        }
        fill
    }

    // Whether the known node is the end of an edge and has the filler.
    fn is_filler(&self, branch: &BranchFacts, node: u32, role: u32, filler: u32, end: u32) -> bool
        requires branch { IsBranch (length self.now.table) branch.now }
        requires listed { filler < length self.now.table }
        ensures { result ≡ is_filler self.now branch.now node role filler end }
    {
        self.leads_to(branch, role, node, end) && self.has(branch, end, filler)
    }
}

// Whether nodes at any two places are apart.
fn are_all_apart(branch: &BranchFacts, nodes: &[u32]) -> bool
    ensures { result ≡ all_apart branch.now.facts nodes.now }
{
    let mut apart = true;
    for place in 0..nodes.len() {
        let here = is_apart_from(branch, nodes[place], &nodes[place + 1..]);
        apart = apart && here;
    }
    apart
}

fn is_apart_from(branch: &BranchFacts, node: u32, others: &[u32]) -> bool
    ensures { result ≡ list_all (are_apart branch.now.facts node) others.now }
{
    others.iter().all(|other| branch.are_apart(node, *other))
}
