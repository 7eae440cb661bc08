// Lines that make new nodes.
ghost use Rattle.std.specs.Prelude.{◌≡◌, ◌+◌, ◌^◌, ◌≤◌, length};
ghost use Rattle.std.specs.List.{list_any, range_with_len};
ghost use Rattle.branch_facts.specs.NumberedBranch.{has_node};
ghost use Rattle.calculus_specs.specs.Line.Line.{some_line, least_line};
ghost use Rattle.refutation_rules.specs.Outcomes.{IsBranch};
ghost use Rattle.refutation_rules.specs.RefutationContext.{IsOutcome};
ghost use Rattle.refutation_rules.specs.Tests.{made_if_new};

use crate::{NewNodes, Outcome, Rules};
use branch_facts::BranchFacts;
use shq_nnf::Shape;

impl<'a> Rules<'a> {
    // A new successor for an existential restriction.
    pub(crate) fn some(
        &self,
        branch: &BranchFacts,
        node: u32,
        first: u32,
        concept: u32,
    ) -> Option<Outcome>
        requires { IsBranch (length self.now.table) branch.now }
        ensures { IsOutcome self.now branch.now (some_line node first concept) result }
    {
        let Some(shape) = self.shape_in_label(branch, node, concept) else {
            return None
        };
        match shape {
            Shape::SomeOf(role, filler) => {
                made(
                    branch,
                    NewNodes {
                        from: node,
                        role,
                        concept: filler,
                        first,
                        count: 1,
                    },
                )
            }
            _ => None,
        }
    }

    // New successors for an "at least" restriction.
    pub(crate) fn least(
        &self,
        branch: &BranchFacts,
        node: u32,
        first: u32,
        concept: u32,
    ) -> Option<Outcome>
        requires { IsBranch (length self.now.table) branch.now }
        ensures { IsOutcome self.now branch.now (least_line node first concept) result }
    {
        let Some(shape) = self.shape_in_label(branch, node, concept) else {
            return None
        };
        match shape {
            Shape::Min(count, role, filler) => {
                made(
                    branch,
                    NewNodes {
                        from: node,
                        role,
                        concept: filler,
                        first,
                        count,
                    },
                )
            }
            _ => None,
        }
    }
}

// The nodes, where there are numbers for them and none is known.
fn made(branch: &BranchFacts, nodes: NewNodes) -> Option<Outcome>
    ensures { result ≡ made_if_new branch.now nodes }
{
    if u64::from(nodes.first) + u64::from(nodes.count) > 1 << 32 {
        return None;
    }
    if knows_any(branch, nodes.first, nodes.count) {
        return None;
    }
    Some(Outcome::Nodes(nodes))
}

// Whether one of so many nodes from the first one on is known.
#[tactic(auto, using(crate::proofs::Nodes::any_range_more))]
fn knows_any(branch: &BranchFacts, first: u32, count: u32) -> bool
    requires { first + count ≤ 2 ^ 32 }
    ensures { result ≡ list_any (has_node branch.now) (range_with_len first count) }
{
    let mut found = false;
    for offset in 0..count {
        let here = branch.knows(first + offset);
        found = found || here;
    }
    found
}
