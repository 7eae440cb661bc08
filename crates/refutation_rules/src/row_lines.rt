// Lines that use rows of axioms.
ghost use Rattle.std.specs.Prelude.{◌≡◌, IfOk, length};
ghost use Rattle.std.specs.List.{list_all};
ghost use Rattle.shq_nnf.specs.Numbers.{Extends};
ghost use Rattle.calculus_specs.specs.State.{has};
ghost use Rattle.calculus_specs.specs.Line.Line.{row_line, range_line};
ghost use Rattle.refutation_rules.specs.Outcomes.{IsBranch};
ghost use Rattle.refutation_rules.specs.RefutationContext.{IsOutcome, IsSameButTable, row_used, range_used};

use crate::outcome::one_more;
use crate::{NoMemory, Outcome, Rules};
use branch_facts::BranchFacts;
use row_cache::{CachedRange, CachedRow};

impl<'a> Rules<'a> {
    // The row of a part of an axiom, for the conjuncts at these positions.
    pub(crate) fn row(
        &mut self,
        branch: &BranchFacts,
        node: u32,
        axiom: u32,
        part: u32,
        positions: &[u32],
    ) -> Result<Option<Outcome>, NoMemory>
        requires { IsBranch (length self.old.table) branch.now }
        ensures outcome { IfOk result (IsOutcome self.new branch.now (row_line node «axiom» part positions.now)) }
        ensures kept { Extends self.old.table self.new.table }
        ensures same { IsSameButTable self.old self.new }
    {
        let row = self.inclusion_row(axiom, part, positions)?;
        let concept = used(branch, node, row);
        one_more(self.alloc, node, concept)
    }

    // What a range axiom says of a successor.
    pub(crate) fn range(
        &mut self,
        branch: &BranchFacts,
        node: u32,
        end: u32,
        axiom: u32,
    ) -> Result<Option<Outcome>, NoMemory>
        requires { IsBranch (length self.old.table) branch.now }
        ensures outcome { IfOk result (λ o. IsOutcome self.new branch.now (range_line node end «axiom») o) }
        ensures kept { Extends self.old.table self.new.table }
        ensures same { IsSameButTable self.old self.new }
    {
        let row = self.range_row(axiom)?;
        let concept = self.class_of_end(branch, node, end, row);
        one_more(self.alloc, end, concept)
    }

    // The class of the range, where an edge of a role below its own leads from one node to the other.
    fn class_of_end(
        &self,
        branch: &BranchFacts,
        node: u32,
        end: u32,
        row: Option<CachedRange>,
    ) -> Option<u32>
        ensures { result ≡ range_used self.now branch.now node end row }
    {
        let Some(row) = row else { return None };
        if branch.knows(node) && self.leads_to(branch, row.role, node, end) {
            Some(row.concept)
        } else {
            None
        }
    }
}

// The concept of the row, where the node is known and has each of the premises.
fn used(branch: &BranchFacts, node: u32, row: Option<CachedRow>) -> Option<u32>
    ensures { result ≡ row_used branch.now node row }
{
    let Some(row) = row else { return None };
    if branch.knows(node) && has_all(branch, node, row.premises.items()) {
        Some(row.concept)
    } else {
        None
    }
}

fn has_all(branch: &BranchFacts, node: u32, concepts: &[u32]) -> bool
    ensures { result ≡ list_all (has branch.now.facts node) concepts.now }
{
    concepts.iter().all(|concept| branch.has(node, *concept))
}
