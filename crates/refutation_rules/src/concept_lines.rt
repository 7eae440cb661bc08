// Lines by what a node's concept says of that node alone.
ghost use Rattle.std.specs.Prelude.{◌≡◌, [], ◌∷◌, IfOk, length, map};
ghost use Rattle.calculus_specs.specs.declared.facts.Fact.TheVariants.{Has};
ghost use Rattle.shq_nnf.specs.Numbers.{Extends};
ghost use Rattle.calculus_specs.specs.Line.Line.{and_line, or_line, choose_line, pair_line, bottom_line, clash_line};
ghost use Rattle.refutation_rules.specs.Outcomes.{IsBranch};
ghost use Rattle.refutation_rules.specs.RefutationContext.{IsOutcome, IsSameButTable, LineChooses, LineCloses};

use crate::outcome::either;
use crate::{NoMemory, Outcome, Rules};
use branch_facts::BranchFacts;
use calculus_specs::Fact;
use shq_nnf::Shape;
use std::alloc::Global;

impl<'a> Rules<'a> {
    // The parts of an intersection.
    pub(crate) fn and(
        &self,
        branch: &BranchFacts,
        node: u32,
        concept: u32,
    ) -> Result<Option<Outcome>, NoMemory>
        requires { IsBranch (length self.now.table) branch.now }
        ensures { IfOk result (λ o. IsOutcome self.now branch.now (and_line node concept) o) }
    {
        let Some(shape) = self.shape_in_label(branch, node, concept) else {
            return Ok(None)
        };
        match shape {
            Shape::And(parts) => Ok(Some(Outcome::More(all_had(self.alloc, node, parts)?))),
            _ => Ok(None),
        }
    }

    // A branch for each part of a union.
    pub(crate) fn or(
        &self,
        branch: &BranchFacts,
        node: u32,
        concept: u32,
    ) -> Result<Option<Outcome>, NoMemory>
        requires { IsBranch (length self.now.table) branch.now }
        ensures { IfOk result (λ o. IsOutcome self.now branch.now (or_line node concept) o) }
    {
        let Some(shape) = self.shape_in_label(branch, node, concept) else {
            return Ok(None)
        };
        match shape {
            Shape::Or(parts) => Ok(Some(Outcome::Branches(all_had(self.alloc, node, parts)?))),
            _ => Ok(None),
        }
    }

    // A branch where the node is in the concept, and one where it is in the complement.
    pub(crate) fn choose(
        &mut self,
        branch: &BranchFacts,
        node: u32,
        concept: u32,
    ) -> Result<Option<Outcome>, NoMemory>
        requires { IsBranch (length self.old.table) branch.now }
        ensures outcome { IfOk result (λ o. IsOutcome self.new branch.now (choose_line node concept) o) }
        ensures kept { Extends self.old.table self.new.table }
        ensures same { IsSameButTable self.old self.new }
    {
        let Some(number) = self.chosen(branch, node, concept) else {
            return Ok(None)
        };
        let complement = self.negated(number)?;
        either(
            self.alloc,
            Fact::Has(node, number),
            Fact::Has(node, complement),
        )
    }

    fn chosen(&self, branch: &BranchFacts, node: u32, concept: u32) -> Option<u32>
        ensures { LineChooses self.now branch.now node concept result }
    {
        let Some(number) = self.number(concept) else {
            return None
        };
        if branch.knows(node) {
            Some(number)
        } else {
            None
        }
    }

    // A branch where the nodes are the same, and one where they are apart.
    pub(crate) fn pair(
        &self,
        branch: &BranchFacts,
        first: u32,
        second: u32,
    ) -> Result<Option<Outcome>, NoMemory>
        ensures { IfOk result (λ o. IsOutcome self.now branch.now (pair_line first second) o) }
    {
        if !(branch.knows(first) && branch.knows(second)) {
            return Ok(None);
        }
        either(
            self.alloc,
            Fact::Same(first, second),
            Fact::Apart(first, second),
        )
    }

    // A node in `owl:Nothing`.
    pub(crate) fn nothing(&self, branch: &BranchFacts, node: u32) -> Option<Outcome>
        requires { IsBranch (length self.now.table) branch.now }
        ensures { IsOutcome self.now branch.now (bottom_line node) result }
    {
        let bottom = self.bottom();
        Outcome::closed_if(self.is_in(branch, node, bottom))
    }

    // A node in a class and in its complement.
    pub(crate) fn clash(
        &mut self,
        branch: &BranchFacts,
        node: u32,
        concept: u32,
    ) -> Result<Option<Outcome>, NoMemory>
        requires { IsBranch (length self.old.table) branch.now }
        ensures outcome { IfOk result (λ o. IsOutcome self.new branch.now (clash_line node concept) o) }
        ensures kept { Extends self.old.table self.new.table }
        ensures same { IsSameButTable self.old self.new }
    {
        let Some(class) = self.class(branch, node, concept) else {
            return Ok(None)
        };
        let complement = self.put(Shape::NotName(class))?;
        Ok(Outcome::closed_if(self.has(branch, node, complement)))
    }

    // The class that the concept is, where the known node has it.
    fn class(&self, branch: &BranchFacts, node: u32, concept: u32) -> Option<u32>
        requires { IsBranch (length self.now.table) branch.now }
        ensures { LineCloses self.now branch.now node concept result }
    {
        let Some(shape) = self.shape_in_label(branch, node, concept) else {
            return None
        };
        match shape {
            Shape::Name(class) => Some(class),
            _ => None,
        }
    }
}

// A node in each of the concepts.
fn all_had(alloc: Global, node: u32, concepts: &[u32]) -> Result<Vec<Fact<u32>>, NoMemory>
    ensures { IfOk result (λ facts. facts.items ≡ map (Has node) concepts.now) }
{
    Ok(
        concepts
            .iter()
            .map(|concept| Fact::Has(node, *concept))
            .collect(alloc)?,
    )
}
