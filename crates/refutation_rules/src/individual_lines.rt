// Lines of the first nodes, which stand for individuals and for one element more.
ghost use Rattle.std.specs.Prelude.{◌≡◌, IfOk, IfSome, length, option_map};
ghost use Rattle.shq_nnf.specs.Numbers.{Extends};
ghost use Rattle.calculus_specs.specs.Line.Line.{start_line, fact_line, differ_line};
ghost use Rattle.calculus_specs.specs.Reading.{read_fact};
ghost use Rattle.refutation_rules.specs.Outcomes.{IsBranch};
ghost use Rattle.refutation_rules.specs.Assertions.{form_behind, HasCountsWithin, is_of_first, IsFactFound};
ghost use Rattle.refutation_rules.specs.RefutationContext.{question, IsOutcome, IsSameButTable};
ghost use Rattle.refutation_rules.specs.Tests.{node_asked, are_differing};

use crate::assertions::fact_at;
use crate::outcome::one_fact;
use crate::{FirstNodes, NoMemory, Outcome, Rules};
use branch_facts::BranchFacts;
use calculus_specs::Fact;
use shq_terms::Concept;

impl<'a> Rules<'a> {
    // The first nodes, where nothing is known yet and the one in question is among them.
    pub(crate) fn start(&self, branch: &BranchFacts) -> Option<Outcome>
        ensures { IsOutcome self.now branch.now start_line result }
    {
        if branch.mark().nodes != 0 {
            return None;
        }
        let Some(asked) = self.asked_node() else {
            return None
        };
        let count = self.individual_count() + 1;
        let (sub, not_sup) = self.query_numbers();
        Some(Outcome::Started(FirstNodes {
            count,
            asked,
            sub,
            not_sup,
        }))
    }

    // The fact at a place of an assertion that is named.
    pub(crate) fn fact(
        &mut self,
        branch: &BranchFacts,
        axiom: u32,
        place: u32,
    ) -> Result<Option<Outcome>, NoMemory>
        requires { IsBranch (length self.old.table) branch.now }
        ensures outcome { IfOk result (IsOutcome self.new branch.now (fact_line «axiom» place)) }
        ensures kept { Extends self.old.table self.new.table }
        ensures same { IsSameButTable self.old self.new }
    {
        if !branch.knows(0) {
            return Ok(None);
        }
        let fact = self.numbered_fact_at(axiom, place)?;
        one_fact(self.alloc, fact)
    }

    // The fact over concepts by number.
    fn numbered_fact_at(&mut self, axiom: u32, place: u32) -> Result<Option<Fact<u32>>, NoMemory>
        ensures fact { IfOk result (IsFactFound self.new.table ((question self.new).fact_of «axiom» place)) }
        ensures kept { Extends self.old.table self.new.table }
        ensures same { IsSameButTable self.old self.new }
    {
        match self.named_fact_at(axiom, place) {
            Some(fact) => Ok(Some(self.numbered(fact)?)),
            None => Ok(None),
        }
    }

    // The fact, if it is one of listed individuals.
    fn named_fact_at(&self, axiom: u32, place: u32) -> Option<Fact<&'a Concept>>
        ensures fact { option_map (read_fact form_behind) result ≡ (question self.now).fact_of «axiom» place }
        ensures counts { IfSome result HasCountsWithin }
    {
        let Some(named) = self.named_axiom(axiom) else {
            return None
        };
        let Some(fact) = fact_at(&named.axiom, place) else {
            return None
        };
        if is_of_first(&fact, self.individual_count()) {
            Some(fact)
        } else {
            None
        }
    }

    // The same fact over concepts by number.
    fn numbered(&mut self, fact: Fact<&Concept>) -> Result<Fact<u32>, NoMemory>
        requires { HasCountsWithin fact }
        ensures fact { IfOk result
            (λ f. IsFactFound self.new.table (Some (read_fact form_behind fact.entry)) (Some f)) }
        ensures kept { Extends self.old.table self.new.table }
        ensures same { IsSameButTable self.old self.new }
    {
        match fact {
            Fact::Has(node, class) => Ok(Fact::Has(node, self.intern(class)?)),
            Fact::Edge(role, from, to) => Ok(Fact::Edge(role, from, to)),
            Fact::Apart(first, second) => Ok(Fact::Apart(first, second)),
            Fact::Same(first, second) => Ok(Fact::Same(first, second)),
        }
    }

    // Two nodes that are apart and one.
    pub(crate) fn differ(&self, branch: &BranchFacts, first: u32, second: u32) -> Option<Outcome>
        ensures { IsOutcome self.now branch.now (differ_line first second) result }
    {
        Outcome::closed_if(are_differing(branch, first, second))
    }
}

// Whether the nodes of the fact are among the first ones.
fn is_of_first(fact: &Fact<&Concept>, count: u32) -> bool
    ensures { result ≡ is_of_first count fact.now }
{
    match fact {
        Fact::Has(node, _) => *node < count,
        Fact::Edge(_, from, to) => *from < count && *to < count,
        Fact::Apart(first, second) | Fact::Same(first, second) => {
            *first < count && *second < count
        }
    }
}

// Whether the two are known, apart and one.
fn are_differing(branch: &BranchFacts, first: u32, second: u32) -> bool
    ensures { result ≡ are_differing branch.now first second }
{
    branch.knows(first)
        && branch.knows(second)
        && branch.are_apart(first, second)
        && branch.representative(first) == branch.representative(second)
}
