// The verdict on a refutation.
ghost use Rattle.std.specs.FinSet as sets;
ghost use Rattle.std.specs.Prelude.{◌≡◌, ◌≤◌, ◌↔◌, IsTrue, IfOk, length};
ghost use Rattle.std.specs.List.{list_all};
ghost use Rattle.axiom_sets.specs.NumberSets.{IsPart};
ghost use Rattle.axiom_sets.specs.Sets.{member_list};
ghost use Rattle.refutation_check.specs.Checkable.{IsCheckable};
ghost use Rattle.refutation_check.specs.Verdicts.{IsJudgedAs};

use crate::NoMemory;
use crate::lines::read;
use axiom_sets::AxiomSet;
use refutation_rules::{Refutation, Rules};
use shq_terms::{Ontology, Query};
use std::alloc::Global;

/// What the checker says of a refutation.
#[derive(Clone, Copy, Debug, PartialEq, Eq)]
pub enum Verdict {
    /// It is valid.
    Accepted,
    /// The place of the first line that breaks the rules, from 1; the number of lines and one more where a branch is
    /// left open; 0 where an axiom that it names is not in the set.
    Rejected(u32),
}

/// Whether the refutation of the query is valid over a set of axioms of the ontology. Whatever axioms the refutation
/// names, also some that the ontology has not, it gets a verdict. A role that is counted need not be simple, and of a
/// query on an individual that is not listed each refutation is rejected at its first line.
///
/// # Errors
///
/// Out of memory.
pub fn check(
    alloc: Global,
    ontology: &Ontology,
    set: &AxiomSet,
    query: &Query,
    refutation: &Refutation,
) -> Result<Verdict, NoMemory>
    requires set { set.now.limit ≡ length ontology.now.axioms }
    requires checkable { IsCheckable ontology.now query.now }
    requires lines { length refutation.now.lines ≤ 4294967293 }
    ensures { IfOk result (IsJudgedAs ontology.now set.now query.now refutation.now) }
{
    let _limit = set.limit();
    if !are_in(refutation.axioms_used(), set) {
        return Ok(Verdict::Rejected(0));
    }
    let mut rules = Rules::new(alloc, ontology, query, refutation)?;
    read(alloc, &mut rules, refutation.lines())
}

// Whether each axiom that is named is in the set, whatever the greatest numbers of the two may be.
pub(crate) fn are_in(named: &AxiomSet, set: &AxiomSet) -> bool
    ensures { IsTrue result ↔ IsPart named.now.members set.now.members }
{
    let _limit = named.limit();
    are_all_in(named, set)
}

fn are_all_in(named: &AxiomSet, set: &AxiomSet) -> bool
    ensures { result ≡ list_all (sets.contains set.now.members) (member_list named.now) }
{
    let mut all = true;
    for number in named.numbers() {
        let here = is_in(set, number);
        all = all && here;
    }
    all
}

fn is_in(set: &AxiomSet, number: u32) -> bool
    ensures { result ≡ sets.contains set.now.members number }
{
    let limit = set.limit();
    if number < 1 || number > limit {
        return false;
    }
    set.has(number)
}
