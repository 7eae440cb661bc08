// Families whose smallest sets and repairs were worked out by hand, each under every budget.

ghost use Rattle.std.specs.Prelude.{◌≡◌, ◌++◌, []};
ghost use Rattle.set_questions.specs.InOrder.{HaveOneLimit};

use crate::checks::check;
use crate::written_sets::{are_among, are_sets, sets_of};
use axiom_sets::AxiomSet;
use hitting_set_tree::{Found, enumerate};
use repair_list::repairs;
use set_questions::{Entail, SetOracle};
use shq_terms::NoMemory;
use std::alloc::Global;
use std::process::Abort;
use std::test::Fail;

/// How many numbers there are, the sets that are told, the smallest of them, and the repairs.
#[derive(Clone, Copy)]
struct Family {
    name: &'static str,
    count: u32,
    told: &'static [&'static str],
    smallest: &'static [&'static str],
    repairs: &'static [&'static str],
}

const FAMILIES: &[Family] = &[
    Family {
        name: "two of three",
        count: 4,
        told: &["12", "23", "13"],
        smallest: &["12", "13", "23"],
        repairs: &["12", "13", "23"],
    },
    Family {
        name: "one in all",
        count: 4,
        told: &["123", "2", "24"],
        smallest: &["2"],
        repairs: &["2"],
    },
    Family {
        name: "the empty set",
        count: 4,
        told: &["-", "12"],
        smallest: &["-"],
        repairs: &[],
    },
    Family {
        name: "no set",
        count: 4,
        told: &[],
        smallest: &[],
        repairs: &["-"],
    },
    Family {
        name: "one number in common",
        count: 7,
        told: &["127", "347", "567"],
        smallest: &["127", "347", "567"],
        repairs: &["135", "136", "145", "146", "235", "236", "245", "246", "7"],
    },
];

/// A budget that suffices for each of the families.
const AMPLE: u64 = 1000;

/// What is found, beside what is wanted.
#[derive(Clone, Copy)]
struct Outcome {
    is_finished: bool,
    is_whole: bool,
    is_part: bool,
    is_nothing: bool,
}

fn judged(found: &[AxiomSet], list: &[AxiomSet], is_finished: bool, family: Family) -> Outcome {
    Outcome {
        is_finished,
        is_whole: are_sets(found, family.smallest) && are_sets(list, family.repairs),
        is_part: are_among(found, family.smallest) && are_among(list, family.repairs),
        is_nothing: found.is_empty() && list.is_empty(),
    }
}

/// What is found by an object that was not asked yet.
fn outcome_by<E: Entail>(alloc: Global, oracle: &mut E, family: Family) -> Result<Outcome, NoMemory>
    requires { (E.meaning oracle.old).taken ≡ [] }
{
    let found = enumerate(alloc, oracle)?;
    outcome_in(alloc, &found, family)
}

fn outcome_in(alloc: Global, found: &Found, family: Family) -> Result<Outcome, NoMemory>
    requires { HaveOneLimit (found.now.justifications.items ++ found.now.leaves.items) }
{
    let list = repairs(alloc, found)?;
    Ok(judged(&found.justifications, &list, found.finished, family))
}

/// What is found within a budget.
fn outcome_of(alloc: Global, family: Family, budget: u64) -> Result<Outcome, NoMemory> {
    let sets = sets_of(alloc, family.count, family.told)?;
    let mut oracle = SetOracle::new(alloc, family.count, sets, budget);
    outcome_by(alloc, &mut oracle, family)
}

/// Whether all is found, and under each smaller budget a part, and nothing by none.
fn is_found(alloc: Global, family: Family) -> Result<bool, NoMemory> {
    let whole = outcome_of(alloc, family, AMPLE)?;
    let mut is_so = whole.is_finished && whole.is_whole;
    for budget in 0..AMPLE {
        let part = outcome_of(alloc, family, budget)?;
        is_so &= part.is_part;
        is_so &= budget > 0 || part.is_nothing && !part.is_finished;
        if part.is_finished {
            break;
        }
    }
    Ok(is_so)
}

fn test_families(rt: &impl Abort, alloc: Global, families: &[Family]) -> Result<(), NoMemory> {
    for family in families {
        check(rt, is_found(alloc, *family)?, family.name);
    }
    Ok(())
}

#[test]
fn smallest_sets_and_repairs(rt: HostRuntime) -> Result<(), Fail> {
    test_families(&rt, rt.alloc(), FAMILIES)?;
    Ok(())
}
