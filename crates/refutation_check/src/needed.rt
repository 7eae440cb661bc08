// Which lines of a refutation are needed, by going back from the ends of its branches to what each line rests on, as
// proofs of unsatisfiability are trimmed (M. J. H. Heule, W. A. Hunt and N. Wetzler, *Trimming while Checking Clausal
// Proofs*, FMCAD 2013).
ghost use Rattle.std.specs.Prelude.{◌≡◌, ◌≤◌, [], ◌∷◌, OnOk, IfOk, length};
ghost use Rattle.ontology_limits.specs.Numbers.{Extends};
ghost use Rattle.refutation_check.specs.Checkable.{IsCheckable};
ghost use Rattle.refutation_check.specs.Open.{branches, AreNumberedBranches};
ghost use Rattle.refutation_check.specs.Steps.{IsGoingOn};

use crate::NoMemory;
use crate::checking::are_in;
use crate::lines::advance;
use crate::open_branches::OpenBranches;
use crate::support::Support;
use axiom_sets::AxiomSet;
use refutation_rules::{Line, Outcome, Premise, Refutation, Rules};
use shq_terms::{Ontology, Query};
use std::alloc::Global;

/// For each line of a refutation whether a branching or the end of a branch rests on it, by whichever lines between.
/// The others can be left out of a valid refutation; [`check`](crate::check) tells whether what is left is one.
///
/// # Errors
///
/// Out of memory.
pub fn needed_lines(
    alloc: Global,
    ontology: &Ontology,
    set: &AxiomSet,
    query: &Query,
    refutation: &Refutation,
) -> Result<Vec<bool>, NoMemory>
    requires set { set.now.limit ≡ length ontology.now.axioms }
    requires checkable { IsCheckable ontology.now query.now }
    requires lines { length refutation.now.lines ≤ 4294967293 }
{
    let _limit = set.limit();
    if !are_in(refutation.axioms_used(), set) {
        return Ok(Vec::new(alloc));
    }
    let mut rules = Rules::new(alloc, ontology, query, refutation)?;
    let mut support = Support::new(alloc);
    follow_all(alloc, &mut rules, refutation.lines(), &mut support)?;
    support.needed()
}

// Reads lines from one branch that knows nothing, as far as they can be read.
fn follow_all(
    alloc: Global,
    rules: &mut Rules<'_>,
    lines: &[Line],
    support: &mut Support,
) -> Result<(), NoMemory>
    requires { length lines.now ≤ 4294967293 }
{
    let mut stack = OpenBranches::new(alloc);
    let mut premises = Vec::new(alloc);
    follow_on(rules, &mut stack, lines, &mut premises, support)
}

fn follow_on(
    rules: &mut Rules<'_>,
    stack: &mut OpenBranches,
    lines: &[Line],
    premises: &mut Vec<Premise>,
    support: &mut Support,
) -> Result<(), NoMemory>
    requires stack { AreNumberedBranches (length rules.old.table) (branches stack.old) }
{
    for line in lines {
        if !follow(rules, stack, line, premises, support)? {
            return Ok(());
        }
    }
    Ok(())
}

// Reads one line more, and notes what it rests on. `false` where no branch is open, or where the premises of the line
// do not hold in the first one.
fn follow(
    rules: &mut Rules<'_>,
    stack: &mut OpenBranches,
    line: &Line,
    premises: &mut Vec<Premise>,
    support: &mut Support,
) -> Result<bool, NoMemory>
    requires { AreNumberedBranches (length rules.old.table) (branches stack.old) }
    ensures { IfOk result (IsGoingOn rules.new stack.new) }
{
    match advance(rules, stack, line)? {
        Some(outcome) => {
            note(rules, line, &outcome, premises, support)?;
            Ok(true)
        }
        None => Ok(false),
    }
}

// Notes what the line rests on, and what it leaves.
fn note(
    rules: &mut Rules<'_>,
    line: &Line,
    outcome: &Outcome,
    premises: &mut Vec<Premise>,
    support: &mut Support,
) -> Result<(), NoMemory>
    ensures { Extends rules.old.table rules.new.table }
{
    premises.clear();
    rules.put_premises(line, premises)?;
    support.put(premises, outcome)
}
