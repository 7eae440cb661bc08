// The fact of an alternative.
ghost use Rattle.std.specs.Prelude.{◌≡◌, ℕ, ◌+◌, ◌<◌, List};
ghost use Rattle.calculus_specs.specs.Shape.{Shape as PlainShape, shape_of};
ghost use Rattle.calculus_specs.specs.declared.facts.Fact.TheVariants.{Has as HasFact};
ghost use Rattle.tableau_specs.specs.declared.Branch.TheVariants.{Or as OrBranch, Choose as ChooseBranch};
ghost use Rattle.tableau_specs.specs.declared.Branch.TheVariants.{Pair as PairBranch};
ghost use Rattle.tableau_specs.specs.Steps.{IsAlternative};
ghost use Rattle.tableau_specs.specs.LineLaws.{IsNumbered};
ghost use Rattle.step_lines.specs.Kinds.{part_count, alternative_count};

use calculus_specs::Fact;
use step_finders::{Rules, Shape};
use tableau_specs::Branch;

/// The fact of the alternative of a branch before which there are so many.
pub(crate) fn alternative_after<R: Rules>(rules: &R, branch: Branch, taken: u32) -> Fact<u32>
    requires more { taken < alternative_count (R.context rules.now).table branch }
    requires numbered { IsNumbered (R.context rules.now).table branch }
    ensures { IsAlternative (R.context rules.now).table branch (taken + 1) result }
{
    match branch {
        Branch::Or(node, concept) => Fact::Has(node, part_at(rules, concept, taken)),
        Branch::Choose(node, concept) => {
            Fact::Has(node, filler_or_complement(rules, concept, taken))
        }
        Branch::Pair(first, second) => joined_or_parted(first, second, taken),
    }
}

// The part of a union at a place, from 0.
fn part_at<R: Rules>(rules: &R, concept: u32, place: u32) -> u32
    requires { place < part_count (shape_of (R.context rules.now).table concept) }
    ensures { (x : ℕ) → IsAlternative (R.context rules.now).table (OrBranch x concept) (place + 1) (HasFact x result) }
{
    match rules.shape(concept) {
        Shape::Or(parts) => parts[place as usize],
        _ => unreachable!(),
    }
}

// The concept itself, or its complement.
fn filler_or_complement<R: Rules>(rules: &R, concept: u32, place: u32) -> u32
    requires two { place < 2 }
    requires numbered { IsNumbered (R.context rules.now).table (ChooseBranch 0 concept) }
    ensures { (y : ℕ)
        → IsAlternative (R.context rules.now).table (ChooseBranch y concept) (place + 1) (HasFact y result) }
{
    if place == 0 {
        return concept;
    }
    match rules.complement(concept) {
        Some(complement) => complement,
        None => unreachable!(),
    }
}

// That two nodes are one, or different.
fn joined_or_parted(first: u32, second: u32, place: u32) -> Fact<u32>
    requires { place < 2 }
    ensures { (table : List PlainShape) → IsAlternative table (PairBranch first second) (place + 1) result }
{
    if place == 0 {
        Fact::Same(first, second)
    } else {
        Fact::Apart(first, second)
    }
}
