// How many alternatives a branch has, and the marks of their facts.
ghost use Rattle.std.specs.Prelude.{◌≡◌, ◌<◌, IfOk, OnErr, length};
ghost use Rattle.std.specs.FinSet as set;
ghost use Rattle.step_lines.specs.Kinds.{alternative_count, part_count};
ghost use Rattle.calculus_specs.specs.Shape.{shape_of};

use crate::NoMemory;
use std::alloc::Global;
use step_agenda::Deps;
use step_finders::{Rules, Shape};
use tableau_specs::Branch;

/// How many alternatives there are.
///
/// # Errors
///
/// Out of numbers: no `u32` counts so many.
pub(crate) fn count_alternatives<R: Rules>(rules: &R, branch: Branch) -> Result<u32, NoMemory>
    ensures count { IfOk result (λ n. n ≡ alternative_count (R.context rules.now).table branch) }
    ensures too_many { OnErr result (u32.MAX < alternative_count (R.context rules.now).table branch) }
{
    match branch {
        Branch::Or(_, concept) => count_parts(rules, concept),
        Branch::Choose(_, _) => Ok(2),
        Branch::Pair(_, _) => Ok(2),
    }
}

// How many parts the concept has, where it is a union.
fn count_parts<R: Rules>(rules: &R, concept: u32) -> Result<u32, NoMemory>
    ensures count { IfOk result (λ n. n ≡ part_count (shape_of (R.context rules.now).table concept)) }
    ensures too_many { OnErr result (u32.MAX < part_count (shape_of (R.context rules.now).table concept)) }
{
    match rules.shape(concept) {
        Shape::Or(parts) => length_of(parts),
        Shape::Top
        | Shape::Bottom
        | Shape::Name(_)
        | Shape::NotName(_)
        | Shape::And(_)
        | Shape::SomeOf(_, _)
        | Shape::AllOf(_, _)
        | Shape::Min(_, _, _)
        | Shape::Max(_, _, _) => Ok(0),
    }
}

fn length_of(parts: &[u32]) -> Result<u32, NoMemory>
    ensures count { IfOk result (λ n. n ≡ length parts.now) }
    ensures too_many { OnErr result (u32.MAX < length parts.now) }
{
    if parts.len() > u32::MAX as usize {
        return Err(NoMemory);
    }
    Ok(parts.len() as u32)
}

/// The marks with one more.
pub(crate) fn with_mark(alloc: Global, marks: &Deps, mark: u32) -> Result<Deps, NoMemory>
    ensures { IfOk result (λ u. u ≡ set.insert marks.now mark) }
{
    let own = Deps::one(alloc, mark)?;
    let all = marks.union(alloc, &own)?;
    Ok(all)
}
