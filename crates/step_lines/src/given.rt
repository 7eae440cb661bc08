// The line of a given fact.
ghost use Rattle.std.specs.Prelude.{ℕ, List, IfOk};
ghost use Rattle.calculus_specs.specs.declared.facts.Fact.{Fact as PlainFact};
ghost use Rattle.search_trace.specs.RuleLine.{line_of};
ghost use Rattle.step_finders.specs.Giving.{IsGivenAt};
ghost use Rattle.step_lines.specs.Kinds.{ServesGiven};

use crate::{GroundedLine, NoMemory};
use search_trace::Line;
use std::alloc::Global;
use step_finders::{Given, Rules};

/// The line by which a given fact is put, whatever the state: it rests on nothing.
///
/// # Errors
///
/// Out of memory.
pub fn line_of_given<R: Rules>(
    alloc: Global,
    rules: &R,
    given: &Given,
) -> Result<GroundedLine, NoMemory>
    requires { IsGivenAt (R.context rules.now) given.now }
    ensures { IfOk result
        (λ g. (fs : List (PlainFact ℕ))
        → ServesGiven (R.context rules.now) fs given.now (line_of g.line) g.grounds.items) }
{
    rules.is_ready();
    Ok(GroundedLine {
        line: Line::Fact(given.axiom, given.place),
        grounds: Vec::new(alloc),
    })
}
