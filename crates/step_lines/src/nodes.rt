// The line of new nodes.
ghost use Rattle.std.specs.Prelude.{◌≡◌, IfOk};
ghost use Rattle.search_trace.specs.RuleLine.{line_of};
ghost use Rattle.calculus_specs.specs.Shape.{shape_of};
ghost use Rattle.step_finders.specs.Making.{IsMaking};
ghost use Rattle.step_lines.specs.Kinds.{making_line, ServesNewNodes};

use crate::grounded::one_ground;
use crate::{GroundedLine, NoMemory};
use calculus_specs::Fact;
use search_trace::Line;
use std::alloc::Global;
use step_finders::{NewNodes, Rules, Shape, State, StateWithRules, count_of};

// The line by which the concept makes nodes.
fn making_line<R: Rules>(rules: &R, parent: u32, first: u32, concept: u32) -> Line
    ensures { line_of result ≡ making_line (shape_of (R.context rules.now).table concept) parent first concept }
{
    match rules.shape(concept) {
        Shape::Min(..) => Line::Least(parent, first, concept),
        _ => Line::SomeOf(parent, first, concept),
    }
}

/// The line by which nodes are made, the first of which is the next node of the state, and the fact that it rests on.
///
/// # Errors
///
/// Out of memory.
pub fn line_of_new_nodes<S: State, R: Rules>(
    alloc: Global,
    search: &StateWithRules<'_, S, R>,
    new: &NewNodes,
) -> Result<GroundedLine, NoMemory>
    requires making { IsMaking (R.context search.now.rules.now) (S.facts search.now.state.now) new.now }
    ensures { IfOk result
        (λ g. ServesNewNodes (R.context search.now.rules.now) (S.facts search.now.state.now) new.now (line_of g.line)
        g.grounds.items) }
{
    search.rules.is_ready();
    let grounds = one_ground(alloc, Fact::Has(new.parent, new.concept))?;
    let line = making_line(search.rules, new.parent, count_of(search), new.concept);
    Ok(GroundedLine { line, grounds })
}
