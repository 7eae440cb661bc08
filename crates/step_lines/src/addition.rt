// The line of an addition.
ghost use Rattle.std.specs.Prelude.{◌≡◌, IfOk};
ghost use Rattle.search_trace.specs.RuleLine.{line_of};
ghost use Rattle.step_finders.specs.Reasons.{HasReason, IsByAnd, IsByAll, IsByCarry};
ghost use Rattle.step_lines.specs.Kinds.{ServesAddition};

use crate::grounded::{one_ground, two_grounds};
use crate::rows::{line_of_begin, line_of_end, line_of_general, line_of_named};
use crate::{GroundedLine, NoMemory};
use calculus_specs::Fact;
use search_trace::Line;
use std::alloc::Global;
use step_finders::{Addition, Reason, Rules, State, StateWithRules};

// The line of an intersection.
fn line_of_and<S: State, R: Rules>(
    alloc: Global,
    search: &StateWithRules<'_, S, R>,
    node: u32,
    concept: u32,
    part: u32,
) -> Result<GroundedLine, NoMemory>
    requires { IsByAnd (R.context search.now.rules.now) (S.facts search.now.state.now) concept node part }
    ensures { IfOk result
        (λ g. ServesAddition (R.context search.now.rules.now) (S.facts search.now.state.now) node part (line_of g.line)
        g.grounds.items) }
{
    search.rules.is_ready();
    let grounds = one_ground(alloc, Fact::Has(node, concept))?;
    Ok(GroundedLine {
        line: Line::And(node, concept),
        grounds,
    })
}

// The line of a universal restriction.
fn line_of_all<S: State, R: Rules>(
    alloc: Global,
    search: &StateWithRules<'_, S, R>,
    from: u32,
    role: u32,
    concept: u32,
    node: u32,
    filler: u32,
) -> Result<GroundedLine, NoMemory>
    requires { IsByAll (R.context search.now.rules.now) (S.facts search.now.state.now) from role concept node filler }
    ensures { IfOk result
        (λ g. ServesAddition (R.context search.now.rules.now) (S.facts search.now.state.now) node filler
        (line_of g.line) g.grounds.items) }
{
    search.rules.is_ready();
    let grounds = two_grounds(
        alloc,
        Fact::Has(from, concept),
        Fact::Edge(role, from, node),
    )?;
    Ok(GroundedLine {
        line: Line::All(from, node, concept),
        grounds,
    })
}

// The line of a universal restriction that a transitive role carries on.
fn line_of_carry<S: State, R: Rules>(
    alloc: Global,
    search: &StateWithRules<'_, S, R>,
    from: u32,
    role: u32,
    over: u32,
    concept: u32,
    node: u32,
    carried: u32,
) -> Result<GroundedLine, NoMemory>
    requires { IsByCarry (R.context search.now.rules.now) (S.facts search.now.state.now) from role over concept node
        carried }
    ensures { IfOk result
        (λ g. ServesAddition (R.context search.now.rules.now) (S.facts search.now.state.now) node carried
        (line_of g.line) g.grounds.items) }
{
    search.rules.is_ready();
    let grounds = two_grounds(
        alloc,
        Fact::Has(from, concept),
        Fact::Edge(role, from, node),
    )?;
    Ok(GroundedLine {
        line: Line::Carry(from, node, over, concept),
        grounds,
    })
}

/// The line by which a node gets a concept for the reason that was found, and the facts that it rests on.
///
/// # Errors
///
/// Out of memory.
pub fn line_of_addition<S: State, R: Rules>(
    alloc: Global,
    search: &StateWithRules<'_, S, R>,
    addition: &Addition,
) -> Result<GroundedLine, NoMemory>
    requires reason { HasReason (R.context search.now.rules.now) (S.facts search.now.state.now)
        (R.files search.now.rules.now) addition.now.reason
        addition.now.node addition.now.concept }
    ensures { IfOk result
        (λ g. ServesAddition (R.context search.now.rules.now) (S.facts search.now.state.now) addition.now.node
        addition.now.concept
        (line_of g.line) g.grounds.items) }
{
    let node = addition.node;
    let given = addition.concept;
    match addition.reason {
        Reason::And { concept } => line_of_and(alloc, search, node, concept, given),
        Reason::All {
            from,
            role,
            concept,
        } => line_of_all(alloc, search, from, role, concept, node, given),
        Reason::Carry {
            from,
            role,
            over,
            concept,
        } => line_of_carry(alloc, search, from, role, over, concept, node, given),
        Reason::Named { concept, place } => {
            line_of_named(alloc, search, concept, place, node, given)
        }
        Reason::General { row } => line_of_general(alloc, search, row, node, given),
        Reason::Begin { role, end, row } => {
            line_of_begin(alloc, search, role, end, row, node, given)
        }
        Reason::End { from, role, row } => {
            line_of_end(alloc, search, from, role, row, node, given)
        }
    }
}
