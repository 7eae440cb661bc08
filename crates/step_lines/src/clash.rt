// The line of a clash.
ghost use Rattle.std.specs.Prelude.{◌≡◌, IfOk};
ghost use Rattle.calculus_specs.specs.Line.Line.{bottom_line, clash_line, differ_line};
ghost use Rattle.search_trace.specs.RuleLine.{line_of};
ghost use Rattle.step_finders.specs.Clashing.{IsShown, HasBottom, HasBoth, HasDiffer};
ghost use Rattle.step_lines.specs.Kinds.{ServesClash, IsLineOf};

use crate::grounded::{one_ground, two_grounds};
use crate::most::line_of_most;
use crate::{GroundedLine, NoMemory};
use calculus_specs::Fact;
use search_trace::Line;
use std::alloc::Global;
use step_finders::{Clash, Rules, State, StateWithRules};

// The line of bottom.
fn line_of_bottom<S: State, R: Rules>(
    alloc: Global,
    search: &StateWithRules<'_, S, R>,
    node: u32,
    concept: u32,
) -> Result<GroundedLine, NoMemory>
    requires { HasBottom (R.context search.now.rules.now) (S.facts search.now.state.now) node concept }
    ensures serves { IfOk result
        (λ g. ServesClash (R.context search.now.rules.now) (S.facts search.now.state.now) (line_of g.line)
        g.grounds.items) }
    ensures line { IfOk result (λ g. line_of g.line ≡ bottom_line node) }
{
    search.rules.is_ready();
    let grounds = one_ground(alloc, Fact::Has(node, concept))?;
    Ok(GroundedLine {
        line: Line::Bottom(node),
        grounds,
    })
}

// The line of a class and its complement.
fn line_of_both<S: State, R: Rules>(
    alloc: Global,
    search: &StateWithRules<'_, S, R>,
    node: u32,
    class: u32,
    complement: u32,
) -> Result<GroundedLine, NoMemory>
    requires { HasBoth (R.context search.now.rules.now) (S.facts search.now.state.now) node class complement }
    ensures serves { IfOk result
        (λ g. ServesClash (R.context search.now.rules.now) (S.facts search.now.state.now) (line_of g.line)
        g.grounds.items) }
    ensures line { IfOk result (λ g. line_of g.line ≡ clash_line node class) }
{
    search.rules.is_ready();
    let grounds = two_grounds(alloc, Fact::Has(node, class), Fact::Has(node, complement))?;
    Ok(GroundedLine {
        line: Line::Clash(node, class),
        grounds,
    })
}

// The line of two nodes that are one, and are apart.
fn line_of_differ<S: State, R: Rules>(
    alloc: Global,
    search: &StateWithRules<'_, S, R>,
    first: u32,
    second: u32,
) -> Result<GroundedLine, NoMemory>
    requires { HasDiffer (R.context search.now.rules.now) (S.facts search.now.state.now) first second }
    ensures serves { IfOk result
        (λ g. ServesClash (R.context search.now.rules.now) (S.facts search.now.state.now) (line_of g.line)
        g.grounds.items) }
    ensures line { IfOk result (λ g. line_of g.line ≡ differ_line first second) }
{
    search.rules.is_ready();
    let grounds = two_grounds(alloc, Fact::Apart(first, second), Fact::Same(first, second))?;
    Ok(GroundedLine {
        line: Line::Differ(first, second),
        grounds,
    })
}

/// The line that a clash is, and the facts that it rests on. That of too many successors names the first of them.
///
/// # Errors
///
/// Out of memory.
pub fn line_of_clash<S: State, R: Rules>(
    alloc: Global,
    search: &StateWithRules<'_, S, R>,
    clash: &Clash,
) -> Result<GroundedLine, NoMemory>
    requires { IsShown (R.context search.now.rules.now) (S.facts search.now.state.now) clash.now }
    ensures serves { IfOk result
        (λ g. ServesClash (R.context search.now.rules.now) (S.facts search.now.state.now) (line_of g.line)
        g.grounds.items) }
    ensures line { IfOk result
        (λ g. IsLineOf (R.context search.now.rules.now) (S.facts search.now.state.now) clash.now (line_of g.line)) }
{
    match clash {
        Clash::Bottom { node, concept } => line_of_bottom(alloc, search, *node, *concept),
        Clash::Both {
            node,
            class,
            complement,
        } => line_of_both(alloc, search, *node, *class, *complement),
        Clash::Differ(first, second) => line_of_differ(alloc, search, *first, *second),
        Clash::Most { node, concept } => line_of_most(alloc, search, *node, *concept),
    }
}
