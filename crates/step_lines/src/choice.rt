// The line of a choice.
ghost use Rattle.std.specs.Prelude.{◌≡◌, IfOk};
ghost use Rattle.search_trace.specs.RuleLine.{line_of};
ghost use Rattle.tableau_specs.specs.declared.Branch.TheVariants.{Or as or_branch, Choose as choose_branch};
ghost use Rattle.tableau_specs.specs.declared.Branch.TheVariants.{Pair as pair_branch};
ghost use Rattle.step_finders.specs.Choosing.{branch_of, HasGround, IsByUnion, IsByFiller, IsByPair};
ghost use Rattle.step_lines.specs.Kinds.{ServesChoice};

use crate::grounded::{one_ground, two_grounds};
use crate::{GroundedLine, NoMemory};
use calculus_specs::Fact;
use search_trace::Line;
use std::alloc::Global;
use step_finders::{Choosing, Rules, State, StateWithRules};

// The line of a union.
fn line_of_union<S: State, R: Rules>(
    alloc: Global,
    search: &StateWithRules<'_, S, R>,
    node: u32,
    concept: u32,
) -> Result<GroundedLine, NoMemory>
    requires { IsByUnion (R.context search.now.rules.now) (S.facts search.now.state.now) node concept }
    ensures { IfOk result
        (λ g. ServesChoice (R.context search.now.rules.now) (S.facts search.now.state.now) (or_branch node concept)
        (line_of g.line)
        g.grounds.items) }
{
    search.rules.is_ready();
    let grounds = one_ground(alloc, Fact::Has(node, concept))?;
    Ok(GroundedLine {
        line: Line::Or(node, concept),
        grounds,
    })
}

// The line of a filler.
fn line_of_filler<S: State, R: Rules>(
    alloc: Global,
    search: &StateWithRules<'_, S, R>,
    node: u32,
    filler: u32,
    from: u32,
    role: u32,
    concept: u32,
) -> Result<GroundedLine, NoMemory>
    requires { IsByFiller (R.context search.now.rules.now) (S.facts search.now.state.now) node filler from role
        concept }
    ensures { IfOk result
        (λ g. ServesChoice (R.context search.now.rules.now) (S.facts search.now.state.now) (choose_branch node filler)
        (line_of g.line)
        g.grounds.items) }
{
    search.rules.is_ready();
    let grounds = one_ground(alloc, Fact::Edge(role, from, node))?;
    Ok(GroundedLine {
        line: Line::Choose(node, filler),
        grounds,
    })
}

// The line of two successors.
fn line_of_pair<S: State, R: Rules>(
    alloc: Global,
    search: &StateWithRules<'_, S, R>,
    first: u32,
    second: u32,
    from: u32,
    first_role: u32,
    second_role: u32,
    concept: u32,
) -> Result<GroundedLine, NoMemory>
    requires { IsByPair (R.context search.now.rules.now) (S.facts search.now.state.now) first second from first_role
        second_role concept }
    ensures { IfOk result
        (λ g. ServesChoice (R.context search.now.rules.now) (S.facts search.now.state.now) (pair_branch first second)
        (line_of g.line)
        g.grounds.items) }
{
    search.rules.is_ready();
    let grounds = two_grounds(
        alloc,
        Fact::Edge(first_role, from, first),
        Fact::Edge(second_role, from, second),
    )?;
    Ok(GroundedLine {
        line: Line::Pair(first, second),
        grounds,
    })
}

/// The line that branches as the choice does, with its alternatives in order, and the facts that it rests on.
///
/// # Errors
///
/// Out of memory.
pub fn line_of_choice<S: State, R: Rules>(
    alloc: Global,
    search: &StateWithRules<'_, S, R>,
    choosing: &Choosing,
) -> Result<GroundedLine, NoMemory>
    requires { HasGround (R.context search.now.rules.now) (S.facts search.now.state.now) choosing.now }
    ensures { IfOk result
        (λ g. ServesChoice (R.context search.now.rules.now) (S.facts search.now.state.now) (branch_of choosing.now)
        (line_of g.line)
        g.grounds.items) }
{
    match choosing {
        Choosing::Union { node, concept } => line_of_union(alloc, search, *node, *concept),
        Choosing::Filler {
            node,
            filler,
            from,
            role,
            concept,
        } => line_of_filler(alloc, search, *node, *filler, *from, *role, *concept),
        Choosing::Pair {
            first,
            second,
            from,
            first_role,
            second_role,
            concept,
        } => line_of_pair(
            alloc,
            search,
            *first,
            *second,
            *from,
            *first_role,
            *second_role,
            *concept,
        ),
    }
}
