// The lines of rows.
ghost use Rattle.std.specs.Prelude.{◌≡◌, ◌++◌, ◌<◌, true, map, IfOk, OnOk};
ghost use Rattle.std.specs.List.{list_all};
ghost use Rattle.calculus_specs.specs.declared.facts.Fact.TheVariants.{Has as has_fact};
ghost use Rattle.calculus_specs.specs.State.{node_count_from, has as holds};
ghost use Rattle.search_trace.specs.RuleLine.{line_of};
ghost use Rattle.step_finders.specs.Found.{IsNamed};
ghost use Rattle.step_finders.specs.Reasons.{IsByNamed, IsByGeneral, IsByBegin, IsByEnd};
ghost use Rattle.step_lines.specs.Grounds.{IsFirst};
ghost use Rattle.step_lines.specs.Kinds.{ServesAddition};

use crate::grounded::{list_of, node_grounds, one_ground};
use crate::{GroundedLine, NoMemory};
use calculus_specs::Fact;
use search_trace::Line;
use shq_terms::NumberList;
use std::alloc::Global;
use step_finders::{NamedRow, PlainRow, Rules, State, StateWithRules};

/// The line of a row that is used at each node.
pub fn line_of_general<S: State, R: Rules>(
    alloc: Global,
    search: &StateWithRules<'_, S, R>,
    row: PlainRow,
    node: u32,
    given: u32,
) -> Result<GroundedLine, NoMemory>
    requires by_row { IsByGeneral (R.context search.now.rules.now) (S.facts search.now.state.now) row node given }
    ensures { IfOk result
        (λ g. ServesAddition (R.context search.now.rules.now) (S.facts search.now.state.now) node given (line_of g.line)
        g.grounds.items) }
{
    search.rules.is_ready();
    let grounds = node_grounds(alloc, search, node)?;
    Ok(GroundedLine {
        line: Line::Row(node, row.axiom, row.part, NumberList::new(alloc)),
        grounds,
    })
}

/// The line of a row that is used where an edge begins.
pub fn line_of_begin<S: State, R: Rules>(
    alloc: Global,
    search: &StateWithRules<'_, S, R>,
    role: u32,
    end: u32,
    row: PlainRow,
    node: u32,
    given: u32,
) -> Result<GroundedLine, NoMemory>
    requires { IsByBegin (R.context search.now.rules.now) (S.facts search.now.state.now) role end row node given }
    ensures { IfOk result
        (λ g. ServesAddition (R.context search.now.rules.now) (S.facts search.now.state.now) node given (line_of g.line)
        g.grounds.items) }
{
    search.rules.is_ready();
    let grounds = one_ground(alloc, Fact::Edge(role, node, end))?;
    Ok(GroundedLine {
        line: Line::Row(node, row.axiom, row.part, NumberList::new(alloc)),
        grounds,
    })
}

/// The line of a row that is used where an edge ends.
pub fn line_of_end<S: State, R: Rules>(
    alloc: Global,
    search: &StateWithRules<'_, S, R>,
    from: u32,
    role: u32,
    row: PlainRow,
    node: u32,
    given: u32,
) -> Result<GroundedLine, NoMemory>
    requires { IsByEnd (R.context search.now.rules.now) (S.facts search.now.state.now) from role row node given }
    ensures { IfOk result
        (λ g. ServesAddition (R.context search.now.rules.now) (S.facts search.now.state.now) node given (line_of g.line)
        g.grounds.items) }
{
    search.rules.is_ready();
    let grounds = one_ground(alloc, Fact::Edge(role, from, node))?;
    Ok(GroundedLine {
        line: Line::Range(from, node, row.axiom),
        grounds,
    })
}

// Facts by which the node is known, where there are no concepts by which it is.
fn first_grounds<S: State, R: Rules>(
    alloc: Global,
    search: &StateWithRules<'_, S, R>,
    node: u32,
    concepts: &[u32],
) -> Result<Vec<Fact<u32>>, NoMemory>
    requires is_node { node < node_count_from (R.context search.now.rules.now).first (S.facts search.now.state.now) }
    ensures { IfOk result (λ v. IsFirst (R.context search.now.rules.now).first (S.facts search.now.state.now) node
        concepts.now v.items) }
{
    if concepts.is_empty() {
        node_grounds(alloc, search, node)
    } else {
        Ok(Vec::new(alloc))
    }
}

// That the node has each of the concepts.
fn push_concepts(grounds: &mut Vec<Fact<u32>>, node: u32, concepts: &[u32]) -> Result<(), NoMemory>
    ensures { OnOk result (grounds.new.items ≡ grounds.old.items ++ map (has_fact node) concepts.now) }
{
    for concept in concepts {
        grounds.push(Fact::Has(node, *concept))?;
    }
    Ok(())
}

// The line of a row that waits for names, all of which the node has.
fn line_of_row<S: State, R: Rules>(
    alloc: Global,
    search: &StateWithRules<'_, S, R>,
    row: &NamedRow,
    node: u32,
    given: u32,
) -> Result<GroundedLine, NoMemory>
    requires is_node { node < node_count_from (R.context search.now.rules.now).first (S.facts search.now.state.now) }
    requires named { IsNamed (R.context search.now.rules.now) row.now }
    requires waits { list_all (holds (S.facts search.now.state.now) node) row.now.waits ≡ true }
    requires gives { row.now.gives ≡ given }
    ensures { IfOk result
        (λ g. ServesAddition (R.context search.now.rules.now) (S.facts search.now.state.now) node given (line_of g.line)
        g.grounds.items) }
{
    search.rules.is_ready();
    let mut grounds = first_grounds(alloc, search, node, row.waits.items())?;
    push_concepts(&mut grounds, node, row.waits.items())?;
    let positions = list_of(alloc, row.positions.items())?;
    Ok(GroundedLine {
        line: Line::Row(node, row.axiom, row.part, positions),
        grounds,
    })
}

/// The line of the row at this place among those that wait for the concept.
pub fn line_of_named<S: State, R: Rules>(
    alloc: Global,
    search: &StateWithRules<'_, S, R>,
    concept: u32,
    place: usize,
    node: u32,
    given: u32,
) -> Result<GroundedLine, NoMemory>
    requires by_row { IsByNamed (R.context search.now.rules.now) (S.facts search.now.state.now)
        (R.files search.now.rules.now) concept place node given }
    ensures { IfOk result
        (λ g. ServesAddition (R.context search.now.rules.now) (S.facts search.now.state.now) node given (line_of g.line)
        g.grounds.items) }
{
    let rows = search.rules.named(concept);
    line_of_row(alloc, search, &rows[place], node, given)
}
