// The line of too many successors.
ghost use Rattle.std.specs.Prelude.{◌≡◌, ℕ, ◌∷◌, ◌+◌, ◌<◌, ◌==◌, ◌&&◌, ◌||◌, ◌++◌, nat_le, Bool, true, map, take, All};
ghost use Rattle.std.specs.Prelude.{IfOk, OnOk};
ghost use Rattle.std.specs.List.{list_any};
ghost use Rattle.calculus_specs.specs.declared.facts.Fact.TheVariants.{Has as has_fact, Apart as apart_fact};
ghost use Rattle.calculus_specs.specs.Shape.{shape_of};
ghost use Rattle.calculus_specs.specs.State.{node_count_from, is_successor};
ghost use Rattle.calculus_specs.specs.Line.Line.{most_line};
ghost use Rattle.search_trace.specs.RuleLine.{line_of};
ghost use Rattle.tableau_specs.specs.Clash.{filled_successors as all_filled};
ghost use Rattle.tableau_specs.specs.Steps.{below_of};
ghost use Rattle.tableau_specs.specs.Near.{IsOverrun};
ghost use Rattle.step_finders.specs.Choosing.{IsRoleTo};
ghost use Rattle.step_finders.specs.Clashing.{HasMost};
ghost use Rattle.step_finders.specs.Filled.{IsLeast};
ghost use Rattle.step_lines.specs.Grounds.{IsFilledEnd, AreMany, AreLinks, link_facts, apart_facts};
ghost use Rattle.step_lines.specs.Kinds.{ServesClash, NamesFirst};

use crate::grounded::list_of;
use crate::{GroundedLine, NoMemory};
use calculus_specs::Fact;
use search_trace::Line;
use std::alloc::Global;
use step_finders::{Rules, Shape, State, StateWithRules, filled_successors, role_to};

// The less of two numbers, of which the second counts where it is not below `from`.
fn lesser(least: Option<u32>, from: usize, number: u32) -> Option<u32>
    ensures { (p : ℕ → Bool) → IsLeast p least → IsLeast (λ z. p z || (nat_le from z && z == number)) result }
{
    if (number as usize) < from {
        return least;
    }
    match least {
        Some(other) if other < number => least,
        Some(_) | None => Some(number),
    }
}

// The least of the numbers that are not below `from`.
fn least_from(numbers: &[u32], from: usize) -> Option<u32>
    ensures { IsLeast (λ z. list_any (λ y. z == y) numbers.now && nat_le from z) result }
{
    let mut least = None;
    for number in numbers {
        least = lesser(least, from, *number);
    }
    least
}

// The first of the successors by roles below this one that have the filler, by their numbers: so many, or all where
// there are no more.
fn first_filled<S: State, R: Rules>(
    alloc: Global,
    search: &StateWithRules<'_, S, R>,
    node: u32,
    role: u32,
    filler: u32,
    most: usize,
) -> Result<Vec<u32>, NoMemory>
    ensures { let w = R.context search.now.rules.now in let fs = S.facts search.now.state.now in
        IfOk result (λ v. v.items ≡ take most (all_filled w.first (below_of w) fs node role filler)) }
{
    let ends = filled_successors(alloc, search, node, role, filler)?;
    let mut first = Vec::new(alloc);
    let mut from = 0;
    for _place in 0..most {
        let Some(next) = least_from(&ends, from) else {
            return Ok(first);
        };
        first.push(next)?;
        from = next as usize + 1;
    }
    Ok(first)
}

// The first successors with the filler, as many as are one too many. They are pairwise apart.
fn many_ends<S: State, R: Rules>(
    alloc: Global,
    search: &StateWithRules<'_, S, R>,
    node: u32,
    concept: u32,
    count: u32,
    role: u32,
    filler: u32,
) -> Result<Vec<u32>, NoMemory>
    requires { let w = R.context search.now.rules.now in
        IsOverrun w.first (below_of w) w.table (S.facts search.now.state.now) node concept count role filler }
    ensures { IfOk result (λ v. AreMany (R.context search.now.rules.now) (S.facts search.now.state.now) node count role
        filler v.items) }
{
    let ends = first_filled(alloc, search, node, role, filler, count as usize + 1)?;
    Ok(ends)
}

// The role of an edge to the successor, below this one.
fn role_of<S: State, R: Rules>(
    search: &StateWithRules<'_, S, R>,
    node: u32,
    role: u32,
    end: u32,
) -> u32
    requires { let w = R.context search.now.rules.now in
        is_successor (S.facts search.now.state.now) (λ r. below_of w r role) node end ≡ true }
    ensures { IsRoleTo (R.context search.now.rules.now) (S.facts search.now.state.now) node role end result }
{
    match role_to(search, node, role, end) {
        Some(by) => by,
        None => role,
    }
}

// The edges to these successors, each as its role and its end.
fn links_to<S: State, R: Rules>(
    alloc: Global,
    search: &StateWithRules<'_, S, R>,
    node: u32,
    role: u32,
    filler: u32,
    ends: &[u32],
) -> Result<Vec<(u32, u32)>, NoMemory>
    requires { All (IsFilledEnd (R.context search.now.rules.now) (S.facts search.now.state.now) node role filler)
        ends.now }
    ensures { IfOk result (λ v. AreLinks (R.context search.now.rules.now) (S.facts search.now.state.now) node role
        filler ends.now v.items) }
{
    let mut links = Vec::new(alloc);
    for end in ends {
        links.push((role_of(search, node, role, *end), *end))?;
    }
    Ok(links)
}

// The edges, and that their ends have the filler.
fn push_links(
    grounds: &mut Vec<Fact<u32>>,
    node: u32,
    filler: u32,
    links: &[(u32, u32)],
) -> Result<(), NoMemory>
    ensures { OnOk result (grounds.new.items ≡ grounds.old.items ++ link_facts node filler links.now) }
{
    for link in links {
        grounds.push(Fact::Edge(link.0, node, link.1))?;
        grounds.push(Fact::Has(link.1, filler))?;
    }
    Ok(())
}

// That the first is apart from each of the others.
fn push_apart_from(grounds: &mut Vec<Fact<u32>>, first: u32, others: &[u32]) -> Result<(), NoMemory>
    ensures { OnOk result (grounds.new.items ≡ grounds.old.items ++ map (apart_fact first) others.now) }
{
    for other in others {
        grounds.push(Fact::Apart(first, *other))?;
    }
    Ok(())
}

// That the nodes are pairwise apart.
fn push_apart(grounds: &mut Vec<Fact<u32>>, nodes: &[u32]) -> Result<(), NoMemory>
    ensures { OnOk result (grounds.new.items ≡ grounds.old.items ++ apart_facts nodes.now) }
{
    for place in 0..nodes.len() {
        push_apart_from(grounds, nodes[place], &nodes[place + 1..])?;
    }
    Ok(())
}

// What the line of these successors rests on.
fn most_grounds(
    alloc: Global,
    node: u32,
    concept: u32,
    filler: u32,
    links: &[(u32, u32)],
    ends: &[u32],
) -> Result<Vec<Fact<u32>>, NoMemory>
    ensures { IfOk result
        (λ v. v.items ≡ has_fact node concept ∷ (link_facts node filler links.now ++ apart_facts ends.now)) }
{
    let mut grounds = Vec::new(alloc);
    grounds.push(Fact::Has(node, concept))?;
    push_links(&mut grounds, node, filler, links)?;
    push_apart(&mut grounds, ends)?;
    Ok(grounds)
}

// The line of these successors.
fn line_of_ends<S: State, R: Rules>(
    alloc: Global,
    search: &StateWithRules<'_, S, R>,
    node: u32,
    concept: u32,
    count: u32,
    role: u32,
    filler: u32,
    ends: &[u32],
) -> Result<GroundedLine, NoMemory>
    requires is_node { node < node_count_from (R.context search.now.rules.now).first (S.facts search.now.state.now) }
    requires overrun { let w = R.context search.now.rules.now in
        IsOverrun w.first (below_of w) w.table (S.facts search.now.state.now) node concept count role filler }
    requires many { AreMany (R.context search.now.rules.now) (S.facts search.now.state.now) node count role filler
        ends.now }
    ensures serves { IfOk result
        (λ g. ServesClash (R.context search.now.rules.now) (S.facts search.now.state.now) (line_of g.line)
        g.grounds.items) }
    ensures line { IfOk result (λ g. line_of g.line ≡ most_line node concept ends.now) }
{
    search.rules.is_ready();
    let links = links_to(alloc, search, node, role, filler, ends)?;
    let grounds = most_grounds(alloc, node, concept, filler, &links, ends)?;
    let nodes = list_of(alloc, ends)?;
    Ok(GroundedLine {
        line: Line::Most(node, concept, nodes),
        grounds,
    })
}

// The line of an 'at most' of this count, role and filler.
fn line_of_overrun<S: State, R: Rules>(
    alloc: Global,
    search: &StateWithRules<'_, S, R>,
    node: u32,
    concept: u32,
    count: u32,
    role: u32,
    filler: u32,
) -> Result<GroundedLine, NoMemory>
    requires is_node { node < node_count_from (R.context search.now.rules.now).first (S.facts search.now.state.now) }
    requires overrun { let w = R.context search.now.rules.now in
        IsOverrun w.first (below_of w) w.table (S.facts search.now.state.now) node concept count role filler }
    ensures serves { IfOk result
        (λ g. ServesClash (R.context search.now.rules.now) (S.facts search.now.state.now) (line_of g.line)
        g.grounds.items) }
    ensures line { let w = R.context search.now.rules.now in IfOk result (λ g. line_of g.line
        ≡ most_line node concept (take (count + 1)
        (all_filled w.first (below_of w) (S.facts search.now.state.now) node role filler))) }
{
    let ends = many_ends(alloc, search, node, concept, count, role, filler)?;
    line_of_ends(alloc, search, node, concept, count, role, filler, &ends)
}

/// The line of a node's 'at most' of too many successors. It names the first of them, one more than are allowed.
pub fn line_of_most<S: State, R: Rules>(
    alloc: Global,
    search: &StateWithRules<'_, S, R>,
    node: u32,
    concept: u32,
) -> Result<GroundedLine, NoMemory>
    requires { HasMost (R.context search.now.rules.now) (S.facts search.now.state.now) node concept }
    ensures serves { IfOk result
        (λ g. ServesClash (R.context search.now.rules.now) (S.facts search.now.state.now) (line_of g.line)
        g.grounds.items) }
    ensures line { let w = R.context search.now.rules.now in IfOk result
        (λ g. NamesFirst w (S.facts search.now.state.now) (shape_of w.table concept) node concept (line_of g.line)) }
{
    match search.rules.shape(concept) {
        Shape::Max(count, role, filler) => line_of_overrun(
            alloc, search, node, concept, count, role, filler,
        ),
        Shape::Top
        | Shape::Bottom
        | Shape::Name(_)
        | Shape::NotName(_)
        | Shape::And(_)
        | Shape::Or(_)
        | Shape::SomeOf(_, _)
        | Shape::AllOf(_, _)
        | Shape::Min(_, _, _) => unreachable!(),
    }
}
