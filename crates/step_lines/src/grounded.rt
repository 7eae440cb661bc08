// Lines with the facts that they rest on.
ghost use Rattle.std.specs.Prelude.{◌≡◌, [], ◌∷◌, ◌<◌, IfOk};
ghost use Rattle.calculus_specs.specs.State.{node_count_from};
ghost use Rattle.step_lines.specs.Serving.{FactsStayGrounded, NewNodesStayGrounded, AlternativesSpeakOfNodes};
ghost use Rattle.step_lines.specs.Grounds.{GroundsNode};

use crate::NoMemory;
use calculus_specs::Fact;
use search_trace::Line;
use shq_terms::NumberList;
use std::alloc::Global;
use step_finders::{Rules, State, StateWithRules};

/// A rule line, and facts that its premises follow from.
#[derive(Drop)]
pub struct GroundedLine {
    /// The line.
    pub line: Line,
    /// The facts, over numbers of the search's table, each so in the state.
    pub grounds: Vec<Fact<u32>>,
}

/// A list of one fact.
pub fn one_ground(alloc: Global, fact: Fact<u32>) -> Result<Vec<Fact<u32>>, NoMemory>
    ensures { IfOk result (λ v. v.items ≡ fact ∷ []) }
{
    let mut grounds = Vec::new(alloc);
    grounds.push(fact)?;
    Ok(grounds)
}

/// A list of two facts.
pub fn two_grounds(
    alloc: Global,
    first: Fact<u32>,
    second: Fact<u32>,
) -> Result<Vec<Fact<u32>>, NoMemory>
    ensures { IfOk result (λ v. v.items ≡ first ∷ second ∷ []) }
{
    let mut grounds = Vec::new(alloc);
    grounds.push(first)?;
    grounds.push(second)?;
    Ok(grounds)
}

/// A list of these numbers.
pub fn list_of(alloc: Global, numbers: &[u32]) -> Result<NumberList, NoMemory>
    ensures { IfOk result (λ l. l ≡ numbers.now) }
{
    let mut list = NumberList::new(alloc);
    for number in numbers {
        list.push(*number)?;
    }
    Ok(list)
}

/// Facts by which the node is known: the first edge into it, and nothing for a first node, which each branch has.
pub fn node_grounds<S: State, R: Rules>(
    alloc: Global,
    search: &StateWithRules<'_, S, R>,
    node: u32,
) -> Result<Vec<Fact<u32>>, NoMemory>
    requires is_node { node < node_count_from (R.context search.now.rules.now).first (S.facts search.now.state.now) }
    ensures { IfOk result (λ v. GroundsNode (R.context search.now.rules.now).first (S.facts search.now.state.now) node
        v.items) }
{
    match search.state.origin(node) {
        Some((role, from)) => one_ground(alloc, Fact::Edge(role, from, node)),
        None => Ok(Vec::new(alloc)),
    }
}

/// A fact whose nodes are known by its marks keeps all facts such.
pub fn facts_stay_grounded()
    ensures { FactsStayGrounded }
{}

/// So do the facts of new nodes whose parent is known by their marks.
pub fn new_nodes_stay_grounded()
    ensures { NewNodesStayGrounded }
{}

/// The alternatives of a branch speak of its nodes alone.
pub fn alternatives_speak_of_nodes()
    ensures { AlternativesSpeakOfNodes }
{}
