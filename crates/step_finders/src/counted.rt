// The successors that an 'at most' counts.
ghost use Rattle.std.specs.Prelude.{◌≡◌, ℕ, ◌==◌, ◌&&◌, ◌||◌, IfOk, OnOk, IsTrue};
ghost use Rattle.std.specs.List.{list_any, IsDistinct};
ghost use Rattle.calculus_specs.specs.State.{has as holds};
ghost use Rattle.tableau_specs.specs.Steps.{below_of};
ghost use Rattle.step_finders.specs.Filled.{AreFilled};

use crate::{NoMemory, Rules, State, StateWithRules};
use std::alloc::Global;

/// The successors of the node by roles below this one that have the filler, each once, in some order.
///
/// # Errors
///
/// Out of memory.
pub fn filled_successors<S: State, R: Rules>(
    alloc: Global,
    search: &StateWithRules<'_, S, R>,
    node: u32,
    role: u32,
    filler: u32,
) -> Result<Vec<u32>, NoMemory>
    ensures { let w = R.context search.now.rules.now in let fs = S.facts search.now.state.now in
        IfOk result (λ ys. AreFilled (below_of w) fs node role filler ys.items) }
{
    let mut found = Vec::new(alloc);
    for edge in search.state.edges(node) {
        let fits = is_counted(search, edge.0, edge.1, role, filler);
        let end = search.state.representative(edge.1);
        put(&mut found, fits, end)?;
    }
    Ok(found)
}

/// Whether an edge by a role to a node counts, where those below a role count that lead to nodes with a filler.
pub(crate) fn is_counted<S: State, R: Rules>(
    search: &StateWithRules<'_, S, R>,
    by: u32,
    end: u32,
    role: u32,
    filler: u32,
) -> bool
    ensures { result ≡ (below_of (R.context search.now.rules.now) by role && holds (S.facts search.now.state.now) end
        filler) }
{
    search.rules.is_below(by, role) && search.state.has(end, filler)
}

// Puts the number last, where it is to be put and is not there.
fn put(found: &mut Vec<u32>, fits: bool, number: u32) -> Result<(), NoMemory>
    requires { IsDistinct (λ y z. y == z) found.old.items }
    ensures distinct { OnOk result (IsDistinct (λ y z. y == z) found.new.items) }
    ensures members { OnOk result
        ((y : ℕ)
        → list_any (λ z. y == z) found.new.items ≡ (list_any (λ z. y == z) found.old.items || (fits && y == number))) }
{
    if fits && !found.contains(&number) {
        found.push(number)?;
    }
    Ok(())
}
