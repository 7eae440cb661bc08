// A tree whose blocks are followed after each change.
ghost use Rattle.std.specs.Prelude.{◌≡◌, ◌<◌, ◌≤◌, length, take, OnOk, IfOk, IsTrue};
ghost use Rattle.fact_tree.specs.Entries.{IsFit};
ghost use Rattle.completion_tree.specs.Trail.{facts_in};
ghost use Rattle.blocking.specs.Followed.{IsCurrent};

use blocking::{Blocks, blocks_stay, current_before, still_current};
use calculus_specs::{Fact, NoMemory};
use completion_tree::{By, Deps, Mark, Tree};
use std::alloc::Global;

/// Whether the fact speaks of the nodes below `nodes`, or makes the next.
pub(crate) fn is_fit(nodes: u32, fact: Fact<u32>) -> bool
    ensures { IsTrue result → IsFit nodes fact }
{
    match fact {
        Fact::Has(node, _) => node < nodes,
        Fact::Edge(_, from, to) => from < nodes && to <= nodes,
        Fact::Apart(first, second) => first < nodes && second < nodes,
        Fact::Same(first, second) => first < nodes && second < nodes,
    }
}

/// A tree with so many first nodes, and its blocks.
pub(crate) fn start(heap: Global, first: u32) -> Result<(Tree<Global>, Blocks), NoMemory>
    requires { 0 < first }
    ensures { IfOk result (λ p. IsCurrent p.0.first (facts_in p.0.entries) p.1) }
{
    let tree = Tree::new_in(heap, first)?;
    let mut blocks = Blocks::new(heap);
    blocks_stay();
    blocks.follow(&tree, 0)?;
    Ok((tree, blocks))
}

/// Puts a fact last, and follows. One that may not be put counts as out of memory.
pub(crate) fn put(
    tree: &mut Tree<Global>,
    blocks: &mut Blocks,
    fact: Fact<u32>,
) -> Result<(), NoMemory>
    requires { IsCurrent tree.old.first (facts_in tree.old.entries) blocks.old }
    ensures { OnOk result (IsCurrent tree.new.first (facts_in tree.new.entries) blocks.new) }
{
    let from = tree.nodes();
    let place = tree.len();
    if !is_fit(from, fact) {
        return Err(NoMemory);
    }
    let by = By {
        line: place,
        marks: Deps::none(),
    };
    tree.add(fact, by)?;
    let _ = tree.nodes();
    blocks_stay();
    let still = still_current(tree, place, from);
    blocks.keep(tree, still);
    blocks.complete(tree)
}

/// Puts facts last in turn.
pub(crate) fn fill(
    tree: &mut Tree<Global>,
    blocks: &mut Blocks,
    facts: &[Fact<u32>],
) -> Result<(), NoMemory>
    requires { IsCurrent tree.old.first (facts_in tree.old.entries) blocks.old }
    ensures { OnOk result (IsCurrent tree.new.first (facts_in tree.new.entries) blocks.new) }
{
    for fact in facts {
        put(tree, blocks, *fact)?;
    }
    Ok(())
}

/// Goes back to so many facts, and follows.
pub(crate) fn back(tree: &mut Tree<Global>, blocks: &mut Blocks, len: u32) -> Result<(), NoMemory>
    requires current { IsCurrent tree.old.first (facts_in tree.old.entries) blocks.old }
    requires len { len ≤ length tree.old.entries }
    ensures { OnOk result (IsCurrent tree.new.first (facts_in tree.new.entries) blocks.new) }
{
    let from = tree.nodes();
    blocks_stay();
    let from = current_before(tree, len, from);
    tree.back(Mark { len });
    blocks.follow(tree, from.min(tree.nodes()))
}
