// Where a tree changed.
ghost use Rattle.std.specs.Prelude.{◌≡◌, ◌≤◌, nat_lt, min, length, take, drop, if◌then◌else◌};
ghost use Rattle.calculus_specs.specs.Joins.{rep};
ghost use Rattle.calculus_specs.specs.State.{node_count_from, HaveParentsBefore};
ghost use Rattle.completion_tree.specs.Trail.{facts_in};
ghost use Rattle.tableau_specs.specs.BlockLaws.{AllLeaveBelow};
ghost use Rattle.blocking.specs.Followed.{Printed, AreBlocksBelow};
ghost use Rattle.blocking.specs.Changed.{least_with, least_of_item, least_touched};

use calculus_specs::Fact;
use completion_tree::{Item, Tree};
use std::alloc::Allocator;

/// A node below which the facts of the trail from a place on change no block: the least node of which they say
/// something new, or the number of nodes.
///
/// Ask before the facts are taken back, or after they are put.
pub fn least_changed<A: Allocator + Copy>(tree: &Tree<A>, place: u32) -> u32
    requires { place ≤ length tree.now.entries }
    ensures leaves { AllLeaveBelow tree.now.first (facts_in (take place tree.now.entries))
        (facts_in (drop place tree.now.entries)) result }
    ensures least { result
        ≡ least_touched tree.now.first (rep (facts_in tree.now.entries))
        (node_count_from tree.now.first (facts_in tree.now.entries)) (facts_in (drop place tree.now.entries)) }
{
    let mut least = tree.nodes();
    for at in place..tree.len() {
        least = least_with_item(tree, least, tree.item(at));
    }
    least
}

/// After facts were put from a place of the trail on: a node below which the blocks are current, where they were so
/// below `from` before.
pub fn still_current<A: Allocator + Copy>(tree: &Tree<A>, place: u32, from: u32) -> u32
    requires place { place ≤ length tree.now.entries }
    requires parents { HaveParentsBefore tree.now.first (facts_in tree.now.entries) }
    ensures stand { (p : Printed) → AreBlocksBelow tree.now.first (facts_in (take place tree.now.entries)) from p
        → AreBlocksBelow tree.now.first (facts_in tree.now.entries) result p }
    ensures least { result
        ≡ min from
        (least_touched tree.now.first (rep (facts_in tree.now.entries))
        (node_count_from tree.now.first (facts_in tree.now.entries)) (facts_in (drop place tree.now.entries))) }
{
    from.min(least_changed(tree, place))
}

/// Before the facts from a place of the trail on are taken back: a node below which the blocks will be current, of the
/// nodes that there are then, where they are so below `from` now.
pub fn current_before<A: Allocator + Copy>(tree: &Tree<A>, place: u32, from: u32) -> u32
    requires place { place ≤ length tree.now.entries }
    requires parents { HaveParentsBefore tree.now.first (facts_in tree.now.entries) }
    ensures stand { (p : Printed) → AreBlocksBelow tree.now.first (facts_in tree.now.entries) from p
        → AreBlocksBelow tree.now.first (facts_in (take place tree.now.entries))
        (min result (node_count_from tree.now.first (facts_in (take place tree.now.entries)))) p }
    ensures least { result
        ≡ min from
        (least_touched tree.now.first (rep (facts_in tree.now.entries))
        (node_count_from tree.now.first (facts_in tree.now.entries)) (facts_in (drop place tree.now.entries))) }
{
    from.min(least_changed(tree, place))
}

fn least_with_item<A: Allocator + Copy>(tree: &Tree<A>, bound: u32, item: Item) -> u32
    ensures { result ≡ least_of_item tree.now.first (rep (facts_in tree.now.entries)) bound item }
{
    match item {
        Item::Fact(fact) => least_with_fact(tree, bound, fact),
        Item::Mark(_) => bound,
    }
}

fn least_with_fact<A: Allocator + Copy>(tree: &Tree<A>, bound: u32, fact: Fact<u32>) -> u32
    ensures { result ≡ least_with tree.now.first (rep (facts_in tree.now.entries)) bound fact }
{
    match fact {
        Fact::Has(node, _) => bound.min(tree.representative(node)),
        Fact::Edge(_, _, end) => least_with_edge(tree, bound, end),
        Fact::Apart(_, _) => bound,
        Fact::Same(first, second) => bound
            .min(tree.representative(first))
            .min(tree.representative(second)),
    }
}

// A first node has no parent, whatever edge leads to it.
fn least_with_edge<A: Allocator + Copy>(tree: &Tree<A>, bound: u32, end: u32) -> u32
    ensures { result ≡ if nat_lt end tree.now.first then bound else min bound end }
{
    if end < tree.first() {
        return bound;
    }
    bound.min(end)
}
