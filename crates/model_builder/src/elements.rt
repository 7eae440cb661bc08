// The elements of a tree, by their numbers.
ghost use Rattle.std.specs.Prelude.{◌≡◌, ◌≤◌, ◌<◌, ◌++◌, ◌∷◌, [], ◌^◌, length, OnOk, IfOk, map};
ghost use Rattle.calculus_specs.specs.State.{node_count_from};
ghost use Rattle.blocking.specs.Trail.{facts_in};
ghost use Rattle.blocking.specs.Followed.{IsCurrent};
ghost use Rattle.model_builder.specs.Numbered.{like_node, original_in, number_in, original_list, AreNumbered};

use crate::NoMemory;
use blocking::{Blocks, Tree, state};
use std::alloc::{Allocator, Global};
use tableau_specs::Block;

/// The elements of a tree.
#[derive(Drop)]
pub(crate) struct Elements {
    /// For each node its number as an element, if it is one.
    pub numbers: Vec<Option<u32>>,
    /// For each element the clear node that it is like.
    pub originals: Vec<u32>,
}

/// The elements, numbered in the order of their nodes.
pub(crate) fn elements_of<A: Allocator + Copy>(
    alloc: Global,
    tree: &Tree<A>,
    found_blocks: &Blocks,
) -> Result<Elements, NoMemory>
    requires { IsCurrent tree.now.first (facts_in tree.now.entries) found_blocks.now }
    ensures numbered { IfOk result
        (λ e. AreNumbered tree.now.first (facts_in tree.now.entries)
        (node_count_from tree.now.first (facts_in tree.now.entries)) e.numbers.items e.originals.items) }
    ensures few { IfOk result (λ e. length e.originals.items < 2 ^ 32) }
{
    let mut elements = Elements {
        numbers: Vec::new(alloc),
        originals: Vec::new(alloc),
    };
    for node in 0..tree.nodes() {
        let original = original_of(tree, found_blocks, node);
        put_node(&mut elements.numbers, &mut elements.originals, original)?;
    }
    Ok(elements)
}

/// The clear node that a node is like, if it is an element.
fn original_of<A: Allocator + Copy>(tree: &Tree<A>, found_blocks: &Blocks, node: u32) -> Option<u32>
    requires node { node < node_count_from tree.now.first (facts_in tree.now.entries) }
    requires current { IsCurrent tree.now.first (facts_in tree.now.entries) found_blocks.now }
    ensures { result ≡ like_node tree.now.first (facts_in tree.now.entries) node }
{
    if tree.representative(node) != node {
        return None;
    }
    original_by(state(tree, found_blocks, node), node)
}

/// The clear node that a representative with this block is like.
fn original_by(block: Block, node: u32) -> Option<u32>
    ensures { result ≡ original_in block node }
{
    match block {
        Block::Clear => Some(node),
        Block::By(blocker) => Some(blocker),
        Block::Under => None,
    }
}

/// Puts one node more, which is an element where it is like some node.
fn put_node(
    numbers: &mut Vec<Option<u32>>,
    originals: &mut Vec<u32>,
    original: Option<u32>,
) -> Result<(), NoMemory>
    requires { length originals.old.items < 2 ^ 32 }
    ensures numbers { OnOk result
        (numbers.new.items ≡ numbers.old.items ++ number_in (length originals.old.items) original ∷ []) }
    ensures originals { OnOk result (originals.new.items ≡ originals.old.items ++ original_list original) }
{
    match original {
        None => {
            numbers.push(None)?;
            Ok(())
        }
        Some(original) => {
            numbers.push(Some(originals.len() as u32))?;
            originals.push(original)?;
            Ok(())
        }
    }
}
