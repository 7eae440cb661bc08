// The blocks of a tree's nodes, and what is known of each node.
ghost use Rattle.std.specs.Prelude.{◌≡◌, ℕ, ◌+◌, ◌%◌, ◌==◌, ◌&&◌, ◌<◌, ◌≤◌, length, true, false, List, [], ◌∷◌, ◌↔◌};
ghost use Rattle.std.specs.Prelude.{IsTrue, IfSome, OnOk, OnErr};
ghost use Rattle.std.specs.Prelude.{slice_index_or};
ghost use Rattle.std.specs.List.{list_all};
ghost use Rattle.std.specs.FinSet as set;
ghost use Rattle.lane_sieve.specs.Sets.{number_set};
ghost use Rattle.calculus_specs.specs.Joins.{rep};
ghost use Rattle.calculus_specs.specs.State.{node_count_from, has as has_concept, label as label_of, is_label_part};
ghost use Rattle.calculus_specs.specs.State.{parent_from};
ghost use Rattle.tableau_specs.specs.declared.Block.TheVariants.{Clear, By, Under};
ghost use Rattle.tableau_specs.specs.Blocked.{is_parent_clear, may_block, is_clear as is_clear_of, blocks_to, block_of};
ghost use Rattle.tableau_specs.specs.Blocked.{blocked_from};
ghost use Rattle.completion_tree.specs.Trail.{facts_in};
ghost use Rattle.blocking.specs.Followed.{no_prints, printed_first, IsPrintWithin, IsBound, blocked_among};
ghost use Rattle.blocking.specs.Followed.{AreSound, IsLabelKnown, IsFollowed, AreBlocksBelow, AreFirstBlocks};
ghost use Rattle.blocking.specs.Followed.{IsCurrent};
ghost use Rattle.blocking.specs.Hinted.{known_at, known_of, known_with, is_among, IsHint, IsHintBound, IsShown};

use crate::hints::{Hints, Known};
use crate::print::{full_print, print_of};
use crate::{Block, BlockEffort};
use calculus_specs::NoMemory;
use completion_tree::Tree;
use std::alloc::{Allocator, Global};
use std::marker::Model;

// No more concepts than these are looked through for a print.
const MANY: usize = 512;

/// The blocks of a tree's nodes, and what is known of each node.
#[derive(Drop)]
pub struct Blocks {
    heap: Global,
    blocks: Vec<Block>,
    // Of these nodes, and maybe of others behind them, as they were when their blocks were found last.
    hints: Hints,
    // Room for the places that the sieve finds.
    found: Vec<u32>,
    effort: BlockEffort,
}

impl Model for Blocks {
    ghost use Rattle.std.specs.Prelude.{◌≤◌, length, take};
    ghost use Rattle.blocking.specs.Followed.{Printed};
    ghost use Rattle.blocking.specs.Hinted.{AreExact};

    ghost Value = { Printed };

    ghost view = { λ p. record {
      blocks = p.blocks.items;
      known = take (length p.blocks.items) p.hints.known;
    } };

    ghost invariant = { λ p. (length p.blocks.items ≤ length p.hints.known)
        × (length p.hints.known ≤ length p.found.items) × AreExact p.hints.known (length p.blocks.items) };
}

impl Blocks {
    /// Of no node. It takes no memory.
    pub fn new(alloc: Global) -> Blocks
        ensures { result ≡ no_prints }
    {
        Blocks {
            heap: alloc,
            blocks: Vec::new(alloc),
            hints: Hints::new(alloc),
            found: Vec::new(alloc),
            effort: BlockEffort::new(),
        }
    }

    /// Makes the blocks from node `from` on those of the tree. Those of the nodes below are so already.
    ///
    /// # Errors
    ///
    /// Out of memory. The blocks of the nodes below `from` are as before.
    pub fn follow<A: Allocator + Copy>(&mut self, tree: &Tree<A>, from: u32) -> Result<(), NoMemory>
        requires { AreBlocksBelow tree.now.first (facts_in tree.now.entries) from self.old }
        ensures followed { OnOk result (IsCurrent tree.now.first (facts_in tree.now.entries) self.new) }
        ensures kept { OnErr result (AreBlocksBelow tree.now.first (facts_in tree.now.entries) from self.new) }
    {
        self.cut(from);
        for node in from..tree.nodes() {
            self.follow_node(tree, node)?;
        }
        self.settle();
        Ok(())
    }

    /// Of how many nodes, from node 0 on, the blocks are there.
    pub fn len(&self) -> u32
        ensures { result ≡ length self.now.blocks }
    {
        let _ = self.hints.len();
        self.blocks.len() as u32
    }

    /// What was done to find blocks. No contract speaks of these counts.
    pub fn effort(&self) -> BlockEffort {
        self.effort
    }

    /// Keeps the blocks of the nodes below `len`, which are so in the tree, and no others.
    pub fn keep<A: Allocator + Copy>(&mut self, tree: &Tree<A>, len: u32)
        requires { AreBlocksBelow tree.now.first (facts_in tree.now.entries) len self.old }
        ensures kept { self.new ≡ printed_first len self.old }
        ensures first { AreFirstBlocks tree.now.first (facts_in tree.now.entries) self.new }
    {
        let _ = tree;
        self.cut(len);
    }

    /// Makes the blocks of all nodes of the tree, where those that are there are so.
    ///
    /// # Errors
    ///
    /// Out of memory.
    pub fn complete<A: Allocator + Copy>(&mut self, tree: &Tree<A>) -> Result<(), NoMemory>
        requires { AreFirstBlocks tree.now.first (facts_in tree.now.entries) self.old }
        ensures current { OnOk result (IsCurrent tree.now.first (facts_in tree.now.entries) self.new) }
        ensures first { OnOk result (AreFirstBlocks tree.now.first (facts_in tree.now.entries) self.new) }
    {
        let len = self.len();
        self.follow(tree, len)
    }

    // Keeps the blocks of the nodes below `len` alone, where they are there.
    fn cut(&mut self, len: u32)
        requires { len ≤ length self.old.blocks }
        ensures { self.new ≡ printed_first len self.old }
    {
        self.blocks.truncate(len as usize);
    }

    // Forgets what is known of nodes of which there is no block.
    fn settle(&mut self)
        ensures { self.new ≡ self.old }
    {
        let len = self.len();
        self.hints.settle(len);
    }

    // Finds the block of one node more, and knows it. Whether the node has the label that is known of it is asked once.
    fn follow_node<A: Allocator + Copy>(
        &mut self,
        tree: &Tree<A>,
        node: u32,
    ) -> Result<(), NoMemory>
        requires node { node < node_count_from tree.now.first (facts_in tree.now.entries) }
        requires followed { IsFollowed tree.now.first (facts_in tree.now.entries) node self.old }
        ensures followed { OnOk result (IsFollowed tree.now.first (facts_in tree.now.entries) (node + 1) self.new) }
        ensures unchanged { OnErr result (self.new ≡ self.old) }
    {
        let label = tree.label(node);
        let is_known = self.hints.has_label(node, label);
        let block = find(
            tree,
            self.blocks.as_slice(),
            &self.hints,
            &mut self.found,
            &mut self.effort,
            node,
            is_known,
        );
        let may_block = can_block(tree, node, block);
        let hint = hint_of(tree, node, block);
        make_room(&mut self.found, node)?;
        self.blocks.push(block)?;
        match put_known(
            self.heap,
            &mut self.hints,
            label,
            node,
            is_known,
            may_block,
            hint,
        ) {
            Ok(()) => Ok(()),
            Err(error) => {
                self.blocks.truncate(node as usize);
                Err(error)
            }
        }
    }
}

// The block of the node behind those that are there. Its label is known where it is the one that was known of it.
fn find<A: Allocator + Copy>(
    tree: &Tree<A>,
    blocks: &[Block],
    hints: &Hints,
    found: &mut Vec<u32>,
    effort: &mut BlockEffort,
    node: u32,
    is_known: bool,
) -> Block
    requires node { node < node_count_from tree.now.first (facts_in tree.now.entries) }
    requires blocks { blocks.now ≡ blocks_to tree.now.first (facts_in tree.now.entries) node }
    requires sound { AreSound tree.now.first (facts_in tree.now.entries) node hints.now.known }
    requires known { IsTrue is_known → IsLabelKnown (facts_in tree.now.entries) node hints.now.known }
    requires room { length hints.now.known ≤ length found.old.items }
    ensures block { result ≡ block_of tree.now.first (facts_in tree.now.entries) node }
    ensures room { length found.new.items ≡ length found.old.items }
{
    *effort = effort.with_block();
    if node < tree.first() {
        return Block::Clear;
    }
    if !has_clear_parent(tree, blocks, node) {
        return Block::Under;
    }
    match bound_of(hints, node, is_known) {
        Some(bound) => lowered(tree, blocks, hints.changed(), node, bound),
        None => {
            *effort = effort.with_sieve();
            find_anywhere(tree, blocks, hints, found, node, print_to_ask(tree, node))
        }
    }
}

// The block of a node that is no first one and whose parent is clear, by a look through the prints of all nodes: the
// node has what this print shows.
fn find_anywhere<A: Allocator + Copy>(
    tree: &Tree<A>,
    blocks: &[Block],
    hints: &Hints,
    found: &mut Vec<u32>,
    node: u32,
    print: [u64; 4],
) -> Block
    requires blocks { blocks.now ≡ blocks_to tree.now.first (facts_in tree.now.entries) node }
    requires sound { AreSound tree.now.first (facts_in tree.now.entries) node hints.now.known }
    requires room { length hints.now.known ≤ length found.old.items }
    requires print { IsPrintWithin (label_of (facts_in tree.now.entries) node) print }
    requires words { length print ≡ 4 }
    ensures block { result ≡ blocked_from (facts_in tree.now.entries) blocks.now node 0 node }
    ensures room { length found.new.items ≡ length found.old.items }
{
    let count = hints.sift(&print, found);
    first_blocking(tree, blocks, &found[..count], node)
}

// Has room for one place more than so many.
fn make_room(found: &mut Vec<u32>, count: u32) -> Result<(), NoMemory>
    ensures more { length found.old.items ≤ length found.new.items }
    ensures room { OnOk result (count ≤ length found.old.items → count + 1 ≤ length found.new.items) }
{
    if found.len() == count as usize {
        found.push(0)?;
    }
    Ok(())
}

// Knows this of a node, whose label may be the one that is known of it.
fn put_known(
    heap: Global,
    hints: &mut Hints,
    label: &[u32],
    node: u32,
    is_known: bool,
    may_block: bool,
    hint: Block,
) -> Result<(), NoMemory>
    requires there { node ≤ length hints.old.known }
    requires known { IsTrue is_known → node < length hints.old.known }
    requires label { IsTrue is_known → (known_at hints.old.known node).label ≡ label.now }
    requires hint { IsHint hints.old.known [] node label.now hint }
    ensures put { OnOk result (hints.new.known ≡ known_with hints.old.known node (known_of label.now may_block hint)) }
    ensures unchanged { OnErr result (hints.new.known ≡ hints.old.known) }
{
    if is_known && hints.may_block(node) == may_block {
        hints.renew(node, hint);
        return Ok(());
    }
    let known = Known::new(heap, label, may_block, hint)?;
    hints.put(node, known, print_to_keep(label, may_block))
}

// Whether a node with this block can block others: a clear representative.
fn can_block<A: Allocator + Copy>(tree: &Tree<A>, node: u32, block: Block) -> bool
    ensures { result ≡ ((rep (facts_in tree.now.entries) node == node) && is_clear_of block) }
{
    tree.representative(node) == node && is_clear_block(block)
}

// What the block of a node says of nodes before it. That of a first node says nothing, since it is clear in any case.
fn hint_of<A: Allocator + Copy>(tree: &Tree<A>, node: u32, block: Block) -> Block
    ensures first { node < tree.now.first → result ≡ Under }
    ensures other { tree.now.first ≤ node → result ≡ block }
{
    if node < tree.first() {
        Block::Under
    } else {
        block
    }
}

// A number below which no node blocks this one but maybe one that has changed: the node that blocked it before, or its
// own number. There is none where its label has changed, where the node that blocked it has, or where its parent was
// not clear.
fn bound_of(hints: &Hints, node: u32, is_known: bool) -> Option<u32>
    requires { IsTrue is_known → node < length hints.now.known }
    ensures known { IfSome result (λ b. IsTrue is_known) }
    ensures bound { IfSome result
        (IsHintBound hints.now.known hints.now.changed node (known_at hints.now.known node).label) }
{
    if !is_known {
        return None;
    }
    match hints.hint(node) {
        Block::Clear => Some(node),
        Block::By(other) if !hints.has_changed(other) => Some(other),
        Block::By(_) => None,
        Block::Under => None,
    }
}

// The block of a node that none of the nodes below this one blocks but maybe some of these.
fn lowered<A: Allocator + Copy>(
    tree: &Tree<A>,
    blocks: &[Block],
    changed: &[u32],
    node: u32,
    bound: u32,
) -> Block
    requires { IsBound (facts_in tree.now.entries) blocks.now node changed.now bound }
    ensures { result ≡ blocked_from (facts_in tree.now.entries) blocks.now node 0 node }
{
    let mut least = bound;
    for other in changed {
        least = lower(tree, blocks, node, least, *other);
    }
    block_before(node, least)
}

// The lesser of a bound and another node, where that blocks the node.
fn lower<A: Allocator + Copy>(
    tree: &Tree<A>,
    blocks: &[Block],
    node: u32,
    bound: u32,
    other: u32,
) -> u32
    ensures { (left : List ℕ) → IsBound (facts_in tree.now.entries) blocks.now node (other ∷ left) bound
        → IsBound (facts_in tree.now.entries) blocks.now node left result }
{
    if other < bound && may_block_node(tree, blocks, node, other) {
        other
    } else {
        bound
    }
}

// The block of a node that is blocked by this one, if it comes before it, and else by none.
fn block_before(node: u32, least: u32) -> Block
    ensures by { least < node → result ≡ By least }
    ensures clear { node ≤ least → result ≡ Clear }
{
    if least < node {
        Block::By(least)
    } else {
        Block::Clear
    }
}

// The print that is kept of a node with these concepts: where it can block no other node an empty one, which has no
// print in it.
fn print_to_keep(label: &[u32], may_block: bool) -> [u64; 4]
    ensures { IsShown may_block label.now result }
{
    if may_block {
        print_of_all(label)
    } else {
        [0; 4]
    }
}

// A print with the bit of each of these concepts. Where there are many, nearly every bit is one of theirs.
fn print_of_all(label: &[u32]) -> [u64; 4]
    ensures words { length result ≡ 4 }
    ensures shows { (c : ℕ) → is_among c label.now ≡ true → set.contains (number_set result) (c % 256) ≡ true }
{
    if label.len() > MANY {
        return full_print();
    }
    print_of(label)
}

// The print of what a node has, where it is much, of the first part of it: what has everything has that too.
fn print_to_ask<A: Allocator + Copy>(tree: &Tree<A>, node: u32) -> [u64; 4]
    ensures shows { IsPrintWithin (label_of (facts_in tree.now.entries) node) result }
    ensures words { length result ≡ 4 }
{
    let label = tree.label(node);
    print_of(&label[..label.len().min(MANY)])
}

/// Whether the search goes on below a representative. A first node is clear.
pub fn state<A: Allocator + Copy>(tree: &Tree<A>, prints: &Blocks, node: u32) -> Block
    requires node { node < node_count_from tree.now.first (facts_in tree.now.entries) }
    requires current { IsCurrent tree.now.first (facts_in tree.now.entries) prints.now }
    ensures { result ≡ block_of tree.now.first (facts_in tree.now.entries) node }
{
    let _ = tree;
    prints.blocks[node as usize]
}

/// Whether nodes may be made below a representative: whether it is clear. A number that is no node's is not.
pub fn is_clear<A: Allocator + Copy>(tree: &Tree<A>, prints: &Blocks, node: u32) -> bool
    requires { IsCurrent tree.now.first (facts_in tree.now.entries) prints.now }
    ensures { IsTrue result ↔ (block_of tree.now.first (facts_in tree.now.entries) node ≡ Clear) }
{
    if node >= tree.nodes() {
        return is_clear_beyond(tree, node);
    }
    is_clear_block(state(tree, prints, node))
}

// A number that is no node's has no more than node 0 has, a first node, by which it is blocked.
fn is_clear_beyond<A: Allocator + Copy>(tree: &Tree<A>, node: u32) -> bool
    requires { node_count_from tree.now.first (facts_in tree.now.entries) ≤ node }
    ensures no { result ≡ false }
    ensures blocked { block_of tree.now.first (facts_in tree.now.entries) node ≡ By 0 }
{
    let _ = tree.first();
    let _ = tree.label(node);
    false
}

fn is_clear_block(block: Block) -> bool
    ensures { result ≡ is_clear_of block }
{
    match block {
        Block::Clear => true,
        Block::By(_) => false,
        Block::Under => false,
    }
}

// Whether the node is clear, where these are the blocks of the nodes from 0 on.
fn is_clear_at(blocks: &[Block], node: u32) -> bool
    ensures { result ≡ is_clear_of (slice_index_or blocks.now node Under) }
{
    match blocks.get(node as usize) {
        Some(block) => is_clear_block(*block),
        None => false,
    }
}

// Whether the representative of the node's parent is clear, if there is one.
fn has_clear_parent<A: Allocator + Copy>(tree: &Tree<A>, blocks: &[Block], node: u32) -> bool
    requires { node < node_count_from tree.now.first (facts_in tree.now.entries) }
    ensures { result
        ≡ is_parent_clear (facts_in tree.now.entries) blocks.now
        (parent_from tree.now.first (facts_in tree.now.entries) node) }
{
    match tree.parent(node) {
        None => true,
        Some(parent) => is_clear_at(blocks, tree.representative(parent)),
    }
}

// The block of the node by the first of these nodes that may block it.
fn first_blocking<A: Allocator + Copy>(
    tree: &Tree<A>,
    blocks: &[Block],
    found: &[u32],
    node: u32,
) -> Block
    ensures { result ≡ blocked_among (facts_in tree.now.entries) blocks.now node found.now }
{
    for other in found {
        if may_block_node(tree, blocks, node, *other) {
            return Block::By(*other);
        }
    }
    Block::Clear
}

// Whether the other is a clear representative that has all that the node has.
fn may_block_node<A: Allocator + Copy>(
    tree: &Tree<A>,
    blocks: &[Block],
    node: u32,
    other: u32,
) -> bool
    ensures { result ≡ may_block (facts_in tree.now.entries) blocks.now node other }
{
    tree.representative(other) == other
        && is_clear_at(blocks, other)
        && has_label_of(tree, other, node)
}

// Whether the first node has all that the second has.
fn has_label_of<A: Allocator + Copy>(tree: &Tree<A>, other: u32, node: u32) -> bool
    ensures { result ≡ is_label_part (facts_in tree.now.entries) node other }
{
    has_all(tree, other, tree.label(node))
}

fn has_all<A: Allocator + Copy>(tree: &Tree<A>, node: u32, concepts: &[u32]) -> bool
    ensures { result ≡ list_all (has_concept (facts_in tree.now.entries) node) concepts.now }
{
    for concept in concepts {
        if !tree.has(node, *concept) {
            return false;
        }
    }
    true
}
