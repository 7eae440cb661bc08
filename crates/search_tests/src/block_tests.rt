// Small trees whose blocks are known, and a tree with its blocks as the state of a search.
ghost use Rattle.completion_tree.specs.Trail.{facts_in};
ghost use Rattle.blocking.specs.Followed.{IsCurrent};

use crate::following::{fill, put, start};
use blocking::{Block, Blocks, is_clear, state};
use calculus_specs::Fact::{Apart, Edge, Has, Same};
use calculus_specs::{Fact, NoMemory};
use completion_tree::Tree;
use std::alloc::Global;
use std::process::Abort;
use std::test::Fail;
use step_agenda::{TreeState, TreeWithBlocks};
use step_finders::{State, StateWithBlocks};

/// Node 0 has concept 1, node 1 below it concept 2, node 2 below node 1 concept 1, and node 3 below node 2 both.
const CHAIN: &[Fact<u32>] = &[
    Has(0, 1),
    Edge(7, 0, 1),
    Has(1, 2),
    Edge(7, 1, 2),
    Has(2, 1),
    Edge(7, 2, 3),
    Has(3, 1),
    Has(3, 2),
];

/// Nodes 1 and 2 are below node 0, and node 3 is below node 2. Concept 257 has the bit of concept 1.
const BESIDE: &[Fact<u32>] = &[
    Edge(7, 0, 1),
    Has(1, 1),
    Edge(7, 0, 2),
    Has(2, 257),
    Has(2, 2),
    Edge(7, 2, 3),
    Has(3, 1),
];

/// Nodes 0 to 2 are first nodes, node 2 has nothing, and an edge leads from node 1 back to node 0. Node 3 is below node
/// 2, and node 4 below node 3. Node 3 has what node 1 has, and node 0 has no more than node 1.
const BELOW: &[Fact<u32>] = &[
    Has(0, 1),
    Has(1, 1),
    Has(1, 2),
    Edge(7, 1, 0),
    Edge(7, 2, 3),
    Has(3, 1),
    Has(3, 2),
    Edge(7, 3, 4),
];

const CLEAR: Block = Block::Clear;

const UNDER: Block = Block::Under;

/// The number of first nodes, the facts of a tree, one more, and the blocks of its nodes before and after that.
type Example = (
    u32,
    &'static [Fact<u32>],
    Fact<u32>,
    &'static [Block],
    &'static [Block],
);

const EXAMPLES: &[Example] = &[
    (
        1,
        CHAIN,
        Has(2, 2),
        &[CLEAR, CLEAR, Block::By(0), UNDER],
        &[CLEAR, CLEAR, CLEAR, Block::By(2)],
    ),
    (
        1,
        CHAIN,
        Has(1, 1),
        &[CLEAR, CLEAR, Block::By(0), UNDER],
        &[CLEAR, CLEAR, Block::By(0), UNDER],
    ),
    (
        1,
        CHAIN,
        Same(0, 2),
        &[CLEAR, CLEAR, Block::By(0), UNDER],
        &[CLEAR, CLEAR, Block::By(0), CLEAR],
    ),
    (
        1,
        BESIDE,
        Has(3, 2),
        &[CLEAR, CLEAR, CLEAR, Block::By(1)],
        &[CLEAR, CLEAR, CLEAR, CLEAR],
    ),
    (
        1,
        BESIDE,
        Has(2, 1),
        &[CLEAR, CLEAR, CLEAR, Block::By(1)],
        &[CLEAR, CLEAR, CLEAR, Block::By(1)],
    ),
    (
        3,
        BELOW,
        Edge(8, 2, 0),
        &[CLEAR, CLEAR, CLEAR, Block::By(1), UNDER],
        &[CLEAR, CLEAR, CLEAR, Block::By(1), UNDER],
    ),
    (
        3,
        BELOW,
        Same(1, 0),
        &[CLEAR, CLEAR, CLEAR, Block::By(1), UNDER],
        &[CLEAR, CLEAR, CLEAR, Block::By(0), UNDER],
    ),
    (
        3,
        BELOW,
        Has(3, 3),
        &[CLEAR, CLEAR, CLEAR, Block::By(1), UNDER],
        &[CLEAR, CLEAR, CLEAR, CLEAR, Block::By(0)],
    ),
    (
        3,
        BELOW,
        Has(2, 3),
        &[CLEAR, CLEAR, CLEAR, Block::By(1), UNDER],
        &[CLEAR, CLEAR, CLEAR, Block::By(1), UNDER],
    ),
];

// Whether these are the blocks of the nodes from 0 on, and those are clear of which that says so.
fn are_blocks(tree: &Tree<Global>, blocks: &Blocks, wanted: &[Block]) -> bool
    requires { IsCurrent tree.now.first (facts_in tree.now.entries) blocks.now }
{
    let mut are_so = !is_clear(tree, blocks, 1000);
    let mut node = 0u32;
    for block in wanted {
        are_so &= node < tree.nodes()
            && state(tree, blocks, node) == *block
            && is_clear(tree, blocks, node) == (*block == CLEAR);
        node = node.wrapping_add(1);
    }
    are_so
}

fn is_followed(
    tree: &mut Tree<Global>,
    blocks: &mut Blocks,
    example: &Example,
) -> Result<bool, NoMemory>
    requires { IsCurrent tree.old.first (facts_in tree.old.entries) blocks.old }
{
    let (_, facts, more, before, after) = example;
    fill(tree, blocks, facts)?;
    let is_before = are_blocks(tree, blocks, before);
    put(tree, blocks, *more)?;
    Ok(is_before && are_blocks(tree, blocks, after))
}

fn is_example(heap: Global, example: &Example) -> Result<bool, NoMemory> {
    let (first, _, _, _, _) = example;
    let (mut tree, mut blocks) = start(heap, (*first).max(1))?;
    is_followed(&mut tree, &mut blocks, example)
}

/// Node 1 is below node 0 and has concept 5, and node 2 below node 1 has nothing.
const STATE: &[Fact<u32>] = &[Edge(7, 0, 1), Has(1, 5), Edge(7, 1, 2), Apart(0, 2)];

/// Nodes, and whether they are clear.
const ARE_CLEAR: &[(u32, bool)] = &[
    (0, true),
    (1, true),
    (2, false),
    (3, false),
    (u32::MAX, false),
];

fn are_nodes<S: State>(state: &S) -> bool {
    state.nodes() == 3
        && state.parent(2) == Some(1)
        && state.origin(2) == Some((7, 1))
        && state.representative(2) == 2
        && state.members(2) == [2].as_slice()
        && state.are_apart(2, 0)
        && !state.are_apart(2, 1)
}

fn is_state<S: State>(state: &S) -> bool {
    are_nodes(state)
        && state.has(1, 5)
        && !state.has(2, 5)
        && state.label(1) == [0, 5].as_slice()
        && state.edges(1) == [(7, 2)].as_slice()
}

fn is_state_with_blocks<S: StateWithBlocks>(state: &S) -> bool {
    let mut is_so = is_state(state);
    for (node, wanted) in ARE_CLEAR {
        is_so &= state.is_clear(*node) == *wanted;
    }
    is_so
}

fn is_state_of(tree: &mut Tree<Global>, blocks: &mut Blocks) -> Result<bool, NoMemory>
    requires { IsCurrent tree.old.first (facts_in tree.old.entries) blocks.old }
{
    fill(tree, blocks, STATE)?;
    let is_alone = is_state(&TreeState::new(tree));
    Ok(is_alone && is_state_with_blocks(&TreeWithBlocks::new(tree, blocks)))
}

fn is_told(heap: Global) -> Result<bool, NoMemory> {
    let (mut tree, mut blocks) = start(heap, 1)?;
    is_state_of(&mut tree, &mut blocks)
}

fn test_examples(rt: &impl Abort, heap: Global) -> Result<(), NoMemory> {
    for (place, example) in EXAMPLES.iter().enumerate() {
        assert!(rt; is_example(heap, example)?, "example {place}");
    }
    Ok(())
}

#[test]
fn blocks_of_small_trees(rt: HostRuntime) -> Result<(), Fail> {
    test_examples(&rt, rt.alloc())?;
    assert!(rt; is_told(rt.alloc())?, "state");
    Ok(())
}
