// A completion tree as the state that the finders of steps look through, by itself and with the blocks of its nodes.
ghost use Rattle.std.specs.Prelude.{◌≡◌};
ghost use Rattle.blocking.specs.Trail.{facts_in};
ghost use Rattle.blocking.specs.Followed.{IsCurrent};

use blocking::{Blocks, Tree, is_clear};
use std::alloc::Allocator;
use step_finders::{State, StateWithBlocks};

/// A completion tree.
#[derive(Drop)]
pub struct TreeState<'a, A: Allocator> {
    /// The tree.
    pub tree: &'a Tree<A>,
}

impl<'a, A: Allocator + Copy> TreeState<'a, A> {
    /// The tree as it is now.
    pub fn new(tree: &'a Tree<A>) -> Self
        ensures tree { result.tree.now ≡ tree.now }
    {
        TreeState { tree }
    }
}

impl<'a, A: Allocator + Copy> State for TreeState<'a, A> {
    ghost facts = { λ s. facts_in s.tree.now.entries };

    ghost first = { λ s. s.tree.now.first };

    fn nodes(&self) -> u32 {
        self.tree.nodes()
    }

    fn representative(&self, node: u32) -> u32 {
        self.tree.representative(node)
    }

    fn members(&self, node: u32) -> &[u32] {
        self.tree.members(node)
    }

    fn parent(&self, node: u32) -> Option<u32> {
        self.tree.parent(node)
    }

    fn origin(&self, node: u32) -> Option<(u32, u32)> {
        self.tree.origin(node)
    }

    fn has(&self, node: u32, concept: u32) -> bool {
        self.tree.has(node, concept)
    }

    fn label(&self, node: u32) -> &[u32] {
        self.tree.label(node)
    }

    fn edges(&self, node: u32) -> &[(u32, u32)] {
        self.tree.edges(node)
    }

    fn are_apart(&self, one: u32, other: u32) -> bool {
        self.tree.are_apart(one, other)
    }
}

/// A completion tree, and the blocks of its nodes as it is now.
#[derive(Drop)]
pub struct TreeWithBlocks<'a, A: Allocator> {
    /// The tree.
    pub state: TreeState<'a, A>,
    /// The blocks of its nodes.
    pub found_blocks: &'a Blocks,
    ghost current: { IsCurrent state.tree.now.first (facts_in state.tree.now.entries) found_blocks.now },
}

impl<'a, A: Allocator + Copy> TreeWithBlocks<'a, A> {
    /// The tree with its blocks, which have been followed since it changed.
    pub fn new(tree: &'a Tree<A>, found_blocks: &'a Blocks) -> Self
        requires { IsCurrent tree.now.first (facts_in tree.now.entries) found_blocks.now }
        ensures tree { result.state.tree.now ≡ tree.now }
        ensures found_blocks { result.found_blocks.now ≡ found_blocks.now }
    {
        TreeWithBlocks {
            state: TreeState::new(tree),
            found_blocks,
        }
    }
}

impl<'a, A: Allocator + Copy> State for TreeWithBlocks<'a, A> {
    ghost facts = { λ s. facts_in s.state.tree.now.entries };

    ghost first = { λ s. s.state.tree.now.first };

    fn nodes(&self) -> u32 {
        self.state.nodes()
    }

    fn representative(&self, node: u32) -> u32 {
        self.state.representative(node)
    }

    fn members(&self, node: u32) -> &[u32] {
        self.state.members(node)
    }

    fn parent(&self, node: u32) -> Option<u32> {
        self.state.parent(node)
    }

    fn origin(&self, node: u32) -> Option<(u32, u32)> {
        self.state.origin(node)
    }

    fn has(&self, node: u32, concept: u32) -> bool {
        self.state.has(node, concept)
    }

    fn label(&self, node: u32) -> &[u32] {
        self.state.label(node)
    }

    fn edges(&self, node: u32) -> &[(u32, u32)] {
        self.state.edges(node)
    }

    fn are_apart(&self, one: u32, other: u32) -> bool {
        self.state.are_apart(one, other)
    }
}

impl<'a, A: Allocator + Copy> StateWithBlocks for TreeWithBlocks<'a, A> {
    fn is_clear(&self, node: u32) -> bool {
        is_clear(self.state.tree, self.found_blocks, node)
    }
}
