//! Facts of all kinds come and go, over one first node or some, and the blocks are compared with those by a plain
//! reading.
ghost use Rattle.std.specs.Prelude.{OnOk};
ghost use Rattle.completion_tree.specs.Trail.{facts_in};
ghost use Rattle.blocking.specs.Followed.{IsCurrent};

use crate::following::{back, put, start};
use crate::plain::plain_blocks;
use blocking::{Blocks, state};
use calculus_specs::{Fact, NoMemory};
use completion_tree::{Item, Tree};
use std::alloc::Global;
use std::process::Abort;
use std::test::Fail;

const WALKS: u64 = 200;

const STEPS: u64 = 100;

/// The next number of a fixed sequence.
fn next(seed: u64) -> u64 {
    let mixed = seed ^ (seed << 13);
    let mixed = mixed ^ (mixed >> 7);
    mixed ^ (mixed << 17)
}

/// Sixteen bits of a number, from one on.
fn bits(number: u64, from: u32) -> u32 {
    (number >> from.min(63) & 0xffff) as u32
}

/// A fact about some of the nodes, or a new one.
fn some_fact(seed: u64, nodes: u32) -> Fact<u32> {
    let nodes = nodes.max(1);
    let first = bits(seed, 8) % nodes;
    let second = bits(seed, 24) % nodes;
    let concept = bits(seed, 40) % 6;
    match seed % 16 {
        0..=5 => Fact::Has(first, concept),
        6..=11 => Fact::Edge(7, first, if nodes < 60 { nodes } else { second }),
        12 | 13 => Fact::Edge(8, first, second),
        14 => Fact::Apart(first, second),
        _ => Fact::Same(first, second),
    }
}

fn facts_of(heap: Global, tree: &Tree<Global>) -> Result<Vec<Fact<u32>>, NoMemory> {
    let mut facts = Vec::new(heap);
    for place in 0..tree.len() {
        if let Item::Fact(fact) = tree.item(place) {
            facts.push(fact)?;
        }
    }
    Ok(facts)
}

// Whether each node has the block that it has by a plain reading.
fn are_plain(tree: &Tree<Global>, blocks: &Blocks, facts: &[Fact<u32>]) -> bool
    requires { IsCurrent tree.now.first (facts_in tree.now.entries) blocks.now }
{
    let plain = plain_blocks(facts, tree.first(), tree.nodes());
    let mut are_so = true;
    for node in 0..tree.nodes() {
        are_so &= state(tree, blocks, node) == plain[node as usize % 64];
    }
    are_so
}

fn is_plain(heap: Global, tree: &Tree<Global>, blocks: &Blocks) -> Result<bool, NoMemory>
    requires { IsCurrent tree.now.first (facts_in tree.now.entries) blocks.now }
{
    let facts = facts_of(heap, tree)?;
    Ok(are_plain(tree, blocks, &facts))
}

fn step(tree: &mut Tree<Global>, blocks: &mut Blocks, seed: u64) -> Result<(), NoMemory>
    requires { IsCurrent tree.old.first (facts_in tree.old.entries) blocks.old }
    ensures { OnOk result (IsCurrent tree.new.first (facts_in tree.new.entries) blocks.new) }
{
    if seed % 23 == 0 {
        let len = tree.len();
        let fewer = bits(seed, 8) % 16;
        return back(tree, blocks, len - len.min(fewer));
    }
    put(tree, blocks, some_fact(seed, tree.nodes()))
}

// A step, after which the blocks are looked at.
fn go_on(
    heap: Global,
    tree: &mut Tree<Global>,
    blocks: &mut Blocks,
    seed: u64,
) -> Result<bool, NoMemory>
    requires { IsCurrent tree.old.first (facts_in tree.old.entries) blocks.old }
    ensures { OnOk result (IsCurrent tree.new.first (facts_in tree.new.entries) blocks.new) }
{
    step(tree, blocks, seed)?;
    is_plain(heap, tree, blocks)
}

fn is_walk(heap: Global, seed: u64) -> Result<bool, NoMemory> {
    let (mut tree, mut blocks) = start(heap, 1 + bits(seed, 8) % 5)?;
    let mut seed = seed;
    let mut is_so = true;
    for _ in 0..STEPS {
        seed = next(seed);
        is_so &= go_on(heap, &mut tree, &mut blocks, seed)?;
    }
    Ok(is_so)
}

fn walks(rt: &impl Abort, heap: Global) -> Result<(), NoMemory> {
    for seed in 0..WALKS {
        assert!(rt; is_walk(heap, next(seed + 1))?, "walk {seed}");
    }
    Ok(())
}

#[test]
fn random_facts(rt: HostRuntime) -> Result<(), Fail> {
    walks(&rt, rt.alloc())?;
    Ok(())
}
