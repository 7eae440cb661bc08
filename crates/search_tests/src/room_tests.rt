// Trees in an arena of little room: what is refused leaves a tree as it was, and with more room it goes on.

use crate::following::is_fit;
use bumpalo::Bump;
use calculus_specs::{Fact, NoMemory};
use fact_tree::FactTree;
use std::alloc::{Allocator, Global};
use std::test::Fail;

/// How many bytes the arena of a tree may have.
const ROOMS: &[usize] = &[0, 1_024, 2_048, 8_192, 65_536];

/// More concepts than any of these has room for.
const MANY: u32 = 10_000;

// Puts a concept at node 0.
fn put<A: Allocator + Copy>(tree: &mut FactTree<A>, concept: u32) -> Result<(), NoMemory> {
    let fact = Fact::Has(0, concept);
    if is_fit(tree.nodes(), fact) {
        tree.add(fact)?;
    }
    Ok(())
}

// Puts concepts from 1 on until memory is refused, and answers the refused one.
fn put_until_refused<A: Allocator + Copy>(tree: &mut FactTree<A>) -> u32 {
    for concept in 1..MANY {
        if put(tree, concept).is_err() {
            return concept;
        }
    }
    MANY
}

// Whether node 0 has the concepts from 1 to before this one, and the tree no other fact.
fn has_those_before<A: Allocator + Copy>(tree: &FactTree<A>, concept: u32) -> bool {
    let mut has_each = tree.len() == concept.saturating_sub(1) as usize && !tree.has(0, concept);
    for earlier in 1..concept {
        has_each &= tree.has(0, earlier);
    }
    has_each
}

fn stays_and_goes_on<'a>(bump: &'a Bump, tree: &mut FactTree<&'a Bump>, room: usize) -> bool {
    bump.set_allocation_limit(Some(room));
    let refused = put_until_refused(tree);
    let stays = refused < MANY && has_those_before(tree, refused);
    bump.set_allocation_limit(None);
    let goes_on = put(tree, refused).is_ok();
    stays && goes_on && has_those_before(tree, refused.saturating_add(1))
}

fn is_kept_in(heap: Global, room: usize) -> Result<bool, NoMemory> {
    let bump = Bump::new(heap);
    let mut tree = FactTree::new_in(&bump, 1)?;
    Ok(stays_and_goes_on(&bump, &mut tree, room))
}

#[test]
fn trees_that_are_refused_memory(rt: HostRuntime) -> Result<(), Fail> {
    for room in ROOMS {
        assert!(rt; is_kept_in(rt.alloc(), *room)?, "{room} bytes");
    }
    Ok(())
}
