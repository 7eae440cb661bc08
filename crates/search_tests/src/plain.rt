// The definitions of blocks, read plainly off a list of facts: of at most 64 nodes and 64 concepts.

use blocking::Block;
use calculus_specs::Fact;

const MOST: usize = 64;

/// The blocks of the nodes below `count`, of which those below `first` are first nodes.
pub(crate) fn plain_blocks(facts: &[Fact<u32>], first: u32, count: u32) -> [Block; MOST] {
    let reps = plain_reps(facts);
    let labels = plain_labels(facts, &reps);
    let mut blocks = [Block::Under; MOST];
    for node in 0..first.min(count).min(MOST as u32) {
        blocks[node as usize % MOST] = Block::Clear;
    }
    for node in first..count.min(MOST as u32) {
        blocks[node as usize % MOST] = plain_block(facts, &reps, &labels, &blocks, node);
    }
    blocks
}

fn plain_block(
    facts: &[Fact<u32>],
    reps: &[u32; MOST],
    labels: &[u64; MOST],
    blocks: &[Block; MOST],
    node: u32,
) -> Block {
    let above = reps[plain_parent(facts, node) as usize % MOST];
    if blocks[above as usize % MOST] != Block::Clear {
        return Block::Under;
    }
    let label = labels[node as usize % MOST];
    for other in 0..node {
        let place = other as usize % MOST;
        if reps[place] == other && blocks[place] == Block::Clear && label & !labels[place] == 0 {
            return Block::By(other);
        }
    }
    Block::Clear
}

fn plain_reps(facts: &[Fact<u32>]) -> [u32; MOST] {
    let mut reps = [0; MOST];
    for node in 0..MOST {
        reps[node] = node as u32;
    }
    for fact in facts {
        if let Fact::Same(first, second) = *fact {
            let first = reps[first as usize % MOST];
            let second = reps[second as usize % MOST];
            rename(&mut reps, first.max(second), first.min(second));
        }
    }
    reps
}

fn rename(reps: &mut [u32; MOST], from: u32, to: u32) {
    for node in 0..MOST {
        if reps[node] == from {
            reps[node] = to;
        }
    }
}

fn plain_labels(facts: &[Fact<u32>], reps: &[u32; MOST]) -> [u64; MOST] {
    let mut own = [1; MOST];
    for fact in facts {
        if let Fact::Has(node, concept) = *fact {
            own[reps[node as usize % MOST] as usize % MOST] |= 1 << (concept % 64);
        }
    }
    let mut labels = [1; MOST];
    for node in 0..MOST {
        labels[node] = own[reps[node] as usize % MOST];
    }
    labels
}

// Where the first edge into a node begins.
fn plain_parent(facts: &[Fact<u32>], node: u32) -> u32 {
    for fact in facts {
        if let Fact::Edge(_, from, to) = *fact
            && to == node
        {
            return from;
        }
    }
    0
}
