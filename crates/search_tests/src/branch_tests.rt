// The facts of a branch before a join, after it, and after it was undone.

use branch_facts::{BranchFacts, Fact, Mark, NoMemory};
use std::alloc::Global;
use std::test::Fail;

/// What is asked of a branch.
#[derive(Clone, Copy)]
enum Asked {
    Known(u32),
    Has(u32, u32),
    Edge(u32, u32, u32),
    Apart(u32, u32),
    /// Whether the second represents the first.
    Stands(u32, u32),
}

/// Edges from 0 to 1 and from 2 to 3, a concept of 1 and one of 3, and 1 and 3 apart.
const TWO_EDGES: &[Fact<u32>] = &[
    Fact::Edge(7, 0, 1),
    Fact::Has(1, 5),
    Fact::Edge(8, 2, 3),
    Fact::Has(3, 6),
    Fact::Apart(1, 3),
];

/// What is so then.
const APART: &[(Asked, bool)] = &[
    (Asked::Known(3), true),
    (Asked::Known(4), false),
    (Asked::Known(9), false),
    (Asked::Has(1, 0), true),
    (Asked::Has(1, 5), true),
    (Asked::Has(1, 6), false),
    (Asked::Has(0, 5), false),
    (Asked::Has(9, 5), false),
    (Asked::Edge(7, 0, 1), true),
    (Asked::Edge(7, 1, 0), false),
    (Asked::Edge(8, 0, 1), false),
    (Asked::Apart(3, 1), true),
    (Asked::Apart(1, 2), false),
    (Asked::Stands(2, 2), true),
];

/// Two joins.
const JOINED_PAIRS: &[Fact<u32>] = &[Fact::Same(2, 0), Fact::Same(1, 3)];

/// What is so then, and when a new node has a concept.
const JOINED: &[(Asked, bool)] = &[
    (Asked::Known(9), true),
    (Asked::Has(1, 6), true),
    (Asked::Has(3, 5), true),
    (Asked::Has(9, 5), true),
    (Asked::Edge(8, 0, 3), true),
    (Asked::Edge(7, 2, 1), true),
    (Asked::Edge(8, 0, 1), true),
    (Asked::Apart(1, 1), true),
    (Asked::Stands(2, 0), true),
    (Asked::Stands(3, 1), true),
];

/// Joins after that of 3 with 2, and what represents which node then. The joins are undone before the next row.
const JOINS: &[(&[Fact<u32>], &[(Asked, bool)])] = &[
    (
        &[Fact::Same(2, 1), Fact::Same(0, 3)],
        &[
            (Asked::Stands(1, 0), true),
            (Asked::Stands(2, 0), true),
            (Asked::Stands(3, 0), true),
        ],
    ),
    (
        &[],
        &[(Asked::Stands(1, 1), true), (Asked::Stands(3, 2), true)],
    ),
    (
        &[Fact::Same(3, 0), Fact::Same(1, 2)],
        &[(Asked::Stands(1, 0), true), (Asked::Stands(3, 0), true)],
    ),
];

fn add_all(branch: &mut BranchFacts, facts: &[Fact<u32>]) -> Result<(), NoMemory> {
    for fact in facts {
        branch.add(*fact)?;
    }
    Ok(())
}

fn add_nodes(branch: &mut BranchFacts, nodes: &[u32]) -> Result<(), NoMemory> {
    for node in nodes {
        if !branch.knows(*node) {
            branch.add_node(*node)?;
        }
    }
    Ok(())
}

fn holds(branch: &BranchFacts, asked: Asked) -> bool {
    match asked {
        Asked::Known(node) => branch.knows(node),
        Asked::Has(node, concept) => branch.has(node, concept),
        Asked::Edge(role, from, to) => branch.has_edge(role, from, to),
        Asked::Apart(first, second) => branch.are_apart(first, second),
        Asked::Stands(node, by) => branch.representative(node) == by,
    }
}

fn are_so(branch: &BranchFacts, table: &[(Asked, bool)]) -> bool {
    let mut are_so = true;
    for (asked, wanted) in table {
        are_so &= holds(branch, *asked) == *wanted;
    }
    are_so
}

fn has_counts(branch: &BranchFacts, nodes: usize, facts: usize) -> bool {
    let mark = branch.mark();
    mark.nodes == nodes && mark.facts == facts
}

fn back_to(branch: &mut BranchFacts, mark: Mark) {
    let now = branch.mark();
    if mark.nodes <= now.nodes && mark.facts <= now.facts {
        branch.undo_to(mark);
    }
}

fn are_facts(branch: &mut BranchFacts) -> Result<bool, NoMemory> {
    add_nodes(branch, &[0, 1, 2, 3])?;
    add_all(branch, TWO_EDGES)?;
    let are_apart = are_so(branch, APART) && has_counts(branch, 4, 5);
    let mark = branch.mark();
    add_all(branch, JOINED_PAIRS)?;
    add_nodes(branch, &[9])?;
    branch.add(Fact::Has(9, 5))?;
    let are_joined = are_so(branch, JOINED) && has_counts(branch, 5, 8);
    back_to(branch, mark);
    Ok(are_apart && are_joined && are_so(branch, APART))
}

fn are_joins(branch: &mut BranchFacts) -> Result<bool, NoMemory> {
    branch.add(Fact::Same(3, 2))?;
    let mut are_right = true;
    for (facts, table) in JOINS {
        let mark = branch.mark();
        add_all(branch, facts)?;
        are_right &= are_so(branch, table);
        back_to(branch, mark);
    }
    Ok(are_right)
}

fn are_read(alloc: Global, only_joins: bool) -> Result<bool, NoMemory> {
    let mut branch = BranchFacts::new(alloc);
    if only_joins {
        are_joins(&mut branch)
    } else {
        are_facts(&mut branch)
    }
}

#[test]
fn facts_are_read_through_joined_nodes(rt: HostRuntime) -> Result<(), Fail> {
    assert!(rt; are_read(rt.alloc(), false)?, "facts");
    assert!(rt; are_read(rt.alloc(), true)?, "joins");
    Ok(())
}
