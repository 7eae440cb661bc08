// Models of small trees, worked out by hand.
ghost use Rattle.completion_tree.specs.Trail.{facts_in};
ghost use Rattle.blocking.specs.Followed.{IsCurrent};

use crate::following::{fill, start};
use crate::small_axioms::class;
use crate::small_tables::{CHAIN, role_box, table};
use crate::structure_tests::test_structure;
use blocking::Blocks;
use calculus_specs::Fact;
use completion_tree::Tree;
use finite_model::Interp;
use model_builder::interpretation_of_elements;
use role_box::RoleBox;
use shq_nnf::{Concepts, Shape};
use shq_terms::{AddFault, Axiom, Concept, NoMemory, Node, On, Query};
use std::alloc::Global;
use std::process::Abort;
use std::test::Fail;

/// Number 1 is class 0, number 2 class 1, and number 3 class 2.
const CLASSES: &[Shape<'static>] = &[Shape::Name(0), Shape::Name(1), Shape::Name(2)];

/// What is asked: of an element, whether so many successors by a role are in a class.
type Successors = (u32, u32, u32, u32);

/// The facts of a tree, how many elements its model has, which element is in which class, and which has which
/// successors; and whether it meets the axiom and refutes the query.
type Case = (
    &'static [Fact<u32>],
    u32,
    &'static [(u32, u32, bool)],
    &'static [(Successors, bool)],
    bool,
);

/// Both successors of node 0 are blocked by it, and lead to both.
const TWO: &[Fact<u32>] = &[
    Fact::Has(0, 1),
    Fact::Edge(0, 0, 1),
    Fact::Has(1, 1),
    Fact::Edge(0, 0, 2),
    Fact::Has(2, 1),
    Fact::Apart(1, 2),
];

const CASES: &[Case] = &[
    // One node.
    (
        &[Fact::Has(0, 2)],
        1,
        &[(0, 0, false), (0, 1, true)],
        &[],
        false,
    ),
    // Two that one node blocks.
    (
        TWO,
        3,
        &[],
        &[
            ((0, 2, 0, 0), true),
            ((1, 2, 0, 0), true),
            ((2, 2, 0, 0), true),
            ((0, 3, 2, 0), false),
            ((1, 3, 2, 0), false),
            ((2, 3, 2, 0), false),
        ],
        true,
    ),
    // Nodes 1 and 2 are one, node 3 is blocked by node 0, and node 4 under a block. Role 1 has chains, and role 2
    // too.
    (
        &[
            Fact::Has(0, 1),
            Fact::Edge(0, 0, 1),
            Fact::Has(1, 2),
            Fact::Edge(1, 0, 2),
            Fact::Has(2, 1),
            Fact::Same(1, 2),
            Fact::Has(0, 3),
            Fact::Edge(0, 1, 3),
            Fact::Has(3, 3),
            Fact::Edge(0, 3, 4),
            Fact::Has(4, 2),
        ],
        3,
        &[(1, 0, true), (1, 1, true), (2, 0, true), (2, 1, false)],
        &[
            ((0, 1, 0, 1), true),
            ((0, 2, 1, 0), true),
            ((1, 1, 0, 0), true),
            ((2, 1, 0, 1), true),
            ((2, 2, 2, 0), true),
            ((2, 2, 0, 0), false),
            ((0, 3, 2, 0), false),
        ],
        false,
    ),
];

// The model of the tree of these facts, with three roles.
fn filled_model(
    alloc: Global,
    tree: &mut Tree<Global>,
    blocks: &mut Blocks,
    facts: &[Fact<u32>],
    concepts: &Concepts,
    roles: &RoleBox,
) -> Result<Interp, NoMemory>
    requires { IsCurrent tree.old.first (facts_in tree.old.entries) blocks.old }
{
    fill(tree, blocks, facts)?;
    interpretation_of_elements(alloc, tree, blocks, concepts, roles, 3)
}

fn made_model(
    alloc: Global,
    facts: &[Fact<u32>],
    concepts: &Concepts,
    roles: &RoleBox,
) -> Result<Interp, NoMemory> {
    let (mut tree, mut blocks) = start(alloc, 1)?;
    filled_model(alloc, &mut tree, &mut blocks, facts, concepts, roles)
}

fn successors(alloc: Global, count: u32, role: u32, number: u32) -> Result<Concept, NoMemory> {
    let filler = Box::new(alloc, class(number))?;
    Ok(Concept {
        node: Node::Min(count, role, filler),
    })
}

fn holds(model: &Interp, concept: &Concept, element: u32) -> bool {
    element < model.size() && model.holds(concept, element)
}

fn has(alloc: Global, model: &Interp, asked: Successors) -> Result<bool, NoMemory> {
    let (element, count, role, number) = asked;
    let successors = successors(alloc, count, role, number)?;
    Ok(holds(model, &successors, element))
}

fn are_members(model: &Interp, members: &[(u32, u32, bool)]) -> bool {
    let mut are_so = true;
    for (element, number, wanted) in members {
        are_so &= holds(model, &class(*number), *element) == *wanted;
    }
    are_so
}

// Two nodes that one node blocks are two successors; without them the query would not be refuted.
fn meets_axiom(alloc: Global, model: &Interp) -> Result<bool, NoMemory> {
    let axiom = Axiom::SubClassOf(class(0), successors(alloc, 2, 0, 0)?);
    Ok(model.meets(&axiom))
}

fn refutes_query(model: &Interp) -> bool {
    let query = Query {
        sub: class(0),
        sup: class(1),
        on: On::Any,
    };
    model.refutes(&query) == Some(0)
}

fn is_model(alloc: Global, model: &Interp, case: &Case) -> Result<bool, NoMemory> {
    let (_, size, members, successors, refutes) = case;
    let mut is_so = model.size() == *size && are_members(model, members);
    for (asked, wanted) in *successors {
        is_so &= has(alloc, model, *asked)? == *wanted;
    }
    if *refutes {
        is_so &= meets_axiom(alloc, model)? && refutes_query(model);
    }
    Ok(is_so)
}

fn is_case(
    alloc: Global,
    concepts: &Concepts,
    roles: &RoleBox,
    case: &Case,
) -> Result<bool, NoMemory> {
    let model = made_model(alloc, case.0, concepts, roles)?;
    is_model(alloc, &model, case)
}

fn test_cases(
    rt: &impl Abort,
    alloc: Global,
    concepts: &Concepts,
    roles: &RoleBox,
) -> Result<(), NoMemory> {
    for (place, case) in CASES.iter().enumerate() {
        assert!(rt; is_case(alloc, concepts, roles, case)?, "case {place}");
    }
    Ok(())
}

fn test_trees(rt: &impl Abort, alloc: Global, roles: &RoleBox) -> Result<(), NoMemory> {
    let concepts = table(alloc, CLASSES)?;
    test_cases(rt, alloc, &concepts, roles)
}

fn test_by_roles(rt: &impl Abort, alloc: Global, roles: &RoleBox) -> Result<(), NoMemory> {
    test_structure(rt, alloc, roles)?;
    test_trees(rt, alloc, roles)
}

fn test_models(rt: &impl Abort, alloc: Global) -> Result<(), AddFault> {
    let roles = role_box(alloc, CHAIN, &[1, 2, 3])?;
    Ok(test_by_roles(rt, alloc, &roles)?)
}

#[test]
fn models_of_a_structure_and_of_trees(rt: HostRuntime) -> Result<(), Fail> {
    test_models(&rt, rt.alloc())?;
    Ok(())
}
