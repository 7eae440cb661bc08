// Roles and counted roles of small ontologies.

use crate::small_tables::{Says, add, add_all, made_box};
use role_box::{RoleBox, class_is_simple, first_not_simple, query_is_simple};
use shq_terms::{AddFault, Concept, NoMemory, Node, On, Ontology, Query};
use std::alloc::Global;
use std::test::Fail;

/// Axioms with their lines. The axioms 1 and 2 lead from role 0 by 1 to 2, 4 and 5 are a cycle, 5 makes 2 and 3
/// equivalent, and 6 and 7 make 1 and 3 transitive.
const EIGHT: &[(Says, u32)] = &[
    (Says::Below(0, 1), 1),
    (Says::Below(1, 2), 1),
    (Says::Below(4, 5), 1),
    (Says::Below(5, 4), 1),
    (Says::Same(2, 3), 1),
    (Says::Transitive(1), 2),
    (Says::Transitive(3), 2),
];

/// Three roles, each below the next, of which each is functional.
const THREE: &[(Says, u32)] = &[
    (Says::Below(0, 1), 1),
    (Says::Below(1, 2), 1),
    (Says::Functional(0), 3),
    (Says::Functional(2), 4),
    (Says::Functional(1), 5),
];

/// Two roles, and whether the first is below the second by all axioms, and by some.
const CHAINS: &[(u32, u32, bool, bool)] = &[
    (0, 0, true, true),
    (0, 3, true, false),
    (3, 2, true, true),
    (3, 1, false, false),
    (1, 0, false, false),
    (5, 4, true, false),
    (7, 7, true, true),
    (9, 9, true, true),
    (9, 0, false, false),
];

/// Roles, and whether they are simple, and transitive.
const KINDS: &[(u32, bool, bool)] = &[
    (0, true, false),
    (1, false, true),
    (2, false, false),
    (3, false, true),
    (4, true, false),
    (9, true, false),
];

// Whether these are the chains, by all axioms or by some.
fn are_chains(roles: &RoleBox, by_all_axioms: bool) -> bool {
    let mut are_so = true;
    for (lower, upper, by_all, by_some) in CHAINS {
        let wanted = if by_all_axioms { *by_all } else { *by_some };
        are_so &= roles.below(*lower, *upper) == wanted;
    }
    are_so
}

fn are_kinds(all: &RoleBox) -> bool {
    let mut are_so = all.role_bound() == 8;
    for (role, simple, transitive) in KINDS {
        are_so &= all.simple(*role) == *simple;
        are_so &= all.is_transitive(*role) == *transitive;
    }
    let mut between = all.transitive_between(0, 2);
    for wanted in [Some(1), Some(3), None] {
        are_so &= between.next() == wanted;
    }
    are_so
}

fn is_box_of_all(alloc: Global, ontology: &Ontology) -> Result<bool, NoMemory> {
    let all = made_box(alloc, ontology, &[1, 2, 3, 4, 5, 6, 7])?;
    let are_chains = are_chains(&all, true);
    let are_kinds = are_kinds(&all);
    Ok(are_chains && are_kinds)
}

fn is_box_of_some(alloc: Global, ontology: &Ontology) -> Result<bool, NoMemory> {
    let some = made_box(alloc, ontology, &[1, 3, 5])?;
    Ok(are_chains(&some, false))
}

fn answers_of_boxes(alloc: Global, ontology: &mut Ontology) -> Result<bool, AddFault> {
    add_all(
        alloc,
        ontology,
        &["a", "b", "c", "d", "e", "f", "g", "h"],
        EIGHT,
    )?;
    Ok(is_box_of_all(alloc, ontology)? && is_box_of_some(alloc, ontology)?)
}

fn boxed(alloc: Global, node: Node) -> Result<Box<Concept>, NoMemory> {
    Ok(Box::new(alloc, Concept { node })?)
}

// Some successor has at most none in the role.
fn nested(alloc: Global, role: u32) -> Result<Concept, NoMemory> {
    let inner = Node::Max(0, role, boxed(alloc, Node::Top)?);
    let node = Node::SomeOf(0, boxed(alloc, inner)?);
    Ok(Concept { node })
}

fn query(alloc: Global, role: u32) -> Result<Query, NoMemory> {
    let sub = nested(alloc, 0)?;
    let sup = nested(alloc, role)?;
    Ok(Query {
        sub,
        sup,
        on: On::Any,
    })
}

// Whether both the right side of a query and the whole query are simple, or neither.
fn is_simple_query(
    alloc: Global,
    ontology: &Ontology,
    query: &Query,
    wanted: bool,
) -> Result<bool, NoMemory> {
    let by_class = class_is_simple(alloc, ontology, &query.sup)?;
    let by_query = query_is_simple(alloc, ontology, query)?;
    Ok(by_class == wanted && by_query == wanted)
}

fn is_simple(
    alloc: Global,
    ontology: &Ontology,
    role: u32,
    wanted: bool,
) -> Result<bool, NoMemory> {
    let query = query(alloc, role)?;
    is_simple_query(alloc, ontology, &query, wanted)
}

// Whether the roles are simple as wanted, and which axiom is the first that counts one that is not.
fn are_simple(
    alloc: Global,
    ontology: &Ontology,
    roles: &[(u32, bool)],
    first: Option<u32>,
) -> Result<bool, NoMemory> {
    let mut are_so = first_not_simple(alloc, ontology)? == first;
    for (role, wanted) in roles {
        are_so &= is_simple(alloc, ontology, *role, *wanted)?;
    }
    Ok(are_so)
}

fn counted_roles(alloc: Global, ontology: &mut Ontology) -> Result<bool, AddFault> {
    add_all(alloc, ontology, &["a", "b", "c"], THREE)?;
    let before = are_simple(alloc, ontology, &[(2, true)], None)?;
    add(alloc, ontology, Says::Transitive(1), 2)?;
    let roles = &[(0, true), (1, false), (2, false)];
    Ok(before && are_simple(alloc, ontology, roles, Some(4))?)
}

fn is_so(alloc: Global, is_counted: bool) -> Result<bool, AddFault> {
    let mut ontology = Ontology::new(alloc);
    if is_counted {
        counted_roles(alloc, &mut ontology)
    } else {
        answers_of_boxes(alloc, &mut ontology)
    }
}

#[test]
fn roles_of_small_ontologies(rt: HostRuntime) -> Result<(), Fail> {
    assert!(rt; is_so(rt.alloc(), false)?, "boxes");
    assert!(rt; is_so(rt.alloc(), true)?, "counted roles");
    Ok(())
}
