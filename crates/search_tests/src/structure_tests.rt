// A structure of four elements, worked out by hand.

use crate::small_axioms::successor_in;
use finite_model::Interp;
use model_builder::{Edge, Member, interpretation};
use role_box::RoleBox;
use shq_terms::NoMemory;
use std::alloc::Global;
use std::process::Abort;

/// Each element is in the class of its number.
const MEMBERS: &[Member] = &[
    Member {
        class: 0,
        element: 0,
    },
    Member {
        class: 1,
        element: 1,
    },
    Member {
        class: 2,
        element: 2,
    },
    Member {
        class: 3,
        element: 3,
    },
];

/// Elements 1 and 2 lead to each other.
const EDGES: &[Edge] = &[
    Edge {
        role: 0,
        from: 0,
        to: 1,
    },
    Edge {
        role: 0,
        from: 1,
        to: 2,
    },
    Edge {
        role: 0,
        from: 2,
        to: 1,
    },
    Edge {
        role: 3,
        from: 1,
        to: 2,
    },
    Edge {
        role: 3,
        from: 2,
        to: 3,
    },
];

/// The elements that individuals 0 to 2 are.
const PLACES: &[u32] = &[2, 0, 3];

/// An individual, and the element that it is: one that has no place is element 0.
const INDIVIDUALS: &[(u32, u32)] = &[(0, 2), (1, 0), (2, 3), (3, 0)];

/// A role, two elements, and whether the role leads from the one to the other.
const LEADS: &[(u32, u32, u32, bool)] = &[
    (0, 0, 1, true),
    (0, 0, 2, false),
    (1, 0, 2, true),
    (1, 1, 1, true),
    (1, 0, 0, false),
    (2, 2, 2, true),
    (3, 1, 2, true),
    (3, 1, 3, false),
];

fn leads(alloc: Global, model: &Interp, role: u32, x: u32, y: u32) -> Result<bool, NoMemory> {
    let some = successor_in(alloc, role, y)?;
    Ok(x < model.size() && model.holds(&some, x))
}

fn has_edges(alloc: Global, model: &Interp) -> Result<bool, NoMemory> {
    let mut are_so = true;
    for (role, x, y, wanted) in LEADS {
        are_so &= leads(alloc, model, *role, *x, *y)? == *wanted;
    }
    Ok(are_so)
}

fn has_places(model: &Interp) -> bool {
    let mut are_so = true;
    for (individual, wanted) in INDIVIDUALS {
        are_so &= model.individual(*individual) == *wanted;
    }
    are_so
}

fn check_structure(rt: &impl Abort, alloc: Global, model: &Interp) -> Result<(), NoMemory> {
    assert!(rt; has_edges(alloc, model)?, "edges and chains");
    assert!(rt; has_places(model), "individuals");
    Ok(())
}

/// Of four elements, by the box of four roles, of which 0 is below 1, which is transitive, and that below 2.
pub(crate) fn test_structure(
    rt: &impl Abort,
    alloc: Global,
    roles: &RoleBox,
) -> Result<(), NoMemory> {
    let model = interpretation(alloc, 4, MEMBERS, EDGES, roles, 4, PLACES)?;
    check_structure(rt, alloc, &model)
}
