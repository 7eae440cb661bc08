// Tables that were closed by hand.

use crate::small_tables::{Says, role_box, table};
use absorption::close;
use role_box::RoleBox;
use shq_nnf::{Concepts, Shape};
use shq_terms::{AddFault, NoMemory};
use std::alloc::Global;
use std::process::Abort;
use std::test::Fail;

/// Role 0 is transitive, and below role 1.
const ROLES: &[(Says, u32)] = &[(Says::Transitive(0), 1), (Says::Below(0, 1), 1)];

/// Shapes, and one that the closed table has, with how many numbers there are then.
type Case = (&'static [Shape<'static>], Shape<'static>, u32);

const CASES: &[Case] = &[
    (&[Shape::Name(0), Shape::AllOf(1, 1)], Shape::AllOf(0, 1), 4),
    (&[Shape::Name(0), Shape::AllOf(0, 1)], Shape::AllOf(0, 1), 3),
    (&[Shape::Name(0), Shape::Max(2, 0, 1)], Shape::NotName(0), 4),
    (
        &[Shape::Name(0), Shape::SomeOf(1, 1)],
        Shape::SomeOf(1, 1),
        3,
    ),
    (
        &[Shape::Name(0), Shape::AllOf(1, 1), Shape::Max(1, 0, 2)],
        Shape::SomeOf(1, 5),
        7,
    ),
];

fn has_shape(concepts: &Concepts, wanted: Shape<'_>) -> bool {
    let mut found = false;
    for number in 0..concepts.len() {
        found |= concepts.shape(number) == wanted;
    }
    found
}

fn is_closed_so(
    alloc: Global,
    concepts: &mut Concepts,
    roles: &RoleBox,
    case: &Case,
) -> Result<bool, NoMemory> {
    close(alloc, concepts, roles)?;
    Ok(has_shape(concepts, case.1) && concepts.len() == case.2)
}

fn is_case(alloc: Global, roles: &RoleBox, case: &Case) -> Result<bool, NoMemory> {
    let mut concepts = table(alloc, case.0)?;
    is_closed_so(alloc, &mut concepts, roles, case)
}

fn are_closed(rt: &impl Abort, alloc: Global, roles: &RoleBox) -> Result<(), NoMemory> {
    for (place, case) in CASES.iter().enumerate() {
        assert!(rt; is_case(alloc, roles, case)?, "case {place}");
    }
    Ok(())
}

fn test_closing(rt: &impl Abort, alloc: Global) -> Result<(), AddFault> {
    let roles = role_box(alloc, ROLES, &[1, 2])?;
    Ok(are_closed(rt, alloc, &roles)?)
}

#[test]
fn closed_tables(rt: HostRuntime) -> Result<(), Fail> {
    test_closing(&rt, rt.alloc())?;
    Ok(())
}
