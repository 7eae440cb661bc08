//! A table of concepts is closed before a search over it begins, so that it stays as it is while the search runs.
//!
//! A search needs numbers that no concept of its table has as a part. Where a node has 'at most n' over a filler, each
//! successor is put into the filler or into its complement. Where a node has 'all' over a role, its successors by a
//! transitive role below that one get the 'all' over the transitive role (I. Horrocks, U. Sattler and S. Tobies,
//! *Practical Reasoning for Expressive Description Logics*, Logic for Programming and Automated Reasoning, 1999).
//! [`close`] puts these into a table, and what they ask for in turn.
// The numbers that a search needs besides those of its table.
ghost use Rattle.std.specs.Prelude.{◌≡◌, ◌<◌, true, IfOk, OnOk, length};
ghost use Rattle.calculus_specs.specs.Shape.{IsTable};
ghost use Rattle.row_cache.specs.Steps.{is_transitive};
ghost use Rattle.row_cache.specs.Paths.{is_below};
ghost use Rattle.row_cache.specs.Shapes.{form_of};
ghost use Rattle.row_cache.specs.Numbers.{Extends};
ghost use Rattle.absorption.specs.Closed.{IsClosed};
ghost use Rattle.absorption.specs.Needed.{need_of_shape, HasAll, HasNeeded, HasTransitiveRoles, AreCarried};

use crate::NoMemory;
use row_cache::{Concepts, RoleBox, Shape};
use std::alloc::Global;

/// Puts what a search needs by these roles besides the concepts of the table: the complement of the filler of each 'at
/// most', and each 'all' that a transitive role hands on.
///
/// # Errors
///
/// Out of memory, or out of numbers. The concepts keep their numbers, and there may be more of them.
pub fn close(alloc: Global, concepts: &mut Concepts, roles: &RoleBox) -> Result<(), NoMemory>
    ensures closed { OnOk result (IsClosed (is_below roles.now) (is_transitive roles.now) concepts.new) }
    ensures kept { Extends concepts.old concepts.new }
    ensures table { IsTable concepts.new }
{
    let _count = concepts.len();
    let transitive = transitive_roles(alloc, roles)?;
    let mut next = 0;
    while next < concepts.len() {
        let outcome = put_needed(concepts, roles, &transitive, next);
        let _count = concepts.len();
        outcome?;
        next += 1;
    }
    Ok(())
}

// The transitive roles that are below other roles.
fn transitive_roles(alloc: Global, roles: &RoleBox) -> Result<Vec<u32>, NoMemory>
    ensures { IfOk result (λ found. HasTransitiveRoles roles.now found.items) }
{
    let mut found = Vec::new(alloc);
    for role in 0..roles.role_bound() {
        if roles.is_transitive(role) {
            found.push(role)?;
        }
    }
    Ok(found)
}

// What a search needs besides the parts of a concept.
#[derive(Clone, Copy, Debug, PartialEq, Eq)]
enum Need {
    // Nothing.
    Nothing,
    // The complement of this concept.
    Complement(u32),
    // That over this role each successor is in this concept, and the same over the transitive roles below it.
    Carries(u32, u32),
}

fn need_of(shape: Shape<'_>) -> Need
    ensures { result ≡ need_of_shape (form_of shape.entry) }
{
    match shape {
        Shape::AllOf(role, filler) => Need::Carries(role, filler),
        Shape::Max(_, _, filler) => Need::Complement(filler),
        _ => Need::Nothing,
    }
}

// Puts what is needed where a node has the concept.
fn put_needed(
    concepts: &mut Concepts,
    roles: &RoleBox,
    transitive: &[u32],
    number: u32,
) -> Result<(), NoMemory>
    requires listed { number < length concepts.old }
    requires transitive { HasTransitiveRoles roles.now transitive.now }
    ensures needed { OnOk result (HasNeeded (is_below roles.now) (is_transitive roles.now) concepts.new number) }
    ensures kept { Extends concepts.old concepts.new }
{
    let _count = concepts.len();
    match need_of(concepts.shape(number)) {
        Need::Nothing => Ok(()),
        Need::Complement(filler) => {
            concepts.negated(filler)?;
            Ok(())
        }
        Need::Carries(role, filler) => put_carried(concepts, roles, transitive, role, filler),
    }
}

// Puts the 'all' over each of the transitive roles that is below the role.
fn put_carried(
    concepts: &mut Concepts,
    roles: &RoleBox,
    transitive: &[u32],
    role: u32,
    filler: u32,
) -> Result<(), NoMemory>
    requires { filler < length concepts.old }
    ensures carried { OnOk result (AreCarried (is_below roles.now) concepts.new transitive.now role filler) }
    ensures kept { Extends concepts.old concepts.new }
{
    let _count = concepts.len();
    for lower in transitive {
        put_if_below(concepts, roles, *lower, role, filler)?;
    }
    Ok(())
}

fn put_if_below(
    concepts: &mut Concepts,
    roles: &RoleBox,
    lower: u32,
    role: u32,
    filler: u32,
) -> Result<(), NoMemory>
    requires { filler < length concepts.old }
    ensures carried { OnOk result (is_below roles.now lower role ≡ true → HasAll concepts.new lower filler) }
    ensures kept { Extends concepts.old concepts.new }
{
    let _count = concepts.len();
    if roles.below(lower, role) {
        concepts.put(Shape::AllOf(lower, filler))?;
    }
    Ok(())
}
