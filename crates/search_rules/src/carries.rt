// What universal restrictions hand on along transitive roles.
ghost use Rattle.std.specs.Prelude.{◌≡◌, ℕ, ◌<◌, true, length, IfOk, MatchOption, All};
ghost use Rattle.calculus_specs.specs.Shape.{shape_of};
ghost use Rattle.calculus_specs.specs.Shape.Shape.{all_of};
ghost use Rattle.ontology_limits.specs.Steps.{is_transitive};
ghost use Rattle.ontology_limits.specs.Paths.{is_below};
ghost use Rattle.absorption.specs.Closed.{IsClosed};
ghost use Rattle.absorption.specs.Needed.{HasTransitiveRoles};
ghost use Rattle.ontology_limits.specs.Shapes.{form_of};
ghost use Rattle.step_finders.specs.Found.{IsCarry, AreCarriesOf, AreCarries};
ghost use Rattle.search_rules.specs.Lists.{list_at};
ghost use Rattle.search_rules.specs.Tables.{role_context, universal_of};

use crate::NoMemory;
use crate::item_list::{ItemList, push_some};
use ontology_limits::{Concepts, OwnedShape, RoleBox, Shape};
use std::alloc::Global;

// By the number of a universal restriction, the transitive roles below its role, each with its restriction of the same
// filler.
pub(crate) fn carry_lists(
    alloc: Global,
    concepts: &Concepts,
    roles: &RoleBox,
) -> Result<Vec<ItemList<(u32, u32)>>, NoMemory>
    requires { IsClosed (is_below roles.now) (is_transitive roles.now) concepts.now }
    ensures { IfOk result
        (λ lists. (c : ℕ)
        → AreCarriesOf (role_context concepts.now roles.now) (shape_of concepts.now c) (list_at lists.items c)) }
{
    let transitive = transitive_roles(alloc, roles)?;
    let mut lists = Vec::new(alloc);
    for number in 0..concepts.len() {
        lists.push(carry_list(alloc, concepts, roles, &transitive, number)?)?;
    }
    Ok(lists)
}

// The transitive roles that are below other roles.
fn transitive_roles(alloc: Global, roles: &RoleBox) -> Result<Vec<u32>, NoMemory>
    ensures every { IfOk result (λ found. HasTransitiveRoles roles.now found.items) }
    ensures each { IfOk result (λ found. All (λ t. is_transitive roles.now t ≡ true) found.items) }
{
    let mut found = Vec::new(alloc);
    for role in 0..roles.role_bound() {
        if roles.is_transitive(role) {
            found.push(role)?;
        }
    }
    Ok(found)
}

fn carry_list(
    alloc: Global,
    concepts: &Concepts,
    roles: &RoleBox,
    transitive: &[u32],
    number: u32,
) -> Result<ItemList<(u32, u32)>, NoMemory>
    requires listed { number < length concepts.now }
    requires closed { IsClosed (is_below roles.now) (is_transitive roles.now) concepts.now }
    requires every { HasTransitiveRoles roles.now transitive.now }
    requires each { All (λ t. is_transitive roles.now t ≡ true) transitive.now }
    ensures { IfOk result (AreCarriesOf (role_context concepts.now roles.now) (shape_of concepts.now number)) }
{
    match universal_of(concepts.shape(number)) {
        Some((role, filler)) => carried(alloc, concepts, roles, transitive, number, role, filler),
        None => Ok(ItemList::new(alloc)),
    }
}

// The role and the filler of a universal restriction.
fn universal_of(shape: Shape<'_>) -> Option<(u32, u32)>
    ensures { result ≡ universal_of (form_of shape.entry) }
{
    match shape {
        Shape::AllOf(role, filler) => Some((role, filler)),
        _ => None,
    }
}

// What the restriction of this number, role and filler hands on: itself, where its role is transitive, and the others.
fn carried(
    alloc: Global,
    concepts: &Concepts,
    roles: &RoleBox,
    transitive: &[u32],
    number: u32,
    role: u32,
    filler: u32,
) -> Result<ItemList<(u32, u32)>, NoMemory>
    requires shape { shape_of concepts.now number ≡ all_of role filler }
    requires closed { IsClosed (is_below roles.now) (is_transitive roles.now) concepts.now }
    requires every { HasTransitiveRoles roles.now transitive.now }
    requires each { All (λ t. is_transitive roles.now t ≡ true) transitive.now }
    ensures { IfOk result (AreCarries (role_context concepts.now roles.now) role filler) }
{
    let mut pairs = ItemList::new(alloc);
    let own = own_carry(roles, number, role);
    push_some(&mut pairs, own)?;
    for lower in transitive {
        let pair = carry_of(concepts, roles, *lower, number, role, filler);
        push_some(&mut pairs, pair)?;
    }
    Ok(pairs)
}

// The role and the number of a restriction, where the role is transitive.
fn own_carry(roles: &RoleBox, number: u32, role: u32) -> Option<(u32, u32)>
    ensures { MatchOption result (is_transitive roles.now role ≡ true → ¬ (is_below roles.now role role ≡ true))
        (λ p. (is_transitive roles.now role ≡ true) × (is_below roles.now role role ≡ true) × (p.0 ≡ role)
        × (p.1 ≡ number)) }
{
    if roles.is_transitive(role) && roles.below(role, role) {
        Some((role, number))
    } else {
        None
    }
}

// A transitive role with its restriction, where it is another one below the role of the restriction.
fn carry_of(
    concepts: &Concepts,
    roles: &RoleBox,
    lower: u32,
    number: u32,
    role: u32,
    filler: u32,
) -> Option<(u32, u32)>
    requires shape { shape_of concepts.now number ≡ all_of role filler }
    requires closed { IsClosed (is_below roles.now) (is_transitive roles.now) concepts.now }
    requires transitive { is_transitive roles.now lower ≡ true }
    ensures { MatchOption result (is_below roles.now lower role ≡ true → lower ≡ role)
        (λ p. IsCarry (role_context concepts.now roles.now) role filler p × (p.0 ≡ lower)) }
{
    if lower == role || !roles.below(lower, role) {
        return None;
    }
    Some((
        lower,
        restriction(concepts, roles, lower, number, role, filler),
    ))
}

// The number of the restriction over a transitive role below that of another restriction.
fn restriction(
    concepts: &Concepts,
    roles: &RoleBox,
    lower: u32,
    number: u32,
    role: u32,
    filler: u32,
) -> u32
    requires shape { shape_of concepts.now number ≡ all_of role filler }
    requires closed { IsClosed (is_below roles.now) (is_transitive roles.now) concepts.now }
    requires transitive { is_transitive roles.now lower ≡ true }
    requires role_below { is_below roles.now lower role ≡ true }
    ensures { shape_of concepts.now result ≡ all_of lower filler }
{
    match concepts.find(&OwnedShape::AllOf(lower, filler)) {
        Some(found) => found,
        None => unreachable!(),
    }
}
