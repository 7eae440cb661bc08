//! The finite interpretation of a structure: elements with classes, edges of roles between them, and what the role
//! axioms make of these.
//!
//! A role has the edges by the roles below it, and for each transitive role below it the chains of one or more edges by
//! the roles below that one. So the role axioms are met, and no role has more than they ask for (as the models that
//! tableaux give: Horrocks, Sattler and Tobies, "Practical Reasoning for Expressive Description Logics", 1999).
//! Individuals are elements, as they are placed.
//!
//! Chains are found for one transitive role at a time, and only where an edge is below it, by a walk from each element
//! with an edge, which visits each element once.
// What an interpretation is made of, and its making.
ghost use Rattle.std.specs.Prelude.{◌≡◌, ◌<◌, ◌≤◌, ◌==◌, ◌&&◌, ◌^◌, OnOk, IfOk, All, length};
ghost use Rattle.finite_model.specs.ModelLists.{meaning};
ghost use Rattle.model_builder.specs.Structure.{is_member_of, IsInterpretation};
ghost use Rattle.model_builder.specs.Gains.{HasMembers};

use crate::NoMemory;
use crate::chains::put_chains;
use crate::links::put_edges;
use crate::places::put_places;
use finite_model::Interp;
use role_box::RoleBox;
use std::alloc::Global;

/// An element of a class.
#[derive(Clone, Copy, Debug, PartialEq, Eq)]
pub struct Member {
    /// The class.
    pub class: u32,
    /// The element, which is in it.
    pub element: u32,
}

/// An edge of a role from one element to another.
#[derive(Clone, Copy, Debug, PartialEq, Eq)]
pub struct Edge {
    /// The role.
    pub role: u32,
    /// The element where it begins.
    pub from: u32,
    /// The element where it ends.
    pub to: u32,
}

/// The interpretation of that many elements, at least one, in which a class has its members, and a role below
/// `role_count` the edges by the roles below it and the chains of the transitive roles below it. The elements of
/// members and edges are below `size`. Roles from `role_count` on are empty, and no transitive role among them has
/// chains. The first individuals are the elements in `places`, which are below `size`, and each other is the element 0.
///
/// # Errors
/// Out of memory.
pub fn interpretation(
    alloc: Global,
    size: u32,
    members: &[Member],
    edges: &[Edge],
    roles: &RoleBox,
    role_count: u32,
    places: &[u32],
) -> Result<Interp, NoMemory>
    requires some { 1 ≤ size }
    requires members { All (λ m. m.element < size) members.now }
    requires begins { All (λ e. e.from < size) edges.now }
    requires ends { All (λ e. e.to < size) edges.now }
    requires places { All (λ x. x < size) places.now }
    requires few { length places.now < 2 ^ 32 }
    ensures { IfOk result
        (λ k. IsInterpretation size role_count members.now roles.now edges.now places.now (meaning k)) }
{
    let mut model = Interp::new(alloc, size);
    put_members(&mut model, members)?;
    put_edges(&mut model, edges, roles, role_count)?;
    put_chains(alloc, &mut model, edges, roles, role_count)?;
    put_places(&mut model, places)?;
    Ok(model)
}

/// Puts the members into their classes.
fn put_members(model: &mut Interp, members: &[Member]) -> Result<(), NoMemory>
    requires { All (λ m. m.element < model.old.size) members.now }
    ensures { OnOk result (HasMembers model.old model.new (is_member_of members.now)) }
{
    for member in members {
        put_member(model, *member)?;
    }
    Ok(())
}

/// Puts one member into its class.
fn put_member(model: &mut Interp, member: Member) -> Result<(), NoMemory>
    requires { member.element < model.old.size }
    ensures { OnOk result (HasMembers model.old model.new (λ a x. member.class == a && member.element == x)) }
{
    model.put_class(member.class, member.element)?;
    Ok(())
}
