// The chains of transitive roles.
ghost use Rattle.std.specs.Prelude.{◌≡◌, ◌<◌, ◌&&◌, OnOk, All, length};
ghost use Rattle.std.specs.List.{list_any};
ghost use Rattle.role_box.specs.Steps.{is_transitive};
ghost use Rattle.role_box.specs.Paths.{is_below};
ghost use Rattle.model_builder.specs.Structure.{is_above_where, has_any_chain, has_chain_by, has_chain_of};
ghost use Rattle.model_builder.specs.Walks.{reaches, reaches_from, is_seen_from, IsInside};
ghost use Rattle.model_builder.specs.Gains.{HasLinks};

use crate::links::put_above;
use crate::successors::successors_by;
use crate::walk::reached_from;
use crate::{Edge, NoMemory};
use finite_model::Interp;
use role_box::RoleBox;
use shq_terms::NumberList;
use std::alloc::Global;

/// Puts the chains of the transitive roles below `role_count` into the roles above these.
pub(crate) fn put_chains(
    alloc: Global,
    model: &mut Interp,
    edges: &[Edge],
    roles: &RoleBox,
    role_count: u32,
) -> Result<(), NoMemory>
    requires begins { All (λ e. e.from < model.old.size) edges.now }
    requires ends { All (λ e. e.to < model.old.size) edges.now }
    ensures { OnOk result (HasLinks model.old model.new (has_any_chain model.old.size role_count roles.now edges.now)) }
{
    for role in 0..role_count {
        put_chains_by(alloc, model, edges, roles, role_count, role)?;
    }
    Ok(())
}

/// Puts the chains of a role into the roles above it, if it is transitive.
fn put_chains_by(
    alloc: Global,
    model: &mut Interp,
    edges: &[Edge],
    roles: &RoleBox,
    role_count: u32,
    role: u32,
) -> Result<(), NoMemory>
    requires begins { All (λ e. e.from < model.old.size) edges.now }
    requires ends { All (λ e. e.to < model.old.size) edges.now }
    ensures { OnOk result (HasLinks model.old model.new
        (has_chain_by model.old.size role_count roles.now edges.now role)) }
{
    if !has_chains(edges, roles, role) {
        return Ok(());
    }
    let next = successors_by(alloc, edges, roles, role, model.size())?;
    put_reached(alloc, model, &next, roles, role_count, role)?;
    Ok(())
}

/// Whether the role is transitive, and an edge is by a role below it.
fn has_chains(edges: &[Edge], roles: &RoleBox, role: u32) -> bool
    ensures { result ≡ (is_transitive roles.now role && list_any (λ e. is_below roles.now e.role role) edges.now) }
{
    roles.is_transitive(role) && has_edge_below(edges, roles, role)
}

/// Whether an edge is by a role below the given one.
fn has_edge_below(edges: &[Edge], roles: &RoleBox, role: u32) -> bool
    ensures { result ≡ list_any (λ e. is_below roles.now e.role role) edges.now }
{
    edges.iter().any(|edge| roles.below(edge.role, role))
}

/// Puts what the edges lead to from each element into the roles above the given one.
fn put_reached(
    alloc: Global,
    model: &mut Interp,
    next: &[NumberList],
    roles: &RoleBox,
    role_count: u32,
    role: u32,
) -> Result<(), NoMemory>
    requires long { length next.now ≡ model.old.size }
    requires inside { IsInside next.now }
    ensures { OnOk result (HasLinks model.old model.new (has_chain_of role_count roles.now role (reaches next.now))) }
{
    for from in 0..model.size() {
        put_reached_from(alloc, model, next, roles, role_count, role, from)?;
    }
    Ok(())
}

/// Puts what the edges lead to from one element into the roles above the given one.
fn put_reached_from(
    alloc: Global,
    model: &mut Interp,
    next: &[NumberList],
    roles: &RoleBox,
    role_count: u32,
    role: u32,
    from: u32,
) -> Result<(), NoMemory>
    requires begin { from < model.old.size }
    requires long { length next.now ≡ model.old.size }
    requires inside { IsInside next.now }
    ensures { OnOk result (HasLinks model.old model.new
        (has_chain_of role_count roles.now role (reaches_from from next.now))) }
{
    if next[from as usize].items().is_empty() {
        return Ok(());
    }
    let reached = reached_from(alloc, next, from)?;
    put_marked(model, &reached, roles, role_count, role, from)?;
    Ok(())
}

/// Puts the pairs of an element with those that are marked into the roles above the given one.
fn put_marked(
    model: &mut Interp,
    marked: &[bool],
    roles: &RoleBox,
    role_count: u32,
    role: u32,
    from: u32,
) -> Result<(), NoMemory>
    requires begin { from < model.old.size }
    requires long { length marked.now ≡ model.old.size }
    ensures { OnOk result (HasLinks model.old model.new
        (has_chain_of role_count roles.now role (is_seen_from from marked.now))) }
{
    for to in 0..model.size() {
        put_where(
            model,
            marked[to as usize],
            roles,
            role_count,
            Edge { role, from, to },
        )?;
    }
    Ok(())
}

/// Puts an edge into the roles above its own where the condition holds.
fn put_where(
    model: &mut Interp,
    condition: bool,
    roles: &RoleBox,
    role_count: u32,
    edge: Edge,
) -> Result<(), NoMemory>
    requires begin { edge.from < model.old.size }
    requires end { edge.to < model.old.size }
    ensures { OnOk result (HasLinks model.old model.new (is_above_where condition role_count roles.now edge)) }
{
    if !condition {
        return Ok(());
    }
    put_above(model, roles, role_count, edge)?;
    Ok(())
}
