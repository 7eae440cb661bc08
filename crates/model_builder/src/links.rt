// The pairs that an edge gives to the roles above its own.
ghost use Rattle.std.specs.Prelude.{◌<◌, OnOk, All};
ghost use Rattle.model_builder.specs.Structure.{is_put_where, is_pair_above, leads_listed};
ghost use Rattle.model_builder.specs.Gains.{HasLinks};

use crate::{Edge, NoMemory};
use finite_model::Interp;
use role_box::RoleBox;

/// Puts each edge into the roles below `role_count` that are above its own.
pub(crate) fn put_edges(
    model: &mut Interp,
    edges: &[Edge],
    roles: &RoleBox,
    role_count: u32,
) -> Result<(), NoMemory>
    requires begins { All (λ e. e.from < model.old.size) edges.now }
    requires ends { All (λ e. e.to < model.old.size) edges.now }
    ensures { OnOk result (HasLinks model.old model.new (leads_listed role_count roles.now edges.now)) }
{
    for edge in edges {
        put_above(model, roles, role_count, *edge)?;
    }
    Ok(())
}

/// Puts an edge into the roles below `role_count` that are above its own.
pub(crate) fn put_above(
    model: &mut Interp,
    roles: &RoleBox,
    role_count: u32,
    edge: Edge,
) -> Result<(), NoMemory>
    requires begin { edge.from < model.old.size }
    requires end { edge.to < model.old.size }
    ensures { OnOk result (HasLinks model.old model.new (is_pair_above role_count roles.now edge)) }
{
    for upper in 0..role_count {
        put_where(model, roles.below(edge.role, upper), upper, edge)?;
    }
    Ok(())
}

/// Puts an edge into a role where the condition holds.
fn put_where(model: &mut Interp, condition: bool, role: u32, edge: Edge) -> Result<(), NoMemory>
    requires begin { edge.from < model.old.size }
    requires end { edge.to < model.old.size }
    ensures { OnOk result (HasLinks model.old model.new (is_put_where condition role edge)) }
{
    if !condition {
        return Ok(());
    }
    model.put_pair(role, edge.from, edge.to)?;
    Ok(())
}
