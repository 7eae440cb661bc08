// The ends of edges by one role, for each element.
ghost use Rattle.std.specs.Prelude.{◌≡◌, ℕ, ◌<◌, ◌==◌, ◌&&◌, ◌||◌, false, OnOk, IfOk, All, length};
ghost use Rattle.model_builder.specs.Structure.{leads};
ghost use Rattle.model_builder.specs.Walks.{is_end, HasEnds};

use crate::{Edge, NoMemory};
use role_box::RoleBox;
use shq_terms::NumberList;
use std::alloc::Global;

/// For each element the ends of the edges that begin there, by roles below the given one.
pub(crate) fn successors_by(
    alloc: Global,
    edges: &[Edge],
    roles: &RoleBox,
    role: u32,
    size: u32,
) -> Result<Vec<NumberList>, NoMemory>
    requires { All (λ e. e.from < size) edges.now }
    ensures long { IfOk result (λ next. length next.items ≡ size) }
    ensures ends { IfOk result (λ next. (x y : ℕ) → is_end next.items x y ≡ leads roles.now edges.now role x y) }
{
    let mut next = no_ends(alloc, size)?;
    put_ends(&mut next, edges, roles, role)?;
    Ok(next)
}

/// No ends for each element.
fn no_ends(alloc: Global, size: u32) -> Result<Vec<NumberList>, NoMemory>
    ensures long { IfOk result (λ next. length next.items ≡ size) }
    ensures none { IfOk result (λ next. (x y : ℕ) → is_end next.items x y ≡ false) }
{
    let mut next = Vec::new(alloc);
    for _element in 0..size {
        next.push(NumberList::new(alloc))?;
    }
    Ok(next)
}

/// Puts in the ends of all edges below the role.
fn put_ends(
    next: &mut [NumberList],
    edges: &[Edge],
    roles: &RoleBox,
    role: u32,
) -> Result<(), NoMemory>
    requires { All (λ e. e.from < length next.old) edges.now }
    ensures long { OnOk result (length next.new ≡ length next.old) }
    ensures ends { OnOk result (HasEnds next.old next.new (leads roles.now edges.now role)) }
{
    for edge in edges {
        put_where(roles.below(edge.role, role), next, edge.from, edge.to)?;
    }
    Ok(())
}

/// Puts in an end where the condition holds.
fn put_where(condition: bool, next: &mut [NumberList], from: u32, to: u32) -> Result<(), NoMemory>
    requires { from < length next.old }
    ensures long { OnOk result (length next.new ≡ length next.old) }
    ensures ends { OnOk result ((x y : ℕ) → is_end next.new x y
        ≡ (is_end next.old x y || (condition && from == x && to == y))) }
{
    if !condition {
        return Ok(());
    }
    next[from as usize].push(to)
}
