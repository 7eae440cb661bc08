// The table of the roles above each role: the transitive closure of the single steps, by Warshall's algorithm.
ghost use Rattle.std.specs.Prelude.{◌≡◌, ℕ, ◌<◌, ◌≤◌, ◌==◌, ◌&&◌, ◌||◌, false, IfOk, length};
ghost use Rattle.role_box.specs.Rows.{has, linked, HasGained, HasPaths};
ghost use Rattle.role_box.specs.Steps.{is_among, leads_by, leads, is_transitive_by, is_transitive};
ghost use Rattle.role_box.specs.Paths.{has_path, same_or_leads, limit_of, axiom_limit, role_limit};
ghost use Rattle.role_box.specs.Closure.{any_below};

use crate::{NoMemory, RoleAxiom};
use lane_sieve::{has_number, put_number, unite};
use std::alloc::Global;

/// A set of roles below 1,024, as words.
pub(crate) type RoleSet = [u64; 16];

/// A row for each role, with the roles to which paths of the axioms lead.
pub(crate) fn closed_rows(
    alloc: Global,
    count: u32,
    axioms: &[RoleAxiom],
) -> Result<Vec<RoleSet>, NoMemory>
    requires small { count ≤ 1000 }
    requires listed { role_limit axioms.now ≤ count }
    ensures count { IfOk result (λ rows. length rows.items ≡ count) }
    ensures paths { IfOk result (λ rows. HasPaths rows.items count (same_or_leads axioms.now)) }
{
    let mut rows = own_rows(alloc, count)?;
    fill(&mut rows, axioms);
    Ok(rows)
}

/// From rows with each role alone to those of the paths.
fn fill(rows: &mut [RoleSet], axioms: &[RoleAxiom])
    requires small { length rows.old ≤ 1000 }
    requires listed { role_limit axioms.now ≤ length rows.old }
    requires own { (r s : ℕ) → r < length rows.old → linked rows.old r s ≡ (r == s) }
    ensures { HasPaths rows.new (length rows.old) (same_or_leads axioms.now) }
{
    add_all_steps(rows, axioms);
    close(rows);
}

/// Each role alone in its row.
fn own_rows(alloc: Global, count: u32) -> Result<Vec<RoleSet>, NoMemory>
    requires { count ≤ 1000 }
    ensures count { IfOk result (λ rows. length rows.items ≡ count) }
    ensures own { IfOk result (λ rows. (r s : ℕ) → r < count → linked rows.items r s ≡ (r == s)) }
{
    let mut rows = Vec::new(alloc);
    for role in 0..count {
        let mut row = no_roles();
        put_role(&mut row, role);
        rows.push(row)?;
    }
    Ok(rows)
}

/// Puts in the single steps of all axioms.
fn add_all_steps(rows: &mut [RoleSet], axioms: &[RoleAxiom])
    requires small { length rows.old ≤ 1000 }
    requires listed { role_limit axioms.now ≤ length rows.old }
    ensures { HasGained rows.old rows.new (leads axioms.now) }
{
    for role_axiom in axioms {
        add_steps(rows, role_axiom);
    }
}

/// Puts in the single steps of one axiom.
fn add_steps(rows: &mut [RoleSet], role_axiom: &RoleAxiom)
    requires small { length rows.old ≤ 1000 }
    requires listed { axiom_limit role_axiom.now ≤ length rows.old }
    ensures { HasGained rows.old rows.new (leads_by role_axiom.now) }
{
    match role_axiom {
        RoleAxiom::Inclusion(lower, upper) => put_role(&mut rows[*lower as usize], *upper),
        RoleAxiom::Equivalence(roles) => add_equivalence(rows, roles.items()),
        RoleAxiom::Transitivity(_) => {}
    }
}

/// Puts each of the roles into the row of each.
fn add_equivalence(rows: &mut [RoleSet], roles: &[u32])
    requires small { length rows.old ≤ 1000 }
    requires listed { limit_of roles.now ≤ length rows.old }
    ensures { HasGained rows.old rows.new (λ r s. is_among roles.now r && is_among roles.now s) }
{
    let all = set_of(roles);
    for role in roles {
        unite(&mut rows[*role as usize], &all);
    }
}

/// The set of these roles.
fn set_of(roles: &[u32]) -> RoleSet
    requires { limit_of roles.now ≤ 1024 }
    ensures { (r : ℕ) → has result r ≡ is_among roles.now r }
{
    let mut all = no_roles();
    for role in roles {
        put_role(&mut all, *role);
    }
    all
}

/// Joins single steps to paths.
fn close(rows: &mut [RoleSet])
    requires { length rows.old ≤ 1000 }
    ensures { (r s : ℕ) → linked rows.new r s ≡ has_path (linked rows.old) (length rows.old) r s }
{
    for middle in 0..rows.len() {
        pass_through(rows, middle);
    }
}

/// Puts the roles of the middle one's row into each row that has the middle role.
fn pass_through(rows: &mut [RoleSet], middle: usize)
    requires small { length rows.old ≤ 1000 }
    requires listed { middle < length rows.old }
    ensures { HasGained rows.old rows.new (λ r s. linked rows.old r middle && linked rows.old middle s) }
{
    let through = rows[middle];
    for place in 0..rows.len() {
        let passes = has_number(&rows[place], middle as u32);
        unite_where(passes, &mut rows[place], &through);
    }
}

/// The roles that an axiom makes transitive.
pub(crate) fn transitive_roles(axioms: &[RoleAxiom]) -> RoleSet
    requires { role_limit axioms.now ≤ 1024 }
    ensures { (t : ℕ) → has result t ≡ is_transitive axioms.now t }
{
    let mut transitive = no_roles();
    for role_axiom in axioms {
        add_transitive(&mut transitive, role_axiom);
    }
    transitive
}

/// Puts in the role that the axiom makes transitive, if it does.
fn add_transitive(transitive: &mut RoleSet, role_axiom: &RoleAxiom)
    requires { axiom_limit role_axiom.now ≤ 1024 }
    ensures { (t : ℕ) → has transitive.new t ≡ (has transitive.old t || is_transitive_by role_axiom.now t) }
{
    if let RoleAxiom::Transitivity(role) = role_axiom {
        put_role(transitive, *role);
    }
}

/// The roles in the rows of these roles.
pub(crate) fn joined_rows(rows: &[RoleSet], roles: &RoleSet) -> RoleSet
    requires { length rows.now ≤ 1000 }
    ensures { (s : ℕ) → has result s ≡ any_below (length rows.now) (λ t. has roles.now t && linked rows.now t s) }
{
    let mut joined = no_roles();
    for role in 0..rows.len() {
        unite_where(has_number(roles, role as u32), &mut joined, &rows[role]);
    }
    joined
}

/// The set without a role.
fn no_roles() -> RoleSet
    ensures { (r : ℕ) → has result r ≡ false }
{
    [0; 16]
}

/// Puts a role in.
#[tactic(auto, using(crate::proofs::Sets::has_put))]
fn put_role(roles: &mut RoleSet, role: u32)
    requires { role < 1024 }
    ensures { (r : ℕ) → has roles.new r ≡ (has roles.old r || role == r) }
{
    put_number(roles, role);
}

/// Puts the roles of another set in where the condition holds.
#[tactic(auto, using(crate::proofs::Sets::has_united))]
fn unite_where(condition: bool, roles: &mut RoleSet, others: &RoleSet)
    ensures { (r : ℕ) → has roles.new r ≡ (has roles.old r || (condition && has others.now r)) }
{
    if condition {
        unite(roles, others);
    }
}
